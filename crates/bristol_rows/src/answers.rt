// What the calls of this crate answer.
/// The widths of a group line: how many, and their sum if it is at most a limit.
#[derive(Clone, Copy)]
pub struct Widths {
    pub count: usize,
    pub sum: Option<usize>,
}

/// The counts of the first line: gate rows and wires of the file.
#[derive(Clone, Copy)]
pub struct Counts {
    pub gates: usize,
    pub wires: usize,
}

/// The counts of the header: gate rows, wires of the file, and how many of the wires are inputs and outputs.
#[derive(Clone, Copy)]
pub struct Head {
    pub gates: usize,
    pub wires: usize,
    pub inputs: usize,
    pub outputs: usize,
}

/// The input wires of a row: the slots of the first two, whether one of all is not driven, whether one is no number.
/// The two faults stand as flags, since each is told in its turn: the first after the output wire's, the second before.
#[derive(Clone, Copy, Default)]
pub struct Slots {
    pub first: usize,
    pub second: usize,
    pub undriven: bool,
    pub invalid: bool,
}

/// How many input wires a row has, and what they hold.
#[derive(Clone, Copy)]
pub struct Inputs {
    pub count: usize,
    pub slots: Slots,
}
