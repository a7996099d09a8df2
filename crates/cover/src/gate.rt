// What the words of a `.names` line are kept in.
ghost use Rattle.std.specs.Prelude.{◌≤◌};
ghost use Rattle.std.specs.Option.{ForSome};
ghost use Rattle.circuit.specs.declared.records.TheConstants.{WIRES};

use circuit::records::WIRES;
use text::words::Word;

/// The words of a `.names` line: the output, which is the last, and the inputs before it. They are the first `count` of `inputs`;
/// `None` where there are more than a cell has wires.
#[derive(Clone, Copy)]
pub struct Gate {
    pub out: Word,
    pub inputs: [Word; WIRES],
    pub count: Option<usize>,
    ghost few: { ForSome count (λ n. n ≤ WIRES) },
}
