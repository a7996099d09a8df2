// The operations of BENCH.
ghost use Rattle.std.specs.Prelude.{◌≡◌};
ghost use Rattle.bench_gates.specs.Operations.{binary_of, operation_of, truth_table, associative};

use text::bytes::is_named;

/// The table of NOT: on where its one input is off.
pub const NOT_TABLE: usize = 1;

/// The table that the definitions mean where they name it. A law: it does nothing when it runs.
pub fn inverter_table()
    ensures { NOT_TABLE ≡ 1 }
{}

/// The operations of two or more inputs.
#[derive(Clone, Copy, Debug, PartialEq, Eq)]
pub enum Binary {
    And,
    Nand,
    Or,
    Nor,
    Xor,
    Xnor,
}

impl Binary {
    pub fn truth_table(self) -> usize
        ensures { result ≡ truth_table self }
    {
        match self {
            Binary::And => 8,
            Binary::Nand => 7,
            Binary::Or => 14,
            Binary::Nor => 1,
            Binary::Xor => 6,
            Binary::Xnor => 9,
        }
    }

    /// The operation of the steps before the last.
    pub fn associative(self) -> Binary
        ensures { result ≡ associative self }
    {
        match self {
            Binary::And | Binary::Nand => Binary::And,
            Binary::Or | Binary::Nor => Binary::Or,
            Binary::Xor | Binary::Xnor => Binary::Xor,
        }
    }
}

#[derive(Clone, Copy, Debug, PartialEq, Eq)]
pub enum Operation {
    Buf,
    Not,
    Chain(Binary),
    Other,
}

/// The operation of two or more inputs of that name, in letters of any case, which a `match` on the bytes does not compare.
#[tactic(auto, unfolding(crate::specs::Operations::binary_of))]
pub fn binary_of(bytes: &[u8]) -> Operation
    ensures { result ≡ binary_of bytes.now }
{
    if is_named(bytes, b"AND") {
        Operation::Chain(Binary::And)
    } else if is_named(bytes, b"NAND") {
        Operation::Chain(Binary::Nand)
    } else if is_named(bytes, b"OR") {
        Operation::Chain(Binary::Or)
    } else if is_named(bytes, b"NOR") {
        Operation::Chain(Binary::Nor)
    } else if is_named(bytes, b"XOR") {
        Operation::Chain(Binary::Xor)
    } else if is_named(bytes, b"XNOR") {
        Operation::Chain(Binary::Xnor)
    } else {
        Operation::Other
    }
}

#[tactic(auto, unfolding(crate::specs::Operations::operation_of))]
pub fn operation_of(bytes: &[u8]) -> Operation
    ensures { result ≡ operation_of bytes.now }
{
    if is_named(bytes, b"BUFF") || is_named(bytes, b"BUF") {
        Operation::Buf
    } else if is_named(bytes, b"NOT") || is_named(bytes, b"INV") {
        Operation::Not
    } else {
        binary_of(bytes)
    }
}
