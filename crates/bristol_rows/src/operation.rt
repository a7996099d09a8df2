// The operations of gate rows, in any case of their letters.
ghost use Rattle.std.specs.Prelude.{◌≡◌};
ghost use Rattle.bristol_rows.specs.Operation.{is_alias, inverts, operation};

use text::bytes::is_named;

/// What the name at the end of a row says.
#[derive(Clone, Copy)]
pub enum Operation {
    /// The output wire is another name of the one input.
    Copy,
    /// A cell of one input, with its table.
    One(usize),
    /// A cell of two inputs, with its table.
    Two(usize),
    /// No operation has that name.
    Unlisted,
}

/// Whether a row of that name makes no cell: EQ, EQW, BUF.
#[tactic(auto, unfolding(crate::specs::Operation::is_alias))]
pub fn is_alias(name: &[u8]) -> bool
    ensures { result ≡ is_alias name.now }
{
    is_named(name, b"EQ") || is_named(name, b"EQW") || is_named(name, b"BUF")
}

/// Whether it turns its one input: INV, NOT.
#[tactic(auto, unfolding(crate::specs::Operation::inverts))]
pub fn is_inverter(name: &[u8]) -> bool
    ensures { result ≡ inverts name.now }
{
    is_named(name, b"INV") || is_named(name, b"NOT")
}

/// The operation of a name.
#[tactic(auto, unfolding(crate::specs::Operation::operation))]
pub fn read_operation(name: &[u8]) -> Operation
    ensures { result ≡ operation name.now }
{
    if is_named(name, b"AND") {
        Operation::Two(8)
    } else if is_named(name, b"NAND") {
        Operation::Two(7)
    } else if is_named(name, b"OR") {
        Operation::Two(14)
    } else if is_named(name, b"NOR") {
        Operation::Two(1)
    } else if is_named(name, b"XOR") {
        Operation::Two(6)
    } else if is_named(name, b"XNOR") {
        Operation::Two(9)
    } else if is_inverter(name) {
        Operation::One(1)
    } else if is_alias(name) {
        Operation::Copy
    } else {
        Operation::Unlisted
    }
}
