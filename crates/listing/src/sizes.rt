// How many bytes the pieces of a line have at most.

use circuit::records::WIRES;

/// The digits of a number.
pub const DIGITS: usize = 20;

/// A space and a number.
pub const NUMBER_BYTES: usize = 1 + DIGITS;

/// A wire: a letter and a number.
pub const WIRE_BYTES: usize = 1 + DIGITS;

/// The wires of a node, each with a space before it.
pub const WIRES_BYTES: usize = WIRES * (1 + WIRE_BYTES);

/// What stands before a Bristol wire's number: a letter and an underscore.
pub const PREFIX_BYTES: usize = 2;

/// A name without its stretch of the text: seven bytes and a step's number, which is more than a Bristol wire's with what stands before it.
pub const NAME_BYTES: usize = 7 + DIGITS;

/// A node's letter, number and name, without the stretch of the text: a letter, a number, a space and the name.
pub const HEAD_BYTES: usize = 1 + NUMBER_BYTES + 1 + NAME_BYTES;

/// The longest line but the order's, without its stretch of the text, which is a cell's: head, table, wires and the line's end.
pub const LINE_BYTES: usize = HEAD_BYTES + NUMBER_BYTES + WIRES_BYTES + 1;

/// The order's line without its numbers: a letter and the line's end.
pub const ORDER_BYTES: usize = 2;
