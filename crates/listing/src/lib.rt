// The listing of a circuit, line by line, onto a vector of fixed capacity or a lent area.

#![tactic(auto)]

ghost use Rattle.std.specs.Prelude.{◌≡◌};

pub mod keys;
pub mod lent;
pub mod line;
pub mod lines;
pub mod pieces;
pub mod sizes;
#[cfg(test)]
mod tests;

/// How many nodes, names, outputs and wires a program that lists circuits has places for.
pub const LISTED: usize = 1024;

/// The longest text that a program lists, in bytes.
pub const LISTED_TEXT: usize = 32_768;

/// The figures that the definitions mean where they name them. A law: it does nothing when it runs.
pub fn listing_caps()
    ensures { (LISTED ≡ 1024) × (LISTED_TEXT ≡ 32768) }
{}
