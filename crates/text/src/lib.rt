// Texts: blanks, words, lines, joined lines and numbers.

#![tactic(auto)]

ghost use Rattle.std.specs.Prelude.{◌≡◌};

pub mod blanks;
pub mod bytes;
pub mod eights;
pub mod iterators;
pub mod joining;
pub mod lines;
pub mod numbers;
pub mod words;

/// The longest text that is read, in bytes.
pub const MOST_TEXT: usize = 1_048_576;

/// The figure that the definitions mean where they name it. A law: it does nothing when it runs.
pub fn text_cap()
    ensures { MOST_TEXT ≡ 1048576 }
{}
