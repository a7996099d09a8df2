// Words as stretches of a text.
ghost use Rattle.std.specs.Prelude.{◌≡◌, ◌+◌, ◌-◌, ◌≤◌, length};
ghost use Rattle.laws.specs.Stretches.{stretch};
ghost use Rattle.text.specs.Blanks.{trimmed};
ghost use Rattle.text.specs.Words.{between};

use crate::blanks::{skip_blanks, trim_end};

/// A stretch of a text, which goes beside it.
#[derive(Clone, Copy)]
pub struct Word {
    pub start: usize,
    pub len: usize,
}

impl Word {
    /// The stretch from one place up to another.
    pub fn between(from: usize, end: usize) -> Word
        requires { from ≤ end }
        ensures { result ≡ between from end }
    {
        Word {
            start: from,
            len: end - from,
        }
    }

    /// Its bytes.
    #[tactic(auto, unfolding(laws::specs::Stretches::stretch))]
    pub fn bytes(self, text: &[u8]) -> &[u8]
        requires { self.start + self.len ≤ length text.now }
        ensures { result.now ≡ stretch text.now self.start self.len }
    {
        &text[self.start..self.start + self.len]
    }
}

/// The words between two places, as an iterator gives them: those from `at` on are still to come.
#[derive(Clone, Copy)]
pub struct Words<'a> {
    pub text: &'a [u8],
    pub at: usize,
    pub end: usize,
    ghost inside: { (at ≤ end) × (end ≤ length text.now) },
}

/// A stretch without the blanks at its ends.
pub fn trim(text: &[u8], word: Word) -> Word
    requires { word.start + word.len ≤ length text.now }
    ensures { (result ≡ trimmed text.now word) × (word.start ≤ result.start) × (result.start + result.len ≤ word.start + word.len) }
{
    let blanks = skip_blanks(word.bytes(text));
    let left = Word {
        start: word.start + blanks,
        len: word.len - blanks,
    };
    Word {
        start: left.start,
        len: trim_end(left.bytes(text)).len(),
    }
}
