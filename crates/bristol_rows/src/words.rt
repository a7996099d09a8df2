// The words of a line, as slices of it.
ghost use Rattle.std.specs.Prelude.{◌≡◌, length};
ghost use Rattle.text.specs.Words.{split_whitespace};
ghost use Rattle.bristol_rows.specs.Words.{words_left};

use text::blanks::{scan_blank, skip_blanks};

/// The words of a line, as an iterator gives them: those of `rest` are still to come.
/// The words as slices: by their places in the text, reading Bristol takes 1.4 times as long.
#[derive(Clone, Copy)]
pub struct LineWords<'a> {
    pub rest: &'a [u8],
}

/// A line, split at its blanks.
pub fn split_whitespace(line: &[u8]) -> LineWords
    ensures { words_left result ≡ split_whitespace line.now }
{
    LineWords { rest: line }
}

impl<'a> Iterator for LineWords<'a> {
    ghost use Rattle.std.specs.Iterator.{YieldsFirstRef, item_count};

    type Item = &'a [u8];

    ghost next_gives = { YieldsFirstRef words_left };

    ghost remaining = { item_count words_left };

    #[tactic(auto, using(crate::proofs::WordLaws::words_none, crate::proofs::WordLaws::words_next))]
    fn next(&mut self) -> Option<&'a [u8]> {
        let rest = self.rest;
        let from = &rest[skip_blanks(rest)..];
        let end = scan_blank(from);
        if end == 0 {
            return None;
        }
        self.rest = &from[end..];
        Some(&from[..end])
    }
}

/// How many words are left.
#[tactic(auto, using(crate::proofs::WordLaws::words_few))]
pub fn count_words(words: LineWords) -> usize
    ensures { result ≡ length (words_left words.entry) }
{
    words.count()
}
