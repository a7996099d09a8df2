// The words between two places, the lines of a text, and its kept lines, one after the other.
ghost use Rattle.std.specs.Prelude.{◌≡◌, ◌-◌, ◌≤◌, length};
ghost use Rattle.laws.specs.Stretches.{stretch};
ghost use Rattle.text.specs.Words.{words};
ghost use Rattle.text.specs.Lines.{lines, kept_lines};
ghost use Rattle.text.specs.Iterators.{words_left, GivesWord, lines_left, GivesLine, kept_left};

use crate::blanks::{find_blank, skip_blanks};
use crate::bytes::skip_to_far;
use crate::lines::{KeptLines, Lines, kept_line};
use crate::words::{Word, Words};

/// The words between two places, one after the other, as `for word in words_between(text, from, end)` takes them.
pub fn words_between(text: &[u8], from: usize, end: usize) -> Words
    requires { (from ≤ end) × (end ≤ length text.now) }
    ensures places { (result.text.now ≡ text.now) × (result.at ≡ from) × (result.end ≡ end) }
    ensures all { words_left result ≡ words from (stretch text.now from (end - from)) }
{
    Words {
        text,
        at: from,
        end,
    }
}

impl<'a> Iterator for Words<'a> {
    ghost use Rattle.std.specs.Iterator.{item_count};

    type Item = Word;

    ghost next_gives = { GivesWord };

    ghost remaining = { item_count words_left };

    // Inlined, since it is called for each word: as a call of its own it made reading BLIF slower by a tenth.
    #[inline(always)]
    fn next(&mut self) -> Option<Word> {
        let start = self.at + skip_blanks(&self.text[self.at..self.end]);
        let end = find_blank(self.text, start, self.end);
        if start == end {
            return None;
        }
        self.at = end;
        Some(Word::between(start, end))
    }
}

/// The lines of a text, one after the other.
pub fn lines_of(text: &[u8]) -> Lines
    ensures places { (result.text.now ≡ text.now) × (result.at ≡ 0) }
    ensures all { lines_left result ≡ lines 0 text.now }
{
    Lines { text, at: 0 }
}

impl<'a> Iterator for Lines<'a> {
    ghost use Rattle.std.specs.Iterator.{item_count};

    type Item = Word;

    ghost next_gives = { GivesLine };

    ghost remaining = { item_count lines_left };

    fn next(&mut self) -> Option<Word> {
        let size = self.text.len();
        if size <= self.at {
            return None;
        }
        let end = skip_to_far(self.text, b'\n', self.at, size);
        let line = Word::between(self.at, end);
        self.at = end + 1;
        Some(line)
    }
}

/// The kept lines of a text, one after the other.
pub fn kept_lines(text: &[u8]) -> KeptLines
    ensures { kept_left result ≡ kept_lines text.now }
{
    KeptLines {
        lines: lines_of(text),
    }
}

impl<'a> Iterator for KeptLines<'a> {
    ghost use Rattle.std.specs.Iterator.{YieldsFirstRef, item_count};

    type Item = &'a [u8];

    ghost next_gives = { YieldsFirstRef kept_left };

    ghost remaining = { item_count kept_left };

    fn next(&mut self) -> Option<&'a [u8]> {
        let text = self.lines.text;
        // Until something is kept of a line: no place is counted.
        while let Some(line) = self.lines.next() {
            let kept = kept_line(text, line);
            if kept.len != 0 {
                return Some(kept.bytes(text));
            }
        }
        None
    }
}
