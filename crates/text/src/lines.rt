// The lines of a text, and those of them of which something is kept.
ghost use Rattle.std.specs.Prelude.{◌≡◌, ◌+◌, ◌≤◌, length};
ghost use Rattle.laws.specs.Stretches.{stretch};
ghost use Rattle.text.specs.Lines.{kept, FirstComment, EarlierComment};

use crate::bytes::skip_to_far;
use crate::words::{Word, trim};

/// The lines of a text, as an iterator gives them, each without its byte 10: those from `at` on are still to come.
#[derive(Clone, Copy)]
pub struct Lines<'a> {
    pub text: &'a [u8],
    pub at: usize,
}

/// What is kept of a line.
pub fn kept_line(text: &[u8], line: Word) -> Word
    requires { line.start + line.len ≤ length text.now }
    ensures { (stretch text.now result.start result.len ≡ kept (stretch text.now line.start line.len)) × (result.start + result.len ≤ line.start + line.len) }
{
    let cut = skip_to_far(text, b'#', line.start, line.start + line.len);
    trim(text, Word::between(line.start, cut))
}

/// The same, where the first `#` from its start on is known: it may lie past the line.
pub fn kept_before(text: &[u8], line: Word, comment: usize) -> Word
    requires { (line.start + line.len ≤ length text.now) × FirstComment text.now line.start comment }
    ensures { (stretch text.now result.start result.len ≡ kept (stretch text.now line.start line.len)) × (result.start + result.len ≤ line.start + line.len) }
{
    let cut = comment.min(line.start + line.len);
    trim(text, Word::between(line.start, cut))
}

/// The first `#` from `at` on, where the first from some place before it on is known: looked for once it is passed.
pub fn next_comment(text: &[u8], at: usize, last: usize) -> usize
    requires { (at ≤ length text.now) × EarlierComment text.now at last }
    ensures { FirstComment text.now at result }
{
    if at <= last {
        return last;
    }
    skip_to_far(text, b'#', at, text.len())
}

/// The lines of which something is kept, without continuation, as an iterator gives them: each as what is kept of it.
#[derive(Clone, Copy)]
pub struct KeptLines<'a> {
    pub lines: Lines<'a>,
}
