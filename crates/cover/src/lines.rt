// The lines of a joined BLIF text: their words, and the rows among them.
ghost use Rattle.std.specs.Prelude.{◌≡◌, ◌+◌, ◌≤◌, ◌<◌, length};
ghost use Rattle.text.specs.Lines.{line_words};
ghost use Rattle.text.specs.Iterators.{words_left};
ghost use Rattle.cover.specs.Directives.{dotted};
ghost use Rattle.cover.specs.Rows.{rows_from, rows_left, GivesRow, DirectiveIs};

use crate::directives::{Directive, directive_of};
use text::bytes::skip_to;
use text::iterators::words_between;
use text::lines::Lines;
use text::words::{Word, Words};

// The rows of a `.names` line among the lines after it, up to the next with `.` first: an iterator gives the words of each.
#[derive(Clone, Copy)]
pub struct Rows<'a> {
    pub lines: Lines<'a>,
}

// Whether a line has `.` first.
pub fn is_dotted(text: &[u8], line: Word) -> bool
    requires { line.start < length text.now }
    ensures { result ≡ dotted text.now line }
{
    text[line.start] == b'.'
}

// The words of a line.
pub fn line_words(text: &[u8], line: Word) -> Words
    requires { line.start + line.len ≤ length text.now }
    ensures same_text { result.text.now ≡ text.now }
    ensures all { words_left result ≡ line_words text.now line }
{
    words_between(text, line.start, line.start + line.len)
}

// A line with `.` first: its directive, and the stretch after its first word. `None` for another line.
#[tactic(auto, unfolding(crate::specs::Directives::directive_of, crate::specs::Directives::directive, laws::specs::Stretches::same_bytes))]
pub fn directive_line(text: &[u8], line: Word) -> Option<(Directive, Word)>
    requires { (line.start < length text.now) × (line.start + line.len ≤ length text.now) }
    ensures { DirectiveIs text.now line result }
{
    if !is_dotted(text, line) {
        return None;
    }
    let mut words = line_words(text, line);
    let directive = match words.next() {
        Some(word) => directive_of(word.bytes(text)),
        None => Directive::Other,
    };
    Some((directive, Word::between(words.at, words.end)))
}

// The rows of a text from a place on.
pub fn rows_from(text: &[u8], at: usize) -> Rows
    ensures places { (result.lines.text.now ≡ text.now) × (result.lines.at ≡ at) }
    ensures all { rows_left result ≡ rows_from text.now at }
{
    Rows {
        lines: Lines { text, at },
    }
}

impl<'a> Iterator for Rows<'a> {
    ghost use Rattle.std.specs.Iterator.{item_count};

    type Item = Words<'a>;

    ghost next_gives = { GivesRow };

    ghost remaining = { item_count rows_left };

    #[tactic(auto, using(crate::proofs::LineLaws::rows_end, crate::proofs::LineLaws::rows_dot, crate::proofs::LineLaws::rows_next))]
    fn next(&mut self) -> Option<Words<'a>> {
        let Lines { text, at } = self.lines;
        if text.len() <= at || text[at] == b'.' {
            return None;
        }
        // A row is short, so its end is looked for nearby: by `Lines`, which looks 32 bytes ahead first, reading was slower by a thirtieth.
        let end = skip_to(text, b'\n', at, text.len());
        self.lines.at = end + 1;
        Some(words_between(text, at, end))
    }
}
