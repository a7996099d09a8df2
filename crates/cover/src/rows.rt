// The rows of a `.names` line, and the table that they give.
ghost use Rattle.std.specs.Prelude.{◌≡◌, ◌+◌, ◌≤◌, ◌<◌, length};
ghost use Rattle.laws.specs.Stretches.{stretch};
ghost use Rattle.text.specs.Iterators.{words_left, GivesWord};
ghost use Rattle.cover.specs.Cover.{RowIs, BitIs, fits, matches, entry_count, set_row, start_table, set_rows, rows_table, constant, cover};
ghost use Rattle.cover.specs.declared.rows.TheConstants.{TABLE_BITS, TABLE_INPUTS};
ghost use Rattle.cover.specs.Rows.{rows_left};

use crate::lines::Rows;
use cells::{set_table_entry, table_entry};
use text::blanks::{scan_blank, skip_blanks};
use text::words::{Word, Words};

/// The bits of a table.
pub const TABLE_BITS: usize = 64;

/// The most inputs of which a table has an entry for each setting.
pub const TABLE_INPUTS: usize = 6;

/// Where a row's pattern starts, and its value, 0 or 1 as entries are.
#[derive(Clone, Copy)]
pub struct Row {
    pub start: usize,
    pub value: usize,
}

impl Row {
    /// The bytes of its pattern, one for each input.
    #[tactic(auto, unfolding(laws::specs::Stretches::stretch))]
    pub fn pattern(self, text: &[u8], inputs: usize) -> &[u8]
        requires { self.start + inputs ≤ length text.now }
        ensures bytes { result.now ≡ stretch text.now self.start inputs }
        ensures size { length result.now ≡ inputs }
    {
        &text[self.start..self.start + inputs]
    }
}

/// A value, 0 or 1.
#[tactic(auto, unfolding(crate::specs::Cover::bit_of))]
pub fn parse_bit(word: &[u8]) -> Option<usize>
    ensures { BitIs result word.now }
{
    match word {
        b"0" => Some(0),
        b"1" => Some(1),
        _ => None,
    }
}

/// The next word, as `next` gives it, byte by byte: the words of a row are short.
#[inline(always)]
pub fn next_short(words: &mut Words) -> Option<Word>
    ensures { GivesWord words.old result words.new }
{
    let left = &words.text[words.at..words.end];
    let rest = &left[skip_blanks(left)..];
    let len = scan_blank(rest);
    if len == 0 {
        return None;
    }
    let start = words.end - rest.len();
    words.at = start + len;
    Some(Word { start, len })
}

/// A row from its words: a pattern and a value, which may be absent.
#[tactic(auto, unfolding(crate::specs::Cover::row_of, crate::specs::Cover::row_with))]
pub fn parse_row(mut words: Words, inputs: usize) -> Option<Row>
    ensures { RowIs words.entry.text.now inputs words.entry.end result (words_left words.entry) }
{
    let pattern = next_short(&mut words)?;
    if pattern.len != inputs {
        return None;
    }
    let start = pattern.start;
    let Some(bit) = next_short(&mut words) else {
        return Some(Row { start, value: 1 });
    };
    if next_short(&mut words).is_some() {
        return None;
    }
    let value = parse_bit(bit.bytes(words.text))?;
    Some(Row { start, value })
}

/// A byte of a pattern matches a bit.
#[tactic(auto, unfolding(crate::specs::Cover::fits))]
pub fn byte_fits(b: u8, bit: usize) -> bool
    requires { bit < 2 }
    ensures { result ≡ fits b bit }
{
    b == b'-' || usize::from(b) == usize::from(b'0') + bit
}

/// A pattern matches an index, whose bits stand for the inputs from the last on.
pub fn pattern_matches(pattern: &[u8], j: usize) -> bool
    requires { length pattern.now < TABLE_BITS }
    ensures { result ≡ matches pattern.now j }
{
    pattern
        .iter()
        .rev()
        .enumerate()
        .all(|(i, &b)| byte_fits(b, table_entry(j, i)))
}

/// How many entries a table of so many inputs has.
pub fn entry_count(inputs: usize) -> usize
    requires { inputs ≤ TABLE_INPUTS }
    ensures { (result ≡ entry_count inputs) × (0 < result) × (result ≤ TABLE_BITS) }
{
    1 << inputs
}

/// Every entry that the pattern matches is set.
#[tactic(auto, using(crate::proofs::RowLaws::set_start, crate::proofs::RowLaws::set_matched, crate::proofs::RowLaws::set_unmatched, crate::proofs::RowLaws::set_end))]
pub fn set_row(pattern: &[u8], value: usize, table: usize) -> usize
    requires { (length pattern.now ≤ TABLE_INPUTS) × (value < 2) }
    ensures { result ≡ set_row (length pattern.now) pattern.now value table }
{
    let mut t = table;
    for j in 0..entry_count(pattern.len()) {
        if pattern_matches(pattern, j) {
            t = set_table_entry(t, j, value);
        }
    }
    t
}

/// Every entry is one minus the first row's value.
#[tactic(auto, unfolding(crate::specs::Cover::start_table))]
pub fn start_table(inputs: usize, value: usize) -> usize
    requires { (inputs ≤ TABLE_INPUTS) × (value < 2) }
    ensures { result ≡ start_table inputs value }
{
    if value == 1 {
        0
    } else {
        usize::MAX >> (TABLE_BITS - entry_count(inputs))
    }
}

/// The rows, over a table.
#[tactic(auto, unfolding(crate::specs::Cover::set_rows, crate::specs::Cover::with_row))]
pub fn set_rows(rows: Rows, inputs: usize, table: usize) -> Option<usize>
    requires { inputs ≤ TABLE_INPUTS }
    ensures { result ≡ set_rows rows.entry.lines.text.now inputs (rows_left rows.entry) table }
{
    let text = rows.lines.text;
    let mut t = table;
    for words in rows {
        let row = parse_row(words, inputs)?;
        t = set_row(row.pattern(text, inputs), row.value, t);
    }
    Some(t)
}

/// The table of one input or more.
#[tactic(auto, unfolding(crate::specs::Cover::rows_table, crate::specs::Cover::set_rows, crate::specs::Cover::with_row))]
pub fn rows_table(mut rows: Rows, inputs: usize) -> Option<usize>
    requires { inputs ≤ TABLE_INPUTS }
    ensures { result ≡ rows_table rows.entry.lines.text.now inputs (rows_left rows.entry) }
{
    let text = rows.lines.text;
    let Some(words) = rows.next() else {
        return Some(0);
    };
    let row = parse_row(words, inputs)?;
    let none = start_table(inputs, row.value);
    let table = set_row(row.pattern(text, inputs), row.value, none);
    set_rows(rows, inputs, table)
}

/// The constant of no inputs.
#[tactic(auto, unfolding(crate::specs::Cover::constant))]
pub fn constant_cover(mut rows: Rows) -> Option<usize>
    ensures { result ≡ constant rows.entry.lines.text.now (rows_left rows.entry) }
{
    match rows.next() {
        Some(words) => parse_bit(words.last()?.bytes(words.text)),
        None => Some(0),
    }
}

/// The table that the rows give.
#[tactic(auto, unfolding(crate::specs::Cover::cover))]
pub fn parse_cover(rows: Rows, inputs: usize) -> Option<usize>
    requires { inputs ≤ TABLE_INPUTS }
    ensures { result ≡ cover rows.entry.lines.text.now inputs (rows_left rows.entry) }
{
    if inputs == 0 {
        constant_cover(rows)
    } else {
        rows_table(rows, inputs)
    }
}
