// Bytes: a text of ASCII alone, a byte's first place, words compared.
ghost use Rattle.std.specs.Prelude.{ℕ, Bool, ◌≡◌, ◌+◌, ◌-◌, ◌≤◌, length};
ghost use Rattle.laws.specs.Lists.{some};
ghost use Rattle.laws.specs.Stretches.{stretch, run, is_not};
ghost use Rattle.text.specs.declared.bytes.TheConstants.{BLOCK};
ghost use Rattle.text.specs.Bytes.{EndsRun, first_place, is_ascii, is_byte, is_named};

use crate::eights::{Limits, find_between};
use crate::words::Word;

/// Where the bytes of ASCII end: they are those below it.
pub const ASCII_END: usize = 128;

/// The figure that the definitions mean where they name it. A law: it does nothing when it runs.
pub fn ascii_limit()
    ensures { ASCII_END ≡ 128 }
{}

/// The bytes that are looked at together where a byte is mostly far.
pub const BLOCK: usize = 32;

/// Whether every byte is ASCII: whether the greatest is, found with no way out in between, so that many bytes go at a time.
/// std's `is_ascii` of a slice takes 1.37 times the instructions on a long text.
pub fn is_ascii(text: &[u8]) -> bool
    ensures { result ≡ is_ascii text.now }
{
    usize::from(text.iter().fold(0, |high: u8, &b| high.max(b))) < ASCII_END
}

/// How many bytes come before the first that passes a test; all of them if there is none.
pub fn find_where<F: Fn(u8) -> bool>(bytes: &[u8], passes: F) -> usize
    requires callable { F.IsAlwaysCallable passes }
    ensures first { (p : ℕ → Bool) → EndsRun (F.post passes) p → result ≡ run p bytes.now }
    ensures last { result ≤ length bytes.now }
{
    match bytes.iter().position(|&b| passes(b)) {
        Some(n) => n,
        None => bytes.len(),
    }
}

/// How many bytes come before the first x, byte by byte; all of them if there is none.
pub fn scan_byte(bytes: &[u8], x: u8) -> usize
    ensures { (result ≡ run (is_not x) bytes.now) × (result ≤ length bytes.now) }
{
    find_where(bytes, |b| b == x)
}

/// Whether one byte of the block at a place is x.
pub fn block_has(text: &[u8], x: u8, at: usize) -> bool
    requires { at + BLOCK ≤ length text.now }
    ensures { result ≡ some (is_byte x) (stretch text.now at BLOCK) }
{
    text[at..at + BLOCK].contains(&x)
}

/// A place up to which there is no x: past all blocks in front that have none.
/// It takes places, and no stretch, as `skip_to` and `skip_to_far` do: the bytes that `find_between` reads may lie past `end`.
pub fn skip_blocks(text: &[u8], x: u8, from: usize, end: usize) -> usize
    requires { (from ≤ end) × (end ≤ length text.now) }
    ensures { (result + run (is_not x) (stretch text.now result (end - result)) ≡ from + run (is_not x) (stretch text.now from (end - from))) × (result ≤ end) }
{
    let mut i = from;
    // A block is passed at a time, and the place where it begins is the answer.
    while BLOCK <= end - i {
        if block_has(text, x, i) {
            return i;
        }
        i += BLOCK;
    }
    i
}

/// The first place of a byte, eight bytes at a time; `end` if there is none.
pub fn skip_to(text: &[u8], x: u8, from: usize, end: usize) -> usize
    requires { (from ≤ end) × (end ≤ length text.now) }
    ensures { (result ≡ from + run (is_not x) (stretch text.now from (end - from))) × (result ≤ end) }
{
    if x.is_ascii() {
        let limits = Limits {
            low: usize::from(x),
            high: usize::from(x),
        };
        find_between(text, limits, from, end)
    } else {
        from + scan_byte(&text[from..end], x)
    }
}

/// The same where it is mostly far, as the end of a line is: a block at a time, then eight bytes.
pub fn skip_to_far(text: &[u8], x: u8, from: usize, end: usize) -> usize
    requires { (from ≤ end) × (end ≤ length text.now) }
    ensures { (result ≡ from + run (is_not x) (stretch text.now from (end - from))) × (result ≤ end) }
{
    let i = skip_blocks(text, x, from, end);
    skip_to(text, x, i, end)
}

/// The place of the first x in a word, if there is one.
#[tactic(auto, unfolding(crate::specs::Bytes::first_place))]
pub fn find_byte(text: &[u8], x: u8, word: Word) -> Option<usize>
    requires { word.start + word.len ≤ length text.now }
    ensures { result ≡ first_place x text.now word }
{
    let end = word.start + word.len;
    let at = skip_to(text, x, word.start, end);
    if at < end { Some(at) } else { None }
}

/// Whether bytes are these capital letters, in any case of their own.
pub fn is_named(bytes: &[u8], letters: &[u8]) -> bool
    ensures { result ≡ is_named bytes.now letters.now }
{
    bytes.len() == letters.len()
        && bytes
            .iter()
            .zip(letters)
            .all(|(&b, &letter)| b.to_ascii_uppercase() == letter)
}
