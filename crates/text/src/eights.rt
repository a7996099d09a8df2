// A byte between two others looked for, eight bytes at a time.
ghost use Rattle.std.specs.Prelude.{◌≡◌, not, ◌+◌, ◌-◌, ◌≤◌, ◌<◌, length, IfSome, IsSome};
ghost use Rattle.laws.specs.Stretches.{stretch, run, All};
ghost use Rattle.text.specs.declared.bytes.TheConstants.{ASCII_END};
ghost use Rattle.text.specs.declared.eights.TheConstants.{LOW_BITS};
ghost use Rattle.text.specs.Eights.{eight_at, outside, BetweenOf};

use crate::bytes::{ASCII_END, find_where};

/// Eight bytes of 1: a byte times this is eight times that byte.
pub const EACH: usize = 0x0101_0101_0101_0101;

/// The highest bit of each of eight bytes, which is off in a byte of ASCII.
pub const HIGH_BITS: usize = 0x8080_8080_8080_8080;

/// The other bits of each of eight bytes: the greatest number of eight bytes of ASCII.
pub const LOW_BITS: usize = 0x7F7F_7F7F_7F7F_7F7F;

/// The bytes from `low` to `high`, both ASCII.
#[derive(Clone, Copy)]
pub struct Limits {
    pub low: usize,
    pub high: usize,
    ghost ascii: { (low < ASCII_END) × (high < ASCII_END) },
}

/// Eight bytes as one number.
pub fn eight_bytes(text: &[u8], at: usize) -> usize
    requires { at + 8 ≤ length text.now }
    ensures { result ≡ eight_at text.now at }
{
    usize::from_le_bytes([
        text[at],
        text[at + 1],
        text[at + 2],
        text[at + 3],
        text[at + 4],
        text[at + 5],
        text[at + 6],
        text[at + 7],
    ])
}

/// Whether a byte lies from `low` to `high`, be they ASCII or not.
pub fn is_between(b: usize, low: usize, high: usize) -> bool
    ensures { not result ≡ outside low high b }
{
    low <= b && b <= high
}

/// How many bytes come before the first from `low` to `high`, byte by byte; all of them if there is none.
pub fn scan_between(bytes: &[u8], low: usize, high: usize) -> usize
    ensures { (result ≡ run (outside low high) bytes.now) × (result ≤ length bytes.now) }
{
    find_where(bytes, |b| is_between(usize::from(b), low, high))
}

/// Eight bytes of ASCII: the highest bit of each says whether it lies between limits, by two sums that carry nothing from byte to byte.
pub fn between_bits(word: usize, limits: Limits) -> usize
    requires { word ≤ LOW_BITS }
    ensures { BetweenOf limits.low limits.high word result }
{
    let above = word + (ASCII_END - limits.low) * EACH;
    let below = (limits.high + ASCII_END) * EACH - word;
    above & below & HIGH_BITS
}

/// How many of eight bytes come before the first between limits: all at once, and only where all are ASCII.
pub fn before_between(text: &[u8], limits: Limits, at: usize) -> Option<usize>
    requires { at + 8 ≤ length text.now }
    ensures { IfSome result (λ n. n ≡ run (outside limits.low limits.high) (stretch text.now at 8)) × (All (λ b. b < ASCII_END) (stretch text.now at 8) → IsSome result) }
{
    let word = eight_bytes(text, at);
    if word & HIGH_BITS != 0 {
        return None;
    }
    let hits = between_bits(word, limits);
    if hits == 0 {
        return Some(8);
    }
    Some(hits.trailing_zeros() as usize / 8)
}

/// The first place of a byte between limits, eight bytes at a time while there are eight in the text, all ASCII.
/// The eight may lie past `end`.
// Nothing that walks the same eight bytes one by one may stand in the loop: the compiler would then load each by itself.
pub fn find_between(text: &[u8], limits: Limits, from: usize, end: usize) -> usize
    requires { (from ≤ end) × (end ≤ length text.now) }
    ensures { (result ≡ from + run (outside limits.low limits.high) (stretch text.now from (end - from))) × (result ≤ end) }
{
    let mut i = from;
    // Eight places are passed at a time, so there is no range to count over.
    while i < end {
        if text.len() - i < 8 {
            return i + scan_between(&text[i..end], limits.low, limits.high);
        }
        let Some(n) = before_between(text, limits, i) else {
            return i + scan_between(&text[i..end], limits.low, limits.high);
        };
        if n < 8 {
            return (i + n).min(end);
        }
        i += 8;
    }
    end
}
