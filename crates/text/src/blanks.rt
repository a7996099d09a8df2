// Blanks.
ghost use Rattle.std.specs.Prelude.{◌≡◌, ◌+◌, ◌-◌, ◌≤◌, length};
ghost use Rattle.laws.specs.Stretches.{stretch, run};
ghost use Rattle.text.specs.Blanks.{is_blank, not_blank, trim_end};

use crate::bytes::find_where;
use crate::eights::{Limits, find_between};

/// The first byte that is a blank.
pub const FIRST_BLANK: usize = 9;

/// The last byte that is a blank.
pub const LAST_BLANK: usize = 32;

/// Whether a byte is a blank: 9 to 13 or 32.
#[tactic(auto, unfolding(crate::specs::Blanks::is_blank))]
pub fn is_blank(b: u8) -> bool
    ensures { result ≡ is_blank b }
{
    b == b' ' || (b'\t' <= b && b <= b'\r')
}

/// How many blanks are in front.
pub fn skip_blanks(bytes: &[u8]) -> usize
    ensures { (result ≡ run is_blank bytes.now) × (result ≤ length bytes.now) }
{
    find_where(bytes, |b| !is_blank(b))
}

/// How many bytes come before the first blank, byte by byte; all of them if there is none.
pub fn scan_blank(bytes: &[u8]) -> usize
    ensures { (result ≡ run not_blank bytes.now) × (result ≤ length bytes.now) }
{
    find_where(bytes, is_blank)
}

/// The first place from `from` on, before `end`, that holds a blank; `end` if there is none.
/// Eight bytes at a time, which may lie past `end`: all blanks lie between two bytes, and what else lies there is rare.
pub fn find_blank(text: &[u8], from: usize, end: usize) -> usize
    requires { (from ≤ end) × (end ≤ length text.now) }
    ensures { (result ≡ from + run not_blank (stretch text.now from (end - from))) × (result ≤ end) }
{
    let limits = Limits {
        low: FIRST_BLANK,
        high: LAST_BLANK,
    };
    let i = find_between(text, limits, from, end);
    i + scan_blank(&text[i..end])
}

/// Bytes without the blanks at their end.
pub fn trim_end(bytes: &[u8]) -> &[u8]
    ensures { result.now ≡ trim_end bytes.now }
{
    match bytes.iter().rposition(|&b| !is_blank(b)) {
        Some(last) => &bytes[..=last],
        None => &bytes[..0],
    }
}
