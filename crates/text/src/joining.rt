// The joined lines of a text.
ghost use Rattle.std.specs.Prelude.{◌≡◌, not, ◌&&◌, ◌||◌, ◌+◌, ◌≤◌, ◌<◌, length, take, eqb};
ghost use Rattle.laws.specs.Stretches.{stretch};
ghost use Rattle.text.specs.Lines.{FirstComment};
ghost use Rattle.text.specs.Joining.{continued, part, joined_text, Joins};
ghost use Rattle.text.specs.Writing.{one_or_none, added, still, added_by, still_by, Puts};

use crate::blanks::trim_end;
use crate::bytes::skip_to_far;
use crate::iterators::lines_of;
use crate::lines::{kept_before, next_comment};
use crate::words::Word;

/// Whether a line ends in `\`.
pub fn is_continued(line: &[u8]) -> bool
    ensures { result ≡ continued line.now }
{
    line.ends_with(b"\\")
}

/// What of a kept line goes into the joined text.
pub fn part(line: &[u8]) -> &[u8]
    ensures { result.now ≡ part line.now }
{
    match line.strip_suffix(b"\\") {
        Some(front) => trim_end(front),
        None => line,
    }
}

/// Writes one byte, if there is one, from `out` on: where the writing goes on.
#[tactic(auto, unfolding(crate::specs::Writing::one_or_none))]
pub fn put_if(joined: &mut [u8], out: usize, b: Option<u8>) -> usize
    requires { out + length (one_or_none b) ≤ length joined.old }
    ensures { Puts joined.old joined.new out result (one_or_none b) }
{
    match b {
        Some(b) => {
            joined[out] = b;
            out + 1
        }
        None => out,
    }
}

/// Writes bytes from `out` on: where the writing goes on.
pub fn put_bytes(joined: &mut [u8], out: usize, bytes: &[u8]) -> usize
    requires { out + length bytes.now ≤ length joined.old }
    ensures { Puts joined.old joined.new out result bytes.now }
{
    let end = out + bytes.len();
    // Byte by byte: `copy_from_slice` is a call of `memmove`, which the static library then asks its callers for.
    for (k, byte) in joined[out..end].iter_mut().enumerate() {
        *byte = bytes[k];
    }
    end
}

/// Where the writing stands: how many bytes are written, and whether something is gathered.
#[derive(Clone, Copy)]
pub struct Put {
    pub out: usize,
    pub gathered: bool,
}

/// Whether something is gathered after a kept line, of which `n` bytes went into the joined text.
pub fn still_gathered(more: bool, gathered: bool, n: usize) -> bool
    ensures { result ≡ (more && (gathered || not (eqb n 0))) }
{
    more && (gathered || n != 0)
}

/// A kept line: a space before it if something is gathered, and byte 10 after it unless it is continued.
pub fn put_line(joined: &mut [u8], put: Put, line: &[u8]) -> Put
    requires { put.out + length (added put.gathered line.now) ≤ length joined.old }
    ensures { Puts joined.old joined.new put.out result.out (added put.gathered line.now) × (result.gathered ≡ still put.gathered line.now) }
{
    let bytes = part(line);
    let more = is_continued(line);
    let space = put.gathered.then_some(b' ');
    let a = put_if(joined, put.out, space);
    let b = put_bytes(joined, a, bytes);
    let line_end = (!more).then_some(b'\n');
    let c = put_if(joined, b, line_end);
    let g = still_gathered(more, put.gathered, bytes.len());
    Put {
        out: c,
        gathered: g,
    }
}

/// A raw line; the first `#` from its start on stands at `comment`, which may lie past its end.
pub fn put_raw(joined: &mut [u8], put: Put, text: &[u8], line: Word, comment: usize) -> Put
    requires line_in_bounds { (line.start + line.len ≤ length text.now) × FirstComment text.now line.start comment }
    requires from_in_bounds { put.out + length (added_by put.gathered (stretch text.now line.start line.len)) ≤ length joined.old }
    ensures { Puts joined.old joined.new put.out result.out (added_by put.gathered (stretch text.now line.start line.len)) × (result.gathered ≡ still_by put.gathered (stretch text.now line.start line.len)) }
{
    let kept = kept_before(text, line, comment);
    if kept.len == 0 {
        return put;
    }
    put_line(joined, put, kept.bytes(text))
}

/// The joined text in front of the area, and how long it is.
pub fn put_lines(text: &[u8], joined: &mut [u8]) -> usize
    requires { length text.now < length joined.old }
    ensures { (take result joined.new ≡ joined_text text.now) × (result ≤ length text.now + 1) }
{
    let mut put = Put {
        out: 0,
        gathered: false,
    };
    let mut comment = skip_to_far(text, b'#', 0, text.len());
    for line in lines_of(text) {
        comment = next_comment(text, line.start, comment);
        put = put_raw(joined, put, text, line, comment);
    }
    let line_end = put.gathered.then_some(b'\n');
    put_if(joined, put.out, line_end)
}

/// The joined text, zeros after it; how long it is.
pub fn logical_lines(text: &[u8], joined: &mut [u8]) -> usize
    requires { length text.now < length joined.old }
    ensures { Joins text.now (length joined.old) result joined.new }
{
    let r = put_lines(text, joined);
    joined[r..].fill(0);
    r
}
