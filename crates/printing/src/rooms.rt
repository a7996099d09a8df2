// The areas of a list program: places for `LISTED` records of each kind.
ghost use Rattle.std.specs.Prelude.{◌≡◌, length};

use circuit::records::{NODE_WORDS, OUTPUT_WORDS};
use graphs::READS;
use listing::keys::KEY_LEN;
use listing::sizes::LINE_BYTES;
use listing::{LISTED, LISTED_TEXT};
use names::records::NAME_WORDS;

/// The bytes of the area that the input is read into: more than `LISTED_TEXT`, so that a longer text is known as such.
pub const INPUT_AREA: usize = 2 * LISTED_TEXT;

/// The bytes of the area of the joined text, which is at most one byte longer than the text.
pub const JOINED_AREA: usize = LISTED_TEXT + 1;

/// The words of the area of nodes.
pub const NODES_AREA: usize = LISTED * NODE_WORDS;

/// The words of the area of names.
pub const NAMES_AREA: usize = LISTED * NAME_WORDS;

/// The words of the area of outputs.
pub const OUTPUTS_AREA: usize = LISTED * OUTPUT_WORDS;

/// The numbers of all keys.
pub const KEYS_AREA: usize = LISTED * KEY_LEN;

/// The words of a node's record in the ready area.
pub const READY_WORDS: usize = 3;

/// The words of the ready area.
pub const READY_AREA: usize = LISTED * READY_WORDS;

/// The words of the successor area: one for each read of a node, and one before them.
pub const SUCCESSORS_AREA: usize = READS * LISTED + 1;

/// The bytes that a line may have: the text may stand in it whole, as a name.
pub const LINE_AREA: usize = JOINED_AREA + LINE_BYTES;

/// An area of N words or bytes, which its caller's type tells, all zero.
pub fn room<T: Copy + Default, const N: usize>() -> [T; N]
    ensures { N ≡ length result }
{
    [T::default(); N]
}
