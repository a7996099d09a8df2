// The words of a name record, and the digits of a name, which choose among a record's links.
ghost use Rattle.std.specs.Prelude.{◌≡◌, ◌+◌, ◌-◌, ◌*◌, ◌/◌, ◌<◌, ◌≤◌, length, slice_index};
ghost use Rattle.text.specs.Words.{bytes_of};
ghost use Rattle.names.specs.Chains.{key_of, digit_in, digit_of, link_at};

use text::words::Word;

/// The words of a name record: its key, two words of two links each, where its name starts, and its wire.
/// Key and links, which a search reads of most records that it comes to, stand side by side.
pub const NAME_WORDS: usize = 5;

/// The figure that the definitions mean where they name it, and that callers in C lend by. A law: it does nothing when it runs.
pub fn record_width()
    ensures { NAME_WORDS ≡ 5 }
{}

/// The place in a record of its first word of links; the key stands in front of it.
pub const LINKS_AT: usize = 1;

/// The place in a record of the start of its name.
pub const START_AT: usize = 3;

/// The place in a record of its wire.
pub const WIRE_AT: usize = 4;

/// The bits of half a word.
pub const HALF_BITS: usize = 32;

/// How many values half a word has: a link, and a name's length.
pub const HALF: usize = 1 << HALF_BITS;

/// The bits of a digit.
pub const DIGIT_BITS: usize = 2;

/// How many links a record has: one for each value of a digit.
pub const LINKS: usize = 1 << DIGIT_BITS;

/// How many links stand in one word.
pub const WORD_LINKS: usize = 2;

/// The digits of a key: 8 of the lower half of the hash in it, then 16 of the length.
pub const KEY_DIGITS: usize = 24;

/// The digits of a byte.
pub const BYTE_DIGITS: usize = 4;

/// The link that a digit chooses in the record at `base`: one more than the number of a record, or 0 for none.
pub fn link(names: &[usize], base: usize, digit: usize) -> usize
    requires { (base + NAME_WORDS ≤ length names.now) × (digit < LINKS) }
    ensures { result ≡ link_at names.now base digit }
{
    (names[base + LINKS_AT + digit / WORD_LINKS] >> (digit % WORD_LINKS * HALF_BITS)) % HALF
}

/// Digit `place` of a number that has `count` digits, the highest first.
pub fn digit_in(number: usize, count: usize, place: usize) -> usize
    requires { (place < count) × (count ≤ HALF_BITS) }
    ensures { (result ≡ digit_in number count place) × (result < LINKS) }
{
    (number >> ((count - 1 - place) * DIGIT_BITS)) % LINKS
}

/// Byte `at` of a name; 0 past its end.
pub fn byte_at(text: &[u8], word: Word, at: usize) -> usize
    requires { word.start + word.len ≤ length text.now }
    ensures { result ≡ slice_index (bytes_of text.now word) at }
{
    if at < word.len {
        usize::from(text[word.start + at])
    } else {
        0
    }
}

/// The digit of a name that chooses the link at a depth: first those of its key, then those of each byte in turn.
pub fn digit(text: &[u8], word: Word, key: usize, depth: usize) -> usize
    requires word_in_text { word.start + word.len ≤ length text.now }
    requires key_value { key ≡ key_of (bytes_of text.now word) }
    ensures { (result ≡ digit_of (bytes_of text.now word) depth) × (result < LINKS) }
{
    if depth < KEY_DIGITS {
        digit_in(key, KEY_DIGITS, depth)
    } else {
        let place = depth - KEY_DIGITS;
        let byte = byte_at(text, word, place / BYTE_DIGITS);
        digit_in(byte, BYTE_DIGITS, place % BYTE_DIGITS)
    }
}
