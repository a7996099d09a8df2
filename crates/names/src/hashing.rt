// The bucket of a name and its key: two hashes of its bytes, and its length.
ghost use Rattle.std.specs.Prelude.{◌≡◌, ◌+◌, ◌-◌, ◌*◌, ◌/◌, ◌^◌, ◌<◌, ◌≤◌, length, slice_index};
ghost use Rattle.laws.specs.Stretches.{stretch};
ghost use Rattle.text.specs.Words.{bytes_of};
ghost use Rattle.names.specs.Chains.{wrapping_sum, sum_in, bucket_of, four_bytes, word_of, mix_in, mixed, key_of};

use crate::records::HALF;
use text::words::Word;

/// Four bytes as one number, the first the lowest.
pub fn four_bytes(text: &[u8], at: usize) -> u32
    requires { at + 4 ≤ length text.now }
    ensures { result ≡ four_bytes text.now at }
{
    u32::from_le_bytes([text[at], text[at + 1], text[at + 2], text[at + 3]])
}

/// Fewer than four bytes as one number, the last of the text.
pub fn few_bytes(text: &[u8], word: Word) -> u32
    requires { (word.start + word.len ≤ length text.now) × (word.len < 4) }
    ensures { result ≡ word_of (bytes_of text.now word) }
{
    let at = word.start;
    match word.len {
        0 => 0,
        1 => u32::from_le_bytes([text[at], 0, 0, 0]),
        2 => u32::from_le_bytes([text[at], text[at + 1], 0, 0]),
        _ => u32::from_le_bytes([text[at], text[at + 1], text[at + 2], 0]),
    }
}

/// Fewer than four bytes as one number. Four are read at once, but for the last of the text.
pub fn last_bytes(text: &[u8], word: Word) -> u32
    requires { (word.start + word.len ≤ length text.now) × (word.len < 4) }
    ensures { result ≡ word_of (bytes_of text.now word) }
{
    if text.len() - word.start < 4 {
        few_bytes(text, word)
    } else {
        four_bytes(text, word.start) % (1 << (word.len * 8))
    }
}

/// The wrapping sum of a name's bytes, with the four of a number more.
pub fn add_bytes(sum: u32, word: u32) -> u32
    ensures { result ≡ sum_in sum word }
{
    let [a, b, c, d] = word.to_le_bytes();
    sum.wrapping_add(u32::from(a))
        .wrapping_add(u32::from(b))
        .wrapping_add(u32::from(c))
        .wrapping_add(u32::from(d))
}

/// The sum and the mix of the bytes so far.
#[derive(Clone, Copy)]
pub struct Sums {
    pub sum: u32,
    pub mix: u32,
}

impl Sums {
    /// With the bytes of a number more.
    pub fn with_word(self, word: u32) -> Sums
        ensures sum_value { result.sum ≡ sum_in self.sum word }
        ensures mix_value { result.mix ≡ mix_in self.mix word }
    {
        let mixed = (u64::from(self.mix) + u64::from(word)) * 1540483477 / 2048;
        Sums {
            sum: add_bytes(self.sum, word),
            mix: (mixed % 4294967296) as u32,
        }
    }
}

/// The sums of a word up to its last bytes, of which there are fewer than four.
pub fn sum_words(text: &[u8], word: Word) -> Sums
    requires { word.start + word.len ≤ length text.now }
    ensures sum_value { let whole = word.len / 4 * 4 in
        let rest = stretch text.now (word.start + whole) (word.len - whole) in
        wrapping_sum result.sum rest ≡ wrapping_sum 0 (bytes_of text.now word) }
    ensures mix_value { let whole = word.len / 4 * 4 in
        let rest = stretch text.now (word.start + whole) (word.len - whole) in
        mixed result.mix rest ≡ mixed 0 (bytes_of text.now word) }
{
    let mut sums = Sums { sum: 0, mix: 0 };
    for &four in word.bytes(text).as_chunks::<4>().0 {
        sums = sums.with_word(u32::from_le_bytes(four));
    }
    sums
}

/// The bucket of a name (the 32-bit wrapping sum of its bytes, modulo 256) and its key: in the lower half of the word
/// its length, modulo 2^32, and in the upper half the second hash, of 32 bits.
#[derive(Clone, Copy)]
pub struct Hash {
    pub bucket: u8,
    pub key: usize,
}

/// Both in one pass over the bytes of a name.
pub fn hash_of(text: &[u8], word: Word) -> Hash
    requires { word.start + word.len ≤ length text.now }
    ensures bucket_value { result.bucket ≡ bucket_of (bytes_of text.now word) }
    ensures key_value { result.key ≡ key_of (bytes_of text.now word) }
{
    let whole = word.len / 4 * 4;
    let last = Word {
        start: word.start + whole,
        len: word.len - whole,
    };
    let all = sum_words(text, word).with_word(last_bytes(text, last));
    Hash {
        bucket: (all.sum % 256) as u8,
        key: word.len % HALF + all.mix.rotate_left(16) as usize * HALF,
    }
}
