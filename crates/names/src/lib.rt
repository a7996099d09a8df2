// The table of names: 256 heads, and at each of them chained records that branch by the digits of their names.
// There is no heap, so the records are words of a lent area.

#![tactic(auto)]

ghost use Rattle.std.specs.Prelude.{◌≡◌, ◌+◌, ◌*◌, ◌<◌, ◌≤◌, length};
ghost use Rattle.laws.specs.Stretches.{stretch, same_bytes};
ghost use Rattle.text.specs.Words.{bytes_of};
ghost use Rattle.names.specs.Names.{lookup};
ghost use Rattle.names.specs.Chains.{key_of, entries, name_at, Table, IsNew, SearchIs, Defined};

use crate::hashing::hash_of;
use crate::new_name::NewName;
use crate::records::{HALF, NAME_WORDS, START_AT, WIRE_AT, digit, link};
use text::words::Word;

pub mod hashing;
pub mod new_name;
pub mod promised;
pub mod records;

/// Whether a word's bytes stand from a place on.
pub fn same_name(text: &[u8], start: usize, word: Word) -> bool
    requires { (start + word.len ≤ length text.now) × (word.start + word.len ≤ length text.now) }
    ensures { result ≡ same_bytes (stretch text.now start word.len) (bytes_of text.now word) }
{
    &text[start..start + word.len] == word.bytes(text)
}

/// A table to be searched: the text of its names, its heads, and how many records of its area are used.
/// A record goes by the number that links to it, one more than its own, and none by 0: a link is half a lent word,
/// which has no room for an `Option`.
#[derive(Clone, Copy)]
pub struct NameTable<'a> {
    pub text: &'a [u8],
    pub heads: &'a [usize; 256],
    pub names: &'a [usize],
    pub count: usize,
    ghost in_order: { Table text.now heads.now names.now count },
}

impl<'a> NameTable<'a> {
    // Whether record k has the name. The bytes of names of another key are not looked at.
    fn has_name(&self, word: Word, key: usize, k: usize) -> bool
        requires k_in_table { k < self.now.count }
        requires word_in_text { word.start + word.len ≤ length self.now.text.now }
        requires key_value { key ≡ key_of (bytes_of self.now.text.now word) }
        ensures { let t = self.now.text.now in
            result ≡ same_bytes (name_at t self.now.names.now k) (bytes_of t word) }
    {
        let base = k * NAME_WORDS;
        self.names[base] == key && same_name(self.text, self.names[base + START_AT], word)
    }

    /// The wire's word of a name; if it is not there, the name with the place where a record of it would hang.
    pub fn search(&self, word: Word) -> Result<usize, NewName>
        requires word_in_text { word.start + word.len ≤ length self.now.text.now }
        ensures { let t = self.now.text.now in
            let known = lookup t (bytes_of t word) (entries self.now.names.now self.now.count) in
            SearchIs known t self.now.heads.now self.now.names.now self.now.count word result }
    {
        let hash = hash_of(self.text, word);
        let mut branch = usize::from(hash.bucket);
        let mut at = self.heads[branch];
        let mut depth = 0;
        let mut last = 0;
        // Along the links, whose end no count tells before.
        while at != 0 {
            if self.has_name(word, hash.key, at - 1) {
                return Ok(self.names[(at - 1) * NAME_WORDS + WIRE_AT]);
            }
            last = at;
            branch = digit(self.text, word, hash.key, depth);
            at = link(self.names, (at - 1) * NAME_WORDS, branch);
            depth += 1;
        }
        Err(NewName {
            word,
            key: hash.key,
            last,
            branch,
        })
    }

    /// The wire's word of a name, if it is there.
    pub fn find(&self, word: Word) -> Option<usize>
        requires word_in_text { word.start + word.len ≤ length self.now.text.now }
        ensures { let t = self.now.text.now in
            result ≡ lookup t (bytes_of t word) (entries self.now.names.now self.now.count) }
    {
        self.search(word).ok()
    }
}

/// One record more, where the search for its name ended: a name that the table has not, and the word of its wire.
pub fn define(
    text: &[u8],
    name: NewName,
    wire: usize,
    heads: &mut [usize; 256],
    names: &mut [usize],
    count: usize,
)
    requires table { Table text.now heads.old names.old count }
    requires new { IsNew text.now heads.old names.old count name }
    requires room { count * NAME_WORDS + NAME_WORDS ≤ length names.old }
    requires few { count + 1 < HALF }
    ensures { Defined text.now heads.new names.new (count + 1)
        (record { start = name.word.start; len = name.word.len; wire = wire }) (entries names.old count) }
{
    name.set_link(count + 1, heads, names);
    let at = count * NAME_WORDS;
    names[at..at + NAME_WORDS].copy_from_slice(&[name.key, 0, 0, name.word.start, wire]);
}
