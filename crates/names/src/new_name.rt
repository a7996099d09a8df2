// A name that the table has not, and how a record of it comes to hang there.
ghost use Rattle.std.specs.Prelude.{◌≡◌};
ghost use Rattle.names.specs.Chains.{headed, linked, LinkFits};

use crate::records::{HALF_BITS, LINKS_AT, NAME_WORDS, WORD_LINKS};
use text::words::Word;

/// A name that no record has: where it stands in the text, its key, and where the search for it ended: the last
/// record that it came to (by the number that links to it) and the link of that record; where it came to none, 0 and
/// the number of the head.
#[derive(Clone, Copy)]
pub struct NewName {
    pub word: Word,
    pub key: usize,
    pub last: usize,
    pub branch: usize,
}

impl NewName {
    /// The link or the head at the end of the search, set to a record.
    pub fn set_link(self, at: usize, heads: &mut [usize; 256], names: &mut [usize])
        requires link_fits { LinkFits names.old self.last self.branch at }
        ensures heads_after { heads.new ≡ headed heads.old self.branch self.last at }
        ensures names_after { names.new ≡ linked names.old self.last self.branch at }
    {
        if self.last == 0 {
            heads[self.branch] = at;
        } else {
            let place = (self.last - 1) * NAME_WORDS + LINKS_AT + self.branch / WORD_LINKS;
            names[place] += at << (self.branch % WORD_LINKS * HALF_BITS);
        }
    }
}
