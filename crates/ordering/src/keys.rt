// Keys: three numbers for each node, compared number by number.
// The keys and the count of nodes stay two parameters: over a struct of both each clause would read `keys.entry.words.now` and `keys.entry.count`, which is longer than the one fact that would go.
ghost use Rattle.std.specs.Prelude.{◌≡◌, cond, ◌+◌, ◌*◌, ◌<◌, length};
ghost use Rattle.ordering.specs.declared.widths.TheConstants.{KEY_WORDS};
ghost use Rattle.ordering.specs.Schedule.{above, key_at};
ghost use Rattle.ordering.specs.Areas.{key_of};

use crate::widths::KEY_WORDS;

#[derive(Clone, Copy, Debug, PartialEq, Eq, PartialOrd, Ord)]
pub struct Key {
    pub first: u32,
    pub second: u32,
    pub third: u32,
}

// The key of a node.
#[tactic(auto, unfolding(crate::specs::Schedule::key_at))]
pub fn key_at(keys: &[u32], node: usize) -> Key
    requires { KEY_WORDS * node + 2 < length keys.now }
    ensures { key_of result ≡ key_at keys.now node }
{
    let i = KEY_WORDS * node;
    Key {
        first: keys[i],
        second: keys[i + 1],
        third: keys[i + 2],
    }
}

// A node with its key, which is kept beside it while others are compared with it.
#[derive(Clone, Copy)]
pub struct Best {
    pub node: usize,
    pub key: Key,
}

impl Best {
    // A first node.
    pub fn of(keys: &[u32], node: usize) -> Best
        requires { KEY_WORDS * node + 2 < length keys.now }
        ensures { (result.node ≡ node) × (key_of result.key ≡ key_at keys.now node) }
    {
        Best {
            node,
            key: key_at(keys, node),
        }
    }

    // Of this node and one after it the one of the greater key, this one on equal keys.
    pub fn better(self, keys: &[u32], node: usize) -> Best
        requires { (KEY_WORDS * node + 2 < length keys.now) × (key_of self.key ≡ key_at keys.now self.node) }
        ensures { (result.node ≡ cond (above (key_at keys.now node) (key_at keys.now self.node)) node self.node) × (key_of result.key ≡ key_at keys.now result.node) }
    {
        let other = Best::of(keys, node);
        if other.key > self.key { other } else { self }
    }
}
