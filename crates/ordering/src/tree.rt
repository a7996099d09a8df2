// The tree of the best ready cells, in the ready area behind the set of ready nodes.
//
//     1                      better of 2 and 3: the best of all
//     2          3           better of 4 and 5, and of 6 and 7
//     4    5     6    7      leaf w, at entry leaves + w: the best ready cell of word w of the set
//     |    |     |    |
//     0..  64..  128.. 192..  the 64 nodes of that word; only ready ones below the window's limit count
//
// Entry 0 is not used, and entry v stands above the entries 2 v and 2 v + 1. An entry is one word of the lent area: 0 for no node, or the node's number and 1.
// When a node gets ready or is taken, its leaf is written anew and then the entries above it, as far as they change: at most as many as the tree is high.
ghost use Rattle.std.specs.Prelude.{◌≡◌, not, cond, ◌+◌, ◌*◌, ◌/◌, ◌^◌, ◌<◌, ◌≤◌, eqb, length, get_or, set};
ghost use Rattle.ordering.specs.declared.widths.TheConstants.{KEY_WORDS};
ghost use Rattle.ordering.specs.Schedule.{key_at, above};
ghost use Rattle.ordering.specs.Tree.{ahead, Winner, InWord, better_of, Joined, LeavesKept, tree_at, Rankable, LeafPut, LeavesPut, Ranked, Fronted};

use crate::keys::Best;

// Of two nodes, the first the smaller, the one that is taken before the other.
pub fn first_of(keys: &[u32], a: usize, b: usize) -> usize
    requires { (KEY_WORDS * a + 2 < length keys.now) × (KEY_WORDS * b + 2 < length keys.now) }
    ensures { result ≡ cond (above (key_at keys.now b) (key_at keys.now a)) b a }
{
    Best::of(keys, a).better(keys, b).node
}

// Of two entries the better. An entry is one word of the lent area: 0 for no node, or the node's number and 1.
pub fn better_entry(keys: &[u32], a: usize, b: usize) -> usize
    requires { (KEY_WORDS * a ≤ length keys.now) × (KEY_WORDS * b ≤ length keys.now) }
    ensures { result ≡ ahead (key_at keys.now) a b }
{
    if a == 0 {
        return b;
    }
    if b == 0 {
        return a;
    }
    first_of(keys, a.min(b) - 1, a.max(b) - 1) + 1
}

// The entry of the members of the word w that are below the limit.
pub fn leaf(ready: &[usize], keys: &[u32], limit: usize, w: usize) -> usize
    requires { (w < length ready.now) × (64 * w ≤ length keys.now) × (KEY_WORDS * limit ≤ length keys.now) }
    ensures { Winner (key_at keys.now) (InWord ready.now limit w) result }
{
    let mut best = 0;
    // A `while`, bit after bit that is set: an iterator over them would be this loop again, in its `next`.
    let mut i = 64 * w;
    let mut rest = ready[w];
    while rest != 0 {
        let t = rest.trailing_zeros() as usize;
        let node = i + t;
        if limit <= node {
            break;
        }
        best = better_entry(keys, best, node + 1);
        i = node + 1;
        rest = (rest >> t) >> 1;
    }
    best
}

// Makes an entry the better of the two below it; whether it changed.
pub fn join(tree: &mut [usize], keys: &[u32], v: usize) -> bool
    requires { (2 * v + 1 < length tree.old) × (KEY_WORDS * get_or tree.old (2 * v) 0 ≤ length keys.now) × (KEY_WORDS * get_or tree.old (2 * v + 1) 0 ≤ length keys.now) }
    ensures { (tree.new ≡ set tree.old v (better_of (key_at keys.now) tree.old v)) × (result ≡ not (eqb (get_or tree.old v 0) (better_of (key_at keys.now) tree.old v))) }
{
    let best = better_entry(keys, tree[2 * v], tree[2 * v + 1]);
    let old = tree[v];
    tree[v] = best;
    old != best
}

// Makes the entry `from` and those above it right, as far as they change.
pub fn climb(tree: &mut [usize], keys: &[u32], leaves: usize, nodes: usize, from: usize)
    requires { Joined (key_at keys.now) leaves nodes tree.old 1 from × (from < leaves) × (KEY_WORDS * nodes ≤ length keys.now) }
    ensures { Joined (key_at keys.now) leaves nodes tree.new 1 0 × LeavesKept leaves tree.old tree.new }
{
    let mut v = from;
    // A `while`: from an entry to the one above it, and only as far as entries change.
    while v != 0 && join(tree, keys, v) {
        v /= 2;
    }
}

// All entries above the leaves.
pub fn join_all(tree: &mut [usize], keys: &[u32], leaves: usize, nodes: usize)
    requires { Joined (key_at keys.now) leaves nodes tree.old leaves 0 × (1 ≤ leaves) × (KEY_WORDS * nodes ≤ length keys.now) }
    ensures { Joined (key_at keys.now) leaves nodes tree.new 1 0 × LeavesKept leaves tree.old tree.new }
{
    for v in (1..leaves).rev() {
        join(tree, keys, v);
    }
}

// How many leaves the tree of so many nodes has: one for each word of their set.
pub fn leaves(count: usize) -> usize
    ensures { result ≡ count / 64 + 1 }
{
    count / 64 + 1
}

// Where the tree begins in the ready area: after two words for each node, and the set with its summaries.
pub fn tree_at(count: usize) -> usize
    requires { tree_at count < 2 ^ 64 }
    ensures { result ≡ tree_at count }
{
    2 * count + 2 * leaves(count)
}

// Writes the leaf of the word w.
pub fn put_leaf(area: &mut [usize], keys: &[u32], count: usize, limit: usize, w: usize)
    requires { Rankable count limit keys.now area.old × (w < count / 64 + 1) }
    ensures { LeafPut count limit keys.now area.old w area.new }
{
    let from = 2 * count;
    let best = leaf(&area[from..], keys, limit, w);
    let at = tree_at(count) + (leaves(count) + w);
    area[at] = best;
}

// Makes the tree right after the word w of the set changed.
pub fn refresh(area: &mut [usize], keys: &[u32], count: usize, limit: usize, w: usize)
    requires { Ranked count limit keys.now area.old w × (w < count / 64 + 1) × (KEY_WORDS * count ≤ length keys.now) }
    ensures { Ranked count limit keys.now area.new (count / 64 + 1) × Fronted count area.old area.new }
{
    put_leaf(area, keys, count, limit, w);
    let base = tree_at(count);
    let leaves = leaves(count);
    climb(&mut area[base..], keys, leaves, count, (leaves + w) / 2);
}

// Writes every leaf.
pub fn put_leaves(area: &mut [usize], keys: &[u32], count: usize, limit: usize)
    requires { Rankable count limit keys.now area.old }
    ensures { LeavesPut count limit keys.now area.old (count / 64 + 1) area.new }
{
    for w in 0..leaves(count) {
        put_leaf(area, keys, count, limit, w);
    }
}

// The tree of the ready nodes below the limit.
pub fn rank(area: &mut [usize], keys: &[u32], count: usize, limit: usize)
    requires { Rankable count limit keys.now area.old }
    ensures { Ranked count limit keys.now area.new (count / 64 + 1) × Fronted count area.old area.new }
{
    put_leaves(area, keys, count, limit);
    let base = tree_at(count);
    join_all(&mut area[base..], keys, leaves(count), count);
}
