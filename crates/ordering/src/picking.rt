// A step's pick: among the smallest ready nodes, the one of the greatest key; and the members of a set, one after the other.
ghost use Rattle.std.specs.Prelude.{◌≡◌, ◌+◌, ◌*◌, ◌<◌, ◌≤◌, length, take, drop, MatchOption};
ghost use Rattle.ordering.specs.declared.widths.TheConstants.{KEY_WORDS, READY_WORDS};
ghost use Rattle.std.proofs.Math.Option.{some};
ghost use Rattle.std.specs.Int.NonZero.{non_zero_usize_get};
ghost use Rattle.laws.specs.Lists.{numbers};
ghost use Rattle.readyset.specs.Sets.{member, Levels, First};
ghost use Rattle.ordering.specs.Schedule.{key_at, pick};
ghost use Rattle.ordering.specs.Areas.{Counted, PickedIs, FirstReady};
ghost use Rattle.ordering.specs.Members.{members_left, Going, GivesMember};

use crate::keys::Best;
use crate::members::Members;
use crate::waiting::ReadyCells;
use std::num::NonZeroUsize;

#[derive(Clone, Copy)]
pub struct Picked {
    pub node: usize,
    pub first: usize,
}

impl<'a> Iterator for Members<'a> {
    ghost use Rattle.std.specs.Iterator.{item_count};

    type Item = usize;

    ghost can_next = { Going };

    ghost next_gives = { GivesMember };

    ghost remaining = { item_count members_left };

    // Inlined, since a pick calls it for each cell that it looks at.
    #[inline(always)]
    fn next(&mut self) -> Option<usize> {
        let Members {
            set,
            nodes,
            from,
            rest,
        } = *self;
        if rest != 0 {
            let t = rest.trailing_zeros() as usize;
            let node = from + t;
            *self = Members {
                set,
                nodes,
                from: node + 1,
                rest: (rest >> t) >> 1,
            };
            return (node < nodes).then_some(node);
        }
        let node = readyset::next(set, nodes, from)?;
        *self = Members {
            set,
            nodes,
            from: node + 1,
            rest: (set[node / 64] >> (node % 64)) >> 1,
        };
        Some(node)
    }
}

// Among `first`, the smallest member of the set, and so many others after it, the one of the greatest key.
pub fn pick_ready(set: &[usize], keys: &[u32], nodes: usize, others: usize, first: usize) -> usize
    requires { (nodes ≤ length set.now) × (KEY_WORDS * nodes ≤ length keys.now) × Levels set.now nodes × (first < nodes) × First (member set.now) 0 nodes first }
    ensures { some result ≡ pick (key_at keys.now) (take (others + 1) (numbers (member set.now) 0 nodes)) }
{
    let mut best = Best::of(keys, first);
    let after = Members {
        set,
        nodes,
        from: first + 1,
        rest: 0,
    };
    for node in after.take(others) {
        best = best.better(keys, node);
    }
    best.node
}

// The same over the ready area, where the set of ready nodes follows two words for each node.
pub fn pick_next(
    area: &[usize],
    keys: &[u32],
    count: usize,
    window: NonZeroUsize,
    cells: ReadyCells,
) -> Picked
    requires { (READY_WORDS * count ≤ length area.now) × (KEY_WORDS * count ≤ length keys.now) × Levels (drop (2 * count) area.now) count × (1 ≤ cells.number) × Counted count area.now cells }
    ensures { PickedIs count area.now keys.now (non_zero_usize_get window) result }
{
    let from = 2 * count;
    let first = readyset::next(&area[from..], count, cells.from).unwrap();
    let most = window.get().min(cells.number);
    let node = pick_ready(&area[from..], keys, count, most - 1, first);
    Picked { node, first }
}

// The smallest ready node: a step's pick at window 1.
pub fn first_ready(area: &[usize], count: usize, cells: ReadyCells) -> usize
    requires { (READY_WORDS * count ≤ length area.now) × Levels (drop (2 * count) area.now) count × (1 ≤ cells.number) × Counted count area.now cells }
    ensures { FirstReady count area.now result }
{
    let from = 2 * count;
    readyset::next(&area[from..], count, cells.from).unwrap()
}
