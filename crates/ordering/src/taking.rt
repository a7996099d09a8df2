// Cell after cell is taken, until none is ready.
ghost use Rattle.std.specs.Prelude.{◌≡◌, ◌≢◌, [], ◌+◌, ◌*◌, ◌<◌, ◌≤◌, min, length, drop};
ghost use Rattle.ordering.specs.declared.widths.TheConstants.{KEY_WORDS, READY_WORDS};
ghost use Rattle.std.specs.Int.NonZero.{non_zero_usize_get};
ghost use Rattle.graphs.specs.Graph.{cells_of};
ghost use Rattle.ordering.specs.Schedule.{key_at, schedule_of};
ghost use Rattle.graphs.specs.declared.TheConstants.{READS};
ghost use Rattle.ordering.specs.Areas.{Counted, Startable, Scheduled, Filled, Listed};
ghost use Rattle.ordering.specs.Taking.{Took, Resumable, Finished};
ghost use Rattle.ordering.specs.Tree.{Tracked};

use crate::graph::Graph;
use crate::linking::link_all;
use crate::picking::{first_ready, pick_next};
use crate::tree::tree_at;
use crate::waiting::{ReadyCells, open_all, release};
use crate::window::Window;
use std::num::NonZeroUsize;

// How many cells are taken, and what is known of the ready ones.
#[derive(Clone, Copy)]
pub struct Taken {
    pub taken: usize,
    pub cells: ReadyCells,
}

// How many cells a step by scanning looks at, 0 where they are few.
pub fn scanned(count: usize, window: usize, number: usize) -> usize
    ensures { result ≢ 0 → 64 ≤ count }
{
    let most = window.min(number);
    if count < 64 || most <= 32 { 0 } else { most }
}

// Takes cell after cell by scanning the ready ones, until none is ready or too many have been looked at.
pub fn take_scanning(
    area: &mut [usize],
    next: &[usize],
    keys: &[u32],
    order: &mut [usize],
    count: usize,
    window: NonZeroUsize,
    start: ReadyCells,
) -> Taken
    requires { Startable count area.old next.now × (KEY_WORDS * count ≤ length keys.now) × (count ≤ length order.old) × Counted count area.old start }
    ensures { Took area.old next.now keys.now count (non_zero_usize_get window) result.taken order.new area.new × (result.taken ≤ length order.new) × (drop result.taken order.new ≡ drop result.taken order.old) × Counted count area.new result.cells × ((result.cells.number ≢ 0) → 64 ≤ count) }
{
    let mut taken = 0;
    let mut cells = start;
    let mut budget = count;
    // A `while`: how many cells become ready shows only as they are taken.
    while cells.number != 0 {
        let cost = scanned(count, window.get(), cells.number);
        let Some(left) = budget.checked_sub(cost) else {
            break;
        };
        budget = left;
        let picked = pick_next(area, keys, count, window, cells);
        order[taken] = picked.node;
        taken += 1;
        let from_first = ReadyCells {
            from: picked.first,
            ..cells
        };
        cells = release(area, next, count, picked.node, from_first);
    }
    Taken { taken, cells }
}

// The same by the tree of the best ready cells, until none is ready; returns how many are taken in all.
pub fn take_ranked(
    area: &mut [usize],
    next: &[usize],
    keys: &[u32],
    order: &mut [usize],
    count: usize,
    window: NonZeroUsize,
    done: usize,
    start: Window,
) -> usize
    requires { Resumable count area.old next.now keys.now (non_zero_usize_get window) done order.old × (KEY_WORDS * count ≤ length keys.now) × (count ≤ length order.old) × (done ≤ length order.old) × Tracked count keys.now area.old start × (start.inside ≡ min (non_zero_usize_get window) start.number) }
    ensures { Finished count area.old next.now keys.now (non_zero_usize_get window) done order.old order.new result × ((done ≤ result) × (drop result order.new ≡ drop result order.old)) }
{
    let mut taken = done;
    let mut at = start;
    let root = tree_at(count) + 1;
    // A `while`: how many cells become ready shows only as they are taken.
    while at.number != 0 {
        let node = area[root] - 1;
        order[taken] = node;
        taken += 1;
        let left = at.release(area, next, keys, count, node);
        at = left.settle(area, keys, count, window.get());
    }
    taken
}

// Takes cell after cell, until none is ready; returns how many.
pub fn take_all(
    area: &mut [usize],
    next: &[usize],
    keys: &[u32],
    order: &mut [usize],
    count: usize,
    window: NonZeroUsize,
    start: ReadyCells,
) -> usize
    requires { Startable count area.old next.now × (KEY_WORDS * count ≤ length keys.now) × (count ≤ length order.old) × Counted count area.old start }
    ensures { Scheduled count area.old next.now keys.now (non_zero_usize_get window) order.new result × (drop result order.new ≡ drop result order.old) }
{
    let first = take_scanning(area, next, keys, order, count, window, start);
    if first.cells.number == 0 {
        return first.taken;
    }
    let at = Window::ranked(area, keys, count, window.get(), first.cells);
    take_ranked(area, next, keys, order, count, window, first.taken, at)
}

// The same at window 1, where keys don't count: the smallest ready cell, again and again.
pub fn take_first(
    area: &mut [usize],
    next: &[usize],
    order: &mut [usize],
    count: usize,
    start: ReadyCells,
) -> usize
    requires { Startable count area.old next.now × (count ≤ length order.old) × Counted count area.old start }
    ensures { Scheduled count area.old next.now [] 1 order.new result × (drop result order.new ≡ drop result order.old) }
{
    let mut taken = 0;
    let mut cells = start;
    // A `while`: how many cells become ready shows only as they are taken.
    while cells.number != 0 {
        let first = first_ready(area, count, cells);
        order[taken] = first;
        taken += 1;
        let from_first = ReadyCells {
            from: first,
            ..cells
        };
        cells = release(area, next, count, first, from_first);
    }
    taken
}

// How many cells the graph has.
pub fn count_cells<G: Graph>(graph: &G) -> usize
    ensures { result ≡ length (cells_of (G.vertices graph.now)) }
{
    (0..graph.count())
        .filter(|&node| graph.is_cell(node))
        .count()
}

// The order of the cells, in the first records of the order area; returns how many.
pub fn order_cells<G: Graph>(
    graph: &G,
    keys: &[u32],
    window: NonZeroUsize,
    area: &mut [usize],
    next: &mut [usize],
    order: &mut [usize],
) -> usize
    requires { (READY_WORDS * length (G.vertices graph.now) ≤ length area.old) × (READS * length (G.vertices graph.now) < length next.old) × (KEY_WORDS * length (G.vertices graph.now) ≤ length keys.now) × (length (G.vertices graph.now) ≤ length order.old) }
    ensures { Filled (schedule_of (G.vertices graph.now) (non_zero_usize_get window) (key_at keys.now)) order.old order.new result }
{
    let count = graph.count();
    area.fill(0);
    link_all(graph, area, next);
    let cells = open_all(graph, area, count, next);
    take_all(area, next, keys, order, count, window, cells)
}

// The same at window 1, without keys.
pub fn first_order<G: Graph>(
    graph: &G,
    area: &mut [usize],
    next: &mut [usize],
    order: &mut [usize],
) -> usize
    requires { (READY_WORDS * length (G.vertices graph.now) ≤ length area.old) × (READS * length (G.vertices graph.now) < length next.old) × (length (G.vertices graph.now) ≤ length order.old) }
    ensures { Filled (schedule_of (G.vertices graph.now) 1 (key_at [])) order.old order.new result }
{
    let count = graph.count();
    area.fill(0);
    link_all(graph, area, next);
    let cells = open_all(graph, area, count, next);
    take_first(area, next, order, count, cells)
}

// The same with zeros after the order.
pub fn fresh_order<G: Graph>(
    graph: &G,
    keys: &[u32],
    window: NonZeroUsize,
    area: &mut [usize],
    next: &mut [usize],
    order: &mut [usize],
) -> usize
    requires { (READY_WORDS * length (G.vertices graph.now) ≤ length area.old) × (READS * length (G.vertices graph.now) < length next.old) × (KEY_WORDS * length (G.vertices graph.now) ≤ length keys.now) × (length (G.vertices graph.now) ≤ length order.old) }
    ensures { Listed (schedule_of (G.vertices graph.now) (non_zero_usize_get window) (key_at keys.now)) order.new result }
{
    order.fill(0);
    order_cells(graph, keys, window, area, next, order)
}
