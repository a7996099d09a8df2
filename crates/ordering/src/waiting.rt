// The ready area: the reads that each node waits for, and the set of ready nodes.
// The C interface lends it, and it stands in no struct: a clause would name it `ready.old.words.now` and `ready.new.words.now`, longer than `area.old` and `area.new`, and promise that its count stays.
ghost use Rattle.std.specs.Prelude.{◌≡◌, [], true, ◌&&◌, ◌+◌, ◌*◌, ◌^◌, ◌<◌, ◌≤◌, min, eqb, length, get_or, drop};
ghost use Rattle.ordering.specs.declared.widths.TheConstants.{READY_WORDS};
ghost use Rattle.readyset.specs.Sets.{Levels};
ghost use Rattle.graphs.specs.declared.TheConstants.{READS};
ghost use Rattle.ordering.specs.Areas.{Linked, Empty, Running, Counted, Moved, Noted, Notable, Lowered, Opened, Releasable, Released};
ghost use Rattle.ordering.specs.Tree.{Kept};

use crate::graph::Graph;
use crate::linking::cells_read;
use graphs::READS;

// What is known of the ready cells: none is below `from`, and `number` counts them.
#[derive(Clone, Copy)]
pub struct ReadyCells {
    pub from: usize,
    pub number: usize,
}

impl ReadyCells {
    // One ready cell more.
    pub fn with_cell(self, node: usize) -> ReadyCells
        requires { self.number + 1 < 2 ^ 64 }
        ensures { (result.from ≡ min node self.from) × (result.number ≡ self.number + 1) }
    {
        ReadyCells {
            from: node.min(self.from),
            number: self.number + 1,
        }
    }
}

// Puts the node into the set of ready nodes, or takes it out.
pub fn mark_ready(area: &mut [usize], count: usize, node: usize, up: bool)
    requires { (READY_WORDS * count ≤ length area.old) × (node < count) × Levels (drop (2 * count) area.old) count }
    ensures { Moved up count area.old node area.new × Kept count area.old area.new }
{
    let from = 2 * count;
    readyset::mark(&mut area[from..], count, node, up);
}

// Notes how many reads of the node wait, and puts it into the set of ready nodes if asked.
pub fn note(
    area: &mut [usize],
    count: usize,
    node: usize,
    left: usize,
    up: bool,
    cells: ReadyCells,
) -> ReadyCells
    requires { Notable count area.old node cells }
    ensures { Noted count area.old node left up area.new × Counted count area.new result × Kept count area.old area.new }
{
    area[2 * node] = left;
    if up {
        mark_ready(area, count, node, true);
        return cells.with_cell(node);
    }
    cells
}

// One read less of the node waits; the last one makes it ready. `Window::lower` keeps the tree too, and asks for keys.
pub fn lower(area: &mut [usize], count: usize, node: usize, cells: ReadyCells) -> ReadyCells
    requires { Notable count area.old node cells × (1 ≤ get_or area.old (2 * node) 0) }
    ensures { Lowered count area.old node area.new × Counted count area.new result × Kept count area.old area.new }
{
    let left = area[2 * node] - 1;
    note(area, count, node, left, left == 0, cells)
}

// Takes the ready node: each cell that reads it waits for one read less, and it leaves the set.
// Beside `Window::release`, which keeps the tree too: one function over both would need a trait with what each keeps as a ghost member, more than two short loops.
pub fn release(
    area: &mut [usize],
    next: &[usize],
    count: usize,
    node: usize,
    cells: ReadyCells,
) -> ReadyCells
    requires { Releasable count area.old next.now node × Counted count area.old cells }
    ensures { Released count area.old next.now node area.new × Counted count area.new result }
{
    let mut left = cells;
    // No heap, and the areas are lent: a chain goes by numbers in words, each read names the next, and 0 ends it.
    let mut edge = area[2 * node + 1];
    while edge != 0 {
        left = lower(area, count, (edge - 1) / READS, left);
        edge = next[edge];
    }
    mark_ready(area, count, node, false);
    ReadyCells {
        number: left.number - 1,
        ..left
    }
}

// Whether a node is ready before anything is taken: a cell that waits for nothing.
pub fn is_ready(is_cell: bool, left: usize) -> bool
    ensures { result ≡ is_cell && eqb left 0 }
{
    is_cell && left == 0
}

// What a node waits for, and whether it is ready, before anything is taken.
pub fn open<G: Graph>(
    graph: &G,
    area: &mut [usize],
    count: usize,
    node: usize,
    cells: ReadyCells,
) -> ReadyCells
    requires { Notable count area.old node cells × (count ≡ length (G.vertices graph.now)) }
    ensures { Opened (G.reads graph.now) (G.vertices graph.now) count area.old node area.new × Counted count area.new result }
{
    let left = cells_read(graph, node);
    let up = is_ready(graph.is_cell(node), left);
    note(area, count, node, left, up, cells)
}

// The same of every node, from an empty set.
pub fn open_all<G: Graph>(graph: &G, area: &mut [usize], count: usize, next: &[usize]) -> ReadyCells
    requires { (READY_WORDS * count ≤ length area.old) × (READS * count < length next.now) × Linked (G.reads graph.now) count (READS * count) area.old next.now × Empty count area.old × (count ≡ length (G.vertices graph.now)) }
    ensures { Running (G.reads graph.now) (G.vertices graph.now) [] area.new next.now × Counted count area.new result }
{
    let mut cells = ReadyCells {
        from: count,
        number: 0,
    };
    for node in 0..count {
        cells = open(graph, area, count, node, cells);
    }
    cells
}
