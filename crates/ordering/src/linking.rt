// The chains of the reads of each cell, and how many of a node's reads read cells.
ghost use Rattle.std.specs.Prelude.{◌≡◌, ℕ, ◌+◌, ◌*◌, ◌^◌, ◌<◌, ◌≤◌, length, get_or, drop};
ghost use Rattle.ordering.specs.declared.widths.TheConstants.{READY_WORDS};
ghost use Rattle.graphs.specs.declared.TheConstants.{READS};
ghost use Rattle.ordering.specs.Areas.{head_set, next_set, Linked, linked, passing, entry_of};

use crate::graph::Graph;
use graphs::READS;

// Puts a read at the front of its source's chain.
#[tactic(auto, unfolding(crate::specs::Areas::head_set, crate::specs::Areas::next_set))]
pub fn link(area: &mut [usize], next: &mut [usize], edge: usize, from: Option<usize>)
    requires { (READY_WORDS * entry_of from ≤ length area.old) × (edge < length next.old) }
    ensures { (area.new ≡ head_set area.old edge (entry_of from)) × (next.new ≡ next_set area.old next.old edge (entry_of from)) }
{
    let Some(cell) = from else {
        return;
    };
    let head = 2 * cell + 1;
    next[edge] = area[head];
    area[head] = edge;
}

// Chains every read of a cell, each chain from its last read down.
pub fn link_all<G: Graph>(graph: &G, area: &mut [usize], next: &mut [usize])
    requires { (READY_WORDS * length (G.vertices graph.now) ≤ length area.old) × (READS * length (G.vertices graph.now) < length next.old) × ((x : ℕ) → x < length (G.vertices graph.now) → get_or area.old (2 * x + 1) 0 ≡ 0) }
    ensures { Linked (G.reads graph.now) (length (G.vertices graph.now)) (READS * length (G.vertices graph.now)) area.new next.new × (drop (2 * length (G.vertices graph.now)) area.new ≡ drop (2 * length (G.vertices graph.now)) area.old) }
{
    for done in 0..READS * graph.count() {
        let from = graph.source(done + 1);
        link(area, next, done + 1, from);
    }
}

// Whether a read reads a cell.
pub fn reads_cell<G: Graph>(graph: &G, edge: usize) -> bool
    requires { (1 ≤ edge) × (edge ≤ READS * length (G.vertices graph.now)) }
    ensures { result ≡ linked (G.reads graph.now) edge }
{
    graph.source(edge).is_some()
}

// How many of its reads read cells.
pub fn cells_read<G: Graph>(graph: &G, node: usize) -> usize
    requires { (node < length (G.vertices graph.now)) × (READS * length (G.vertices graph.now) < 2 ^ 64) }
    ensures { result ≡ passing (linked (G.reads graph.now)) node }
{
    let first = READS * node + 1;
    // By positions, whose number is constant: a compiler unrolls these.
    (0..READS)
        .filter(|&position| reads_cell(graph, first + position))
        .count()
}
