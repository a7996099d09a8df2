// Which order lists are fit, by marks: a bit for each node of a block, and one pass over the list for each block. They stand in an array of this crate's own,
// since an unfit list is refused before an area that is too short.
ghost use Rattle.std.specs.Prelude.{◌≡◌, false, [], ◌-◌, ◌*◌, ◌/◌, ◌%◌, ◌<◌, ◌≤◌, length, is_some, MatchOption};
ghost use Rattle.circuit.specs.Records.{node_at, nodes_of, wires_of};
ghost use Rattle.circuit.specs.Check.{not_below, some_not_below};
ghost use Rattle.circuit.specs.Graph.{graph_of};
ghost use Rattle.graphs.specs.Graph.{fit, fit_list};
ghost use Rattle.values.specs.Assignments.{input_count};
ghost use Rattle.runs.specs.Fit.{within, block_size, fit_here, Marks, waits_here, wire_waits, some_waits, MarkSet, EntryTaken};

use cells::{set_table_entry, table_entry};
use circuit::checked::CheckedCircuit;
use circuit::nodes::Nodes;
use circuit::records::{BoolWire, wire_count};

/// The marks in one word.
const WORD_MARKS: usize = 64;

/// The words of marks for a circuit of up to 4,096 nodes: to clear more would take longer than the rest of its run.
const FEW_WORDS: usize = 64;

/// The words of marks for one of up to 131,072 nodes, 16 KB.
const MANY_WORDS: usize = 2048;

/// The words of marks for a larger one, 128 KB: a pass over the list for each 1,048,576 nodes, as many as a reader makes. Two passes take a fifth longer.
const MOST_WORDS: usize = 16_384;

/// The word and the bit of node x's mark, if it is of the block from `lo` on.
fn mark_place(x: usize, lo: usize, marks: &[usize]) -> Option<(usize, usize)>
    ensures { MatchOption result (within lo (block_size marks.now) x ≡ false) (λ p. (lo ≤ x) × (p.0 ≡ (x - lo) / WORD_MARKS) × (p.1 ≡ (x - lo) % WORD_MARKS) × ((x - lo) / WORD_MARKS < length marks.now)) }
{
    let i = x.checked_sub(lo)?;
    (i / WORD_MARKS < marks.len()).then_some((i / WORD_MARKS, i % WORD_MARKS))
}

/// Node k is a cell of the block, and not marked.
pub fn waits_here(nodes: Nodes, k: usize, lo: usize, marks: &[usize]) -> bool
    requires { k < nodes.count }
    ensures { result ≡ waits_here nodes.entry.words.now lo marks.now k }
{
    let Some((w, j)) = mark_place(k, lo, marks) else {
        return false;
    };
    table_entry(marks[w], j) == 0 && nodes.is_cell(k)
}

/// The wire is of such a node.
pub fn wire_waits(nodes: Nodes, wire: BoolWire, lo: usize, marks: &[usize]) -> bool
    requires { not_below nodes.count wire ≡ false }
    ensures { result ≡ wire_waits nodes.entry.words.now lo marks.now wire }
{
    match wire {
        BoolWire::Const(_) => false,
        BoolWire::Node(n) => waits_here(nodes, n.0, lo, marks),
    }
}

/// Some wire of node x is.
pub fn some_waits(nodes: Nodes, x: usize, lo: usize, marks: &[usize]) -> bool
    requires inside { x < nodes.count }
    requires wired { some_not_below nodes.count (wires_of (node_at nodes.words.now x)) ≡ false }
    ensures { result ≡ some_waits nodes.entry.words.now lo marks.now (wires_of (node_at nodes.entry.words.now x)) }
{
    for k in 0..wire_count(nodes.at(x)) {
        if wire_waits(nodes, nodes.wire(x, k), lo, marks) {
            return true;
        }
    }
    false
}

/// Marks node x, if it is of the block. None if it was marked before.
pub fn mark(x: usize, lo: usize, marks: &mut [usize]) -> Option<()>
    ensures { MarkSet lo marks.old x (is_some result) marks.new }
{
    let Some((w, j)) = mark_place(x, lo, marks) else {
        return Some(());
    };
    if table_entry(marks[w], j) != 0 {
        return None;
    }
    marks[w] = set_table_entry(marks[w], j, 1);
    Some(())
}

/// Takes one entry of a list: as far as the block tells, it is a cell that was not taken, and the cells that it reads were. It is marked.
pub fn take_entry(circuit: CheckedCircuit, x: usize, lo: usize, marks: &mut [usize]) -> Option<()>
    ensures { EntryTaken circuit.entry.nodes.words.now circuit.entry.nodes.count x lo marks.old (is_some result) marks.new }
{
    let nodes = circuit.nodes;
    if nodes.count <= x || !nodes.is_cell(x) || some_waits(nodes, x, lo, marks) {
        return None;
    }
    mark(x, lo, marks)
}

/// Takes the entries of a list in turn.
pub fn take_entries(
    circuit: CheckedCircuit,
    order: &[usize],
    lo: usize,
    marks: &mut [usize],
) -> Option<()>
    requires { Marks lo marks.old [] }
    ensures { is_some result ≡ fit_here circuit.entry.nodes.words.now circuit.entry.nodes.count lo (block_size marks.old) order.now }
{
    for x in order {
        take_entry(circuit, *x, lo, marks)?;
    }
    Some(())
}

/// One pass over the list, with marks for the nodes from `lo` on.
// Not inlined: in the exported call the loop would have too few registers, and the most marks would stand on the stack of every run.
#[inline(never)]
fn fit_block<const N: usize>(circuit: CheckedCircuit, order: &[usize], lo: usize) -> Option<()>
    requires { N ≤ MOST_WORDS }
    ensures { is_some result ≡ fit_here circuit.entry.nodes.words.now circuit.entry.nodes.count lo (N * WORD_MARKS) order.now }
{
    let mut marks = [0; N];
    take_entries(circuit, order, lo, &mut marks)
}

/// A pass for each block of so many words of marks.
fn fit_blocks<const N: usize>(circuit: CheckedCircuit, order: &[usize]) -> Option<()>
    requires { (length order.now ≤ circuit.nodes.count) × (0 < N) × (N ≤ MOST_WORDS) }
    ensures { is_some result ≡ fit (graph_of (nodes_of circuit.entry.nodes.words.now circuit.entry.nodes.count)) [] order.now }
{
    for lo in (0..circuit.nodes.count).step_by(N * WORD_MARKS) {
        fit_block::<N>(circuit, order, lo)?;
    }
    Some(())
}

/// Each entry of the list is a cell, after the cells that it reads, and none stands twice.
pub fn fit_marked(circuit: CheckedCircuit, order: &[usize]) -> Option<()>
    requires { length order.now ≤ circuit.nodes.count }
    ensures { is_some result ≡ fit (graph_of (nodes_of circuit.entry.nodes.words.now circuit.entry.nodes.count)) [] order.now }
{
    if circuit.nodes.count <= FEW_WORDS * WORD_MARKS {
        fit_blocks::<FEW_WORDS>(circuit, order)
    } else if circuit.nodes.count <= MANY_WORDS * WORD_MARKS {
        fit_blocks::<MANY_WORDS>(circuit, order)
    } else {
        fit_blocks::<MOST_WORDS>(circuit, order)
    }
}

/// The list has each cell once, after the cells that it reads. The circuit has so many inputs.
pub fn fit_list(circuit: CheckedCircuit, inputs: usize, order: &[usize]) -> bool
    requires { inputs ≡ input_count (nodes_of circuit.nodes.words.now circuit.nodes.count) }
    ensures { result ≡ fit_list (graph_of (nodes_of circuit.entry.nodes.words.now circuit.entry.nodes.count)) order.now }
{
    order.len() == circuit.nodes.count - inputs && fit_marked(circuit, order).is_some()
}
