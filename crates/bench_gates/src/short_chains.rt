// The chained gates of two and three inputs, made from their wires.
ghost use Rattle.std.specs.Prelude.{[], ◌∷◌, ◌+◌, ◌≤◌, length, get_or};
ghost use Rattle.names.specs.Chains.{IsNew};
ghost use Rattle.reading.specs.Reading.{add_named};
ghost use Rattle.reading.specs.Holding.{NamedNodesHold, NamedNodesHoldAfter, HeldStep};
ghost use Rattle.bench_gates.specs.Gates.{last_cell, chain};

use crate::chains::push_bench_lut;
use crate::operations::Binary;
use crate::plans::KEPT;
use circuit::records::{NodeNumber, node_word};
use circuit::refusals::Refusal;
use names::new_name::NewName;
use reading::records::{Counts, add_named, stretch_name, word_cell};

/// A cell of two wires with the gate's name: the last of a chain, or all of it.
pub fn chain_pair(
    text: &[u8],
    out: NewName,
    operation: Binary,
    x: usize,
    y: usize,
    counts: Counts,
    heads: &mut [usize; 256],
    nodes: &mut [usize],
    names: &mut [usize],
) -> Result<Counts, Refusal>
    requires areas { NamedNodesHold text.now heads.old nodes.old names.old counts }
    requires new { IsNew text.now heads.old names.old counts.names out }
    ensures areas { NamedNodesHoldAfter text.now heads.new nodes.new names.new result }
    ensures step { HeldStep (λ p. add_named p out.word (last_cell out.word operation x y))
        nodes.old names.old counts nodes.new names.new result }
{
    let node = word_cell(stretch_name(out.word), operation.truth_table(), &[x, y]);
    add_named(text, out, node, counts, heads, nodes, names)
}

/// A gate of three inputs: the step that chains the first two, then the last cell. `chain_many` would look for the third input's wire again.
#[tactic(auto, using(circuit::proofs::Codes::length_nodes), unfolding(crate::specs::Gates::chain))]
pub fn chain_triple(
    text: &[u8],
    out: NewName,
    operation: Binary,
    wires: [usize; KEPT],
    counts: Counts,
    heads: &mut [usize; 256],
    nodes: &mut [usize],
    names: &mut [usize],
) -> Result<Counts, Refusal>
    requires areas { NamedNodesHold text.now heads.old nodes.old names.old counts }
    requires new { IsNew text.now heads.old names.old counts.names out }
    ensures areas { NamedNodesHoldAfter text.now heads.new nodes.new names.new result }
    ensures step { let rest = get_or wires 1 0 ∷ get_or wires 2 0 ∷ [] in
        HeldStep (λ p. chain p out.word operation 1 (get_or wires 0 0) rest)
        nodes.old names.old counts nodes.new names.new result }
{
    let [x, y, z] = wires;
    let made = push_bench_lut(out.word, operation, 1, x, y, counts.nodes, nodes)?;
    let step = node_word(NodeNumber(counts.nodes));
    let chained = Counts {
        nodes: made,
        ..counts
    };
    chain_pair(text, out, operation, step, z, chained, heads, nodes, names)
}
