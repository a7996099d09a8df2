// One step of a run, and the steps along a list.
ghost use Rattle.std.specs.Prelude.{◌≡◌, ◌<◌, ◌≤◌, length};
ghost use Rattle.circuit.specs.Records.{node_at, nodes_of};
ghost use Rattle.values.specs.Inner.{SoundCell};
ghost use Rattle.runs.specs.Runs.{step, steps};
ghost use Rattle.runs.specs.Inner.{SoundCells};

use circuit::nodes::Nodes;
use values::cell::answer;

/// One entry of a list: the answer of cell x, on what stands in the store, is stored at its place. No other value changes.
#[tactic(auto, unfolding(crate::specs::Runs::step), using(circuit::proofs::Codes::node_of))]
pub fn step(nodes: Nodes, x: usize, values: &mut [u8])
    requires inside { (x < nodes.count) × (x < length values.old) }
    requires sound { SoundCell (length values.old) (node_at nodes.words.now x) }
    ensures { values.new ≡ step (nodes_of nodes.entry.words.now nodes.entry.count) values.old x }
{
    values[x] = answer(nodes, x, values);
}

/// A step for each entry of a list, in turn.
pub fn run_steps(nodes: Nodes, order: &[usize], values: &mut [u8])
    requires stored { nodes.count ≤ length values.old }
    requires sound { SoundCells nodes.words.now nodes.count (length values.old) order.now }
    ensures { values.new ≡ steps (nodes_of nodes.entry.words.now nodes.entry.count) values.old order.now }
{
    for x in order {
        step(nodes, *x, values);
    }
}
