// The values of an assignment put in at the inputs.
ghost use Rattle.std.specs.Prelude.{◌≡◌, false, ◌<◌, ◌≤◌, length};
ghost use Rattle.circuit.specs.Records.{node_at, nodes_of, is_cell_node};
ghost use Rattle.values.specs.Assignments.{input_count};
ghost use Rattle.runs.specs.Runs.{put_in};
ghost use Rattle.runs.specs.Inner.{InputPut};

use circuit::nodes::Nodes;

/// Puts in the value of node k, if it is an input: the one at place `input` of the assignment. The answer is the place of the next input's.
pub fn put_input(
    nodes: Nodes,
    k: usize,
    assignment: &[u8],
    input: usize,
    values: &mut [u8],
) -> usize
    requires inside { (k < nodes.count) × (k < length values.old) }
    requires given { is_cell_node (node_at nodes.words.now k) ≡ false → input < length assignment.now }
    ensures { InputPut (node_at nodes.entry.words.now k) k assignment.now input values.old result values.new }
{
    if nodes.is_cell(k) {
        return input;
    }
    values[k] = assignment[input];
    input + 1
}

/// Puts in a value for each input, in storage order. The values of the cells stay.
pub fn put_inputs(nodes: Nodes, assignment: &[u8], values: &mut [u8])
    requires stored { nodes.count ≤ length values.old }
    requires one_each { length assignment.now ≡ input_count (nodes_of nodes.words.now nodes.count) }
    ensures { values.new ≡ put_in assignment.now 0 0 values.old (nodes_of nodes.entry.words.now nodes.entry.count) }
{
    let mut input = 0;
    for k in 0..nodes.count {
        input = put_input(nodes, k, assignment, input, values);
    }
}
