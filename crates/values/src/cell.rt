// The value of a cell, from the values of the nodes that it reads.
ghost use Rattle.std.specs.Prelude.{◌≡◌, false, ◌<◌, length};
ghost use Rattle.circuit.specs.Records.{node_at};
ghost use Rattle.circuit.specs.Check.{not_below};
ghost use Rattle.values.specs.Values.{signal_value, answer_of};
ghost use Rattle.values.specs.Inner.{SoundCell};

use cells::folding::cell_value;
use cells::pairs::pair_value;
use circuit::nodes::Nodes;
use circuit::records::{BoolWire, WIRES, wire_count};

/// The value of a wire: a constant's own, a node's among the values of the nodes.
pub fn wire_value(wire: BoolWire, values: &[u8]) -> u8
    requires { not_below (length values.now) wire ≡ false }
    ensures { result ≡ signal_value values.now wire }
{
    match wire {
        BoolWire::Const(value) => u8::from(value),
        BoolWire::Node(n) => values[n.0],
    }
}

/// The answer of cell i by the filling rule, over any number of wires.
pub fn filled(nodes: Nodes, i: usize, values: &[u8]) -> u8
    requires inside { i < nodes.count }
    requires sound { SoundCell (length values.now) (node_at nodes.words.now i) }
    ensures { result ≡ answer_of values.now (node_at nodes.entry.words.now i) }
{
    let n = nodes.at(i);
    let count = wire_count(n);
    let mut read = [0; WIRES];
    for (k, value) in read[..count].iter_mut().enumerate() {
        *value = wire_value(nodes.wire(i, k), values);
    }
    cell_value(n.table, &read[..count])
}

/// The answer of cell i, 0, 1 or unknown: of two wires by the table of answers, of any other number by the filling rule. A value above 1 is unknown.
pub fn answer(nodes: Nodes, i: usize, values: &[u8]) -> u8
    requires inside { i < nodes.count }
    requires sound { SoundCell (length values.now) (node_at nodes.words.now i) }
    ensures { result ≡ answer_of values.now (node_at nodes.entry.words.now i) }
{
    let n = nodes.at(i);
    if n.count != 2 {
        return filled(nodes, i, values);
    }
    let first = wire_value(nodes.wire(i, 0), values);
    let second = wire_value(nodes.wire(i, 1), values);
    pair_value(n.table, first, second)
}
