// The circuit check over a slice, by way of an array: variants of the circuit of the worked example, an answer to a line.

#![tactic(auto)]

ghost use Rattle.std.specs.Prelude.{◌≡◌};
ghost use Rattle.node_slices.specs.Slices.{slice_fault};

use circuit::records::{BoolNode, BoolWire, CELL, Name, NodeNumber, WIRES, WireNumber};
use circuit::refusals::Refusal;
use std::io;

// The array is lent as a slice: its callers pass it by value.
fn check_array(nodes: [BoolNode; 5], outputs: &[usize]) -> Result<(), Refusal>
    ensures { result ≡ slice_fault nodes outputs.now }
{
    node_slices::check_circuit_slice(&nodes, outputs)
}

fn input(k: usize) -> BoolNode {
    BoolNode::input(Name::Number(WireNumber(k)))
}

fn cell(k: usize, count: usize, table: usize, a: usize, b: usize) -> BoolNode {
    let mut wires = [BoolWire::Const(false); WIRES];
    wires[0] = BoolWire::Node(NodeNumber(a));
    wires[1] = BoolWire::Node(NodeNumber(b));
    BoolNode {
        kind: CELL,
        count,
        table,
        name: Name::Number(WireNumber(k)),
        wires,
    }
}

fn show(rt: &impl Print, answer: Result<(), Refusal>) -> io::Result<()> {
    match answer {
        Ok(()) => println!(rt; "0"),
        Err(e @ (Refusal::Broken | Refusal::NotEarlier)) => println!(rt; "{}", usize::from(e)),
        Err(_) => println!(rt; "another"),
    }
}

fn main(rt: HostRuntime) -> io::Result<()> {
    let outputs = [3, 4, 0, 0, 6];
    let mut nodes = [input(0); 5];
    nodes[1] = input(1);
    nodes[2] = cell(2, 2, 4, 0, 1);
    nodes[3] = cell(3, 1, 1, 0, 9);
    nodes[4] = cell(4, 2, 8, 2, 3);
    // the listing's circuit: the second place of a cell of one wire is not looked at
    show(&rt, check_array(nodes, &outputs))?;
    // an output area that is no whole number of records
    show(&rt, check_array(nodes, &outputs[..4]))?;
    // no outputs
    show(&rt, check_array(nodes, &outputs[..0]))?;
    // a last cell that reads itself, then one that reads past the nodes
    nodes[4] = cell(4, 2, 8, 2, 4);
    show(&rt, check_array(nodes, &outputs))?;
    nodes[4] = cell(4, 2, 8, 2, 5);
    show(&rt, check_array(nodes, &outputs))?;
    // a forward read before that
    nodes[2] = cell(2, 2, 4, 3, 1);
    show(&rt, check_array(nodes, &outputs))?;
    // a table with a bit above its two entries before that
    nodes[1] = cell(1, 1, 4, 0, 0);
    show(&rt, check_array(nodes, &outputs))?;
    // an output wire past the nodes
    nodes[1] = input(1);
    nodes[2] = input(2);
    nodes[4] = input(4);
    let past = [3, 4, 0, 0, 7];
    show(&rt, check_array(nodes, &past))?;
    Ok(())
}
