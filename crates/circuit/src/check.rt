// The circuit rules and the circuit check.
ghost use Rattle.std.specs.Prelude.{◌≡◌, ◌+◌, ◌*◌, ◌^◌, ◌≤◌, leb, length};
ghost use Rattle.circuit.specs.Records.{wires_of, nodes_of, output_wires};
ghost use Rattle.circuit.specs.Check.{not_below, some_not_below, record_broken, wire_refusal, check_node, check_nodes, node_broken, some_broken, whole, topological_fault, records_fault};

use crate::checked::CheckedCircuit;
use crate::nodes::{Nodes, Outputs};
use crate::records::{
    BoolNode, BoolWire, CELL, INPUT, NODE_WORDS, OUTPUT_WORDS, WIRES, wire_at, wire_count,
};
use crate::refusals::Refusal;

/// The wire is a node's that is not below k.
pub fn not_below(w: BoolWire, k: usize) -> bool
    ensures { result ≡ not_below k w }
{
    match w {
        BoolWire::Const(_) => false,
        BoolWire::Node(n) => k <= n.0,
    }
}

/// A table has bits above the entries of so many wires.
pub fn table_broken(count: usize, table: usize) -> bool
    requires { count ≤ WIRES }
    ensures { result ≡ leb (2 ^ 2 ^ count) table }
{
    table >> (1usize << count) != 0
}

/// The kind, the wire count or the table breaks a rule.
pub fn record_broken(n: BoolNode) -> bool
    ensures { result ≡ record_broken n }
{
    match (n.kind, n.count) {
        (INPUT, _) => false,
        (CELL, 1..=WIRES) => table_broken(n.count, n.table),
        _ => true,
    }
}

/// What a wire that is not earlier is refused with, in a circuit of m nodes: Broken where it is of none of them, else NotEarlier.
pub fn wire_refusal(w: BoolWire, m: usize) -> Refusal
    ensures { result ≡ wire_refusal m w }
{
    if not_below(w, m) {
        Refusal::Broken
    } else {
        Refusal::NotEarlier
    }
}

/// Node i of a circuit of m: Broken where its record breaks a rule; else its wires in turn, and the first that is no earlier node's is refused, Broken where
/// it is no node's of the circuit at all, NotEarlier where it is node i's or a later one's.
pub fn check_node(n: BoolNode, m: usize, i: usize) -> Result<(), Refusal>
    ensures { result ≡ check_node m i n }
{
    if record_broken(n) {
        return Err(Refusal::Broken);
    }
    let before = i.min(m);
    for k in 0..wire_count(n) {
        let w = wire_at(n, k);
        if not_below(w, before) {
            return Err(wire_refusal(w, m));
        }
    }
    Ok(())
}

/// The nodes and their wires in turn: both scans are left at the first broken record or wire that is not earlier.
pub fn check_nodes(nodes: Nodes) -> Result<(), Refusal>
    ensures { result ≡ check_nodes nodes.entry.count 0 (nodes_of nodes.entry.words.now nodes.entry.count) }
{
    let mut answer = Ok(());
    'scan: for i in 0..nodes.count {
        let n = nodes.at(i);
        if record_broken(n) {
            answer = Err(Refusal::Broken);
            break 'scan;
        }
        for k in 0..wire_count(n) {
            let w = wire_at(n, k);
            if not_below(w, i) {
                answer = Err(wire_refusal(w, nodes.count));
                break 'scan;
            }
        }
    }
    answer
}

/// Some output's wire is not below m.
pub fn output_outside(outputs: Outputs, m: usize) -> bool
    ensures { result ≡ some_not_below m (output_wires outputs.entry.words.now outputs.entry.count) }
{
    (0..outputs.count).any(|j| not_below(outputs.wire(j), m))
}

/// Some wire of the node is not below m.
pub fn some_wire_outside(n: BoolNode, m: usize) -> bool
    ensures { result ≡ some_not_below m (wires_of n) }
{
    (0..wire_count(n)).any(|k| not_below(wire_at(n, k), m))
}

/// The node breaks a rule in a circuit of m.
pub fn node_broken(n: BoolNode, m: usize) -> bool
    ensures { result ≡ node_broken m n }
{
    record_broken(n) || some_wire_outside(n, m)
}

/// Some node breaks a rule.
pub fn some_broken(nodes: Nodes) -> bool
    ensures { result ≡ some_broken nodes.entry.count (nodes_of nodes.entry.words.now nodes.entry.count) }
{
    (0..nodes.count).any(|i| node_broken(nodes.at(i), nodes.count))
}

/// The areas hold whole records and nothing else.
pub fn are_whole(nodes: &[usize], outputs: &[usize]) -> bool
    ensures { result ≡ whole nodes.now outputs.now }
{
    nodes.len() % NODE_WORDS == 0 && outputs.len() % OUTPUT_WORDS == 0
}

/// Every record and every output keeps the rules; Broken where one does not. A wire may read any node.
pub fn check_records(nodes: &[usize], outputs: &[usize]) -> Result<(), Refusal>
    ensures { result ≡ records_fault nodes.now outputs.now }
{
    let records = Nodes::of(nodes);
    if !are_whole(nodes, outputs)
        || some_broken(records)
        || output_outside(Outputs::of(outputs), records.count)
    {
        return Err(Refusal::Broken);
    }
    Ok(())
}

/// The circuit check: the rules, and that every node reads earlier ones alone; Broken or NotEarlier, whichever comes first.
pub fn validate_topological(nodes: &[usize], outputs: &[usize]) -> Result<(), Refusal>
    ensures { result ≡ topological_fault nodes.now outputs.now }
{
    CheckedCircuit::of(nodes, outputs)?;
    Ok(())
}
