// `evaluate`: the outputs of a circuit for one assignment without unknowns.
ghost use Rattle.std.specs.Prelude.{◌≡◌, ◌∷◌, [], ◌<◌, ◌≤◌, length, is_ok, IsOk};
ghost use Rattle.circuit.specs.Check.{check_wires, nodes_in, wires_in};
ghost use Rattle.values.specs.Values.{evaluated};
ghost use Rattle.values.specs.Inner.{TwoValued, entry_or_fault, value_or_fault, inputs_or_fault, with_values, Begun, outputs_or_fault, with_outputs};
ghost use Rattle.values.specs.Calls.{evaluate_fault, evaluate_call, call_result};

use crate::assignments::{assigned_fault, some_above};
use crate::cell::wire_value;
use crate::outputs::{put_outputs, room_fault};
use cells::table_entry;
use circuit::check::{are_whole, not_below, output_outside, record_broken, wire_refusal};
use circuit::nodes::{Nodes, Outputs};
use circuit::records::{BoolWire, CELL, NODE_WORDS, wire_count};
use circuit::refusals::Refusal;

/// A wire of node i of m: `Broken` where it is of no node of the circuit, `NotEarlier` where it is of a node that is not before i.
pub fn check_wire(wire: BoolWire, m: usize, i: usize) -> Result<(), Refusal>
    requires { i ≤ m }
    ensures { result ≡ check_wires m i (wire ∷ []) }
{
    if not_below(wire, i) {
        return Err(wire_refusal(wire, m));
    }
    Ok(())
}

/// The entry of cell i at the index that the values of its wires pick, each wire checked before it is read. `before` has the values of the nodes before it.
pub fn entry(nodes: Nodes, i: usize, before: &[u8]) -> Result<u8, Refusal>
    requires inside { (i < nodes.count) × (length before.now ≡ i) }
    requires known { TwoValued before.now }
    ensures { result ≡ entry_or_fault nodes.entry.words.now nodes.entry.count i before.now }
{
    let n = nodes.at(i);
    let mut index = 0;
    for k in 0..wire_count(n) {
        let wire = nodes.wire(i, k);
        check_wire(wire, nodes.count, i)?;
        index = 2 * index + usize::from(wire_value(wire, before));
    }
    Ok(table_entry(n.table, index) as u8)
}

/// The value of node i once it is checked: a cell's entry; of an input, the value at place `input` of the assignment, 0 past its end.
#[tactic(auto, unfolding(circuit::specs::Check::check_node, circuit::specs::Check::check_wires, circuit::specs::Records::wires_of, circuit::specs::Records::is_cell_node))]
pub fn node_value(
    nodes: Nodes,
    i: usize,
    assignment: &[u8],
    input: usize,
    before: &[u8],
) -> Result<u8, Refusal>
    requires inside { (i < nodes.count) × (length before.now ≡ i) }
    requires known { TwoValued before.now }
    ensures { result ≡ value_or_fault nodes.entry.words.now nodes.entry.count i assignment.now input before.now }
{
    let n = nodes.at(i);
    if record_broken(n) {
        return Err(Refusal::Broken);
    }
    if n.kind == CELL {
        return entry(nodes, i, before);
    }
    if assignment.len() <= input {
        return Ok(0);
    }
    Ok(assignment[input])
}

/// The value of each node, in front of `values`: in storage order each is checked, then worked out. The answer is the number of inputs, or the refusal of
/// the first node that breaks a rule (`Broken`) or reads a node that is not earlier (`NotEarlier`).
pub fn put_values(nodes: Nodes, assignment: &[u8], values: &mut [u8]) -> Result<usize, Refusal>
    requires stored { nodes.count ≤ length values.old }
    requires known { TwoValued assignment.now }
    ensures checked { result ≡ inputs_or_fault nodes.entry.words.now nodes.entry.count }
    ensures worked_out { IsOk result → values.new ≡ with_values nodes.entry.words.now nodes.entry.count assignment.now values.old }
{
    let mut inputs = 0;
    for i in 0..nodes.count {
        values[i] = node_value(nodes, i, assignment, inputs, &values[..i])?;
        inputs += usize::from(!nodes.is_cell(i));
    }
    Ok(inputs)
}

/// The first refusal of `evaluate`: `Broken`, `NotEarlier`, `WrongValues`, `NoRoom`. The store and the output area have so many places.
pub fn evaluate_fault(
    nodes: &[usize],
    outputs: &[usize],
    assignment: &[u8],
    store: usize,
    answers: usize,
) -> Result<(), Refusal>
    ensures { result ≡ evaluate_fault nodes.now outputs.now assignment.now store answers }
{
    assigned_fault(nodes, outputs, assignment, 1)?;
    room_fault(nodes, outputs, store, answers)
}

/// Whether the nodes can be worked out: whole records, a value store that is long enough, and no value above 1. If not, the call is refused, by its first fault.
pub fn begin(
    nodes: &[usize],
    outputs: &[usize],
    assignment: &[u8],
    store: usize,
    answers: usize,
) -> Result<(), Refusal>
    ensures { Begun nodes.now outputs.now assignment.now store answers result }
{
    if !are_whole(nodes, outputs) || store < nodes.len() / NODE_WORDS || some_above(assignment, 1) {
        return evaluate_fault(nodes, outputs, assignment, store, answers);
    }
    Ok(())
}

/// The outputs, in front of `answers`, and how many there are. `values` takes the values of the nodes. A refused call leaves `answers` as it was.
pub fn work_out(
    nodes: &[usize],
    outputs: &[usize],
    assignment: &[u8],
    values: &mut [u8],
    answers: &mut [u8],
) -> Result<usize, Refusal>
    ensures checked { result ≡ outputs_or_fault nodes.now outputs.now assignment.now (length values.old) (length answers.old) }
    ensures given { answers.new ≡ with_outputs (is_ok result) (evaluated (nodes_in nodes.now) (wires_in outputs.now) assignment.now) answers.old }
{
    begin(nodes, outputs, assignment, values.len(), answers.len())?;
    let nodes = Nodes::of(nodes);
    let outputs = Outputs::of(outputs);
    let inputs = put_values(nodes, assignment, values)?;
    if output_outside(outputs, nodes.count) {
        return Err(Refusal::Broken);
    }
    if assignment.len() != inputs {
        return Err(Refusal::WrongValues);
    }
    if answers.len() < outputs.count {
        return Err(Refusal::NoRoom);
    }
    put_outputs(outputs, values, answers);
    Ok(outputs.count)
}

/// The outputs of a circuit for one assignment of 0 and 1 to its inputs, and how many outputs there are.
///
/// Refused with the first of: `Broken`, `NotEarlier`, `WrongValues` (not one value for each input, or one above 1), `NoRoom` (`values` has fewer places than there
/// are nodes, or `answers` than outputs). `values` is zeros after any call; `answers` holds the outputs and zeros after them, or zeros alone after a refusal.
pub fn evaluate(
    nodes: &[usize],
    outputs: &[usize],
    assignment: &[u8],
    values: &mut [u8],
    answers: &mut [u8],
) -> Result<usize, Refusal>
    ensures { call_result result values.new answers.new ≡ evaluate_call nodes.now outputs.now assignment.now values.old answers.old }
{
    answers.fill(0);
    let result = work_out(nodes, outputs, assignment, values, answers);
    values.fill(0);
    result
}
