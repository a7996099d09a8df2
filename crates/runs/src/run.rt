// The run along an order list, from whatever the value store holds.
ghost use Rattle.std.specs.Prelude.{◌≡◌, false, ◌≤◌, length, is_ok};
ghost use Rattle.circuit.specs.Records.{nodes_of, output_wires};
ghost use Rattle.circuit.specs.Check.{some_not_below, nodes_in, wires_in};
ghost use Rattle.values.specs.Assignments.{input_count};
ghost use Rattle.values.specs.Inner.{with_outputs};
ghost use Rattle.values.specs.Calls.{call_result};
ghost use Rattle.runs.specs.Runs.{run_store, run_outputs};
ghost use Rattle.runs.specs.Inner.{SoundCells, with_run, cells_or_fault};
ghost use Rattle.runs.specs.Calls.{run_fault, run_call};

use crate::fitness::fit_list;
use crate::inputs::put_inputs;
use crate::steps::run_steps;
use cells::UNKNOWN;
use circuit::checked::CheckedCircuit;
use circuit::nodes::{Nodes, Outputs};
use circuit::refusals::Refusal;
use values::assignments::wrong_assignment;
use values::outputs::{put_outputs, room_fault};

/// The first refusal of a run: `Broken`, `NotEarlier`, `WrongValues`, `UnfitOrder`, `NoRoom`. The store and the output area have so many places.
pub fn run_fault(
    nodes: &[usize],
    outputs: &[usize],
    order: &[usize],
    assignment: &[u8],
    store: usize,
    answers: usize,
) -> Result<(), Refusal>
    ensures { result ≡ run_fault nodes.now outputs.now order.now assignment.now store answers }
{
    let circuit = CheckedCircuit::of(nodes, outputs)?;
    if wrong_assignment(circuit.nodes, assignment, UNKNOWN) {
        return Err(Refusal::WrongValues);
    }
    if !fit_list(circuit, assignment.len(), order) {
        return Err(Refusal::UnfitOrder);
    }
    room_fault(nodes, outputs, store, answers)
}

/// The inputs put in, then a step for each entry of the list.
#[tactic(auto, unfolding(crate::specs::Runs::run_store))]
pub fn run_store(nodes: Nodes, order: &[usize], assignment: &[u8], values: &mut [u8])
    requires stored { nodes.count ≤ length values.old }
    requires one_each { length assignment.now ≡ input_count (nodes_of nodes.words.now nodes.count) }
    requires sound { SoundCells nodes.words.now nodes.count (length values.old) order.now }
    ensures { values.new ≡ run_store (nodes_of nodes.entry.words.now nodes.entry.count) assignment.now order.now values.old }
{
    put_inputs(nodes, assignment, values);
    run_steps(nodes, order, values);
}

/// The outputs of a run along the list, in front of `answers`.
#[tactic(auto, unfolding(crate::specs::Runs::run_outputs))]
pub fn run_outputs(
    nodes: Nodes,
    outputs: Outputs,
    order: &[usize],
    assignment: &[u8],
    values: &mut [u8],
    answers: &mut [u8],
)
    requires stored { nodes.count ≤ length values.old }
    requires one_each { length assignment.now ≡ input_count (nodes_of nodes.words.now nodes.count) }
    requires sound { SoundCells nodes.words.now nodes.count (length values.old) order.now }
    requires room { outputs.count ≤ length answers.old }
    requires wired { some_not_below (length values.old) (output_wires outputs.words.now outputs.count) ≡ false }
    ensures { answers.new ≡ with_run nodes.entry.words.now nodes.entry.count outputs.entry.words.now outputs.entry.count assignment.now order.now values.old answers.old }
{
    run_store(nodes, order, assignment, values);
    put_outputs(outputs, values, answers);
}

/// The outputs, in front of `answers`, and how many cells were worked out. `values` takes the values of the nodes. A refused call leaves `answers` as it was.
pub fn work_out(
    nodes: &[usize],
    outputs: &[usize],
    order: &[usize],
    assignment: &[u8],
    values: &mut [u8],
    answers: &mut [u8],
) -> Result<usize, Refusal>
    ensures checked { result ≡ cells_or_fault nodes.now outputs.now order.now assignment.now (length values.old) (length answers.old) }
    ensures given { answers.new ≡ with_outputs (is_ok result) (run_outputs (nodes_in nodes.now) (wires_in outputs.now) assignment.now order.now values.old) answers.old }
{
    run_fault(
        nodes,
        outputs,
        order,
        assignment,
        values.len(),
        answers.len(),
    )?;
    run_outputs(
        Nodes::of(nodes),
        Outputs::of(outputs),
        order,
        assignment,
        values,
        answers,
    );
    Ok(order.len())
}

/// The outputs of a circuit along a list of its cells, for an assignment of 0, 1 and 2 (unknown) to its inputs, and how many cells were worked out.
///
/// The inputs are put into `values`, whatever it holds; then each cell of the list in turn is worked out from what stands there.
/// Refused with the first of: `Broken`, `NotEarlier`, `WrongValues` (not one value for each input, or one above 2), `UnfitOrder` (the list has not each cell once,
/// after those it reads), `NoRoom` (`values` has fewer places than there are nodes, or `answers` than outputs). `values` is zeros after any call; `answers` holds
/// the outputs and zeros after them, or zeros alone after a refusal.
pub fn run(
    nodes: &[usize],
    outputs: &[usize],
    order: &[usize],
    assignment: &[u8],
    values: &mut [u8],
    answers: &mut [u8],
) -> Result<usize, Refusal>
    ensures { call_result result values.new answers.new ≡ run_call nodes.now outputs.now order.now assignment.now values.old answers.old }
{
    answers.fill(0);
    let result = work_out(nodes, outputs, order, assignment, values, answers);
    values.fill(0);
    result
}
