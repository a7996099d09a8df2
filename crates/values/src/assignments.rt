// An assignment of values to the inputs of a circuit, and its refusal (19).
ghost use Rattle.std.specs.Prelude.{◌≡◌, ltb};
ghost use Rattle.laws.specs.Lists.{some};
ghost use Rattle.circuit.specs.Records.{nodes_of};
ghost use Rattle.values.specs.Assignments.{input_count, wrong_assignment};
ghost use Rattle.values.specs.Calls.{assigned_fault};

use circuit::check::validate_topological;
use circuit::nodes::Nodes;
use circuit::refusals::Refusal;

/// How many inputs there are.
pub fn count_inputs(nodes: Nodes) -> usize
    ensures { result ≡ input_count (nodes_of nodes.entry.words.now nodes.entry.count) }
{
    (0..nodes.count).filter(|k| !nodes.is_cell(*k)).count()
}

/// Some value is above the top.
pub fn some_above(assignment: &[u8], top: u8) -> bool
    ensures { result ≡ some (ltb top) assignment.now }
{
    assignment.iter().any(|value| top < *value)
}

/// The assignment has not one value for each input, or has a value above the top.
pub fn wrong_assignment(nodes: Nodes, assignment: &[u8], top: u8) -> bool
    ensures { result ≡ wrong_assignment top (nodes_of nodes.entry.words.now nodes.entry.count) assignment.now }
{
    assignment.len() != count_inputs(nodes) || some_above(assignment, top)
}

/// The first refusal of a call with values up to the top, before its areas are looked at: `Broken`, `NotEarlier`, `WrongValues`.
pub fn assigned_fault(
    nodes: &[usize],
    outputs: &[usize],
    assignment: &[u8],
    top: u8,
) -> Result<(), Refusal>
    ensures { result ≡ assigned_fault top nodes.now outputs.now assignment.now }
{
    validate_topological(nodes, outputs)?;
    if wrong_assignment(Nodes::of(nodes), assignment, top) {
        return Err(Refusal::WrongValues);
    }
    Ok(())
}
