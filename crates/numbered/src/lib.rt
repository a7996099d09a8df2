// Numbered assignments: of a circuit with n inputs, number a of all 2 ^ n.

#![tactic(auto)]

ghost use Rattle.std.specs.Prelude.{◌≡◌, ◌++◌, ◌≤◌, length, drop};
ghost use Rattle.numbered.specs.Numbered.{numbered, number_fault, exhaustive_call, numbered_result};

use cells::table_entry;
use circuit::check::check_records;
use circuit::nodes::Nodes;
use circuit::refusals::Refusal;
use values::assignments::count_inputs;

/// The most inputs of a circuit whose assignments are numbered.
pub const MOST_NUMBERED: usize = 20;

/// The figure that the definitions mean where they name it. A law: it does nothing when it runs.
pub fn numbered_cap()
    ensures { MOST_NUMBERED ≡ 20 }
{}

/// The first refusal for n inputs, a number and an area of so many places: `TooManyInputs`, `WrongValues` (the number is not below 2 ^ n), `NoRoom`.
pub fn number_fault(n: usize, number: usize, size: usize) -> Result<(), Refusal>
    ensures { result ≡ number_fault n number size }
{
    if MOST_NUMBERED < n {
        return Err(Refusal::TooManyInputs);
    }
    if number >> n != 0 {
        return Err(Refusal::WrongValues);
    }
    if size < n {
        return Err(Refusal::NoRoom);
    }
    Ok(())
}

/// Gives input p of n the bit n - p - 1 of the number, so that the first input has the highest.
pub fn put_number(n: usize, number: usize, assignment: &mut [u8])
    requires { (n ≤ MOST_NUMBERED) × (n ≤ length assignment.old) }
    ensures { assignment.new ≡ numbered n number ++ drop n assignment.old }
{
    for (p, value) in assignment[..n].iter_mut().enumerate() {
        *value = table_entry(number, n - p - 1) as u8;
    }
}

/// One numbered assignment of a circuit, and how many inputs it has. Wires may read any node.
///
/// Refused with the first of: `Broken`, `TooManyInputs` (more than 20), `WrongValues` (the number is not below 2 ^ n), `NoRoom` (`assignment` has fewer places than
/// there are inputs). `assignment` holds the values and zeros after them, or zeros alone after a refusal.
pub fn exhaustive_inputs(
    nodes: &[usize],
    outputs: &[usize],
    number: usize,
    assignment: &mut [u8],
) -> Result<usize, Refusal>
    ensures { numbered_result result assignment.new ≡ exhaustive_call nodes.now outputs.now number assignment.old }
{
    assignment.fill(0);
    check_records(nodes, outputs)?;
    let n = count_inputs(Nodes::of(nodes));
    number_fault(n, number, assignment.len())?;
    put_number(n, number, assignment);
    Ok(n)
}
