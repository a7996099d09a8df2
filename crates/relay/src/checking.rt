// The circuit check and the schedule.
ghost use Rattle.std.specs.Prelude.{◌≡◌};
ghost use Rattle.circuit.specs.Refusals.{checked_number};
ghost use Rattle.circuit.specs.Check.{topological_fault};
ghost use Rattle.schedule.specs.Call.{schedule_call};
ghost use Rattle.relay.specs.Answers.{OrderCall};

use crate::answers::{answer_counted, answer_number};
use circuit::check::validate_topological;
use schedule::scheduled_gates_by_key;

// Every node reads earlier ones alone: 15, 16.
#[unsafe(no_mangle)]
pub extern "C" fn relay_validate_topological(nodes: &[usize], outputs: &[usize]) -> usize
    ensures { result ≡ checked_number (topological_fault nodes.now outputs.now) }
{
    let checked = validate_topological(nodes, outputs);
    answer_number(checked)
}

// The order of the cells in the first records of `order`; `ready` and `successors` are work areas.
#[unsafe(no_mangle)]
pub extern "C" fn relay_scheduled_gates_by_key(
    nodes: &[usize],
    outputs: &[usize],
    window: usize,
    keys: &[u32],
    ready: &mut [usize],
    successors: &mut [usize],
    order: &mut [usize],
    cell_count: &mut usize,
) -> usize
    ensures { OrderCall (schedule_call nodes.now outputs.now window keys.now ready.old successors.old order.old) result cell_count.new ready.new successors.new order.new }
{
    let ordered = scheduled_gates_by_key(nodes, outputs, window, keys, ready, successors, order);
    answer_counted(ordered, cell_count)
}
