// The schedule: an order of the cells in which each comes after the cells that it reads.

#![tactic(auto)]

ghost use Rattle.std.specs.Prelude.{◌≡◌};
ghost use Rattle.schedule.specs.Call.{leaves, schedule_call};

use crate::checks::{call_fault, order_or_circle};
use circuit::areas::clear_all;
use circuit::refusals::Refusal;

pub mod checks;
pub mod promised;
pub mod reads;

// The order of the cells in the first records of `order`, and how many they are; 15, 18, 19, 3, 17.
// Nodes and outputs come as two slices, and the areas one by one, as the C interface lends them.
pub fn scheduled_gates_by_key(
    nodes: &[usize],
    outputs: &[usize],
    window: usize,
    keys: &[u32],
    ready: &mut [usize],
    successors: &mut [usize],
    order: &mut [usize],
) -> Result<usize, Refusal>
    ensures { leaves result ready.new successors.new order.new ≡ schedule_call nodes.now outputs.now window keys.now ready.old successors.old order.old }
{
    let fault = call_fault(
        nodes,
        outputs,
        window,
        keys,
        ready.len(),
        successors.len(),
        order.len(),
    );
    match fault {
        Ok(()) => order_or_circle(nodes, keys, window, ready, successors, order),
        Err(e) => {
            clear_all(ready, successors, order);
            Err(e)
        }
    }
}
