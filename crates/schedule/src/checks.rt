// The checks of the call, and the order or a circle.
ghost use Rattle.std.specs.Prelude.{◌≡◌, ◌+◌, ◌*◌, ◌/◌, ◌^◌, ◌<◌, length};
ghost use Rattle.graphs.specs.Graph.{cells_of};
ghost use Rattle.circuit.specs.declared.records.TheConstants.{NODE_WORDS};
ghost use Rattle.schedule.specs.Call.{room, call_fault, circle_fault, graph_in, order_in, leaves, left_by};
ghost use Rattle.schedule.specs.Records.{Orderable};

use crate::reads::Netlist;
use circuit::check::check_records;
use circuit::nodes::Nodes;
use circuit::records::NODE_WORDS;
use circuit::refusals::Refusal;
use graphs::READS;
use ordering::taking::{count_cells, fresh_order};
use ordering::widths::{KEY_WORDS, READY_WORDS};
use std::num::NonZeroUsize;

// Whether the areas have room for n nodes.
pub fn has_room(n: usize, ready: usize, successors: usize, order: usize) -> bool
    requires { NODE_WORDS * n < 2 ^ 64 }
    ensures { result ≡ room n ready successors order }
{
    READY_WORDS * n <= ready && READS * n < successors && n <= order
}

// 15, 18, 19, 3: the areas by their sizes. Nodes and outputs come as two slices, as the C interface lends them: whether they are whole records is asked here.
pub fn call_fault(
    nodes: &[usize],
    outputs: &[usize],
    window: usize,
    keys: &[u32],
    ready: usize,
    successors: usize,
    order: usize,
) -> Result<(), Refusal>
    ensures { result ≡ call_fault nodes.now outputs.now window keys.now ready successors order }
{
    check_records(nodes, outputs)?;
    if window == 0 {
        return Err(Refusal::NoWindow);
    }
    let n = nodes.len() / NODE_WORDS;
    if keys.len() != KEY_WORDS * n {
        return Err(Refusal::WrongValues);
    }
    if !has_room(n, ready, successors, order) {
        return Err(Refusal::NoRoom);
    }
    Ok(())
}

// The order, or 17 where some cells read in a circle. Nodes and areas come as the C interface lends them.
pub fn order_or_circle(
    nodes: &[usize],
    keys: &[u32],
    window: usize,
    ready: &mut [usize],
    successors: &mut [usize],
    order: &mut [usize],
) -> Result<usize, Refusal>
    requires { Orderable nodes.now (length keys.now) window (length ready.old) (length successors.old) (length order.old) }
    ensures { leaves result ready.new successors.new order.new ≡ left_by (circle_fault nodes.now (length nodes.now / NODE_WORDS) window keys.now) (length (cells_of (graph_in nodes.now (length nodes.now / NODE_WORDS)))) (order_in nodes.now (length nodes.now / NODE_WORDS) window keys.now) (length ready.old) (length successors.old) (length order.old) }
{
    let netlist = Netlist {
        nodes: Nodes::of(nodes),
    };
    let window = NonZeroUsize::new(window).unwrap();
    let taken = fresh_order(&netlist, keys, window, ready, successors, order);
    ready.fill(0);
    successors.fill(0);
    if taken != count_cells(&netlist) {
        order.fill(0);
        return Err(Refusal::Circle);
    }
    Ok(taken)
}
