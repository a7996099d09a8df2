// The gates of a row, stored.
ghost use Rattle.std.specs.Prelude.{◌≡◌, ◌<◌, ◌^◌, length};
ghost use Rattle.laws.specs.Stretches.{All};
ghost use Rattle.circuit.specs.Records.{HasWord};
ghost use Rattle.reading.specs.Holding.{outcome, NodesHold};
ghost use Rattle.bristol_rows.specs.Slots.{slot_of_driver};
ghost use Rattle.bristol_rows.specs.Gates.{gates_left};
ghost use Rattle.bristol_rows.specs.Promises.{GateFits};
ghost use Rattle.bristol.specs.Bristol.{drive, store_cell, store_gate, store};
ghost use Rattle.bristol.specs.Promises.{NodesHoldNext, StateStep};

use bristol_rows::gates::{Gate, Gates};
use bristol_rows::slots::{UNDRIVEN, slot_of, slot_of_driver};
use circuit::records::{BoolNode, BoolWire, NodeNumber, WireNumber};
use circuit::refusals::Refusal;
use reading::records::add_node;

/// A wire of the file, driven by a wire of the circuit from now on; `DrivenTwice` if it has a driver.
#[tactic(auto, unfolding(crate::specs::Bristol::drive))]
pub fn drive(wires: &mut [usize], out: WireNumber, wire: BoolWire) -> Result<(), Refusal>
    requires { (out.0 < length wires.old) × (slot_of_driver wire < 2 ^ 64) }
    ensures step { outcome (λ u. wires.new) result ≡ drive out wire wires.old }
{
    if slot_of(wires, out) != UNDRIVEN {
        return Err(Refusal::DrivenTwice);
    }
    wires[out.0] = slot_of_driver(wire);
    Ok(())
}

/// A cell, which becomes the next node and drives its output wire: `NoRoom`, then `DrivenTwice`. The answer is the number of the
/// node after it.
#[tactic(auto, using(circuit::proofs::Codes::length_nodes), unfolding(crate::specs::Bristol::store_cell))]
pub fn store_cell(
    nodes: &mut [usize],
    wires: &mut [usize],
    next: NodeNumber,
    out: WireNumber,
    cell: BoolNode,
) -> Result<NodeNumber, Refusal>
    requires areas { NodesHold nodes.old next.0 }
    requires out_in_bounds { out.0 < length wires.old }
    requires wires_fit { All HasWord cell.wires }
    ensures areas { NodesHoldNext nodes.new result }
    ensures step { StateStep (store_cell out cell)
        nodes.old wires.old next nodes.new wires.new result }
{
    let count = add_node(cell, next.0, nodes)?;
    drive(wires, out, BoolWire::Node(next))?;
    Ok(NodeNumber(count))
}

/// A gate, stored: the number of the next node then. A row that makes no cell leaves it as it was.
#[tactic(auto, unfolding(crate::specs::Bristol::store_gate))]
pub fn store_gate(
    nodes: &mut [usize],
    wires: &mut [usize],
    next: NodeNumber,
    gate: Gate,
) -> Result<NodeNumber, Refusal>
    requires areas { NodesHold nodes.old next.0 }
    requires fits { GateFits (length wires.old) gate }
    ensures areas { NodesHoldNext nodes.new result }
    ensures step { StateStep (λ room. store_gate room gate)
        nodes.old wires.old next nodes.new wires.new result }
{
    match gate {
        Gate::Alias { out, wire } => {
            drive(wires, out, wire)?;
            Ok(next)
        }
        Gate::Cell { out, node } => store_cell(nodes, wires, next, out, node),
    }
}

/// The gates of a row, stored in turn: the number of the next node then.
#[tactic(auto, unfolding(reading::specs::Reading::each))]
pub fn store_gates(
    nodes: &mut [usize],
    wires: &mut [usize],
    first: NodeNumber,
    gates: Gates,
) -> Result<NodeNumber, Refusal>
    requires areas { NodesHold nodes.old first.0 }
    requires fit { All (GateFits (length wires.old)) (gates_left gates) }
    ensures areas { NodesHoldNext nodes.new result }
    ensures step { StateStep (λ room. store room (gates_left gates)) nodes.old wires.old first
        nodes.new wires.new result }
{
    let mut next = first;
    for gate in gates {
        next = store_gate(nodes, wires, next, gate)?;
    }
    Ok(next)
}
