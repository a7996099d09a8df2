// The circuit check over a lent slice of node records.

#![tactic(auto)]

ghost use Rattle.std.specs.Prelude.{◌≡◌, length};
ghost use Rattle.circuit.specs.Check.{check_nodes};
ghost use Rattle.node_slices.specs.Slices.{slice_fault};

pub mod promised;

use circuit::check::{not_below, output_outside, record_broken, wire_refusal};
use circuit::nodes::Outputs;
use circuit::records::{BoolNode, OUTPUT_WORDS, wire_at, wire_count};
use circuit::refusals::Refusal;

/// The nodes and their wires in turn: both scans are left at the first broken record or wire that is not earlier.
pub fn check_node_slice(nodes: &[BoolNode]) -> Result<(), Refusal>
    ensures { result ≡ check_nodes (length nodes.now) 0 nodes.now }
{
    let mut answer = Ok(());
    'scan: for (i, &n) in nodes.iter().enumerate() {
        if record_broken(n) {
            answer = Err(Refusal::Broken);
            break 'scan;
        }
        for k in 0..wire_count(n) {
            let w = wire_at(n, k);
            if not_below(w, i) {
                answer = Err(wire_refusal(w, nodes.len()));
                break 'scan;
            }
        }
    }
    answer
}

/// The circuit check over a slice of nodes, with the outputs as records in an area.
pub fn check_circuit_slice(nodes: &[BoolNode], outputs: &[usize]) -> Result<(), Refusal>
    ensures { result ≡ slice_fault nodes.now outputs.now }
{
    if outputs.len() % OUTPUT_WORDS != 0 {
        return Err(Refusal::Broken);
    }
    check_node_slice(nodes)?;
    if output_outside(Outputs::of(outputs), nodes.len()) {
        return Err(Refusal::Broken);
    }
    Ok(())
}
