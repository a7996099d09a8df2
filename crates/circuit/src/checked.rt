// Circuits that the circuit check accepts.
ghost use Rattle.std.specs.Prelude.{◌≡◌, ◌/◌, false, length, IfOk, Ok};
ghost use Rattle.circuit.specs.declared.records.TheConstants.{NODE_WORDS, OUTPUT_WORDS};
ghost use Rattle.circuit.specs.Records.{nodes_of, output_wires};
ghost use Rattle.circuit.specs.Check.{some_not_below, check_nodes, topological_fault};
ghost use Rattle.circuit.specs.Refusals.{fault_of};

use crate::check::{are_whole, check_nodes, output_outside};
use crate::nodes::{Nodes, Outputs};
use crate::refusals::Refusal;

/// The nodes and outputs of a circuit that the circuit check accepts: what works on a circuit begins with it.
#[derive(Clone, Copy)]
pub struct CheckedCircuit<'a> {
    pub nodes: Nodes<'a>,
    pub outputs: Outputs<'a>,
    ghost accepted: { check_nodes nodes.count 0 (nodes_of nodes.words.now nodes.count) ≡ Ok tt },
    ghost inside: { some_not_below nodes.count (output_wires outputs.words.now outputs.count) ≡ false },
}

impl<'a> CheckedCircuit<'a> {
    /// The circuit in two areas that hold its records and nothing else; Broken or NotEarlier, whichever comes first.
    pub fn of(nodes: &'a [usize], outputs: &'a [usize]) -> Result<CheckedCircuit<'a>, Refusal>
        ensures fault { fault_of result ≡ topological_fault nodes.now outputs.now }
        ensures nodes { IfOk result (λ c. (c.nodes.words.now ≡ nodes.now) × (c.nodes.count ≡ length nodes.now / NODE_WORDS)) }
        ensures outputs { IfOk result (λ c. (c.outputs.words.now ≡ outputs.now) × (c.outputs.count ≡ length outputs.now / OUTPUT_WORDS)) }
    {
        if !are_whole(nodes, outputs) {
            return Err(Refusal::Broken);
        }
        let nodes = Nodes::of(nodes);
        let outputs = Outputs::of(outputs);
        check_nodes(nodes)?;
        if output_outside(outputs, nodes.count) {
            return Err(Refusal::Broken);
        }
        Ok(CheckedCircuit { nodes, outputs })
    }
}
