// Wires of one circuit that stand for the nodes of another, and when they have those nodes' values. Definitions and laws alone.

#![tactic(auto)]

ghost use Rattle.rewiring.specs.Beside.{BesideItself};
ghost use Rattle.rewiring.specs.Bypass.{NodeBypassed};
ghost use Rattle.rewiring.specs.Rewiring.{RewiredValues, RewiredOutputs};

/// Wires that stand for the nodes of a circuit have the values of those nodes.
#[tactic(auto, using(crate::proofs::Rewired::stands_value))]
pub fn rewired_values()
    ensures { RewiredValues }
{}

/// The outputs of a circuit, rewired, have the values that they had.
#[tactic(auto, using(crate::proofs::Rewired::stands_outputs))]
pub fn rewired_outputs()
    ensures { RewiredOutputs }
{}

/// An example: a circuit beside itself on the same inputs gives its outputs twice.
#[tactic(auto, using(crate::proofs::Beside::doubled_is))]
pub fn beside_itself()
    ensures { BesideItself }
{}

/// An example: a node is bypassed, by a constant or an earlier node's wire of the same value, and every node keeps its value.
pub fn node_bypassed()
    ensures { NodeBypassed }
{}
