// The values of the outputs, and the room for them and for the values of the nodes.
ghost use Rattle.std.specs.Prelude.{◌≡◌, false, ◌++◌, ◌≤◌, length, drop};
ghost use Rattle.circuit.specs.Records.{output_wires};
ghost use Rattle.circuit.specs.Check.{some_not_below};
ghost use Rattle.values.specs.Values.{outputs_from};
ghost use Rattle.values.specs.Calls.{room_fault};

use crate::cell::wire_value;
use circuit::nodes::Outputs;
use circuit::records::{NODE_WORDS, OUTPUT_WORDS};
use circuit::refusals::Refusal;

/// `NoRoom` where the value store has so many places, fewer than there are nodes, or the output area fewer than there are outputs.
pub fn room_fault(
    nodes: &[usize],
    outputs: &[usize],
    store: usize,
    answers: usize,
) -> Result<(), Refusal>
    ensures { result ≡ room_fault nodes.now outputs.now store answers }
{
    if store < nodes.len() / NODE_WORDS || answers < outputs.len() / OUTPUT_WORDS {
        return Err(Refusal::NoRoom);
    }
    Ok(())
}

/// The value of each output's wire, in front of `answers`.
pub fn put_outputs(outputs: Outputs, values: &[u8], answers: &mut [u8])
    requires room { outputs.count ≤ length answers.old }
    requires wired { some_not_below (length values.now) (output_wires outputs.words.now outputs.count) ≡ false }
    ensures { answers.new ≡ outputs_from values.now (output_wires outputs.entry.words.now outputs.entry.count) ++ drop outputs.entry.count answers.old }
{
    for (j, answer) in answers[..outputs.count].iter_mut().enumerate() {
        *answer = wire_value(outputs.wire(j), values);
    }
}
