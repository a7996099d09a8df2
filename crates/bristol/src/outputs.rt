// The outputs: the last wires.
ghost use Rattle.std.specs.Prelude.{◌≡◌, ◌∷◌, [], ◌++◌, ◌+◌, ◌*◌, ◌≤◌, length, drop};
ghost use Rattle.circuit.specs.declared.records.TheConstants.{OUTPUT_WORDS};
ghost use Rattle.circuit.specs.Records.{outputs_of};
ghost use Rattle.reading.specs.Holding.{OutputsHold};
ghost use Rattle.bristol.specs.Bristol.{output_of, outputs_from};
ghost use Rattle.bristol.specs.Promises.{OutputsHoldAfter, OutputsStep};

use bristol_rows::slots::{UNDRIVEN, driver_of_slot};
use circuit::areas::{put_output, records_in};
use circuit::records::{Name, OUTPUT_WORDS, Output, WireNumber};
use circuit::refusals::Refusal;

/// Output `count` of the circuit: that of a wire of the file, by its slot, which is not `UNDRIVEN`.
pub fn put_wire(outputs: &mut [usize], count: usize, w: WireNumber, slot: usize)
    requires area { OutputsHold outputs.old count }
    requires room { count * OUTPUT_WORDS + OUTPUT_WORDS ≤ length outputs.old }
    ensures area { OutputsHold outputs.new (count + 1) }
    ensures step { outputs_of outputs.new (count + 1)
        ≡ outputs_of outputs.old count ++ (output_of w slot ∷ []) }
{
    let output = Output {
        name: Name::Number(w),
        wire: driver_of_slot(slot),
    };
    put_output(outputs, count, output);
}

/// The outputs of the wires of the file from `first` on: how many. `NoDriver` at the first wire that nothing drives, `NoRoom`
/// at the first output that the area has no place for.
#[tactic(auto, using(reading::proofs::Storing::room_of))]
pub fn put_wires(
    wires: &[usize],
    first: WireNumber,
    outputs: &mut [usize],
) -> Result<usize, Refusal>
    requires first_is_a_wire { first.0 ≤ length wires.now }
    requires area { OutputsHold outputs.old 0 }
    ensures area { OutputsHoldAfter outputs.new result }
    ensures step { OutputsStep (λ room. outputs_from room first.0 (drop first.0 wires.now))
        outputs.old 0 outputs.new result }
{
    let room = records_in(outputs.len(), OUTPUT_WORDS);
    let mut wire = first;
    for (count, &slot) in wires[first.0..].iter().enumerate() {
        if slot == UNDRIVEN {
            return Err(Refusal::NoDriver);
        }
        if room <= count {
            return Err(Refusal::NoRoom);
        }
        put_wire(outputs, count, wire, slot);
        wire = WireNumber(wire.0 + 1);
    }
    Ok(wires.len() - first.0)
}
