// A gate row, read once from its first word to its last, against the wires driven so far.
ghost use Rattle.std.specs.Prelude.{◌≡◌, ◌<◌, length};
ghost use Rattle.text.specs.Words.{split_whitespace};
ghost use Rattle.text.specs.Numbers.{number_of};
ghost use Rattle.bristol_rows.specs.Words.{words_left};
ghost use Rattle.circuit.specs.declared.records.Name.TheVariants.{Number};
ghost use Rattle.circuit.specs.Records.{cell_node};
ghost use Rattle.bristol_rows.specs.Row.{row};
ghost use Rattle.bristol_rows.specs.Operation.{operation};
ghost use Rattle.bristol_rows.specs.Promises.{add_slot, add_input, InputsAre, drivers_of, CellIs, RowIs, gates_by, output_by, end_by, wires_by, wrong_outputs};

use crate::answers::{Inputs, Slots};
use crate::gates::{Gate, Gates};
use crate::numbers::{next_arity, read_number};
use crate::operation::{Operation, read_operation};
use crate::slots::{UNDRIVEN, driver_of_slot, slot_of};
use crate::words::{LineWords, count_words, split_whitespace};
use circuit::records::{BoolNode, Name, WireNumber};
use circuit::refusals::Refusal;
use text::numbers::parse_usize;

impl Slots {
    /// With the slot of input `i`; only the first two are kept, since no operation takes more.
    #[tactic(auto, unfolding(crate::specs::Promises::add_slot))]
    pub fn add_slot(self, i: usize, slot: usize) -> Slots
        ensures { result ≡ add_slot self i slot }
    {
        match (slot, i) {
            (UNDRIVEN, _) => Slots {
                undriven: true,
                ..self
            },
            (_, 0) => Slots {
                first: slot,
                ..self
            },
            (_, 1) => Slots {
                second: slot,
                ..self
            },
            _ => self,
        }
    }

    /// With input `i`, by the number of its word (`None`: it is no number).
    pub fn add_input(self, i: usize, number: Option<usize>, wires: &[usize]) -> Slots
        ensures { result ≡ add_input wires.now self i (number_of number) }
    {
        match number {
            Some(n) => self.add_slot(i, slot_of(wires, WireNumber(n))),
            None => Slots {
                invalid: true,
                ..self
            },
        }
    }
}

/// The next `n` words as input wires, by the slots of all wires; `None` if fewer words are left.
#[tactic(auto, using(crate::proofs::InputLaws::got_end))]
pub fn read_inputs(words: &mut LineWords, n: usize, wires: &[usize]) -> Option<Slots>
    ensures { InputsAre n wires.now (words_left words.old) (words_left words.new) result }
{
    let mut slots = Slots::default();
    for i in 0..n {
        slots = slots.add_input(i, parse_usize(words.next()?), wires);
    }
    Some(slots)
}

/// The cell of a row, named by its output wire, on what drives its first inputs: no operation takes more than two.
pub fn row_cell(out: WireNumber, table: usize, inputs: Inputs) -> BoolNode
    ensures { CellIs (cell_node (Number out) table (drivers_of inputs.count inputs.slots)) result }
{
    let drivers = [
        driver_of_slot(inputs.slots.first),
        driver_of_slot(inputs.slots.second),
    ];
    let count = inputs.count.min(drivers.len());
    BoolNode::cell(Name::Number(out), table, &drivers[..count])
}

/// The gates of an operation, its wires being in order: `WrongCount` or `Unknown` if it does not take so many inputs.
pub fn row_gates(
    op: Operation,
    inputs: Inputs,
    out: WireNumber,
    wires: usize,
) -> Result<Gates, Refusal>
    requires { out.0 < wires }
    ensures { RowIs wires (gates_by op inputs.count inputs.slots out) result }
{
    let gate = match (op, inputs.count) {
        (Operation::Copy, 1) => Gate::Alias {
            out,
            wire: driver_of_slot(inputs.slots.first),
        },
        (Operation::Copy, _) => return Err(Refusal::WrongCount),
        (Operation::One(table), 1) | (Operation::Two(table), 2) => Gate::Cell {
            out,
            node: row_cell(out, table, inputs),
        },
        _ => return Err(Refusal::Unknown),
    };
    Ok(Gates { rest: Some(gate) })
}

/// The gates of an operation, by the word of its output wire: `NotNumber` if one of its wires is no number, `OutputOutside`,
/// `NoDriver`, then what its inputs are refused with.
#[tactic(auto, unfolding(crate::specs::Promises::output_by))]
pub fn row_output(
    wire: &[u8],
    op: Operation,
    inputs: Inputs,
    wires: usize,
) -> Result<Gates, Refusal>
    ensures { RowIs wires (output_by wire.now op inputs.count inputs.slots wires) result }
{
    if inputs.slots.invalid {
        return Err(Refusal::NotNumber);
    }
    let out = WireNumber(read_number(wire)?);
    if wires <= out.0 {
        return Err(Refusal::OutputOutside);
    }
    if inputs.slots.undriven {
        return Err(Refusal::NoDriver);
    }
    row_gates(op, inputs, out, wires)
}

/// The gates of a row, by the words after its input wires: `Malformed` unless they are two.
#[tactic(auto, unfolding(crate::specs::Promises::end_by))]
pub fn row_end(mut words: LineWords, inputs: Inputs, wires: usize) -> Result<Gates, Refusal>
    ensures { RowIs wires (end_by (words_left words.entry) inputs.count inputs.slots wires) result }
{
    let (Some(wire), Some(name), None) = (words.next(), words.next(), words.next()) else {
        return Err(Refusal::Malformed);
    };
    row_output(wire, read_operation(name), inputs, wires)
}

/// The gates of a row with one output, by the words after its arities.
#[tactic(auto, using(crate::proofs::RowLaws::wires_end))]
pub fn row_wires(mut words: LineWords, count: usize, wires: &[usize]) -> Result<Gates, Refusal>
    ensures { RowIs (length wires.now) (wires_by wires.now count (words_left words.entry)) result }
{
    let slots = read_inputs(&mut words, count, wires).ok_or(Refusal::Malformed)?;
    row_end(words, Inputs { count, slots }, wires.len())
}

/// What another number of outputs than one is refused with: `WrongCount`, but `Malformed` where words are missing or are too many.
pub fn outputs_wrong(words: LineWords, inputs: usize, outputs: usize) -> Refusal
    ensures { result ≡ wrong_outputs inputs outputs (words_left words.entry) }
{
    let count = count_words(words);
    if count < 2 || count <= inputs || count - 1 - inputs != outputs {
        Refusal::Malformed
    } else {
        Refusal::WrongCount
    }
}

/// The gates of a row, by the slots of all wires of the file.
pub fn read_row(line: &[u8], wires: &[usize]) -> Result<Gates, Refusal>
    ensures { RowIs (length wires.now) (row wires.now (split_whitespace line.now)) result }
{
    let mut words = split_whitespace(line);
    let inputs = next_arity(&mut words, 3)?;
    let outputs = next_arity(&mut words, 2)?;
    if outputs != 1 {
        return Err(outputs_wrong(words, inputs, outputs));
    }
    row_wires(words, inputs, wires)
}
