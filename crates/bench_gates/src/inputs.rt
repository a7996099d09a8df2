// The inputs of a gate: the wires of its arguments, one after the other.
ghost use Rattle.std.specs.Prelude.{◌≡◌, true, [], ◌+◌, ◌≤◌, length};
ghost use Rattle.reading.specs.Reading.{find, driver};
ghost use Rattle.reading.specs.Holding.{outcome, entries_of, WordSearch};
ghost use Rattle.bench_invocations.specs.Walks.{arguments_at};
ghost use Rattle.bench_gates.specs.Gates.{input_wires};
ghost use Rattle.bench_gates.specs.Walks.{first_three};

use crate::plans::KEPT;
use bench_invocations::arguments::ArgumentPlaces;
use bench_invocations::iterators::arguments_at;
use circuit::refusals::Refusal;
use names::NameTable;
use names::new_name::NewName;
use text::words::Word;

/// The wire's word of `FALSE` or `TRUE`, which are defined before any name of the text.
#[tactic(auto, using(text::proofs::ByteLaws::same_pointwise), unfolding(reading::specs::Reading::find, names::specs::Names::lookup, laws::specs::Stretches::stretch))]
pub fn constant_wire(text: &[u8], word: Word) -> Option<usize>
    requires { word.start + word.len ≤ length text.now }
    ensures { result ≡ find true text.now word [] }
{
    let name = word.bytes(text);
    if name == b"FALSE".as_slice() {
        Some(0)
    } else if name == b"TRUE".as_slice() {
        Some(1)
    } else {
        None
    }
}

/// The wire's word of a name, if it is defined.
#[tactic(auto, using(crate::proofs::Drivers::find_constant, crate::proofs::Drivers::find_defined))]
pub fn find_wire(table: &NameTable, word: Word) -> Option<usize>
    requires { word.start + word.len ≤ length table.now.text.now }
    ensures { result ≡ find true table.now.text.now word (entries_of table.now) }
{
    match constant_wire(table.text, word) {
        Some(wire) => Some(wire),
        None => table.find(word),
    }
}

/// The wire's word of a name; if it is not defined, the name with the place where a record of it would hang.
pub fn search_wire(table: &NameTable, word: Word) -> Result<usize, NewName>
    requires { word.start + word.len ≤ length table.now.text.now }
    ensures { WordSearch true table.now word result }
{
    match constant_wire(table.text, word) {
        Some(wire) => Ok(wire),
        None => table.search(word),
    }
}

/// The wire of an argument; `NoDriver` if it has none.
pub fn argument_wire(table: &NameTable, argument: Word) -> Result<usize, Refusal>
    requires { argument.start + argument.len ≤ length table.now.text.now }
    ensures { result ≡ driver (find true table.now.text.now argument (entries_of table.now)) }
{
    find_wire(table, argument).ok_or(Refusal::NoDriver)
}

/// The wires of the first `KEPT` inputs at places of the text, 0 where there is none, from which a gate of two or three is made;
/// `NoDriver` at the first input that has none.
#[tactic(auto, using(crate::proofs::Drivers::walking_first, crate::proofs::Drivers::walking_later))]
pub fn input_wires(table: &NameTable, arguments: ArgumentPlaces) -> Result<[usize; KEPT], Refusal>
    requires { arguments.end ≤ length table.now.text.now }
    ensures { let t = table.now.text.now in
        result ≡ outcome first_three
        (input_wires t (entries_of table.now) (arguments_at t arguments)) }
{
    let mut wires = [0; KEPT];
    for (n, argument) in arguments_at(table.text, arguments).enumerate() {
        let wire = argument_wire(table, argument)?;
        if n < KEPT {
            wires[n] = wire;
        }
    }
    Ok(wires)
}
