// What the readers of joined texts do alike: the text is joined, its lines are read into areas of zeros, and a refusal leaves zeros.
ghost use Rattle.std.specs.Prelude.{◌≡◌, ℕ, ◌+◌, ◌≤◌, ◌<◌, Bool, List, length, replicate};
ghost use Rattle.circuit.specs.Refusals.{Try, and_then};
ghost use Rattle.circuit.specs.Circuits.{Circuit};
ghost use Rattle.names.specs.declared.records.TheConstants.{HALF};
ghost use Rattle.reading.specs.Reading.{Places, State, find, finish};
ghost use Rattle.reading.specs.Holding.{places_of, entries_of, WordSearch, nothing_read, AreasHold, AreasHoldAfter, StateStep, Ends};
ghost use Rattle.reading.specs.Areas.{read_text, LeavesAreas};

use crate::areas::{conclude, prepare, refuse};
use crate::outputs::resolve_outputs;
use crate::records::Reading;
use circuit::records::Sizes;
use circuit::refusals::Refusal;
use names::NameTable;
use names::new_name::NewName;
use text::words::Word;

// How a format finds the wire of a name. A trait of its own, since the lines of a format look names up.
pub trait Names {
    // Whether `FALSE` and `TRUE` are defined first.
    ghost constants: { Bool };

    /// The wire's word of a name; if it is not defined, the name with the place where a record of it would hang.
    fn search(table: &NameTable, word: Word) -> Result<usize, NewName>
        requires { word.start + word.len ≤ length table.now.text.now }
        ensures { WordSearch constants table.now word result };
}

/// The wire's word of a name, if it is defined.
pub fn find_wire<F: Names>(table: &NameTable, word: Word) -> Option<usize>
    requires { word.start + word.len ≤ length table.now.text.now }
    ensures { result ≡ find F.constants table.now.text.now word (entries_of table.now) }
{
    F::search(table, word).ok()
}

// A format whose lines may be continued, as BLIF and BENCH are.
pub trait Format: Names {
    // The circuit of a joined text, in areas with so many places.
    ghost lines: { List ℕ → Places → Try Circuit };

    // What its lines add to nothing, one after the other.
    ghost reads: { List ℕ → Places → Try State };

    // Every line, into empty areas.
    fn read_lines(
        text: &[u8],
        heads: &mut [usize; 256],
        nodes: &mut [usize],
        names: &mut [usize],
        outputs: &mut [usize],
    ) -> Result<Reading, Refusal>
        requires { AreasHold text.now heads.old nodes.old names.old outputs.old nothing_read }
        ensures areas { AreasHoldAfter text.now heads.new nodes.new names.new outputs.new result }
        ensures step { StateStep (λ p s. reads text.now p)
            nodes.old names.old outputs.old nothing_read nodes.new names.new outputs.new result };

    // The circuit is what the lines give, once the outputs have their wires.
    ghost ends: { (t : List ℕ) (p : Places) → lines t p ≡ and_then (reads t p) (finish Self.Names.constants t) };
}

// The joined text into areas of zeros: its lines, then the wires of the outputs.
pub fn read_joined<F: Format>(
    text: &[u8],
    nodes: &mut [usize],
    names: &mut [usize],
    outputs: &mut [usize],
) -> Result<Sizes, Refusal>
    requires nodes_zero { nodes.old ≡ replicate (length nodes.old) 0 }
    requires outputs_zero { outputs.old ≡ replicate (length outputs.old) 0 }
    requires text_short { length text.now < HALF }
    ensures { Ends (F.lines text.now (places_of nodes.old names.old outputs.old)) result nodes.new outputs.new }
{
    let mut heads = [0; 256];
    let read = F::read_lines(text, &mut heads, nodes, names, outputs)?;
    let table = NameTable {
        text,
        heads: &heads,
        names,
        count: read.counts.names,
    };
    resolve_outputs::<F>(&table, outputs, read.outputs)?;
    Ok(Sizes {
        nodes: read.counts.nodes,
        outputs: read.outputs,
    })
}

// A text of a format into a circuit, whatever the areas hold.
pub fn parse<F: Format>(
    text: &[u8],
    joined: &mut [u8],
    nodes: &mut [usize],
    names: &mut [usize],
    outputs: &mut [usize],
) -> Result<Sizes, Refusal>
    ensures { LeavesAreas text.now (read_text F.lines text.now) joined.old nodes.old names.old outputs.old
        result joined.new nodes.new names.new outputs.new }
{
    match prepare(text, joined, nodes, outputs) {
        Err(e) => refuse(e, joined, nodes, names, outputs),
        Ok(used) => {
            let ended = read_joined::<F>(&joined[..used], nodes, names, outputs);
            conclude(ended, joined, nodes, names, outputs)
        }
    }
}
