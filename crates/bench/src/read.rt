// The reader: a text into a circuit, or its refusal.
ghost use Rattle.std.specs.Prelude.{true};
ghost use Rattle.reading.specs.Areas.{LeavesAreas};
ghost use Rattle.bench.specs.Bench.{bench};

use bench_gates::inputs;
use circuit::records::Sizes;
use circuit::refusals::Refusal;
use names::NameTable;
use names::new_name::NewName;
use reading::format::{Names, parse};
use text::words::Word;

/// The format ISCAS BENCH; how its lines are read stands in `lines`.
pub struct Bench;

impl Names for Bench {
    ghost constants = { true };

    fn search(table: &NameTable, word: Word) -> Result<usize, NewName> {
        inputs::search_wire(table, word)
    }
}

/// A BENCH text into a circuit: what the definition gives and leaves, whatever the areas hold.
pub fn parse_bench(
    text: &[u8],
    joined: &mut [u8],
    nodes: &mut [usize],
    names: &mut [usize],
    outputs: &mut [usize],
) -> Result<Sizes, Refusal>
    ensures { LeavesAreas text.now (bench text.now) joined.old nodes.old names.old outputs.old
        result joined.new nodes.new names.new outputs.new }
{
    parse::<Bench>(text, joined, nodes, names, outputs)
}
