// The reader: a text into a circuit, or its refusal.
ghost use Rattle.std.specs.Prelude.{false};
ghost use Rattle.reading.specs.Areas.{LeavesAreas};
ghost use Rattle.blif.specs.Blif.{blif};

use circuit::records::Sizes;
use circuit::refusals::Refusal;
use names::NameTable;
use names::new_name::NewName;
use reading::format::{Names, parse};
use text::words::Word;

/// The format BLIF.
pub struct Blif;

impl Names for Blif {
    ghost constants = { false };

    #[tactic(auto, unfolding(reading::specs::Reading::find))]
    fn search(table: &NameTable, word: Word) -> Result<usize, NewName> {
        table.search(word)
    }
}

/// A BLIF text into a circuit: what the definition gives and leaves, whatever the areas hold.
pub fn parse_blif(
    text: &[u8],
    joined: &mut [u8],
    nodes: &mut [usize],
    names: &mut [usize],
    outputs: &mut [usize],
) -> Result<Sizes, Refusal>
    ensures { LeavesAreas text.now (blif text.now) joined.old nodes.old names.old outputs.old
        result joined.new nodes.new names.new outputs.new }
{
    parse::<Blif>(text, joined, nodes, names, outputs)
}
