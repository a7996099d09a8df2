// The words of `.inputs` and `.outputs`.
ghost use Rattle.std.specs.Prelude.{false};
ghost use Rattle.text.specs.Iterators.{words_left};
ghost use Rattle.reading.specs.Reading.{add_input, add_output, each};
ghost use Rattle.reading.specs.Holding.{NamedNodesHold, NamedNodesHoldAfter, HeldStep, WordsHold, WordsHoldAfter, WordsStep};

use crate::read::Blif;
use circuit::refusals::Refusal;
use reading::outputs::add_output;
use reading::records::{Counts, add_input};
use text::words::Words;

/// The words of `.inputs`: how many nodes and names there are then.
#[tactic(auto, using(text::proofs::WordLaws::each_word), unfolding(reading::specs::Reading::each))]
pub fn input_words(
    words: Words,
    counts: Counts,
    heads: &mut [usize; 256],
    nodes: &mut [usize],
    names: &mut [usize],
) -> Result<Counts, Refusal>
    requires { NamedNodesHold words.text.now heads.old nodes.old names.old counts }
    ensures areas { NamedNodesHoldAfter words.entry.text.now heads.new nodes.new names.new result }
    ensures step { HeldStep (λ p. each (add_input false words.entry.text.now p) (words_left words.entry))
        nodes.old names.old counts nodes.new names.new result }
{
    let text = words.text;
    let mut held = counts;
    for word in words {
        held = add_input::<Blif>(text, word, held, heads, nodes, names)?;
    }
    Ok(held)
}

/// The words of `.outputs`: how many outputs there are then.
#[tactic(auto, using(text::proofs::WordLaws::each_word), unfolding(reading::specs::Reading::each))]
pub fn output_words(words: Words, count: usize, outputs: &mut [usize]) -> Result<usize, Refusal>
    requires { WordsHold words.text.now outputs.old count }
    ensures area { WordsHoldAfter words.entry.text.now outputs.new result }
    ensures step { WordsStep (λ room. each (add_output room) (words_left words.entry))
        outputs.old count outputs.new result }
{
    let text = words.text;
    let mut n = count;
    for word in words {
        n = add_output(text, word, n, outputs)?;
    }
    Ok(n)
}
