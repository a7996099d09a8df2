// The outputs: their words as they are read, their wires at the end.
ghost use Rattle.std.specs.Prelude.{◌≡◌, ◌+◌, ◌*◌, ◌≤◌, length};
ghost use Rattle.std.specs.Result.{result_unwrap_or};
ghost use Rattle.reading.specs.Reading.{find, add_output};
ghost use Rattle.reading.specs.Holding.{entries_of, output_word, words_of, WordsHold, WordsStep, put_wire, Resolved};

use crate::format::{Names, find_wire};
use crate::records::stretch_name;
use circuit::areas::{put, put_output, records_in};
use circuit::records::{BoolWire, OUTPUT_WORDS, Output};
use circuit::refusals::Refusal;
use names::NameTable;
use text::words::Word;

/// The place of the start of its name in an output record; the name's form comes before it.
pub const START_AT: usize = 1;

/// The place of the length of its name in an output record.
pub const LEN_AT: usize = 2;

/// An output's word takes its place: how many outputs there are then. `NoRoom` if the area has no place for one more.
#[tactic(auto, using(crate::proofs::Steps::output_full, crate::proofs::Steps::output_added, crate::proofs::Storing::room_of, crate::proofs::Storing::more_words))]
pub fn add_output(
    text: &[u8],
    word: Word,
    count: usize,
    outputs: &mut [usize],
) -> Result<usize, Refusal>
    requires area { WordsHold text.now outputs.old count }
    requires word_in_text { word.start + word.len ≤ length text.now }
    ensures area { WordsHold text.now outputs.new (result_unwrap_or result count) }
    ensures step { WordsStep (λ room. add_output room word) outputs.old count outputs.new result }
{
    if records_in(outputs.len(), OUTPUT_WORDS) <= count {
        return Err(Refusal::NoRoom);
    }
    // No `Output` is stored: its wire is not known yet, and 0 would be that of a constant.
    put(
        outputs,
        count * OUTPUT_WORDS,
        &[1, word.start, word.len, 0, 0],
    );
    Ok(count + 1)
}

/// The wire of output `j`, stored where it is found; `None` if its name has none.
pub fn resolve_at<F: Names>(table: &NameTable, outputs: &mut [usize], j: usize) -> Option<usize>
    requires j_in_area { j * OUTPUT_WORDS + OUTPUT_WORDS ≤ length outputs.old }
    requires word_in_text { let w = output_word outputs.old j in w.start + w.len ≤ length table.now.text.now }
    ensures wire { result ≡ find F.constants table.now.text.now (output_word outputs.old j) (entries_of table.now) }
    ensures stored { outputs.new ≡ put_wire outputs.old j result }
{
    let base = j * OUTPUT_WORDS;
    let word = Word {
        start: outputs[base + START_AT],
        len: outputs[base + LEN_AT],
    };
    let wire = find_wire::<F>(table, word)?;
    let output = Output {
        name: stretch_name(word),
        wire: BoolWire::from(wire),
    };
    put_output(outputs, j, output);
    Some(wire)
}

/// The wire of each output: `NoDriver` at the first that has none, then `NoOutputs` if there are none.
pub fn resolve_outputs<F: Names>(
    table: &NameTable,
    outputs: &mut [usize],
    n: usize,
) -> Result<(), Refusal>
    requires { WordsHold table.now.text.now outputs.old n }
    ensures { Resolved F.constants table.now.text.now (entries_of table.now) (words_of outputs.old n)
        result outputs.new n }
{
    for j in 0..n {
        resolve_at::<F>(table, outputs, j).ok_or(Refusal::NoDriver)?;
    }
    if n == 0 {
        return Err(Refusal::NoOutputs);
    }
    Ok(())
}
