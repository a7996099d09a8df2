// The words of a `.names` line.
ghost use Rattle.std.specs.Prelude.{◌≡◌, [], Some};
ghost use Rattle.text.specs.Iterators.{words_left};
ghost use Rattle.cover.specs.Gates.{with_word, words_seen, GateIs};

use crate::gate::Gate;
use circuit::records::WIRES;
use text::words::{Word, Words};

impl Gate {
    /// A line of one word, which is the output.
    pub fn of(out: Word) -> Gate
        ensures { words_seen result ≡ record { out = out; inputs = Some [] } }
    {
        Gate {
            out,
            inputs: [Word { start: 0, len: 0 }; WIRES],
            count: Some(0),
        }
    }

    /// With one word more, which is the output from now on.
    pub fn with_word(self, word: Word) -> Gate
        ensures { words_seen result ≡ with_word (words_seen self) word }
    {
        let mut inputs = self.inputs;
        let count = match self.count {
            Some(n) if n < WIRES => {
                inputs[n] = self.out;
                Some(n + 1)
            }
            _ => None,
        };
        Gate {
            out: word,
            inputs,
            count,
        }
    }
}

/// The words of a line as a gate; `None` if there is no word.
pub fn gate_words(mut words: Words) -> Option<Gate>
    ensures { GateIs words.entry.end result (words_left words.entry) }
{
    let first = Gate::of(words.next()?);
    Some(words.fold(first, |gate, word| gate.with_word(word)))
}
