// The arguments of an invocation, one after the other.
ghost use Rattle.std.specs.Prelude.{◌≡◌, ◌+◌, ◌≤◌, length};
ghost use Rattle.bench_invocations.specs.Invocations.{arguments_of};
ghost use Rattle.bench_invocations.specs.Walks.{arguments_at, arguments_left, GivesArgument, counted};

use crate::arguments::{ArgumentPlaces, Arguments};
use circuit::refusals::Refusal;
use text::bytes::skip_to_far;
use text::words::{Word, trim};

/// The arguments that a stretch of a text holds, as `for argument in arguments_of(text, word)` takes them: blank arguments mean none.
pub fn arguments_of(text: &[u8], word: Word) -> Arguments
    requires { word.start + word.len ≤ length text.now }
    ensures same_text { result.text.now ≡ text.now }
    ensures all { arguments_left result ≡ arguments_of text.now word }
{
    let end = word.start + word.len;
    let blank = trim(text, word).len == 0;
    let at = if blank { end + 1 } else { word.start };
    Arguments { text, at, end }
}

/// The arguments at places of a text, as an iterator gives them: blank places mean one empty argument.
pub fn arguments_at(text: &[u8], places: ArgumentPlaces) -> Arguments
    requires { places.end ≤ length text.now }
    ensures same_text { result.text.now ≡ text.now }
    ensures all { arguments_left result ≡ arguments_at text.now places }
{
    Arguments {
        text,
        at: places.at,
        end: places.end,
    }
}

impl<'a> Iterator for Arguments<'a> {
    ghost use Rattle.std.specs.Iterator.{item_count};

    type Item = Word;

    ghost next_gives = { GivesArgument };

    ghost remaining = { item_count arguments_left };

    fn next(&mut self) -> Option<Word> {
        if self.end < self.at {
            return None;
        }
        let cut = skip_to_far(self.text, b',', self.at, self.end);
        let argument = trim(self.text, Word::between(self.at, cut));
        self.at = cut + 1;
        Some(argument)
    }
}

/// How many arguments there are; `Malformed` if one is empty.
pub fn count_arguments(arguments: Arguments) -> Result<usize, Refusal>
    ensures { result ≡ counted (arguments_left arguments.entry) 0 }
{
    let mut n = 0;
    for argument in arguments {
        if argument.len == 0 {
            return Err(Refusal::Malformed);
        }
        n += 1;
    }
    Ok(n)
}
