// An invocation such as `AND(a, b)`.
ghost use Rattle.std.specs.Prelude.{◌≡◌, ◌+◌, ◌≤◌, length};
ghost use Rattle.bench_invocations.specs.Invocations.{parse_invocation};
ghost use Rattle.bench_invocations.specs.Walks.{last_place, InvocationIs, InvokedIs};

use crate::arguments::ArgumentPlaces;
use crate::iterators::{arguments_of, count_arguments};
use circuit::refusals::Refusal;
use text::bytes::find_byte;
use text::words::{Word, trim};

/// The place of the last x in a word, if there is one.
pub fn find_last_byte(text: &[u8], x: u8, word: Word) -> Option<usize>
    requires { word.start + word.len ≤ length text.now }
    ensures { result ≡ last_place x text.now word }
{
    let last = word.bytes(text).iter().rposition(|&b| b == x)?;
    Some(word.start + last)
}

/// The operation, where the arguments between the parentheses stand, and how many there are: they are counted where an empty one is refused, and not again.
#[derive(Clone, Copy)]
pub struct Invocation {
    pub operation: Word,
    pub arguments: ArgumentPlaces,
    pub count: usize,
}

/// An operation with the arguments that stand between its parentheses.
pub fn invocation_arguments(
    text: &[u8],
    operation: Word,
    inside: Word,
) -> Result<Invocation, Refusal>
    requires { (operation.start + operation.len ≤ length text.now) × (inside.start + inside.len ≤ length text.now) }
    ensures { InvokedIs text.now operation inside result }
{
    let arguments = arguments_of(text, inside);
    let count = count_arguments(arguments)?;
    Ok(Invocation {
        operation,
        arguments: ArgumentPlaces {
            at: arguments.at,
            end: arguments.end,
        },
        count,
    })
}

/// A line as an invocation: from its first `(` to its last `)`, with blanks alone after that.
#[tactic(auto, using(crate::proofs::Parts::some_ok, crate::proofs::Parsing::malformed, crate::proofs::Parsing::opening_inside, crate::proofs::Parsing::closing_inside, crate::proofs::Parsing::reversed))]
pub fn parse_bench_invocation(text: &[u8], line: Word) -> Result<Invocation, Refusal>
    requires { line.start + line.len ≤ length text.now }
    ensures { InvocationIs text.now result (parse_invocation text.now line) }
{
    let opening = find_byte(text, b'(', line).ok_or(Refusal::Malformed)?;
    let closing = find_last_byte(text, b')', line).ok_or(Refusal::Malformed)?;
    if closing <= opening {
        return Err(Refusal::Malformed);
    }
    let operation = trim(text, Word::between(line.start, opening));
    let after = Word::between(closing + 1, line.start + line.len);
    if trim(text, after).len != 0 || operation.len == 0 {
        return Err(Refusal::Malformed);
    }
    invocation_arguments(text, operation, Word::between(opening + 1, closing))
}
