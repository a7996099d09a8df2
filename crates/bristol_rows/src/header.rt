// The three lines of the header.
ghost use Rattle.std.specs.Prelude.{◌≡◌, Some};
ghost use Rattle.text.specs.Words.{split_whitespace};
ghost use Rattle.text.specs.Numbers.{parse_each};
ghost use Rattle.text.specs.Iterators.{kept_left};
ghost use Rattle.bristol_rows.specs.Header.{group_lines};
ghost use Rattle.bristol_rows.specs.Words.{words_left};
ghost use Rattle.bristol_rows.specs.Promises.{add_to, widths_of, group_of, counts_of, HeadIs, HeaderIs};

use crate::answers::{Counts, Head, Widths};
use crate::numbers::{next_number, read_number};
use crate::words::{LineWords, split_whitespace};
use circuit::refusals::Refusal;
use text::lines::KeptLines;

/// A sum and one number more; `None` where one of them is above the limit.
pub fn add_to(sum: Option<usize>, n: usize, limit: usize) -> Option<usize>
    ensures { result ≡ add_to limit sum n }
{
    let more = sum?.checked_add(n)?;
    if more <= limit { Some(more) } else { None }
}

/// The numbers of a line's rest: how many, and their sum.
#[tactic(auto, using(crate::proofs::WordLaws::words_few, crate::proofs::NumberLaws::each_none, crate::proofs::NumberLaws::each_value, crate::proofs::HeaderLineLaws::widths_end, crate::proofs::HeaderLineLaws::widths_on))]
pub fn read_widths(words: LineWords, limit: usize) -> Result<Widths, Refusal>
    ensures { result ≡ widths_of limit 0 (Some 0) (parse_each (words_left words.entry)) }
{
    let mut count = 0;
    let mut sum = Some(0);
    for word in words {
        sum = add_to(sum, read_number(word)?, limit);
        count += 1;
    }
    Ok(Widths { count, sum })
}

/// A group line: the number of groups, and their widths: their sum, if they are so many and it is at most the limit.
#[tactic(auto, using(crate::proofs::NumberLaws::each_none, crate::proofs::HeaderLineLaws::group_none))]
pub fn grouped_wire_count(line: &[u8], limit: usize) -> Result<Option<usize>, Refusal>
    ensures { result ≡ group_of limit (parse_each (split_whitespace line.now)) }
{
    let mut words = split_whitespace(line);
    let Some(first) = words.next() else {
        return Ok(None);
    };
    let groups = read_number(first)?;
    let widths = read_widths(words, limit)?;
    Ok(if groups == widths.count {
        widths.sum
    } else {
        None
    })
}

/// The first line: two numbers. `NotNumber` comes before `Malformed`, which is said of words that are missing or too many.
#[tactic(auto, using(crate::proofs::HeaderLineLaws::gates_first))]
pub fn read_counts(line: &[u8]) -> Result<Counts, Refusal>
    ensures { result ≡ counts_of (parse_each (split_whitespace line.now)) }
{
    let mut words = split_whitespace(line);
    let gates = next_number(&mut words)?;
    let wires = next_number(&mut words)?;
    let more = read_widths(words, 0)?;
    if more.count != 0 {
        return Err(Refusal::Malformed);
    }
    Ok(Counts { gates, wires })
}

/// The group lines, once the counts are known: `NotNumber`, then `HeaderMismatch`.
#[tactic(auto, using(crate::proofs::HeaderLaws::lines_first, crate::proofs::HeaderLaws::lines_second, crate::proofs::HeaderLaws::no_first))]
pub fn read_groups(b: &[u8], c: &[u8], counts: Counts) -> Result<Head, Refusal>
    ensures { HeadIs (group_lines counts.gates counts.wires b.now c.now) result }
{
    let Counts { gates, wires } = counts;
    let inputs = grouped_wire_count(b, wires)?;
    let outputs = grouped_wire_count(c, wires - inputs.unwrap_or(0))?;
    let (Some(inputs), Some(outputs)) = (inputs, outputs) else {
        return Err(Refusal::HeaderMismatch);
    };
    Ok(Head {
        gates,
        wires,
        inputs,
        outputs,
    })
}

/// The header: the first three lines of those that are left; `Malformed` if there are not three.
#[tactic(auto, using(crate::proofs::HeaderLaws::header_none, crate::proofs::HeaderLaws::header_one, crate::proofs::HeaderLaws::header_two))]
pub fn read_header(lines: &mut KeptLines) -> Result<Head, Refusal>
    ensures { HeaderIs (kept_left lines.old) (kept_left lines.new) result }
{
    let (Some(a), Some(b), Some(c)) = (lines.next(), lines.next(), lines.next()) else {
        return Err(Refusal::Malformed);
    };
    let counts = read_counts(a)?;
    read_groups(b, c, counts)
}
