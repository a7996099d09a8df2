// Replays recorded answers of the Rust: each file of data/ has texts of one format, each with the listing that its circuit has
// or with `refused N` (README.md says how they were made). Prints how many there are and how many come out the same.

#![tactic(auto)]

ghost use Rattle.std.specs.Prelude.{◌≡◌, ◌<◌, length, IfSome, IsTrue};
ghost use Rattle.replay.specs.declared.TheConstants.{RECORDED_END};

use crate::longest::print_longest;
use arrayvec::ArrayVec;
use bench::read::Bench;
use blif::read::Blif;
use printing::input::read_full;
use printing::listed::{Bristol, Joined, Listed};
use printing::rooms::room;
use std::fs::File;
use std::io;
use std::rt::Files;

mod longest;

/// The lengths of a text and of its answer have two bytes: they are below this, and so is the length of a file.
pub const RECORDED_END: usize = 65_536;

// Whether a text is listed as recorded.
fn lists<L: Listed>(text: &[u8], answer: &[u8]) -> bool
    ensures { IsTrue result → L.printed text.now ≡ answer.now }
{
    let mut out: ArrayVec<u8, RECORDED_END> = ArrayVec::new();
    L::list(&mut out, text).is_ok() && out.as_slice() == answer
}

// A text, its answer, and the records after it.
#[derive(Clone, Copy)]
struct Record<'a> {
    text: &'a [u8],
    answer: &'a [u8],
    rest: &'a [u8],
}

// A number of two bytes, the higher first.
fn pair(high: u8, low: u8) -> usize
    ensures { result < RECORDED_END }
{
    usize::from(u16::from_be_bytes([high, low]))
}

// The first record: the length of the text and that of the answer, two bytes each, the text and the answer. None where the data ends before.
fn next_record(recorded: &[u8]) -> Option<Record<'_>>
    ensures { IfSome result (λ r. length r.rest.now < length recorded.now) }
{
    let (sizes, rest) = recorded.split_at_checked(4)?;
    let (text, rest) = rest.split_at_checked(pair(sizes[0], sizes[1]))?;
    let (answer, rest) = rest.split_at_checked(pair(sizes[2], sizes[3]))?;
    Some(Record { text, answer, rest })
}

#[derive(Clone, Copy)]
struct Counts {
    records: u64,
    same: u64,
}

// All records of a file; none is counted as the same where the last one is cut off.
fn replay<L: Listed>(recorded: &[u8]) -> Counts {
    let mut counts = Counts {
        records: 0,
        same: 0,
    };
    let mut rest = recorded;
    // Each record says where the next begins, so there is no range to count over.
    while !rest.is_empty() {
        let Some(record) = next_record(rest) else {
            return Counts { same: 0, ..counts };
        };
        counts.records += 1;
        if lists::<L>(record.text, record.answer) {
            counts.same += 1;
        }
        rest = record.rest;
    }
    counts
}

fn replay_file<L: Listed>(rt: &(impl Files + Print), name: &str) -> io::Result<()> {
    let Ok(mut file) = File::open(rt, name) else {
        return Ok(());
    };
    let mut recorded: [u8; RECORDED_END] = room();
    let n = read_full(&mut file, &mut recorded)?;
    let Counts { records, same } = replay::<L>(&recorded[..n]);
    println!(rt; "{name}: {records} records, {same} the same")
}

fn main(rt: HostRuntime) -> io::Result<()> {
    replay_file::<Joined<Blif>>(&rt, "blif")?;
    replay_file::<Joined<Bench>>(&rt, "bench")?;
    replay_file::<Bristol>(&rt, "bristol")?;
    replay_file::<Joined<Blif>>(&rt, "blif_of_tools")?;
    replay_file::<Joined<Bench>>(&rt, "bench_of_tools")?;
    print_longest(&rt)
}
