// Replays recorded answers of the Rust `logical_lines`: data/joined_lines has a record for each text, its length in a byte, its bytes,
// the length of its joined text in a byte, and that text. Prints how many records there are and how many come out the same.

#![tactic(auto)]

ghost use Rattle.std.specs.Prelude.{◌≤◌, ◌<◌, length, IfSome};
ghost use Rattle.lines_replay.specs.declared.TheConstants.{TEXT_END};

use printing::input::read_full;
use printing::rooms::room;
use std::fs::File;
use std::io;
use std::rt::Files;
use text::joining::logical_lines;

/// The length of a text has one byte: it is below this.
pub const TEXT_END: usize = 256;

/// The bytes of a recorded file at most.
pub const RECORDED: usize = 65_536;

// Whether the joined text of a text is the answer.
fn joins_to(text: &[u8], answer: &[u8]) -> bool
    requires { length text.now < TEXT_END }
{
    let mut joined = [0u8; TEXT_END];
    let n = logical_lines(text, &mut joined);
    &joined[..n] == answer
}

// Bytes after their length in a byte, and what follows them; none if the data ends first.
fn split_counted(recorded: &[u8]) -> Option<(&[u8], &[u8])>
    ensures { IfSome result (λ parts. (length parts.0.now < TEXT_END) × (length parts.1.now < length recorded.now)) }
{
    let (&len, rest) = recorded.split_first()?;
    rest.split_at_checked(usize::from(len))
}

fn replay(rt: &impl Print, recorded: &[u8]) -> io::Result<()> {
    let mut rest = recorded;
    let mut records: u64 = 0;
    let mut same: u64 = 0;
    // Each record says where the next begins. One loop for both replays would take a record's reader and what one cut off means: longer than both.
    while !rest.is_empty() {
        let Some((text, after)) = split_counted(rest) else {
            return Ok(());
        };
        let Some((answer, after)) = split_counted(after) else {
            return Ok(());
        };
        records += 1;
        if joins_to(text, answer) {
            same += 1;
        }
        rest = after;
    }
    println!(rt; "{records} records, {same} the same")
}

fn replay_file(rt: &(impl Files + Print)) -> io::Result<()> {
    let Ok(mut file) = File::open(rt, "joined_lines") else {
        return Ok(());
    };
    let mut recorded: [u8; RECORDED] = room();
    let n = read_full(&mut file, &mut recorded)?;
    replay(rt, &recorded[..n])
}

fn main(rt: HostRuntime) -> io::Result<()> {
    replay_file(&rt)
}
