// The longest text that is read, of spaces alone, has no outputs as BLIF; a space more is too long.
ghost use Rattle.std.specs.Prelude.{◌≡◌, ◌≤◌, length};
ghost use Rattle.replay.specs.declared.longest.TheConstants.{TOO_LONG};

use blif::read::parse_blif;
use circuit::refusals::Refusal;
use printing::rooms::{NAMES_AREA, NODES_AREA, OUTPUTS_AREA, room};
use std::io;
use text::MOST_TEXT;

/// The length of the shortest text that is too long.
pub const TOO_LONG: usize = MOST_TEXT + 1;

fn spaces() -> [u8; TOO_LONG]
    ensures { TOO_LONG ≡ length result }
{
    [b' '; TOO_LONG]
}

// What so many spaces as BLIF are refused with, if they are.
fn spaces_refused(size: usize) -> Option<Refusal>
    requires { size ≤ TOO_LONG }
{
    let text = spaces();
    let mut joined = spaces();
    let mut nodes: [usize; NODES_AREA] = room();
    let mut names: [usize; NAMES_AREA] = room();
    let mut outputs: [usize; OUTPUTS_AREA] = room();
    parse_blif(
        &text[..size],
        &mut joined,
        &mut nodes,
        &mut names,
        &mut outputs,
    )
    .err()
}

pub fn print_longest(rt: &impl Print) -> io::Result<()> {
    let longest = spaces_refused(MOST_TEXT).map_or(0, usize::from);
    let longer = spaces_refused(TOO_LONG).map_or(0, usize::from);
    println!(rt; "{MOST_TEXT} spaces: {longest}, one more: {longer}")
}
