// What a list program does with a text of each format.
ghost use Rattle.std.specs.Prelude.{ℕ, List, OnOk};
ghost use Rattle.std.specs.Io.KnownBytes.{Appends};
ghost use Rattle.printing.specs.Printed.{printed_text, printed_bristol, Listed as IsListed};

use crate::input::read_full;
use crate::rooms::{INPUT_AREA, JOINED_AREA, NAMES_AREA, NODES_AREA, OUTPUTS_AREA, room};
use crate::{print_read, print_refused};
use bristol::reader::parse_bristol;
use circuit::refusals::Refusal;
use listing::{LISTED, LISTED_TEXT};
use reading::format::{Format, parse};
use std::io;
use std::io::{Read, Write};
use std::marker::PhantomData;

/// A format whose texts are listed, with places for `LISTED` nodes, names, outputs and wires.
pub trait Listed {
    /// What is printed of a text.
    ghost printed: { List ℕ → List ℕ };

    fn list<W: Write>(out: &mut W, text: &[u8]) -> io::Result<()>
        ensures { OnOk result (Appends (W.contents out.old) (W.contents out.new) (printed text.now)) };
}

/// A format whose lines may be continued, as those of BLIF and BENCH.
pub struct Joined<F>(PhantomData<F>);

impl<F: Format> Listed for Joined<F> {
    ghost printed = { printed_text F.lines };

    fn list<W: Write>(out: &mut W, text: &[u8]) -> io::Result<()> {
        let mut joined: [u8; JOINED_AREA] = room();
        let mut nodes: [usize; NODES_AREA] = room();
        let mut names: [usize; NAMES_AREA] = room();
        let mut outputs: [usize; OUTPUTS_AREA] = room();
        let read = parse::<F>(text, &mut joined, &mut nodes, &mut names, &mut outputs);
        print_read(out, read, &joined, &nodes, &outputs)
    }
}

/// Bristol, whose names are numbers.
pub struct Bristol;

impl Listed for Bristol {
    ghost printed = { printed_bristol };

    fn list<W: Write>(out: &mut W, text: &[u8]) -> io::Result<()> {
        let mut nodes: [usize; NODES_AREA] = room();
        let mut outputs: [usize; OUTPUTS_AREA] = room();
        let mut wires: [usize; LISTED] = room();
        let read = parse_bristol(text, &mut nodes, &mut outputs, &mut wires);
        print_read(out, read, b"", &nodes, &outputs)
    }
}

/// A list program: what is read is listed, or refused where it is longer than `LISTED_TEXT`.
pub fn list_input<L: Listed, R: Read, W: Write>(from: &mut R, out: &mut W) -> io::Result<()>
    ensures { OnOk result (IsListed L.printed (R.remaining from.old) (R.remaining from.new) (W.contents out.old) (W.contents out.new)) }
{
    let mut text: [u8; INPUT_AREA] = room();
    let n = read_full(from, &mut text)?;
    if LISTED_TEXT < n {
        return print_refused(out, Refusal::TextTooLong);
    }
    L::list(out, &text[..n])
}
