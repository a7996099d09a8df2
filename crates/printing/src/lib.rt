// What the list programs share: the order of the cells, and the lines written one after the other.

#![tactic(auto)]

ghost use Rattle.std.specs.Prelude.{◌≡◌, ◌*◌, ◌/◌, ◌≤◌, length, OnOk};
ghost use Rattle.std.specs.Io.KnownBytes.{Appends};
ghost use Rattle.circuit.specs.Refusals.{number_of};
ghost use Rattle.schedule.specs.Call.{leaves, schedule_call};
ghost use Rattle.laws.specs.declared.TheConstants.{MOST_RECORDS};
ghost use Rattle.circuit.specs.declared.records.TheConstants.{NODE_WORDS};
ghost use Rattle.listing.specs.declared.keys.TheConstants.{KEY_LEN};
ghost use Rattle.listing.specs.Listing.{keys_from, refused_line};
ghost use Rattle.listing.specs.Lines.{Room};
ghost use Rattle.printing.specs.declared.TheConstants.{LISTING_WINDOW};
ghost use Rattle.printing.specs.declared.rooms.TheConstants.{JOINED_AREA, NODES_AREA};
ghost use Rattle.printing.specs.Inside.{Listable};
ghost use Rattle.printing.specs.Printed.{printed_lines, printed_circuit, printed_read};

use crate::rooms::{KEYS_AREA, LINE_AREA, READY_AREA, SUCCESSORS_AREA, room};
use arrayvec::ArrayVec;
use circuit::records::{NODE_WORDS, OUTPUT_WORDS, Sizes};
use circuit::refusals::Refusal;
use listing::LISTED;
use listing::keys::{KEY_LEN, fill_keys};
use listing::line::Line;
use listing::lines::{listing_line, put_refused};
use listing::sizes::LINE_BYTES;
use schedule::scheduled_gates_by_key;
use std::io;
use std::io::Write;

pub mod input;
pub mod listed;
pub mod rooms;

/// The window of the listing's order.
pub const LISTING_WINDOW: usize = 2;

/// The window that the definitions mean where they name it. A law: it does nothing when it runs.
pub fn window_of_listing()
    ensures { LISTING_WINDOW ≡ 2 }
{}

/// The order of a listing: by the greatest node number of those in the window, whose keys are (0, 0, node number).
/// How many cells it has, or the schedule's refusal.
pub fn order_cells(
    nodes: &[usize],
    outputs: &[usize],
    keys: &mut [u32],
    ready: &mut [usize],
    successors: &mut [usize],
    order: &mut [usize],
) -> Result<usize, Refusal>
    requires keys_fit { length nodes.now / NODE_WORDS * KEY_LEN ≤ length keys.old }
    requires few_nodes { length nodes.now / NODE_WORDS ≤ MOST_RECORDS }
    ensures { leaves result ready.new successors.new order.new ≡ schedule_call nodes.now outputs.now LISTING_WINDOW (keys_from 0 (length nodes.now / NODE_WORDS)) ready.old successors.old order.old }
{
    let count = nodes.len() / NODE_WORDS;
    let size = count * KEY_LEN;
    fill_keys(keys, count);
    scheduled_gates_by_key(
        nodes,
        outputs,
        LISTING_WINDOW,
        &keys[..size],
        ready,
        successors,
        order,
    )
}

/// Writes `refused N`, N being the refusal's number.
pub fn print_refused<W: Write>(out: &mut W, e: Refusal) -> io::Result<()>
    ensures { OnOk result (Appends (W.contents out.old) (W.contents out.new) (refused_line (number_of e))) }
{
    let mut line: ArrayVec<u8, LINE_BYTES> = ArrayVec::new();
    put_refused(&mut line, usize::from(e));
    out.write_all(line.as_slice())
}

/// Writes every line of the listing of a circuit, whose names are in the text; each is put on `line` first.
pub fn print_lines<L: Line, W: Write>(
    out: &mut W,
    text: &[u8],
    nodes: &[usize],
    outputs: &[usize],
    order: &[usize],
    line: &mut L,
) -> io::Result<()>
    requires { Room (length text.now) (length order.now) (L.place line.old).size }
    ensures printed { OnOk result (Appends (W.contents out.old) (W.contents out.new) (printed_lines text.now nodes.now outputs.now order.now)) }
    ensures place { L.place line.new ≡ L.place line.old }
{
    // the node count comes first, the order last
    let lines = nodes.len() / NODE_WORDS + outputs.len() / OUTPUT_WORDS + 2;
    for k in 0..lines {
        listing_line(line, text, nodes, outputs, order, k);
        out.write_all(line.as_slice())?;
    }
    Ok(())
}

/// Writes the listing of a circuit of at most `LISTED` nodes, whose names are in the text, or the refusal of its schedule.
pub fn print_circuit<W: Write>(
    out: &mut W,
    text: &[u8],
    nodes: &[usize],
    outputs: &[usize],
) -> io::Result<()>
    requires { (length text.now ≤ JOINED_AREA) × (length nodes.now ≤ NODES_AREA) }
    ensures { OnOk result (Appends (W.contents out.old) (W.contents out.new) (printed_circuit text.now nodes.now outputs.now)) }
{
    let mut keys: [u32; KEYS_AREA] = room();
    let mut ready: [usize; READY_AREA] = room();
    let mut successors: [usize; SUCCESSORS_AREA] = room();
    let mut order: [usize; LISTED] = room();
    match order_cells(
        nodes,
        outputs,
        &mut keys,
        &mut ready,
        &mut successors,
        &mut order,
    ) {
        Ok(n) => {
            let mut line: ArrayVec<u8, LINE_AREA> = ArrayVec::new();
            print_lines(out, text, nodes, outputs, &order[..n], &mut line)
        }
        Err(e) => print_refused(out, e),
    }
}

/// Writes what a reader answered: the refusal, or the listing of the circuit in front of the areas.
pub fn print_read<W: Write>(
    out: &mut W,
    read: Result<Sizes, Refusal>,
    text: &[u8],
    nodes: &[usize],
    outputs: &[usize],
) -> io::Result<()>
    requires { Listable text.now nodes.now outputs.now read }
    ensures { OnOk result (Appends (W.contents out.old) (W.contents out.new) (printed_read text.now nodes.now outputs.now read)) }
{
    match read {
        Ok(sizes) => {
            let node_words = sizes.nodes * NODE_WORDS;
            let output_words = sizes.outputs * OUTPUT_WORDS;
            print_circuit(out, text, &nodes[..node_words], &outputs[..output_words])
        }
        Err(e) => print_refused(out, e),
    }
}
