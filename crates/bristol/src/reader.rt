// The reader.
ghost use Rattle.std.specs.Prelude.{◌≡◌, ◌*◌, ◌≤◌, length};
ghost use Rattle.circuit.specs.declared.records.TheConstants.{NODE_WORDS};
ghost use Rattle.laws.specs.declared.TheConstants.{MOST_RECORDS};
ghost use Rattle.text.specs.Lines.{kept_lines};
ghost use Rattle.text.specs.Iterators.{kept_left};
ghost use Rattle.reading.specs.Holding.{NodesHold, Ends};
ghost use Rattle.bristol.specs.Bristol.{with_inputs, body_in, circuit_in, bristol};
ghost use Rattle.bristol.specs.Promises.{Zeros, state_of, Ready, LeavesAreas, leaving};

use crate::outputs::put_wires;
use crate::rows::read_rows;
use bristol_rows::answers::Head;
use bristol_rows::header::read_header;
use bristol_rows::slots::slot_of_node;
use circuit::areas::{clear_all, put_node, records_in};
use circuit::records::{BoolNode, NODE_WORDS, Name, NodeNumber, Sizes, WireNumber};
use circuit::refusals::Refusal;
use text::MOST_TEXT;
use text::bytes::is_ascii;
use text::iterators::kept_lines;
use text::lines::KeptLines;

/// The inputs: each of the first wires of the file is driven by an input node of its own, the next of the circuit. The answer
/// is the number of the node after them.
#[tactic(auto, using(circuit::proofs::Words::input_fits))]
pub fn put_inputs(nodes: &mut [usize], wires: &mut [usize], count: usize) -> NodeNumber
    requires rooms { (count * NODE_WORDS ≤ length nodes.old) × (count ≤ length wires.old)
        × (count ≤ MOST_RECORDS) }
    requires areas { NodesHold nodes.old 0 }
    ensures areas { NodesHold nodes.new result.0 }
    ensures step { state_of nodes.new wires.new result ≡ with_inputs count wires.old }
{
    let mut wire = WireNumber(0);
    let mut next = NodeNumber(0);
    while wire.0 < count {
        put_node(nodes, next.0, BoolNode::input(Name::Number(wire)));
        wires[wire.0] = slot_of_node(next);
        wire = WireNumber(wire.0 + 1);
        next = NodeNumber(next.0 + 1);
    }
    next
}

/// The circuit of a header that fits the areas; `wires` has a place for each wire of the file. `HeaderMismatch` if there are not
/// as many rows as the header says.
#[tactic(auto, using(crate::proofs::ReadLaws::start_is), unfolding(crate::specs::Bristol::body, laws::specs::Areas::capacity))]
pub fn read_body(
    lines: KeptLines,
    head: Head,
    nodes: &mut [usize],
    outputs: &mut [usize],
    wires: &mut [usize],
) -> Result<Sizes, Refusal>
    requires { Ready head nodes.old outputs.old wires.old }
    ensures { Ends (body_in head (kept_left lines.entry) (length nodes.old) (length outputs.old) 0)
        result nodes.new outputs.new }
{
    let first = put_inputs(nodes, wires, head.inputs);
    let read = read_rows(lines, nodes, wires, first)?;
    if read.rows != head.gates {
        return Err(Refusal::HeaderMismatch);
    }
    let count = put_wires(wires, WireNumber(head.wires - head.outputs), outputs)?;
    Ok(Sizes {
        nodes: read.next.0,
        outputs: count,
    })
}

/// The same, with zeros in the wires after it, and in the other areas after a refusal.
#[tactic(auto, using(crate::proofs::ReadLaws::refused_leaves))]
pub fn read_clean(
    lines: KeptLines,
    head: Head,
    nodes: &mut [usize],
    outputs: &mut [usize],
    wires: &mut [usize],
) -> Result<Sizes, Refusal>
    requires { Ready head nodes.old outputs.old wires.old }
    ensures { LeavesAreas (leaving (body_in head (kept_left lines.entry)))
        nodes.old outputs.old wires.old result nodes.new outputs.new wires.new }
{
    let read = read_body(lines, head, nodes, outputs, wires);
    wires.fill(0);
    if read.is_err() {
        nodes.fill(0);
        outputs.fill(0);
    }
    read
}

/// A header and what follows it, into areas that are zero. `NoRoom` if the wire area or the node area is too short for the header.
#[tactic(auto, unfolding(crate::specs::Bristol::circuit, laws::specs::Areas::capacity))]
pub fn read_circuit(
    text: &[u8],
    nodes: &mut [usize],
    outputs: &mut [usize],
    wires: &mut [usize],
) -> Result<Sizes, Refusal>
    requires { Zeros nodes.old × Zeros outputs.old × Zeros wires.old }
    ensures { LeavesAreas (leaving (circuit_in (kept_lines text.now)))
        nodes.old outputs.old wires.old result nodes.new outputs.new wires.new }
{
    let mut lines = kept_lines(text);
    let head = read_header(&mut lines)?;
    if records_in(wires.len(), 1) < head.wires
        || records_in(nodes.len(), NODE_WORDS) < head.inputs
    {
        return Err(Refusal::NoRoom);
    }
    read_clean(lines, head, nodes, outputs, &mut wires[..head.wires])
}

/// The checks of the text, `TextTooLong` and `NotAscii`, then its circuit, into areas that are zero.
#[tactic(auto, unfolding(crate::specs::Bristol::bristol, crate::specs::Bristol::bristol_circuit))]
pub fn read_text(
    text: &[u8],
    nodes: &mut [usize],
    outputs: &mut [usize],
    wires: &mut [usize],
) -> Result<Sizes, Refusal>
    requires { Zeros nodes.old × Zeros outputs.old × Zeros wires.old }
    ensures { LeavesAreas (bristol text.now) nodes.old outputs.old wires.old
        result nodes.new outputs.new wires.new }
{
    if MOST_TEXT < text.len() {
        return Err(Refusal::TextTooLong);
    }
    if !is_ascii(text) {
        return Err(Refusal::NotAscii);
    }
    read_circuit(text, nodes, outputs, wires)
}

/// Reads a Bristol text into areas for nodes, outputs and wires: how many nodes and outputs it has, or the refusal. The wires are
/// a work area, zero after the call; after a refusal the other areas are zero too.
pub fn parse_bristol(
    text: &[u8],
    nodes: &mut [usize],
    outputs: &mut [usize],
    wires: &mut [usize],
) -> Result<Sizes, Refusal>
    ensures { LeavesAreas (bristol text.now) nodes.old outputs.old wires.old
        result nodes.new outputs.new wires.new }
{
    clear_all(nodes, outputs, wires);
    read_text(text, nodes, outputs, wires)
}
