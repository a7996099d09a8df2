// The lines of the listing, each put at the end of what is written.
ghost use Rattle.std.specs.Prelude.{◌≡◌, [], ◌++◌, ◌+◌, ◌/◌, ◌<◌, ◌≤◌, ◌*◌, length, get_or};
ghost use Rattle.circuit.specs.Records.{node_at, output_at, nodes_of, outputs_of};
ghost use Rattle.circuit.specs.declared.records.TheConstants.{NODE_WORDS, OUTPUT_WORDS};
ghost use Rattle.listing.specs.declared.sizes.TheConstants.{PREFIX_BYTES, HEAD_BYTES, LINE_BYTES, NUMBER_BYTES, ORDER_BYTES};
ghost use Rattle.listing.specs.Listing.{node_head, input_line, cell_line, node_line, output_line, count_line, order_line, refused_line, listing};
ghost use Rattle.listing.specs.Lines.{Room};

use crate::line::Line;
use crate::pieces::{put_bytes, put_name, put_number, put_numbers, put_wire_word, put_wires};
use circuit::nodes::{Nodes, Outputs};
use circuit::records::{BoolNode, CELL, Name};

/// `refused N`.
#[tactic(auto, unfolding(crate::specs::Listing::refused_line))]
pub fn put_refused<L: Line>(line: &mut L, n: usize)
    requires { LINE_BYTES ≤ L.room line.old }
    ensures written { L.written line.new ≡ L.written line.old ++ refused_line n }
    ensures place { L.place line.new ≡ L.place line.old }
{
    put_bytes(line, b"refused");
    put_number(line, n);
    line.push(b'\n');
}

/// `nodes N`.
#[tactic(auto, unfolding(crate::specs::Listing::count_line))]
pub fn put_count<L: Line>(line: &mut L, n: usize)
    requires { LINE_BYTES ≤ L.room line.old }
    ensures written { L.written line.new ≡ L.written line.old ++ count_line n }
    ensures place { L.place line.new ≡ L.place line.old }
{
    put_bytes(line, b"nodes");
    put_number(line, n);
    line.push(b'\n');
}

/// A node's letter, number and name.
#[tactic(auto, unfolding(crate::specs::Listing::node_head))]
pub fn put_head<L: Line>(line: &mut L, text: &[u8], letter: u8, before: &[u8], i: usize, name: Name)
    requires { (length before.now ≤ PREFIX_BYTES) × (length text.now + HEAD_BYTES ≤ L.room line.old) }
    ensures written { L.written line.new ≡ L.written line.old ++ node_head text.now letter before.now i name }
    ensures room { L.room line.old ≤ L.room line.new + (length text.now + HEAD_BYTES) }
    ensures place { L.place line.new ≡ L.place line.old }
{
    line.push(letter);
    put_number(line, i);
    line.push(b' ');
    put_name(line, text, before, name);
}

/// The line of an input.
#[tactic(auto, unfolding(crate::specs::Listing::input_line))]
pub fn put_input<L: Line>(line: &mut L, text: &[u8], i: usize, n: BoolNode)
    requires { length text.now + LINE_BYTES ≤ L.room line.old }
    ensures written { L.written line.new ≡ L.written line.old ++ input_line text.now i n }
    ensures place { L.place line.new ≡ L.place line.old }
{
    put_head(line, text, b'I', b"i_", i, n.name);
    line.push(b'\n');
}

/// The line of a cell.
#[tactic(auto, unfolding(crate::specs::Listing::cell_line))]
pub fn put_cell<L: Line>(line: &mut L, text: &[u8], i: usize, n: BoolNode)
    requires { length text.now + LINE_BYTES ≤ L.room line.old }
    ensures written { L.written line.new ≡ L.written line.old ++ cell_line text.now i n }
    ensures place { L.place line.new ≡ L.place line.old }
{
    put_head(line, text, b'L', b"w_", i, n.name);
    put_number(line, n.table);
    put_wires(line, n);
    line.push(b'\n');
}

/// The line of node i.
#[tactic(auto, unfolding(crate::specs::Listing::node_line, circuit::specs::Records::is_cell_node))]
pub fn put_node<L: Line>(line: &mut L, text: &[u8], nodes: Nodes, i: usize)
    requires { (i < nodes.count) × (length text.now + LINE_BYTES ≤ L.room line.old) }
    ensures written { L.written line.new ≡ L.written line.old ++ node_line text.now i (node_at nodes.entry.words.now i) }
    ensures place { L.place line.new ≡ L.place line.old }
{
    let n = nodes.at(i);
    if n.kind == CELL {
        put_cell(line, text, i, n);
    } else {
        put_input(line, text, i, n);
    }
}

/// The line of output j.
#[tactic(auto, unfolding(crate::specs::Listing::output_line))]
pub fn put_output<L: Line>(line: &mut L, text: &[u8], outputs: Outputs, j: usize)
    requires { (j < outputs.count) × (length text.now + LINE_BYTES ≤ L.room line.old) }
    ensures written { L.written line.new ≡ L.written line.old ++ output_line text.now (output_at outputs.entry.words.now j) }
    ensures place { L.place line.new ≡ L.place line.old }
{
    let o = outputs.at(j);
    put_bytes(line, b"O ");
    put_name(line, text, b"", o.name);
    put_wire_word(line, o.wire);
    line.push(b'\n');
}

/// The line of the order.
#[tactic(auto, unfolding(crate::specs::Listing::order_line))]
pub fn put_order<L: Line>(line: &mut L, order: &[usize])
    requires { NUMBER_BYTES * length order.now + ORDER_BYTES ≤ L.room line.old }
    ensures written { L.written line.new ≡ L.written line.old ++ order_line order.now }
    ensures place { L.place line.new ≡ L.place line.old }
{
    line.push(b'S');
    put_numbers(line, order);
    line.push(b'\n');
}

/// Line k of the listing, and nothing else; nothing where there is none.
pub fn listing_line<L: Line>(
    line: &mut L,
    text: &[u8],
    nodes: &[usize],
    outputs: &[usize],
    order: &[usize],
    k: usize,
)
    requires { Room (length text.now) (length order.now) (L.place line.old).size }
    ensures written { L.written line.new ≡ get_or (listing text.now (nodes_of nodes.now (length nodes.now / NODE_WORDS)) (outputs_of outputs.now (length outputs.now / OUTPUT_WORDS)) order.now) k [] }
    ensures place { L.place line.new ≡ L.place line.old }
{
    line.clear();
    let nodes = Nodes::of(nodes);
    let outputs = Outputs::of(outputs);
    if k == 0 {
        put_count(line, nodes.count);
    } else if k <= nodes.count {
        put_node(line, text, nodes, k - 1);
    } else if k <= nodes.count + outputs.count {
        put_output(line, text, outputs, k - 1 - nodes.count);
    } else if k == nodes.count + outputs.count + 1 {
        put_order(line, order);
    }
}
