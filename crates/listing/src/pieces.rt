// The pieces of a line: numbers, wires and names, each put at the end of what is written of it.
ghost use Rattle.std.specs.Prelude.{◌≡◌, ◌++◌, ◌+◌, ◌*◌, ◌≤◌, length};
ghost use Rattle.laws.specs.Stretches.{stretch};
ghost use Rattle.circuit.specs.Records.{wires_of};
ghost use Rattle.listing.specs.declared.sizes.TheConstants.{DIGITS, NUMBER_BYTES, WIRE_BYTES, WIRES_BYTES, PREFIX_BYTES, NAME_BYTES};
ghost use Rattle.listing.specs.Decimal.{decimal};
ghost use Rattle.listing.specs.Listing.{word, words, wire_bytes, name_bytes};

use crate::line::Line;
use circuit::records::{BoolNode, BoolWire, Name, wire_at, wire_count};
use itoa::Buffer;

/// Bytes that are given.
pub fn put_bytes<L: Line>(line: &mut L, bytes: &[u8])
    requires { length bytes.now ≤ L.room line.old }
    ensures written { L.written line.new ≡ L.written line.old ++ bytes.now }
    ensures room { L.room line.old ≡ L.room line.new + length bytes.now }
    ensures place { L.place line.new ≡ L.place line.old }
{
    line.extend(bytes);
}

/// The digits of a number.
pub fn put_decimal<L: Line>(line: &mut L, n: usize)
    requires { DIGITS ≤ L.room line.old }
    ensures written { L.written line.new ≡ L.written line.old ++ decimal n }
    ensures room { L.room line.old ≤ L.room line.new + DIGITS }
    ensures place { L.place line.new ≡ L.place line.old }
{
    line.extend(Buffer::new().format(n).as_bytes());
}

/// A space and a number.
pub fn put_number<L: Line>(line: &mut L, n: usize)
    requires { NUMBER_BYTES ≤ L.room line.old }
    ensures written { L.written line.new ≡ L.written line.old ++ word (decimal n) }
    ensures room { L.room line.old ≤ L.room line.new + NUMBER_BYTES }
    ensures place { L.place line.new ≡ L.place line.old }
{
    line.push(b' ');
    put_decimal(line, n);
}

/// Numbers, each with a space before it.
pub fn put_numbers<L: Line>(line: &mut L, numbers: &[usize])
    requires { NUMBER_BYTES * length numbers.now ≤ L.room line.old }
    ensures written { L.written line.new ≡ L.written line.old ++ words decimal numbers.now }
    ensures room { L.room line.old ≤ L.room line.new + NUMBER_BYTES * length numbers.now }
    ensures place { L.place line.new ≡ L.place line.old }
{
    for &n in numbers {
        put_number(line, n);
    }
}

/// A wire: `n` and its node's number, or `c0`, `c1`.
pub fn put_wire<L: Line>(line: &mut L, w: BoolWire)
    requires { WIRE_BYTES ≤ L.room line.old }
    ensures written { L.written line.new ≡ L.written line.old ++ wire_bytes w }
    ensures room { L.room line.old ≤ L.room line.new + WIRE_BYTES }
    ensures place { L.place line.new ≡ L.place line.old }
{
    match w {
        BoolWire::Const(true) => put_bytes(line, b"c1"),
        BoolWire::Const(false) => put_bytes(line, b"c0"),
        BoolWire::Node(n) => {
            line.push(b'n');
            put_decimal(line, n.0);
        }
    }
}

/// A space and a wire.
pub fn put_wire_word<L: Line>(line: &mut L, w: BoolWire)
    requires { 1 + WIRE_BYTES ≤ L.room line.old }
    ensures written { L.written line.new ≡ L.written line.old ++ word (wire_bytes w) }
    ensures room { L.room line.old ≤ L.room line.new + (1 + WIRE_BYTES) }
    ensures place { L.place line.new ≡ L.place line.old }
{
    line.push(b' ');
    put_wire(line, w);
}

/// The wires of a node.
pub fn put_wires<L: Line>(line: &mut L, n: BoolNode)
    requires { WIRES_BYTES ≤ L.room line.old }
    ensures written { L.written line.new ≡ L.written line.old ++ words wire_bytes (wires_of n) }
    ensures room { L.room line.old ≤ L.room line.new + WIRES_BYTES }
    ensures place { L.place line.new ≡ L.place line.old }
{
    for k in 0..wire_count(n) {
        put_wire_word(line, wire_at(n, k));
    }
}

/// A stretch of the text, as far as the text goes.
pub fn put_part<L: Line>(line: &mut L, text: &[u8], start: usize, len: usize)
    requires { length text.now ≤ L.room line.old }
    ensures written { L.written line.new ≡ L.written line.old ++ stretch text.now start len }
    ensures room { L.room line.old ≤ L.room line.new + length text.now }
    ensures place { L.place line.new ≡ L.place line.old }
{
    let from = start.min(text.len());
    let end = from + len.min(text.len() - from);
    put_bytes(line, &text[from..end]);
}

/// A name, with what stands before a wire's number.
pub fn put_name<L: Line>(line: &mut L, text: &[u8], before: &[u8], name: Name)
    requires { (length before.now ≤ PREFIX_BYTES) × (length text.now + NAME_BYTES ≤ L.room line.old) }
    ensures written { L.written line.new ≡ L.written line.old ++ name_bytes text.now before.now name }
    ensures room { L.room line.old ≤ L.room line.new + (length text.now + NAME_BYTES) }
    ensures place { L.place line.new ≡ L.place line.old }
{
    match name {
        Name::Stretch { start, len } => put_part(line, text, start, len),
        Name::Step { start, len, step } => {
            put_part(line, text, start, len);
            put_bytes(line, b"$bench$");
            put_decimal(line, step);
        }
        Name::Number(w) => {
            put_bytes(line, before);
            put_decimal(line, w.0);
        }
    }
}
