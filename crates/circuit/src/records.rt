// Circuit records: values in code, words in the areas.
ghost use Rattle.std.specs.Prelude.{◌≡◌, ◌+◌, ◌<◌, ◌≤◌, length, get_or};
ghost use Rattle.laws.specs.Stretches.{All};
ghost use Rattle.circuit.specs.declared.records.BoolWire.TheVariants.{Node};
ghost use Rattle.circuit.specs.Records.{wire_word, HasWord, wire_of, name_words, name_from, encode_node, input_node, cell_node, encode_output, wires_of, no_wire};

use graphs::READS;

/// The most wires of a cell, and the places for wires in every node record: as many as a node has reads.
pub const WIRES: usize = READS;

/// The kind of an input, the first word of its record.
pub const INPUT: usize = 1;

/// The kind of a cell, the first word of its record.
pub const CELL: usize = 2;

/// The words of a name in a record: its form and up to three numbers.
pub const NAME_LEN: usize = 4;

/// The place of the wire count in a node record.
pub const COUNT_AT: usize = 1;

/// The place of the table in a node record.
pub const TABLE_AT: usize = 2;

/// The place of the name in a node record.
pub const NAME_AT: usize = 3;

/// The place of the first wire in a node record.
pub const WIRES_AT: usize = NAME_AT + NAME_LEN;

/// The words of a node record: kind, wire count, table, name, wires.
pub const NODE_WORDS: usize = WIRES_AT + WIRES;

/// The words of an output record: name, wire.
pub const OUTPUT_WORDS: usize = NAME_LEN + 1;

/// The word of node 0 as a wire: the words before it are the two constants'.
pub const FIRST_NODE: usize = 2;

/// The figures of a record that the definitions mean where they name them, and that callers in C write. A law: it does nothing when it runs.
pub fn record_layout()
    ensures kinds { (INPUT ≡ 1) × (CELL ≡ 2) }
    ensures places { (COUNT_AT ≡ 1) × (TABLE_AT ≡ 2) × (NAME_AT ≡ 3) × (WIRES_AT ≡ 7) }
    ensures widths { (NAME_LEN ≡ 4) × (WIRES ≡ 2) × (NODE_WORDS ≡ 9) × (OUTPUT_WORDS ≡ 5) }
    ensures wires { FIRST_NODE ≡ 2 }
{}

/// A place in the circuit, counted from 0 in storage order.
#[derive(Clone, Copy)]
pub struct NodeNumber(pub usize);

/// A wire of a Bristol file.
#[derive(Clone, Copy)]
pub struct WireNumber(pub usize);

/// A wire of a circuit: a constant, or what a node gives.
#[derive(Clone, Copy)]
pub enum BoolWire {
    Const(bool),
    Node(NodeNumber),
}

/// The name of a node or an output: a stretch of the joined text, a step of the chain that stands for the gate named there, or a Bristol wire.
#[derive(Clone, Copy)]
pub enum Name {
    Stretch {
        start: usize,
        len: usize,
    },
    Step {
        start: usize,
        len: usize,
        step: usize,
    },
    Number(WireNumber),
}

/// An input or a cell. Kind, count and table are the record's own words, of which a lent record may hold any.
/// The wires of a cell are the first `count` places; a record that is written has constant 0 in the places after them.
#[derive(Clone, Copy)]
pub struct BoolNode {
    pub kind: usize,
    pub count: usize,
    pub table: usize,
    pub name: Name,
    pub wires: [BoolWire; WIRES],
}

/// An output of a circuit: its name and the wire that it shows.
#[derive(Clone, Copy)]
pub struct Output {
    pub name: Name,
    pub wire: BoolWire,
}

impl BoolNode {
    /// An input of that name.
    pub fn input(name: Name) -> BoolNode
        ensures { result ≡ input_node name }
    {
        BoolNode {
            kind: INPUT,
            count: 0,
            table: 0,
            name,
            wires: [BoolWire::Const(false); WIRES],
        }
    }

    /// A cell with that truth table on these wires, the first of which picks the upper half of the table.
    pub fn cell(name: Name, table: usize, wires: &[BoolWire]) -> BoolNode
        requires { length wires.now ≤ WIRES }
        ensures { result ≡ cell_node name table wires.now }
    {
        let mut places = [BoolWire::Const(false); WIRES];
        // Place by place: a copy of so many wires would be a call of `memcpy`, which the static library then asks its callers for.
        for (k, place) in places.iter_mut().enumerate() {
            *place = place_wire(wires, k);
        }
        BoolNode {
            kind: CELL,
            count: wires.len(),
            table,
            name,
            wires: places,
        }
    }
}

/// The wire of place k in a record: past the wires constant 0.
pub fn place_wire(wires: &[BoolWire], k: usize) -> BoolWire
    ensures { result ≡ get_or wires.now k no_wire }
{
    if k < wires.len() {
        wires[k]
    } else {
        BoolWire::Const(false)
    }
}

/// How many nodes and outputs a circuit has.
#[derive(Clone, Copy)]
pub struct Sizes {
    pub nodes: usize,
    pub outputs: usize,
}

/// A wire as one word: 0 and 1 are the constants, and nodes count from `FIRST_NODE`.
pub fn wire_word(w: BoolWire) -> usize
    requires { HasWord w }
    ensures { result ≡ wire_word w }
{
    match w {
        BoolWire::Const(b) => usize::from(b),
        BoolWire::Node(n) => node_word(n),
    }
}

/// The word of a node's wire.
pub fn node_word(n: NodeNumber) -> usize
    requires { HasWord (Node n) }
    ensures { result ≡ wire_word (Node n) }
{
    n.0 + FIRST_NODE
}

/// The wire of a word.
impl From<usize> for BoolWire {
    ghost from_gives = { λ x w. w ≡ wire_of x };

    fn from(x: usize) -> BoolWire {
        match x {
            0 => BoolWire::Const(false),
            1 => BoolWire::Const(true),
            _ => BoolWire::Node(NodeNumber(x - FIRST_NODE)),
        }
    }
}

/// A name as words.
impl From<Name> for [usize; NAME_LEN] {
    ghost from_gives = { λ n a. a ≡ name_words n };

    fn from(n: Name) -> [usize; NAME_LEN] {
        match n {
            Name::Stretch { start, len } => [1, start, len, 0],
            Name::Step { start, len, step } => [2, start, len, step],
            Name::Number(w) => [3, w.0, 0, 0],
        }
    }
}

/// The name of its words. Any form but those of the two stretches is read as a number's.
impl From<[usize; NAME_LEN]> for Name {
    ghost from_gives = { λ a n. n ≡ name_from (get_or a 0 0) (get_or a 1 0) (get_or a 2 0) (get_or a 3 0) };

    fn from(words: [usize; NAME_LEN]) -> Name {
        let [form, a, b, c] = words;
        match form {
            1 => Name::Stretch { start: a, len: b },
            2 => Name::Step {
                start: a,
                len: b,
                step: c,
            },
            _ => Name::Number(WireNumber(a)),
        }
    }
}

/// A node as the words of its record.
pub fn node_words(n: BoolNode) -> [usize; NODE_WORDS]
    requires { All HasWord n.wires }
    ensures { result ≡ encode_node n }
{
    let [form, start, len, step] = <[usize; NAME_LEN]>::from(n.name);
    let mut words = [0; NODE_WORDS];
    words[..WIRES_AT].copy_from_slice(&[n.kind, n.count, n.table, form, start, len, step]);
    for (k, word) in words[WIRES_AT..].iter_mut().enumerate() {
        *word = wire_word(n.wires[k]);
    }
    words
}

/// An output as the words of its record.
pub fn output_words(o: Output) -> [usize; OUTPUT_WORDS]
    requires { HasWord o.wire }
    ensures { result ≡ encode_output o }
{
    let [form, start, len, step] = <[usize; NAME_LEN]>::from(o.name);
    [form, start, len, step, wire_word(o.wire)]
}

/// How many wires a node has: an input none, a cell as many as its record counts and has places for.
pub fn wire_count(n: BoolNode) -> usize
    ensures { (result ≡ length (wires_of n)) × (result ≤ WIRES) }
{
    if n.kind == CELL {
        n.count.min(WIRES)
    } else {
        0
    }
}

/// Wire k of a node's wires.
pub fn wire_at(n: BoolNode, k: usize) -> BoolWire
    requires { k < length (wires_of n) }
    ensures { result ≡ get_or (wires_of n) k no_wire }
{
    n.wires[k]
}
