// The records of a lent area: nodes and outputs.
ghost use Rattle.std.specs.Prelude.{◌≡◌, ◌*◌, ◌/◌, ◌<◌, ◌≤◌, length, get_or};
ghost use Rattle.circuit.specs.Records.{node_at, output_at, output_wire, is_cell_node, wires_of, no_wire};

use crate::records::{
    BoolNode, BoolWire, CELL, COUNT_AT, NAME_AT, NAME_LEN, NODE_WORDS, Name, OUTPUT_WORDS, Output,
    TABLE_AT, WIRES, WIRES_AT,
};

/// So many records of WIDTH words each, at the front of an area.
#[derive(Clone, Copy)]
pub struct Records<'a, const WIDTH: usize> {
    pub words: &'a [usize],
    pub count: usize,
    ghost whole: { count * WIDTH ≤ length words.now },
}

pub type Nodes<'a> = Records<'a, NODE_WORDS>;

pub type Outputs<'a> = Records<'a, OUTPUT_WORDS>;

impl<'a, const WIDTH: usize> Records<'a, WIDTH> {
    /// All whole records of the area.
    pub fn of(words: &'a [usize]) -> Records<'a, WIDTH>
        requires { 0 < WIDTH }
        ensures { (result.words.now ≡ words.now) × (result.count ≡ length words.now / WIDTH) }
    {
        Records {
            words,
            count: words.len() / WIDTH,
        }
    }
}

impl<'a> Records<'a, NODE_WORDS> {
    /// Node i.
    pub fn at(self, i: usize) -> BoolNode
        requires { i < self.count }
        ensures { result ≡ node_at self.entry.words.now i }
    {
        let b = i * NODE_WORDS;
        let mut wires = [BoolWire::Const(false); WIRES];
        for (k, wire) in wires.iter_mut().enumerate() {
            *wire = BoolWire::from(self.words[b + WIRES_AT + k]);
        }
        BoolNode {
            kind: self.words[b],
            count: self.words[b + COUNT_AT],
            table: self.words[b + TABLE_AT],
            name: Name::from([
                self.words[b + NAME_AT],
                self.words[b + NAME_AT + 1],
                self.words[b + NAME_AT + 2],
                self.words[b + NAME_AT + 3],
            ]),
            wires,
        }
    }

    /// Node i is a cell.
    #[tactic(auto, unfolding(crate::specs::Records::is_cell_node, crate::specs::Records::node_from))]
    pub fn is_cell(self, i: usize) -> bool
        requires { i < self.count }
        ensures { result ≡ is_cell_node (node_at self.entry.words.now i) }
    {
        self.words[i * NODE_WORDS] == CELL
    }

    /// How many wires node i has.
    pub fn wire_count(self, i: usize) -> usize
        requires { i < self.count }
        ensures { result ≡ length (wires_of (node_at self.entry.words.now i)) }
    {
        if self.is_cell(i) {
            self.words[i * NODE_WORDS + COUNT_AT].min(WIRES)
        } else {
            0
        }
    }

    /// Wire k of node i, from its word alone.
    #[tactic(auto, using(crate::proofs::Places::few_wires))]
    pub fn wire(self, i: usize, k: usize) -> BoolWire
        requires { (i < self.count) × (k < length (wires_of (node_at self.words.now i))) }
        ensures { result ≡ get_or (wires_of (node_at self.entry.words.now i)) k no_wire }
    {
        BoolWire::from(self.words[i * NODE_WORDS + WIRES_AT + k])
    }
}

impl<'a> Records<'a, OUTPUT_WORDS> {
    /// Output j.
    pub fn at(self, j: usize) -> Output
        requires { j < self.count }
        ensures { result ≡ output_at self.entry.words.now j }
    {
        let b = j * OUTPUT_WORDS;
        Output {
            name: Name::from([
                self.words[b],
                self.words[b + 1],
                self.words[b + 2],
                self.words[b + 3],
            ]),
            wire: self.wire(j),
        }
    }

    /// The wire of output j.
    pub fn wire(self, j: usize) -> BoolWire
        requires { j < self.count }
        ensures { result ≡ output_wire self.entry.words.now j }
    {
        BoolWire::from(self.words[j * OUTPUT_WORDS + NAME_LEN])
    }
}
