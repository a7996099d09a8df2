// What a row makes of its output wires.
ghost use Rattle.bristol_rows.specs.Gates.{gates_left};

use circuit::records::{BoolNode, BoolWire, WireNumber};

/// What a row makes of an output wire: another name of a wire of the circuit, or a cell.
#[derive(Clone, Copy)]
pub enum Gate {
    Alias { out: WireNumber, wire: BoolWire },
    Cell { out: WireNumber, node: BoolNode },
}

/// The gates of a row, as an iterator gives them: those that are still to come. Every operation so far makes one.
#[derive(Clone, Copy)]
pub struct Gates {
    pub rest: Option<Gate>,
}

impl Iterator for Gates {
    ghost use Rattle.std.specs.Iterator.{YieldsFirst, item_count};

    type Item = Gate;

    ghost next_gives = { YieldsFirst gates_left };

    ghost remaining = { item_count gates_left };

    fn next(&mut self) -> Option<Gate> {
        self.rest.take()
    }
}
