// The slots of the wire area: what it holds for each wire of the file.
ghost use Rattle.std.specs.Prelude.{◌≡◌, ◌<◌, ◌^◌};
ghost use Rattle.bristol_rows.specs.Slots.{slot_of, slot_of_driver, slot_of_node, driver_of_slot};

use circuit::records::{BoolWire, NodeNumber, WireNumber, wire_word};

/// The slot of a wire of the file that nothing drives yet: a slot is a word of a lent area, which begins as zeros.
pub const UNDRIVEN: usize = 0;

/// The slot that stands at a wire of the file; `UNDRIVEN` if the file has no such wire.
pub fn slot_of(wires: &[usize], wire: WireNumber) -> usize
    ensures { result ≡ slot_of wires.now wire }
{
    wires.get(wire.0).copied().unwrap_or(UNDRIVEN)
}

/// The slot of a wire of the file that a wire of the circuit drives: one more than the word of that wire.
pub fn slot_of_driver(driver: BoolWire) -> usize
    requires { slot_of_driver driver < 2 ^ 64 }
    ensures { result ≡ slot_of_driver driver }
{
    wire_word(driver) + 1
}

/// The slot of a wire of the file that a node drives.
pub fn slot_of_node(node: NodeNumber) -> usize
    requires { slot_of_node node < 2 ^ 64 }
    ensures { result ≡ slot_of_node node }
{
    slot_of_driver(BoolWire::Node(node))
}

/// The wire of the circuit that drives a wire of the file, by the slot of that one; the slot is not `UNDRIVEN`.
pub fn driver_of_slot(slot: usize) -> BoolWire
    ensures { result ≡ driver_of_slot slot }
{
    BoolWire::from(slot.saturating_sub(1))
}
