// A gate that passed its checks.
ghost use Rattle.std.specs.Prelude.{◌≤◌};
ghost use Rattle.circuit.specs.declared.records.TheConstants.{WIRES};

use circuit::records::WIRES;
use names::new_name::NewName;

/// Its new output name, how many inputs it has, the words of their wires, and its table.
#[derive(Clone, Copy)]
pub struct Planned {
    pub out: NewName,
    pub count: usize,
    pub wires: [usize; WIRES],
    pub table: usize,
    ghost few: { count ≤ WIRES },
}
