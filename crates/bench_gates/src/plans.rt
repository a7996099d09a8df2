// A gate that is read, before it adds anything.

use crate::operations::Operation;
use bench_invocations::arguments::ArgumentPlaces;
use names::new_name::NewName;

/// How many input wires are kept where a gate is read: those of a gate of two or three inputs are not looked up again.
pub const KEPT: usize = 3;

/// Its output, a new name, its operation, where its arguments stand, how many they are, and the wires of the first `KEPT`: 0
/// where there is none, since only as many are read as there are inputs.
#[derive(Clone, Copy)]
pub struct Plan {
    pub out: NewName,
    pub operation: Operation,
    pub arguments: ArgumentPlaces,
    pub inputs: usize,
    pub wires: [usize; KEPT],
}
