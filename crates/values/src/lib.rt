// What the nodes and outputs of a circuit are worth: a cell's value on the values of its wires, assignments of values to the inputs, the values in storage order,
// and the call `evaluate`.

#![tactic(auto)]

pub mod assignments;
pub mod cell;
pub mod evaluate;
pub mod outputs;
