// The lines of a Bristol text: its header, and a gate row.

#![tactic(auto)]

pub mod answers;
pub mod gates;
pub mod header;
pub mod numbers;
pub mod operation;
pub mod row;
pub mod slots;
pub mod words;
