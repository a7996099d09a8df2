// BLIF's rows, and the words and directives of its lines.

#![tactic(auto)]

pub mod directives;
pub mod gate;
pub mod gates;
pub mod lines;
pub mod rows;
