// An order of the cells of a graph, in which each comes after the cells that it reads. A graph is anything that tells its reads.

#![tactic(auto)]

pub mod graph;
pub mod keys;
pub mod linking;
pub mod members;
pub mod picking;
pub mod promised;
pub mod releasing;
pub mod taking;
pub mod tree;
pub mod waiting;
pub mod widths;
pub mod window;
