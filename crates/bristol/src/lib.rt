// The reader of Bristol texts.

#![tactic(auto)]

pub mod answers;
pub mod outputs;
pub mod reader;
pub mod rows;
pub mod store;
