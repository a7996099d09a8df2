// Invocations of BENCH: an operation, and its arguments in parentheses.

#![tactic(auto)]

pub mod arguments;
pub mod invocation;
pub mod iterators;
