// What the calls of the reader answer.
use circuit::records::NodeNumber;

/// The rows stored: the number of the next node, and how many rows there were.
#[derive(Clone, Copy)]
pub struct Rows {
    pub next: NodeNumber,
    pub rows: usize,
}
