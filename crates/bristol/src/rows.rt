// The rows in turn.
ghost use Rattle.std.specs.Prelude.{◌≡◌, length, IfOk};
ghost use Rattle.reading.specs.Holding.{NodesHold};
ghost use Rattle.text.specs.Iterators.{kept_left};
ghost use Rattle.bristol.specs.Bristol.{row_step, rows};
ghost use Rattle.bristol.specs.Promises.{NodesHoldNext, StateStep, next_of};

use crate::answers::Rows;
use crate::store::store_gates;
use bristol_rows::row::read_row;
use circuit::records::NodeNumber;
use circuit::refusals::Refusal;
use text::lines::KeptLines;

/// A row, read and stored: the number of the next node then.
#[tactic(auto, unfolding(crate::specs::Bristol::row_step))]
pub fn row_step(
    line: &[u8],
    nodes: &mut [usize],
    wires: &mut [usize],
    next: NodeNumber,
) -> Result<NodeNumber, Refusal>
    requires areas { NodesHold nodes.old next.0 }
    ensures areas { NodesHoldNext nodes.new result }
    ensures step { StateStep (λ room. row_step room line.now)
        nodes.old wires.old next nodes.new wires.new result }
{
    let gates = read_row(line, wires)?;
    store_gates(nodes, wires, next, gates)
}

/// The rows that are left, read and stored in turn, from the first node that they may make.
#[tactic(auto, using(crate::proofs::StoreLaws::kept_few), unfolding(reading::specs::Reading::each))]
pub fn read_rows(
    lines: KeptLines,
    nodes: &mut [usize],
    wires: &mut [usize],
    first: NodeNumber,
) -> Result<Rows, Refusal>
    requires areas { NodesHold nodes.old first.0 }
    ensures areas { NodesHoldNext nodes.new (next_of result) }
    ensures step { StateStep (λ room. rows room (kept_left lines.entry)) nodes.old wires.old first
        nodes.new wires.new (next_of result) }
    ensures all { IfOk result (λ r. r.rows ≡ length (kept_left lines.entry)) }
{
    let mut next = first;
    let mut rows = 0;
    for line in lines {
        next = row_step(line, nodes, wires, next)?;
        rows += 1;
    }
    Ok(Rows { next, rows })
}
