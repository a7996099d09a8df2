// A chained gate: all its cells but the last.
ghost use Rattle.std.specs.Prelude.{◌≡◌, ◌+◌, ◌≤◌, length, IfOk};
ghost use Rattle.std.specs.Result.{result_unwrap_or};
ghost use Rattle.circuit.specs.Records.{wire_word};
ghost use Rattle.circuit.specs.declared.records.BoolWire.TheVariants.{Node};
ghost use Rattle.reading.specs.Reading.{add_node};
ghost use Rattle.reading.specs.Holding.{outcome, entries_of, NodesHold, NodesStep};
ghost use Rattle.bench_gates.specs.Gates.{step_cell};
ghost use Rattle.bench_gates.specs.Walks.{StepsAre};

use crate::inputs::argument_wire;
use crate::operations::Binary;
use crate::plans::Plan;
use bench_invocations::iterators::arguments_at;
use circuit::records::{Name, NodeNumber, node_word};
use circuit::refusals::Refusal;
use names::NameTable;
use reading::records::{add_node, word_cell};
use text::words::Word;

/// The cell of a step on the wires of two words, as the next node: how many there are then.
pub fn push_bench_lut(
    out: Word,
    operation: Binary,
    step: usize,
    x: usize,
    y: usize,
    count: usize,
    nodes: &mut [usize],
) -> Result<usize, Refusal>
    requires { NodesHold nodes.old count }
    ensures area { NodesHold nodes.new (result_unwrap_or result count) }
    ensures step { NodesStep (λ room. add_node room (step_cell out operation step x y))
        nodes.old count nodes.new result }
{
    let name = Name::Step {
        start: out.start,
        len: out.len,
        step,
    };
    let table = operation.associative().truth_table();
    add_node(word_cell(name, table, &[x, y]), count, nodes)
}

/// How far a chain is made: how many nodes there are, and the words of the two wires that the next step takes.
#[derive(Clone, Copy)]
pub struct Chained {
    pub nodes: usize,
    pub signal: usize,
    pub next: usize,
}

/// A step of a chain, which is not the last, since the wire `after` comes after those that it takes.
pub fn chain_step(
    out: Word,
    operation: Binary,
    step: usize,
    chained: Chained,
    after: usize,
    nodes: &mut [usize],
) -> Result<Chained, Refusal>
    requires { NodesHold nodes.old chained.nodes }
    ensures area { NodesHold nodes.new (result_unwrap_or result chained).nodes }
    ensures step { NodesStep (λ room. add_node room (step_cell out operation step chained.signal chained.next))
        nodes.old chained.nodes nodes.new (outcome (λ d. d.nodes) result) }
    ensures wires { IfOk result (λ d. (d.signal ≡ wire_word (Node (record { 0 = chained.nodes }))) × (d.next ≡ after)) }
{
    let made = push_bench_lut(
        out,
        operation,
        step,
        chained.signal,
        chained.next,
        chained.nodes,
        nodes,
    )?;
    Ok(Chained {
        nodes: made,
        signal: node_word(NodeNumber(chained.nodes)),
        next: after,
    })
}

/// All steps of a gate but the last: one for each input after the second.
#[tactic(auto, using(crate::proofs::Chaining::stepping_on))]
pub fn chain_steps(
    table: &NameTable,
    plan: Plan,
    operation: Binary,
    first: Chained,
    nodes: &mut [usize],
) -> Result<Chained, Refusal>
    requires area { NodesHold nodes.old first.nodes }
    requires arguments_in_text { plan.arguments.end ≤ length table.now.text.now }
    ensures { StepsAre table.now.text.now (entries_of table.now) plan operation (length nodes.old)
        nodes.old first nodes.new result }
{
    let mut chained = first;
    for (k, argument) in arguments_at(table.text, plan.arguments).skip(2).enumerate() {
        let wire = argument_wire(table, argument)?;
        chained = chain_step(plan.out.word, operation, k + 1, chained, wire, nodes)?;
    }
    Ok(chained)
}
