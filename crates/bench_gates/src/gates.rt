// A gate whose inputs have drivers: the nodes and the name that it adds.
ghost use Rattle.std.specs.Prelude.{◌+◌, ◌≤◌, length};
ghost use Rattle.std.specs.Result.{result_unwrap_or};
ghost use Rattle.names.specs.Chains.{entries, Table, IsNew};
ghost use Rattle.reading.specs.Holding.{NamedNodesHold, NamedNodesHoldAfter, NamesStep, HeldStep};
ghost use Rattle.bench_gates.specs.Walks.{Driven, buffer_planned, inverter_planned, chain_planned, gate_planned};

use crate::chains::{Chained, chain_steps};
use crate::operations::{Binary, NOT_TABLE, Operation};
use crate::plans::Plan;
use crate::short_chains::{chain_pair, chain_triple};
use circuit::refusals::Refusal;
use names::NameTable;
use reading::records::{Counts, add_name, add_named, stretch_name, word_cell};

/// BUFF, BUF: a name for the wire of the one input; how many names there are then.
pub fn lower_buffer(
    text: &[u8],
    plan: Plan,
    count: usize,
    heads: &mut [usize; 256],
    names: &mut [usize],
) -> Result<usize, Refusal>
    requires table { Table text.now heads.old names.old count }
    requires new { IsNew text.now heads.old names.old count plan.out }
    ensures table { Table text.now heads.new names.new (result_unwrap_or result count) }
    ensures step { NamesStep (buffer_planned plan) names.old count names.new result }
{
    if plan.inputs != 1 {
        return Err(Refusal::WrongCount);
    }
    add_name(text, plan.out, plan.wires[0], count, heads, names)
}

/// NOT, INV: a cell of one wire; `WrongCount` unless there is one input.
pub fn lower_inverter(
    text: &[u8],
    plan: Plan,
    counts: Counts,
    heads: &mut [usize; 256],
    nodes: &mut [usize],
    names: &mut [usize],
) -> Result<Counts, Refusal>
    requires areas { NamedNodesHold text.now heads.old nodes.old names.old counts }
    requires new { IsNew text.now heads.old names.old counts.names plan.out }
    ensures areas { NamedNodesHoldAfter text.now heads.new nodes.new names.new result }
    ensures step { HeldStep (inverter_planned plan) nodes.old names.old counts nodes.new names.new result }
{
    if plan.inputs != 1 {
        return Err(Refusal::WrongCount);
    }
    let node = word_cell(stretch_name(plan.out.word), NOT_TABLE, &[plan.wires[0]]);
    add_named(text, plan.out, node, counts, heads, nodes, names)
}

/// A chain of any length: the steps, then the last cell. The first two wires are at hand, the others are looked up as they come.
pub fn chain_many(
    text: &[u8],
    plan: Plan,
    operation: Binary,
    counts: Counts,
    heads: &mut [usize; 256],
    nodes: &mut [usize],
    names: &mut [usize],
) -> Result<Counts, Refusal>
    requires areas { NamedNodesHold text.now heads.old nodes.old names.old counts }
    requires new { IsNew text.now heads.old names.old counts.names plan.out }
    requires arguments_in_text { plan.arguments.end ≤ length text.now }
    ensures areas { NamedNodesHoldAfter text.now heads.new nodes.new names.new result }
    ensures step { HeldStep (chain_planned text.now plan operation)
        nodes.old names.old counts nodes.new names.new result }
{
    let table = NameTable {
        text,
        heads,
        names,
        count: counts.names,
    };
    let [signal, next, _] = plan.wires;
    let first = Chained {
        nodes: counts.nodes,
        signal,
        next,
    };
    let last = chain_steps(&table, plan, operation, first, nodes)?;
    let made = Counts {
        nodes: last.nodes,
        ..counts
    };
    chain_pair(
        text,
        plan.out,
        operation,
        last.signal,
        last.next,
        made,
        heads,
        nodes,
        names,
    )
}

/// A gate by its operation: `WrongCount` or `Unknown`, else its nodes and its name.
pub fn lower_bench_gate(
    text: &[u8],
    plan: Plan,
    counts: Counts,
    heads: &mut [usize; 256],
    nodes: &mut [usize],
    names: &mut [usize],
) -> Result<Counts, Refusal>
    requires areas { NamedNodesHold text.now heads.old nodes.old names.old counts }
    requires new { IsNew text.now heads.old names.old counts.names plan.out }
    requires driven { Driven text.now (entries names.old counts.names) plan }
    ensures areas { NamedNodesHoldAfter text.now heads.new nodes.new names.new result }
    ensures step { HeldStep (gate_planned text.now plan) nodes.old names.old counts nodes.new names.new result }
{
    let Plan { out, wires, .. } = plan;
    match (plan.operation, plan.inputs) {
        (Operation::Buf, _) => {
            let named = lower_buffer(text, plan, counts.names, heads, names)?;
            Ok(Counts {
                names: named,
                ..counts
            })
        }
        (Operation::Not, _) => lower_inverter(text, plan, counts, heads, nodes, names),
        (Operation::Chain(_), 0 | 1) => Err(Refusal::WrongCount),
        (Operation::Chain(o), 2) => chain_pair(
            text, out, o, wires[0], wires[1], counts, heads, nodes, names,
        ),
        (Operation::Chain(o), 3) => chain_triple(text, out, o, wires, counts, heads, nodes, names),
        (Operation::Chain(o), _) => chain_many(text, plan, o, counts, heads, nodes, names),
        (Operation::Other, _) => Err(Refusal::Unknown),
    }
}
