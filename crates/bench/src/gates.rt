// A line with `=`: a gate.
ghost use Rattle.std.specs.Prelude.{◌+◌, ◌≤◌, length};
ghost use Rattle.text.specs.Blanks.{trimmed};
ghost use Rattle.names.specs.Chains.{IsNew};
ghost use Rattle.reading.specs.Holding.{entries_of, NamedNodesHold, NamedNodesHoldAfter, HeldStep};
ghost use Rattle.bench_invocations.specs.Walks.{invoked, NotedIn};
ghost use Rattle.bench.specs.Bench.{gate_invoked, gate_of, gate_line};
ghost use Rattle.bench.specs.Plans.{PlanIs};

use bench_gates::gates::lower_bench_gate;
use bench_gates::inputs::{input_wires, search_wire};
use bench_gates::operations::operation_of;
use bench_gates::plans::Plan;
use bench_invocations::invocation::{Invocation, parse_bench_invocation};
use circuit::refusals::Refusal;
use names::NameTable;
use names::new_name::NewName;
use reading::records::Counts;
use text::words::{Word, trim};

/// A gate with a new output and its invocation; `NoDriver` at the first input that has none.
#[tactic(auto, using(crate::proofs::Planning::plan_refused, crate::proofs::Planning::inputs_refused, crate::proofs::Planning::plan_made))]
pub fn plan_inputs(table: &NameTable, out: NewName, invocation: Invocation) -> Result<Plan, Refusal>
    requires new { IsNew table.now.text.now table.now.heads.now table.now.names.now table.now.count out }
    requires noted { NotedIn table.now.text.now invocation }
    ensures { let t = table.now.text.now in
        PlanIs table.now out.word result (gate_invoked t (entries_of table.now) (invoked t invocation)) }
{
    let wires = input_wires(table, invocation.arguments)?;
    Ok(Plan {
        out,
        operation: operation_of(invocation.operation.bytes(table.text)),
        arguments: invocation.arguments,
        inputs: invocation.count,
        wires,
    })
}

/// A gate by what stands before the first `=` of a line and what stands after it: `Malformed` without an output, `DefinedBefore`,
/// `Malformed` by its invocation, `NoDriver`.
#[tactic(auto, using(crate::proofs::Planning::plan_refused, crate::proofs::Planning::no_output, crate::proofs::Planning::known_output, crate::proofs::Planning::new_output))]
pub fn plan_gate(table: &NameTable, before: Word, after: Word) -> Result<Plan, Refusal>
    requires before_in_text { before.start + before.len ≤ length table.now.text.now }
    requires after_in_text { after.start + after.len ≤ length table.now.text.now }
    ensures { let t = table.now.text.now in
        PlanIs table.now (trimmed t before) result (gate_of t (trimmed t before) after (entries_of table.now)) }
{
    let out = trim(table.text, before);
    if out.len == 0 {
        return Err(Refusal::Malformed);
    }
    let Err(new) = search_wire(table, out) else {
        return Err(Refusal::DefinedBefore);
    };
    let invocation = parse_bench_invocation(table.text, after)?;
    plan_inputs(table, new, invocation)
}

/// A gate: all checks, then its nodes and its name.
#[tactic(auto, unfolding(crate::specs::Bench::gate_line))]
pub fn gate_line(
    text: &[u8],
    before: Word,
    after: Word,
    counts: Counts,
    heads: &mut [usize; 256],
    nodes: &mut [usize],
    names: &mut [usize],
) -> Result<Counts, Refusal>
    requires areas { NamedNodesHold text.now heads.old nodes.old names.old counts }
    requires before_in_text { before.start + before.len ≤ length text.now }
    requires after_in_text { after.start + after.len ≤ length text.now }
    ensures areas { NamedNodesHoldAfter text.now heads.new nodes.new names.new result }
    ensures step { HeldStep (λ p. gate_line text.now p (trimmed text.now before) after)
        nodes.old names.old counts nodes.new names.new result }
{
    let table = NameTable {
        text,
        heads,
        names,
        count: counts.names,
    };
    let plan = plan_gate(&table, before, after)?;
    lower_bench_gate(text, plan, counts, heads, nodes, names)
}
