// A `.names` line: its words, its rows, and the constant, alias or cell that they give.
ghost use Rattle.std.specs.Prelude.{◌≡◌, ◌+◌, ◌≤◌, length, take, IfOk};
ghost use Rattle.std.specs.Result.{result_unwrap_or};
ghost use Rattle.laws.specs.Stretches.{All};
ghost use Rattle.circuit.specs.declared.records.TheConstants.{WIRES};
ghost use Rattle.text.specs.Lines.{line_words};
ghost use Rattle.names.specs.Chains.{Table, IsNew};
ghost use Rattle.text.specs.declared.words.Word.{Word};
ghost use Rattle.cover.specs.Rows.{rows_left, RowsOf};
ghost use Rattle.reading.specs.Reading.{add_name};
ghost use Rattle.reading.specs.Holding.{outcome, entries_of, NamedNodesHold, NamedNodesHoldAfter, NamesStep, HeldStep};
ghost use Rattle.blif.specs.Blif.{drivers, gate, plan, names_line};
ghost use Rattle.blif.specs.Holding.{driver_of, PlanIs};

use crate::planned::Planned;
use circuit::records::WIRES;
use circuit::refusals::Refusal;
use cover::gates::gate_words;
use cover::lines::{Rows, line_words};
use cover::rows::parse_cover;
use names::NameTable;
use names::new_name::NewName;
use reading::records::{Counts, add_name, add_named, stretch_name, word_cell};
use text::words::Word;

/// The table of one input whose value is the input's.
pub const BUFFER: usize = 2;

/// The table that the definitions mean where they name it. A law: it does nothing when it runs.
pub fn buffer_table()
    ensures { BUFFER ≡ 2 }
{}

/// The wire of an input word; `NoDriver` if it has none.
#[tactic(auto, unfolding(reading::specs::Reading::find))]
pub fn driver(table: &NameTable, word: Word) -> Result<usize, Refusal>
    requires { word.start + word.len ≤ length table.now.text.now }
    ensures { result ≡ driver_of table.now.text.now (entries_of table.now) word }
{
    table.find(word).ok_or(Refusal::NoDriver)
}

/// The wires of the input words, in front of as many places as a cell has; `NoDriver` at the first that has none.
pub fn drivers(table: &NameTable, inputs: &[Word]) -> Result<[usize; WIRES], Refusal>
    requires few { length inputs.now ≤ WIRES }
    requires in_text { All (λ (w : Word). w.start + w.len ≤ length table.now.text.now) inputs.now }
    ensures { outcome (take (length inputs.now)) result
        ≡ drivers table.now.text.now (entries_of table.now) inputs.now }
{
    let mut wires = [0; WIRES];
    for (k, &word) in inputs.iter().enumerate() {
        wires[k] = driver(table, word)?;
    }
    Ok(wires)
}

/// The gate of the words after `.names`, with the rows after it: `Malformed` without a word, `DefinedBefore`, `WrongCount`,
/// `NoDriver`, `BadRow`.
#[tactic(auto, using(crate::proofs::Plans::plan_none, crate::proofs::Plans::plan_known, crate::proofs::Plans::plan_many))]
pub fn plan_gate(table: &NameTable, line: Word, rows: Rows) -> Result<Planned, Refusal>
    requires line_in_text { line.start + line.len ≤ length table.now.text.now }
    requires rows_in_text { RowsOf table.now.text.now rows }
    ensures { let t = table.now.text.now in
        PlanIs table.now result
        (plan t (line_words t line) (rows_left rows.entry) (entries_of table.now)) }
{
    let gate = gate_words(line_words(table.text, line)).ok_or(Refusal::Malformed)?;
    let Err(out) = table.search(gate.out) else {
        return Err(Refusal::DefinedBefore);
    };
    let count = gate.count.ok_or(Refusal::WrongCount)?;
    let wires = drivers(table, &gate.inputs[..count])?;
    let truth_table = parse_cover(rows, count).ok_or(Refusal::BadRow)?;
    Ok(Planned {
        out,
        count,
        wires,
        table: truth_table,
    })
}

/// A new name for a wire that is there.
pub fn add_alias(
    text: &[u8],
    name: NewName,
    wire: usize,
    counts: Counts,
    heads: &mut [usize; 256],
    names: &mut [usize],
) -> Result<Counts, Refusal>
    requires table { Table text.now heads.old names.old counts.names }
    requires new { IsNew text.now heads.old names.old counts.names name }
    ensures table { Table text.now heads.new names.new (result_unwrap_or result counts).names }
    ensures same_nodes { IfOk result (λ c. c.nodes ≡ counts.nodes) }
    ensures step { NamesStep (λ room. add_name room name.word wire)
        names.old counts.names names.new (outcome (λ c. c.names) result) }
{
    let named = add_name(text, name, wire, counts.names, heads, names)?;
    Ok(Counts {
        names: named,
        ..counts
    })
}

/// A gate that passed its checks: a constant, an alias or a cell, and its name.
#[tactic(auto, unfolding(crate::specs::Blif::gate, reading::specs::Reading::add_alias))]
pub fn put_gate(
    text: &[u8],
    p: Planned,
    counts: Counts,
    heads: &mut [usize; 256],
    nodes: &mut [usize],
    names: &mut [usize],
) -> Result<Counts, Refusal>
    requires areas { NamedNodesHold text.now heads.old nodes.old names.old counts }
    requires new { IsNew text.now heads.old names.old counts.names p.out }
    ensures areas { NamedNodesHoldAfter text.now heads.new nodes.new names.new result }
    ensures step { HeldStep (λ places. gate places p.out.word (take p.count p.wires) p.table)
        nodes.old names.old counts nodes.new names.new result }
{
    match (p.count, p.table) {
        (0, wire) => add_alias(text, p.out, wire, counts, heads, names),
        (1, BUFFER) => add_alias(text, p.out, p.wires[0], counts, heads, names),
        _ => {
            let node = word_cell(stretch_name(p.out.word), p.table, &p.wires[..p.count]);
            add_named(text, p.out, node, counts, heads, nodes, names)
        }
    }
}

/// `.names`, with the stretch after it, and the rows after that.
#[tactic(auto, unfolding(crate::specs::Blif::names_line))]
pub fn names_line(
    text: &[u8],
    line: Word,
    rows: Rows,
    counts: Counts,
    heads: &mut [usize; 256],
    nodes: &mut [usize],
    names: &mut [usize],
) -> Result<Counts, Refusal>
    requires areas { NamedNodesHold text.now heads.old nodes.old names.old counts }
    requires line_in_text { line.start + line.len ≤ length text.now }
    requires rows_in_text { RowsOf text.now rows }
    ensures areas { NamedNodesHoldAfter text.now heads.new nodes.new names.new result }
    ensures step { HeldStep
        (λ p. names_line text.now p (line_words text.now line) (rows_left rows.entry))
        nodes.old names.old counts nodes.new names.new result }
{
    let table = NameTable {
        text,
        heads,
        names,
        count: counts.names,
    };
    let p = plan_gate(&table, line, rows)?;
    put_gate(text, p, counts, heads, nodes, names)
}
