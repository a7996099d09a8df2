// The nodes and names of a circuit as it is read: a record more, or the refusal.
ghost use Rattle.std.specs.Prelude.{◌≡◌, ◌+◌, ◌≤◌, length};
ghost use Rattle.std.specs.Result.{result_unwrap_or};
ghost use Rattle.laws.specs.Stretches.{All};
ghost use Rattle.circuit.specs.declared.records.TheConstants.{WIRES};
ghost use Rattle.circuit.specs.declared.records.Name.TheVariants.{Stretch};
ghost use Rattle.circuit.specs.Records.{HasWord};
ghost use Rattle.names.specs.Chains.{Table, IsNew};
ghost use Rattle.reading.specs.Reading.{add_name, add_node, add_named, word_cell, stretch_name, add_input};
ghost use Rattle.reading.specs.Holding.{NodesHold, NamedNodesHold, NamedNodesHoldAfter, NamesStep, NodesStep, HeldStep};

use crate::format::Names;
use circuit::areas::{put_node, records_in};
use circuit::records::{BoolNode, BoolWire, NODE_WORDS, Name, NodeNumber, WIRES, node_word};
use circuit::refusals::Refusal;
use names::NameTable;
use names::new_name::NewName;
use names::records::NAME_WORDS;
use text::words::Word;

/// How many nodes and names there are.
#[derive(Clone, Copy)]
pub struct Counts {
    pub nodes: usize,
    pub names: usize,
}

/// What has been read: how many nodes, names and outputs.
#[derive(Clone, Copy)]
pub struct Reading {
    pub counts: Counts,
    pub outputs: usize,
}

// A new name for the word of a wire: how many names there are then. `add_node` and `outputs::add_output` share with it the test for room alone: what each stores, and in what, is its own.
#[tactic(auto, using(crate::proofs::Steps::name_full, crate::proofs::Steps::name_added))]
pub fn add_name(
    text: &[u8],
    name: NewName,
    wire: usize,
    count: usize,
    heads: &mut [usize; 256],
    names: &mut [usize],
) -> Result<usize, Refusal>
    requires table { Table text.now heads.old names.old count }
    requires new { IsNew text.now heads.old names.old count name }
    ensures table { Table text.now heads.new names.new (result_unwrap_or result count) }
    ensures step { NamesStep (λ room. add_name room name.word wire) names.old count names.new result }
{
    if records_in(names.len(), NAME_WORDS) <= count {
        return Err(Refusal::NoRoom);
    }
    names::define(text, name, wire, heads, names, count);
    Ok(count + 1)
}

/// A node more: how many there are then. `NoRoom` if the area has no place for it.
#[tactic(auto, using(crate::proofs::Steps::node_full, crate::proofs::Storing::room_of))]
pub fn add_node(node: BoolNode, count: usize, nodes: &mut [usize]) -> Result<usize, Refusal>
    requires area { NodesHold nodes.old count }
    requires wires_fit { All HasWord node.wires }
    ensures area { NodesHold nodes.new (result_unwrap_or result count) }
    ensures step { NodesStep (λ room. add_node room node) nodes.old count nodes.new result }
{
    if records_in(nodes.len(), NODE_WORDS) <= count {
        return Err(Refusal::NoRoom);
    }
    put_node(nodes, count, node);
    Ok(count + 1)
}

/// A node and its new name: how many nodes and names there are then.
#[tactic(auto, using(circuit::proofs::Codes::length_nodes), unfolding(crate::specs::Reading::add_named))]
pub fn add_named(
    text: &[u8],
    name: NewName,
    node: BoolNode,
    counts: Counts,
    heads: &mut [usize; 256],
    nodes: &mut [usize],
    names: &mut [usize],
) -> Result<Counts, Refusal>
    requires areas { NamedNodesHold text.now heads.old nodes.old names.old counts }
    requires new { IsNew text.now heads.old names.old counts.names name }
    requires wires_fit { All HasWord node.wires }
    ensures areas { NamedNodesHoldAfter text.now heads.new nodes.new names.new result }
    ensures step { HeldStep (λ p. add_named p name.word node) nodes.old names.old counts nodes.new names.new result }
{
    let n = add_node(node, counts.nodes, nodes)?;
    let wire = node_word(NodeNumber(counts.nodes));
    let m = add_name(text, name, wire, counts.names, heads, names)?;
    Ok(Counts { nodes: n, names: m })
}

/// The name that stands where a word does. A function, since neither type is this crate's, as `From` would need.
pub fn stretch_name(word: Word) -> Name
    ensures { result ≡ stretch_name word }
{
    Name::Stretch {
        start: word.start,
        len: word.len,
    }
}

/// A cell on the wires of these words.
pub fn word_cell(name: Name, table: usize, words: &[usize]) -> BoolNode
    requires { length words.now ≤ WIRES }
    ensures cell { result ≡ word_cell name table words.now }
    ensures wires_fit { All HasWord result.wires }
{
    let mut wires = [BoolWire::Const(false); WIRES];
    for (k, wire) in wires[..words.len()].iter_mut().enumerate() {
        *wire = BoolWire::from(words[k]);
    }
    BoolNode::cell(name, table, &wires[..words.len()])
}

/// A declared input and its name: `DefinedBefore`, then `NoRoom`.
#[tactic(auto, using(circuit::proofs::Words::input_fits), unfolding(crate::specs::Reading::add_input))]
pub fn add_input<F: Names>(
    text: &[u8],
    word: Word,
    counts: Counts,
    heads: &mut [usize; 256],
    nodes: &mut [usize],
    names: &mut [usize],
) -> Result<Counts, Refusal>
    requires areas { NamedNodesHold text.now heads.old nodes.old names.old counts }
    requires word_in_text { word.start + word.len ≤ length text.now }
    ensures areas { NamedNodesHoldAfter text.now heads.new nodes.new names.new result }
    ensures step { HeldStep (λ p. add_input F.constants text.now p word)
        nodes.old names.old counts nodes.new names.new result }
{
    let table = NameTable {
        text,
        heads,
        names,
        count: counts.names,
    };
    match F::search(&table, word) {
        Ok(_) => Err(Refusal::DefinedBefore),
        Err(name) => {
            let node = BoolNode::input(stretch_name(word));
            add_named(text, name, node, counts, heads, nodes, names)
        }
    }
}
