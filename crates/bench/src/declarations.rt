// A line without `=`: a declaration.
ghost use Rattle.std.specs.Prelude.{◌≡◌, ◌+◌, ◌≤◌, length};
ghost use Rattle.reading.specs.Holding.{AreasHold, StateStep};
ghost use Rattle.bench.specs.Bench.{declaration_of, declared_in, declare, declaration_line};
ghost use Rattle.bench.specs.Plans.{NamedIs, AreasHoldAfterLine};

use crate::read::Bench;
use bench_invocations::invocation::parse_bench_invocation;
use bench_invocations::iterators::arguments_at;
use circuit::refusals::Refusal;
use reading::outputs::add_output;
use reading::records::{Reading, add_input};
use text::bytes::is_named;
use text::words::Word;

#[derive(Clone, Copy, Debug, PartialEq, Eq)]
pub enum Declaration {
    Input,
    Output,
    Other,
}

#[tactic(auto, unfolding(crate::specs::Bench::declaration_of))]
pub fn declaration_of(bytes: &[u8]) -> Declaration
    ensures { result ≡ declaration_of bytes.now }
{
    if is_named(bytes, b"INPUT") {
        Declaration::Input
    } else if is_named(bytes, b"OUTPUT") {
        Declaration::Output
    } else {
        Declaration::Other
    }
}

/// What is declared, and the one name.
#[derive(Clone, Copy)]
pub struct Named {
    pub declaration: Declaration,
    pub name: Word,
}

/// A declaration and its name: `Malformed`, then `WrongCount` unless there is one name.
#[tactic(auto, using(crate::proofs::Planning::name_refused, crate::proofs::Planning::no_name))]
pub fn declared_name(text: &[u8], line: Word) -> Result<Named, Refusal>
    requires { line.start + line.len ≤ length text.now }
    ensures { NamedIs text.now result (declared_in text.now line) }
{
    let invocation = parse_bench_invocation(text, line)?;
    let mut names = arguments_at(text, invocation.arguments);
    let (Some(name), None) = (names.next(), names.next()) else {
        return Err(Refusal::WrongCount);
    };
    Ok(Named {
        declaration: declaration_of(invocation.operation.bytes(text)),
        name,
    })
}

/// Adds what is declared: an input node and its name, or an output's word; `Unknown` for any other declaration.
#[tactic(auto, unfolding(crate::specs::Bench::declare, reading::specs::Reading::add_input, reading::specs::Reading::add_named))]
pub fn declare_name(
    text: &[u8],
    named: Named,
    read: Reading,
    heads: &mut [usize; 256],
    nodes: &mut [usize],
    names: &mut [usize],
    outputs: &mut [usize],
) -> Result<Reading, Refusal>
    requires areas { AreasHold text.now heads.old nodes.old names.old outputs.old read }
    requires name_in_text { named.name.start + named.name.len ≤ length text.now }
    ensures areas { AreasHoldAfterLine text.now heads.new nodes.new names.new outputs.new read result }
    ensures step { StateStep (λ p. declare text.now p named.declaration named.name)
        nodes.old names.old outputs.old read nodes.new names.new outputs.new result }
{
    match named.declaration {
        Declaration::Input => {
            let counts = add_input::<Bench>(text, named.name, read.counts, heads, nodes, names)?;
            Ok(Reading { counts, ..read })
        }
        Declaration::Output => {
            let n = add_output(text, named.name, read.outputs, outputs)?;
            Ok(Reading { outputs: n, ..read })
        }
        Declaration::Other => Err(Refusal::Unknown),
    }
}

#[tactic(auto, unfolding(crate::specs::Bench::declaration_line))]
pub fn declaration_line(
    text: &[u8],
    line: Word,
    read: Reading,
    heads: &mut [usize; 256],
    nodes: &mut [usize],
    names: &mut [usize],
    outputs: &mut [usize],
) -> Result<Reading, Refusal>
    requires areas { AreasHold text.now heads.old nodes.old names.old outputs.old read }
    requires line_in_text { line.start + line.len ≤ length text.now }
    ensures areas { AreasHoldAfterLine text.now heads.new nodes.new names.new outputs.new read result }
    ensures step { StateStep (λ p. declaration_line text.now p line)
        nodes.old names.old outputs.old read nodes.new names.new outputs.new result }
{
    let named = declared_name(text, line)?;
    declare_name(text, named, read, heads, nodes, names, outputs)
}
