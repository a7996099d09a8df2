// A text, read, ordered, run and evaluated in one call.
ghost use Rattle.std.specs.Prelude.{length};
ghost use Rattle.reading.specs.Areas.{read_text};
ghost use Rattle.bristol.specs.Bristol.{bristol_circuit};
ghost use Rattle.assurance.specs.Composed.{question, TextLeft, BristolLeft, TextAssured};
ghost use Rattle.assurance.specs.Inner.{Sounds};
ghost use Rattle.assurance.specs.Sounds.{blif_sounds, bench_sounds};

use crate::circuits::{Asked, Both, run_read};
use bench::read::Bench;
use blif::read::Blif;
use bristol::reader::parse_bristol;
use reading::format::{Format, parse};

/// A format whose accepted texts pass the circuit check.
pub trait Sound: Format {
    ghost sounds: { Sounds Self.lines };
}

impl Sound for Blif {
    ghost sounds = { blif_sounds };
}

impl Sound for Bench {
    ghost sounds = { bench_sounds };
}

/// A text of BLIF or BENCH, read, ordered, run and evaluated.
///
/// What the reader refuses is both answers, and every area is zeros. Once it accepts, `joined`, `nodes` and `outputs` hold the joined text and the circuit's records
/// in front, and the rest is `order_and_run` of these records. `names` is a work area, zeros after any call.
pub fn assured_text<F: Sound>(
    text: &[u8],
    joined: &mut [u8],
    nodes: &mut [usize],
    names: &mut [usize],
    outputs: &mut [usize],
    asked: Asked,
    ready: &mut [usize],
    successors: &mut [usize],
    order: &mut [usize],
    values: &mut [u8],
    answers: &mut [u8],
    evaluated: &mut [u8],
) -> Both
    ensures left { TextLeft F.lines text.now
        (length joined.old) (length nodes.old) (length names.old) (length outputs.old)
        joined.new nodes.new names.new outputs.new }
    ensures assured { TextAssured
        (read_text F.lines text.now (length joined.old) (length nodes.old) (length names.old) (length outputs.old))
        (question asked.entry)
        (record {
          ready = ready.old;
          successors = successors.old;
          order = order.old;
          values = values.old;
          answers = answers.old;
          evaluated = evaluated.old;
        })
        result
        (record {
          ready = ready.new;
          successors = successors.new;
          order = order.new;
          values = values.new;
          answers = answers.new;
          evaluated = evaluated.new;
        }) }
{
    let read = parse::<F>(text, joined, nodes, names, outputs);
    run_read(
        nodes, outputs, read, asked, ready, successors, order, values, answers, evaluated,
    )
}

/// A Bristol text, read, ordered, run and evaluated; as `assured_text`, but that its reader takes an area for the wires, a work area, zeros after any call.
pub fn assured_bristol(
    text: &[u8],
    nodes: &mut [usize],
    outputs: &mut [usize],
    wires: &mut [usize],
    asked: Asked,
    ready: &mut [usize],
    successors: &mut [usize],
    order: &mut [usize],
    values: &mut [u8],
    answers: &mut [u8],
    evaluated: &mut [u8],
) -> Both
    ensures left { BristolLeft text.now (length nodes.old) (length outputs.old) (length wires.old)
        nodes.new outputs.new wires.new }
    ensures assured { TextAssured
        (bristol_circuit text.now (length nodes.old) (length outputs.old) (length wires.old))
        (question asked.entry)
        (record {
          ready = ready.old;
          successors = successors.old;
          order = order.old;
          values = values.old;
          answers = answers.old;
          evaluated = evaluated.old;
        })
        result
        (record {
          ready = ready.new;
          successors = successors.new;
          order = order.new;
          values = values.new;
          answers = answers.new;
          evaluated = evaluated.new;
        }) }
{
    let read = parse_bristol(text, nodes, outputs, wires);
    run_read(
        nodes, outputs, read, asked, ready, successors, order, values, answers, evaluated,
    )
}
