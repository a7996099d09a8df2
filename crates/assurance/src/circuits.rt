// A circuit's order, the run along it and `evaluate` in one call.
ghost use Rattle.std.specs.Prelude.{◌≡◌, ◌≤◌, ◌<◌, length, take, replicate, Err};
ghost use Rattle.circuit.specs.declared.refusals.Refusal.TheVariants.{UnfitOrder};
ghost use Rattle.assurance.specs.Composed.{question, Refused, RefusedRun, RanThenEvaluated, CircuitAssured};
ghost use Rattle.assurance.specs.Inner.{ReadSizesRun};

use circuit::areas::clear_all;
use circuit::records::{NODE_WORDS, OUTPUT_WORDS, Sizes};
use circuit::refusals::Refusal;
use runs::run::run;
use schedule::scheduled_gates_by_key;
use values::evaluate::evaluate;

/// What is asked of a circuit: an order for a window of at least 1 and three keys for each node, and a run for a value 0, 1 or 2 (unknown) of each input.
#[derive(Clone, Copy)]
pub struct Asked<'a> {
    pub window: usize,
    pub keys: &'a [u32],
    pub assignment: &'a [u8],
}

/// The answers of the run, a number of cells, and of `evaluate`, a number of outputs.
#[derive(Clone, Copy)]
pub struct Both {
    pub ran: Result<usize, Refusal>,
    pub evaluated: Result<usize, Refusal>,
}

/// Nothing is run: both answers are the refusal, and the areas of the run and of `evaluate` are zeros.
pub fn refuse(e: Refusal, values: &mut [u8], answers: &mut [u8], evaluated: &mut [u8]) -> Both
    ensures answers { (result.ran ≡ Err e) × (result.evaluated ≡ Err e) }
    ensures values_are { values.new ≡ replicate (length values.old) 0 }
    ensures answers_are { answers.new ≡ replicate (length answers.old) 0 }
    ensures evaluated_are { evaluated.new ≡ replicate (length evaluated.old) 0 }
{
    values.fill(0);
    answers.fill(0);
    evaluated.fill(0);
    Both {
        ran: Err(e),
        evaluated: Err(e),
    }
}

/// Nothing is ordered or run: both answers are the refusal, and all six areas are zeros.
pub fn refuse_both(
    e: Refusal,
    ready: &mut [usize],
    successors: &mut [usize],
    order: &mut [usize],
    values: &mut [u8],
    answers: &mut [u8],
    evaluated: &mut [u8],
) -> Both
    ensures { Refused e
        (record {
          ready = ready.old;
          successors = successors.old;
          order = order.old;
          values = values.old;
          answers = answers.old;
          evaluated = evaluated.old;
        })
        result
        (record {
          ready = ready.new;
          successors = successors.new;
          order = order.new;
          values = values.new;
          answers = answers.new;
          evaluated = evaluated.new;
        }) }
{
    clear_all(ready, successors, order);
    refuse(e, values, answers, evaluated)
}

/// The run along the first `cells` entries of a list, then `evaluate`. Each answers and leaves what its own definition says, refusals too; `values` is zeros
/// after either.
pub fn run_and_evaluate(
    nodes: &[usize],
    outputs: &[usize],
    order: &[usize],
    cells: usize,
    assignment: &[u8],
    values: &mut [u8],
    answers: &mut [u8],
    evaluated: &mut [u8],
) -> Both
    requires { cells ≤ length order.now }
    ensures { RanThenEvaluated nodes.now outputs.now (take cells order.now) assignment.now
        values.old answers.old evaluated.old result values.new answers.new evaluated.new }
{
    let ran = run(nodes, outputs, &order[..cells], assignment, values, answers);
    let evaluated = evaluate(nodes, outputs, assignment, values, evaluated);
    Both { ran, evaluated }
}

/// The same of any number of cells: where the list has fewer entries both answers are `UnfitOrder`, and the areas of the run and of `evaluate` are zeros.
pub fn run_ordered(
    nodes: &[usize],
    outputs: &[usize],
    order: &[usize],
    cells: usize,
    assignment: &[u8],
    values: &mut [u8],
    answers: &mut [u8],
    evaluated: &mut [u8],
) -> Both
    ensures ran_then_evaluated { cells ≤ length order.now
        → RanThenEvaluated nodes.now outputs.now (take cells order.now) assignment.now
        values.old answers.old evaluated.old result values.new answers.new evaluated.new }
    ensures refused_run { length order.now < cells
        → RefusedRun UnfitOrder (length values.old) (length answers.old) (length evaluated.old)
        result values.new answers.new evaluated.new }
    ensures values_after { values.new ≡ replicate (length values.old) 0 }
{
    if order.len() < cells {
        return refuse(Refusal::UnfitOrder, values, answers, evaluated);
    }
    run_and_evaluate(
        nodes, outputs, order, cells, assignment, values, answers, evaluated,
    )
}

/// The schedule of a circuit, in two areas that hold its records and nothing else; the run along that order; and `evaluate`.
///
/// What the schedule refuses is both answers, and every area is then zeros. Once it accepts, its order stands in `order`; the run's answer and outputs
/// (`answers`) are those of `run` along it, and `evaluate`'s (`evaluated`) are those of `evaluate`, refusals too: where a value is unknown, `evaluate` refuses
/// with `WrongValues`, and its area is zeros. `ready` (three words for each node), `successors` (two for each node and one) and `values` (a byte for each node)
/// are work areas, zeros after any call.
pub fn order_and_run(
    nodes: &[usize],
    outputs: &[usize],
    asked: Asked,
    ready: &mut [usize],
    successors: &mut [usize],
    order: &mut [usize],
    values: &mut [u8],
    answers: &mut [u8],
    evaluated: &mut [u8],
) -> Both
    ensures { CircuitAssured nodes.now outputs.now (question asked.entry)
        (record {
          ready = ready.old;
          successors = successors.old;
          order = order.old;
          values = values.old;
          answers = answers.old;
          evaluated = evaluated.old;
        })
        result
        (record {
          ready = ready.new;
          successors = successors.new;
          order = order.new;
          values = values.new;
          answers = answers.new;
          evaluated = evaluated.new;
        }) }
{
    let Asked {
        window,
        keys,
        assignment,
    } = asked;
    match scheduled_gates_by_key(nodes, outputs, window, keys, ready, successors, order) {
        Ok(cells) => run_and_evaluate(
            nodes, outputs, order, cells, assignment, values, answers, evaluated,
        ),
        Err(e) => refuse(e, values, answers, evaluated),
    }
}

/// The same as `order_and_run` of what a reader gave, the first records of two areas, or the reader's refusal. Where an area has fewer records than the reader
/// counts, both answers are `Broken`, and all six areas are zeros.
pub fn run_read(
    nodes: &[usize],
    outputs: &[usize],
    read: Result<Sizes, Refusal>,
    asked: Asked,
    ready: &mut [usize],
    successors: &mut [usize],
    order: &mut [usize],
    values: &mut [u8],
    answers: &mut [u8],
    evaluated: &mut [u8],
) -> Both
    ensures { ReadSizesRun nodes.now outputs.now read (question asked.entry)
        (record {
          ready = ready.old;
          successors = successors.old;
          order = order.old;
          values = values.old;
          answers = answers.old;
          evaluated = evaluated.old;
        })
        result
        (record {
          ready = ready.new;
          successors = successors.new;
          order = order.new;
          values = values.new;
          answers = answers.new;
          evaluated = evaluated.new;
        }) }
{
    match read {
        Ok(sizes) => {
            let broken = Refusal::Broken;
            if nodes.len() / NODE_WORDS < sizes.nodes {
                return refuse_both(broken, ready, successors, order, values, answers, evaluated);
            }
            if outputs.len() / OUTPUT_WORDS < sizes.outputs {
                return refuse_both(broken, ready, successors, order, values, answers, evaluated);
            }
            order_and_run(
                &nodes[..sizes.nodes * NODE_WORDS],
                &outputs[..sizes.outputs * OUTPUT_WORDS],
                asked,
                ready,
                successors,
                order,
                values,
                answers,
                evaluated,
            )
        }
        Err(e) => refuse_both(e, ready, successors, order, values, answers, evaluated),
    }
}
