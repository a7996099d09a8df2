// What a circuit gives. Each call answers the refusal's number, 0 where it accepts, and zeros every lent area after a refusal.
ghost use Rattle.std.specs.Prelude.{◌≡◌};
ghost use Rattle.values.specs.Calls.{evaluate_call};
ghost use Rattle.runs.specs.Calls.{run_call};
ghost use Rattle.numbered.specs.Numbered.{exhaustive_call};
ghost use Rattle.relay.specs.Answers.{result_of, assigned};

use crate::answers::answer_counted;
use numbered::exhaustive_inputs;
use runs::run::run;
use values::evaluate::evaluate;

/// The outputs for one assignment of 0 and 1. `values` is a work area with a byte for each node, zero after the call; `output_count` is 0 after a refusal.
#[unsafe(no_mangle)]
pub extern "C" fn relay_evaluate(
    nodes: &[usize],
    outputs: &[usize],
    assignment: &[u8],
    values: &mut [u8],
    answers: &mut [u8],
    output_count: &mut usize,
) -> usize
    ensures { result_of result output_count.new values.new answers.new ≡ evaluate_call nodes.now outputs.now assignment.now values.old answers.old }
{
    let evaluated = evaluate(nodes, outputs, assignment, values, answers);
    answer_counted(evaluated, output_count)
}

/// The outputs along an order list, for values 0, 1 and 2 (unknown). `values` is a work area with a byte for each node, zero after the call, whatever it held
/// before; `cell_count` is 0 after a refusal.
#[unsafe(no_mangle)]
pub extern "C" fn relay_run(
    nodes: &[usize],
    outputs: &[usize],
    order: &[usize],
    assignment: &[u8],
    values: &mut [u8],
    answers: &mut [u8],
    cell_count: &mut usize,
) -> usize
    ensures { result_of result cell_count.new values.new answers.new ≡ run_call nodes.now outputs.now order.now assignment.now values.old answers.old }
{
    let ran = run(nodes, outputs, order, assignment, values, answers);
    answer_counted(ran, cell_count)
}

/// One numbered assignment of all. `input_count` is 0 after a refusal.
#[unsafe(no_mangle)]
pub extern "C" fn relay_exhaustive_inputs(
    nodes: &[usize],
    outputs: &[usize],
    number: usize,
    assignment: &mut [u8],
    input_count: &mut usize,
) -> usize
    ensures { assigned result input_count.new assignment.new ≡ exhaustive_call nodes.now outputs.now number assignment.old }
{
    let numbered = exhaustive_inputs(nodes, outputs, number, assignment);
    answer_counted(numbered, input_count)
}
