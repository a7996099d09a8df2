// An answer as a number, with its counts.
ghost use Rattle.std.specs.Prelude.{◌≡◌};
ghost use Rattle.circuit.specs.Refusals.{checked_number};
ghost use Rattle.relay.specs.Answers.{ReadGives, CountGives};

use circuit::records::Sizes;
use circuit::refusals::Refusal;

// 0, or the refusal's number.
pub fn answer_number<T: Copy>(answer: Result<T, Refusal>) -> usize
    ensures { result ≡ checked_number answer }
{
    match answer {
        Ok(_) => 0,
        Err(e) => usize::from(e),
    }
}

// Of the readers.
pub fn answer_read(
    read: Result<Sizes, Refusal>,
    node_count: &mut usize,
    output_count: &mut usize,
) -> usize
    ensures { ReadGives read result node_count.new output_count.new }
{
    let Sizes { nodes, outputs } = read.unwrap_or(Sizes {
        nodes: 0,
        outputs: 0,
    });
    *node_count = nodes;
    *output_count = outputs;
    answer_number(read)
}

// Of the calls that count cells, outputs or inputs.
pub fn answer_counted(counted: Result<usize, Refusal>, count: &mut usize) -> usize
    ensures { CountGives counted result count.new }
{
    *count = counted.unwrap_or(0);
    answer_number(counted)
}
