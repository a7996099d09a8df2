// The text's own faults, and a refusal that leaves zeros.
ghost use Rattle.std.specs.Prelude.{◌≡◌, length};
ghost use Rattle.reading.specs.Reading.{bytes_fault, text_fault};
ghost use Rattle.reading.specs.Areas.{Zeroed, PreparedIs, Concludes};

use circuit::records::Sizes;
use circuit::refusals::Refusal;
use text::MOST_TEXT;
use text::bytes::is_ascii;
use text::joining::logical_lines;

/// The text's own faults: `TextTooLong`, then `NotAscii`.
pub fn bytes_fault(text: &[u8]) -> Result<(), Refusal>
    ensures { result ≡ bytes_fault text.now }
{
    if MOST_TEXT < text.len() {
        return Err(Refusal::TextTooLong);
    }
    if !is_ascii(text) {
        return Err(Refusal::NotAscii);
    }
    Ok(())
}

/// The text's own faults, then `NoRoom` if a joined area of so many bytes is too short.
pub fn text_fault(text: &[u8], joined: usize) -> Result<(), Refusal>
    ensures { result ≡ text_fault text.now joined }
{
    bytes_fault(text)?;
    if joined <= text.len() {
        return Err(Refusal::NoRoom);
    }
    Ok(())
}

/// A refusal, with zeros in every area.
pub fn refuse(
    e: Refusal,
    joined: &mut [u8],
    nodes: &mut [usize],
    names: &mut [usize],
    outputs: &mut [usize],
) -> Result<Sizes, Refusal>
    ensures { Zeroed e (length joined.old) (length nodes.old) (length names.old) (length outputs.old)
        result joined.new nodes.new names.new outputs.new }
{
    joined.fill(0);
    nodes.fill(0);
    names.fill(0);
    outputs.fill(0);
    Err(e)
}

/// The text's faults; else how long the joined text in its area is, with zeros in the areas of nodes and outputs.
pub fn prepare(
    text: &[u8],
    joined: &mut [u8],
    nodes: &mut [usize],
    outputs: &mut [usize],
) -> Result<usize, Refusal>
    ensures { PreparedIs text.now (length joined.old) (length nodes.old) (length outputs.old)
        joined.new nodes.new outputs.new result }
{
    text_fault(text, joined.len())?;
    nodes.fill(0);
    outputs.fill(0);
    Ok(logical_lines(text, joined))
}

/// What the reading of the joined text ends in: the circuit with the name area cleared, or the refusal with zeros in every area.
pub fn conclude(
    ended: Result<Sizes, Refusal>,
    joined: &mut [u8],
    nodes: &mut [usize],
    names: &mut [usize],
    outputs: &mut [usize],
) -> Result<Sizes, Refusal>
    ensures { Concludes ended joined.old nodes.old (length names.old) outputs.old
        result joined.new nodes.new names.new outputs.new }
{
    match ended {
        Err(e) => refuse(e, joined, nodes, names, outputs),
        Ok(sizes) => {
            names.fill(0);
            Ok(sizes)
        }
    }
}
