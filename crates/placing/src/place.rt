// Definitions placed one after the other, the earliest whose inputs are all placed.
ghost use Rattle.std.specs.Prelude.{◌*◌, ◌<◌, ◌≤◌, length};
ghost use Rattle.ordering.specs.declared.widths.TheConstants.{READY_WORDS};
ghost use Rattle.graphs.specs.declared.TheConstants.{READS};
ghost use Rattle.placing.specs.Resolved.{PlacedIn};

use crate::definitions::Definitions;
use circuit::refusals::Refusal;
use ordering::taking::first_order;

// The numbers of the definitions in the order in which they are placed; 17 where some read in a circle.
pub fn place_all(
    definitions: &Definitions,
    ready: &mut [usize],
    successors: &mut [usize],
    order: &mut [usize],
) -> Result<(), Refusal>
    requires { (READY_WORDS * definitions.now.count ≤ length ready.old) × (READS * definitions.now.count < length successors.old) × (definitions.now.count ≤ length order.old) }
    ensures { PlacedIn definitions.now.sources.now definitions.now.count order.new result }
{
    let placed = first_order(definitions, ready, successors, order);
    if placed != definitions.count {
        return Err(Refusal::Circle);
    }
    Ok(())
}
