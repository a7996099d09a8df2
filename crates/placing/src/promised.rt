// What is promised of the order in which definitions are placed.
ghost use Rattle.placing.specs.Promises.{PlacedBySchedule, PlacedInOrder, PlacedUnlessCircle, PlacedAsFiled, AcceptedAsFiled};
ghost use Rattle.placing.specs.Resolved.{LookedUpResolves};

// The placing is the schedule at window 1 over the graph of the definitions, whatever the keys.
pub fn placed_by_schedule()
    ensures { PlacedBySchedule }
{}

// Each definition once, after those that it reads.
pub fn placed_in_order()
    ensures { PlacedInOrder }
{}

// All are placed, exactly if none read in a circle.
pub fn placed_unless_circle()
    ensures { PlacedUnlessCircle }
{}

// Where each reads only earlier ones, they are placed in the order of the file.
pub fn placed_as_filed()
    ensures { PlacedAsFiled }
{}

// What a reader line by line accepts is placed in the order of the file, so whatever is made of the definitions is made alike.
pub fn accepted_as_filed()
    ensures { AcceptedAsFiled }
{}

// Inputs that are looked up one by one are what a definition reads.
pub fn looked_up_resolves()
    ensures { LookedUpResolves }
{}
