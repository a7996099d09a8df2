// What is promised of the check over any slice of nodes.
ghost use Rattle.node_slices.specs.Slices.{SliceEncoded};

/// The check over a slice of nodes answers what the check over the area of their words answers, refusals too.
pub fn slice_promised()
    ensures { SliceEncoded }
{}
