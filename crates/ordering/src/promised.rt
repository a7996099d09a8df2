// What is promised of the order of any graph's cells.
ghost use Rattle.ordering.specs.Promises.{EveryOrderPromised};

/// Each cell once and after those that it reads, the greatest key of those that a step may take; one is left out exactly where some read in a circle;
/// with window 1 the cells by their numbers, where each reads earlier ones alone.
pub fn order_promised()
    ensures { EveryOrderPromised }
{}
