// How long a search is: a fact about every table, carried by a function with nothing to do.
ghost use Rattle.names.specs.Bounds.{FewReached};

/// The search for a name comes to at most 25 + 4 * length records, whatever other names are in the table: so no
/// choice of names makes reading quadratic.
pub fn few_reached()
    ensures { FewReached }
{}
