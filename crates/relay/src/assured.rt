// What the exported calls do together, one after the other: a reader, the schedule, the run along its order and `evaluate`.
ghost use Rattle.relay.specs.Assured.{BlifAssured, BenchAssured, BristolAssured};

/// After `relay_parse_blif` accepted a text.
pub fn blif_assured()
    ensures { BlifAssured }
{}

/// After `relay_parse_bench` did.
pub fn bench_assured()
    ensures { BenchAssured }
{}

/// After `relay_parse_bristol` did.
pub fn bristol_assured()
    ensures { BristolAssured }
{}
