// The arguments of an invocation, and where they stand.
ghost use Rattle.std.specs.Prelude.{◌+◌, ◌≤◌, length};

/// Where arguments stand in a text that goes along with them: from `at` up to `end`, and none where `at` is past the end.
#[derive(Clone, Copy)]
pub struct ArgumentPlaces {
    pub at: usize,
    pub end: usize,
    ghost in_order: { at ≤ end + 1 },
}

/// The arguments of a text up to `end`, as an iterator gives them: those from `at` on are still to come, and none where that is past the end.
#[derive(Clone, Copy)]
pub struct Arguments<'a> {
    pub text: &'a [u8],
    pub at: usize,
    pub end: usize,
    ghost inside: { (at ≤ end + 1) × (end ≤ length text.now) },
}
