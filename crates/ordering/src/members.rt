// The members of a set that are still to come, one after the other: those from `from` on.

// `rest` has the bits of the word of `from` from `from` on, or is 0: mostly the next member is among them.
#[derive(Clone, Copy)]
pub struct Members<'a> {
    pub set: &'a [usize],
    pub nodes: usize,
    pub from: usize,
    pub rest: usize,
}
