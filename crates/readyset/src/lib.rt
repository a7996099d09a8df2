// A set of numbers below n in words of 64 bits, each level followed by its summary: bit w of the summary says that word w is not 0.
// It takes at most n words, and each call looks at one word of a level.
// The words are a lent area, which the caller fills and writes to between the calls: so each call takes them as a slice, with n.

#![tactic(auto)]

ghost use Rattle.std.specs.Prelude.{◌+◌, ◌*◌, ◌≤◌, ◌<◌, length};
ghost use Rattle.laws.specs.Digits.{Turned};
ghost use Rattle.readyset.specs.Sets.{member, Levels, FirstIs, LastIs, Marked};

// The first member from k on.
pub fn next(area: &[usize], n: usize, k: usize) -> Option<usize>
    requires { (n ≤ length area.now) × (k ≤ n) × Levels area.now n }
    ensures { FirstIs (member area.now) k n result }
{
    if n <= k {
        return None;
    }
    let w = k / 64;
    let rest = area[w] >> (k % 64);
    if rest != 0 {
        let here = k + rest.trailing_zeros() as usize;
        return (here < n).then_some(here);
    }
    if n < 64 {
        return None;
    }
    let m = n / 64 + 1;
    let found = next(&area[m..], m, w + 1)?;
    let there = 64 * found + area[found].trailing_zeros() as usize;
    (there < n).then_some(there)
}

// The last member below k. Beside `next`: one function over both would take the mask, the bit that is looked for and the word to go on from, longer than the two.
pub fn last(area: &[usize], n: usize, k: usize) -> Option<usize>
    requires { (n ≤ length area.now) × (k ≤ n) × Levels area.now n }
    ensures { LastIs (member area.now) k result }
{
    if k == 0 {
        return None;
    }
    let w = k / 64;
    let rest = area[w] & ((1 << (k % 64)) - 1);
    if rest != 0 {
        return Some(64 * w + (63 - rest.leading_zeros() as usize));
    }
    if n < 64 {
        return None;
    }
    let m = n / 64 + 1;
    let found = last(&area[m..], m, w)?;
    Some(64 * found + (63 - area[found].leading_zeros() as usize))
}

// The word with the bit b set, or cleared.
fn with_bit(word: usize, b: usize, up: bool) -> usize
    requires { b < 64 }
    ensures { Turned up word b result }
{
    if up {
        word | (1 << b)
    } else {
        word & !(1 << b)
    }
}

// Puts k into the set, or takes it out.
pub fn mark(area: &mut [usize], n: usize, k: usize, up: bool)
    requires { (n ≤ length area.old) × (k < n) × Levels area.old n }
    ensures { Marked up area.old n k area.new }
{
    let w = k / 64;
    let old = area[w];
    let new = with_bit(old, k % 64, up);
    area[w] = new;
    let summary_stays = (old == 0) == (new == 0);
    if n < 64 || summary_stays {
        return;
    }
    let m = n / 64 + 1;
    mark(&mut area[m..], m, w, up);
}
