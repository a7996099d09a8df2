// The keys of the listing's order.
ghost use Rattle.std.specs.Prelude.{◌≡◌, ◌*◌, ◌≤◌, length, take};
ghost use Rattle.laws.specs.declared.TheConstants.{MOST_RECORDS};
ghost use Rattle.listing.specs.declared.keys.TheConstants.{KEY_LEN};
ghost use Rattle.listing.specs.Listing.{keys_from};

/// The numbers of a key.
pub const KEY_LEN: usize = 3;

/// The figure that the definitions mean where they name it. A law: it does nothing when it runs.
pub fn key_width()
    ensures { KEY_LEN ≡ 3 }
{}

/// Key (0, 0, node number) for each of `nodes` nodes.
pub fn fill_keys(keys: &mut [u32], nodes: usize)
    requires { (nodes * KEY_LEN ≤ length keys.old) × (nodes ≤ MOST_RECORDS) }
    ensures { take (nodes * KEY_LEN) keys.new ≡ keys_from 0 nodes }
{
    // By index: a chunk that is lent for writing tells nothing of its elements afterwards.
    for i in 0..nodes {
        let at = i * KEY_LEN;
        keys[at] = 0;
        keys[at + 1] = 0;
        keys[at + 2] = i as u32;
    }
}
