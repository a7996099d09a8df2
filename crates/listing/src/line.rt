// What a line is written on, and a vector of fixed capacity as one.
ghost use Rattle.std.specs.Prelude.{◌≡◌, ℕ, ◌+◌, ◌-◌, ◌≤◌, List, [], ◌∷◌, ◌++◌, length, None, refl};
ghost use Rattle.arrayvec.specs.ArrayVec.{array_vec_len};
ghost use Rattle.listing.specs.Lines.{Place};

use arrayvec::ArrayVec;

/// What a line is written on, each byte after those that are written.
pub trait Line {
    // The bytes that are written.
    ghost written: { Self → List ℕ };

    // How many more there is room for.
    ghost room: { Self → ℕ };

    // Where they stand.
    ghost place: { Self → Place };

    fn push(&mut self, byte: u8)
        requires { 1 ≤ room self.old }
        ensures written { written self.new ≡ written self.old ++ (byte ∷ []) }
        ensures room { room self.old ≡ room self.new + 1 }
        ensures place { place self.new ≡ place self.old };

    fn extend(&mut self, bytes: &[u8])
        requires { length bytes.now ≤ room self.old }
        ensures written { written self.new ≡ written self.old ++ bytes.now }
        ensures room { room self.old ≡ room self.new + length bytes.now }
        ensures place { place self.new ≡ place self.old };

    // Begins anew.
    fn clear(&mut self)
        ensures written { written self.new ≡ [] }
        ensures room { room self.new ≡ room self.old + length (written self.old) }
        ensures place { place self.new ≡ place self.old };

    fn as_slice(&self) -> &[u8]
        ensures { result.now ≡ written self.now };

    // What is written and the room for more are all of the place.
    ghost whole: { (line : Self) → room line + length (written line) ≡ (place line).size };
}

// Of a vector `len` is called for what it tells: what is written is within the capacity.
impl<const N: usize> Line for ArrayVec<u8, N> {
    ghost written = { λ v. v.items };

    ghost room = { λ v. N - array_vec_len v };

    ghost place = { λ v. record { size = N - array_vec_len v + array_vec_len v; area = None } };

    fn push(&mut self, byte: u8) {
        self.push(byte);
    }

    fn extend(&mut self, bytes: &[u8]) {
        let _len = self.len();
        self.try_extend_from_slice(bytes).unwrap();
    }

    fn clear(&mut self) {
        let _len = self.len();
        self.clear();
    }

    fn as_slice(&self) -> &[u8] {
        self.as_slice()
    }

    ghost whole = { λ _. refl };
}
