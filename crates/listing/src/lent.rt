// A lent area of any length, as what a line is written on.
ghost use Rattle.std.specs.Prelude.{◌≡◌, ◌+◌, ◌-◌, ◌≤◌, length, take, Some};

use crate::line::Line;

/// An area of which the first `len` bytes are written. The length stands beside the area, since the
/// area is lent (there is no heap), and how much of it is written is known only as it is written.
#[derive(Drop)]
pub struct Lent<'a> {
    pub area: &'a mut [u8],
    pub len: usize,
    ghost fits: { len ≤ length area.now },
}

impl<'a> Lent<'a> {
    /// Nothing is written, and all of the area is room.
    pub fn new(area: &'a mut [u8]) -> Lent<'a>
        ensures nothing { result.len ≡ 0 }
        ensures area { result.area.now ≡ area.old }
        ensures same_reference { result.area.ghost_name ≡ area.entry.ghost_name }
    {
        Lent { area, len: 0 }
    }
}

impl Line for Lent<'_> {
    ghost use Rattle.std.proofs.Common.{ap, ◌∙◌};
    ghost use Rattle.std.proofs.Math.Nat.{sub-add_cancel};
    ghost use Rattle.std.proofs.lemmas.List.{length-take-le};

    ghost written = { λ s. take s.len s.area.now };

    ghost room = { λ s. length s.area.now - s.len };

    ghost place = { λ s. record { size = length s.area.now; area = Some s.area.ghost_name } };

    fn push(&mut self, byte: u8) {
        self.area[self.len] = byte;
        self.len += 1;
    }

    fn extend(&mut self, bytes: &[u8]) {
        let end = self.len + bytes.len();
        self.area[self.len..end].copy_from_slice(bytes);
        self.len = end;
    }

    fn clear(&mut self) {
        self.len = 0;
    }

    fn as_slice(&self) -> &[u8] {
        &self.area[..self.len]
    }

    ghost whole = { λ s. ap (λ n. length s.area.now - s.len + n) (length-take-le s.len s.area.now s.fits) ∙ sub-add_cancel s.fits };
}
