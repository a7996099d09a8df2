// What a call refuses with: a variant for each number of 01's table.
ghost use Rattle.std.specs.Prelude.{◌≡◌};
ghost use Rattle.circuit.specs.Refusals.{number_of};

#[derive(Clone, Copy, Debug, PartialEq, Eq)]
pub enum Refusal {
    TextTooLong,
    NotAscii,
    NoRoom,
    DefinedBefore,
    NoDriver,
    WrongCount,
    BadRow,
    Unknown,
    Malformed,
    NoOutputs,
    HeaderMismatch,
    NotNumber,
    OutputOutside,
    DrivenTwice,
    Broken,
    NotEarlier,
    Circle,
    NoWindow,
    WrongValues,
    UnfitOrder,
    TooManyInputs,
}

// The number of a refusal in 01's table.
impl From<Refusal> for usize {
    ghost from_gives = { λ r n. n ≡ number_of r };

    fn from(r: Refusal) -> usize {
        match r {
            Refusal::TextTooLong => 1,
            Refusal::NotAscii => 2,
            Refusal::NoRoom => 3,
            Refusal::DefinedBefore => 4,
            Refusal::NoDriver => 5,
            Refusal::WrongCount => 6,
            Refusal::BadRow => 7,
            Refusal::Unknown => 8,
            Refusal::Malformed => 9,
            Refusal::NoOutputs => 10,
            Refusal::HeaderMismatch => 11,
            Refusal::NotNumber => 12,
            Refusal::OutputOutside => 13,
            Refusal::DrivenTwice => 14,
            Refusal::Broken => 15,
            Refusal::NotEarlier => 16,
            Refusal::Circle => 17,
            Refusal::NoWindow => 18,
            Refusal::WrongValues => 19,
            Refusal::UnfitOrder => 20,
            Refusal::TooManyInputs => 21,
        }
    }
}
