// Why an order, a call or an output is refused.
#![tactic(auto)]

ghost use Rattle.std.specs.Prelude.{◌≡◌};
ghost use Rattle.refusal.specs.Refusal.{refusal_number};

// In the order of their numbers, from 1.
#[derive(Clone, Copy, Debug, PartialEq, Eq)]
pub enum Refusal {
    // A header or value runs past the end.
    CutOff,
    // A tag that is not 1 to 7, or not above the one before.
    OutOfTurn,
    // A field of another length than it must have.
    BadLength,
    // The order ends without a screen.
    NoScreen,
    // A reserved bit is set, or the fit is above 2.
    OddMark,
    // A number is outside its limits.
    OffTheScale,
    // Over 16 cutouts or 32 saved rectangles.
    Overfull,
    // The output is shorter than what is written.
    SheetTooSmall,
    // A finger above 9.
    NoSuchFinger,
    // A press of a held finger, or a move or lift of one that is not held.
    WrongState,
}

impl From<Refusal> for u8 {
    ghost from_gives = { λ r n. n ≡ refusal_number r };

    fn from(r: Refusal) -> u8 {
        match r {
            Refusal::CutOff => 1,
            Refusal::OutOfTurn => 2,
            Refusal::BadLength => 3,
            Refusal::NoScreen => 4,
            Refusal::OddMark => 5,
            Refusal::OffTheScale => 6,
            Refusal::Overfull => 7,
            Refusal::SheetTooSmall => 8,
            Refusal::NoSuchFinger => 9,
            Refusal::WrongState => 10,
        }
    }
}
