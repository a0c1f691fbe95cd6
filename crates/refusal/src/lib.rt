// The refusal table: why a call did not do its work.
#![tactic(auto)]

ghost use Rattle.std.specs.Prelude.{◌≡◌};
ghost use Rattle.refusal.specs.Refusal.{number_of};

// A row of the table; docs/REFUSALS.md has its number and when it is given.
#[derive(Clone, Copy, Debug, PartialEq, Eq)]
pub enum Refusal {
    NoRoom,
    WrongLength,
    TooHigh,
    NoRaster,
    NoLine,
    NoPacket,
    OutOfTurn,
    BadFile,
}

impl From<Refusal> for u8 {
    ghost from_gives = { λ refusal number. number ≡ number_of refusal };

    fn from(refusal: Refusal) -> u8 {
        match refusal {
            Refusal::NoRoom => 1,
            Refusal::WrongLength => 2,
            Refusal::TooHigh => 3,
            Refusal::NoRaster => 4,
            Refusal::NoLine => 5,
            Refusal::NoPacket => 6,
            Refusal::OutOfTurn => 7,
            Refusal::BadFile => 9,
        }
    }
}
