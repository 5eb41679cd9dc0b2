// The documents' number and place of a sheet's refusal; those of an answer follow by the trait `Numbered`. Each function is one match, and its contract is
// the definition of specs/Numbers.antt.
ghost use Rattle.std.specs.Prelude.{◌≡◌};
ghost use Rattle.sheet.specs.Numbers.{read_early, refusal_number, refusal_place};

use crate::Refusal;
use answers::Numbered;

impl From<profile::Refusal> for Refusal {
    ghost from_gives = { λ early e. e ≡ read_early early };

    fn from(early: profile::Refusal) -> Refusal {
        match early {
            profile::Refusal::BadProfile => Refusal::BadProfile,
            profile::Refusal::WrongLength => Refusal::WrongLength,
        }
    }
}

impl Numbered for Refusal {
    ghost number_of = { refusal_number };

    ghost place_of = { refusal_place };

    fn number(&self) -> u8 {
        match self {
            Refusal::BadProfile => 1,
            Refusal::WrongLength => 2,
            Refusal::Block { number: _, verdict } => verdict.number(),
        }
    }

    fn place(&self) -> usize {
        match self {
            Refusal::BadProfile | Refusal::WrongLength => 0,
            Refusal::Block { number, verdict: _ } => *number,
        }
    }
}
