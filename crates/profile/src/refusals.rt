// The refusals 1 and 2 of every entry on a block or a sheet, with their numbers.
ghost use Rattle.profile.specs.Numbers.{refusal_number};

use answers::Numbered;

/// Why an entry on a block or a sheet does not look at its cells: document 01's misprint, a profile out of range, and wrong frame, a buffer of another length.
#[derive(Clone, Copy, Debug, PartialEq, Eq)]
pub enum Refusal {
    BadProfile,
    WrongLength,
}

impl Numbered for Refusal {
    ghost number_of = { refusal_number };

    ghost place_of = { λ _. 0 };

    fn number(&self) -> u8 {
        match self {
            Refusal::BadProfile => 1,
            Refusal::WrongLength => 2,
        }
    }

    fn place(&self) -> usize {
        0
    }
}
