// The number and the place of a refusal as document 01 has them, and the figure and the index of the line at fault as document 02 does (specs/Numbers.antt).
// Every answer has them by its refusal, and 0 where it is accepted; each is one match.
ghost use Rattle.std.specs.Prelude.{◌≡◌, ℕ};
ghost use Rattle.answers.specs.Numbers.{or_zero};
ghost use Rattle.plot.specs.Layout.{fault_number};
ghost use Rattle.plot.specs.Numbers.{number_of as refusal_number, place_of as refusal_place, figure_of as refusal_figure, index_of as refusal_index};

use crate::{LineFault, Refusal};
use answers::Numbered;

/// What may have a line at fault.
pub trait LineAtFault {
    ghost figure_of: { Self → ℕ };

    ghost index_of: { Self → ℕ };

    /// The figure of the first bad value in the first bad line, 1 to 4; 0 where there is no such line.
    fn figure(&self) -> u8
        ensures { result ≡ figure_of self.now };

    /// The index of that line in its record, from 0; 0 where there is no such line.
    fn index(&self) -> usize
        ensures { result ≡ index_of self.now };
}

impl LineFault {
    /// Its figure: 1 species, 2 class, 3 count, 4 the rise above the line before.
    pub fn figure(self) -> u8
        ensures { result ≡ fault_number self }
    {
        match self {
            LineFault::Species => 1,
            LineFault::Class => 2,
            LineFault::Count => 3,
            LineFault::Order => 4,
        }
    }
}

impl Numbered for Refusal {
    ghost number_of = { refusal_number };

    ghost place_of = { refusal_place };

    fn number(&self) -> u8 {
        match self {
            Refusal::WrongLength => 2,
            Refusal::BadMark(_) => 5,
            Refusal::CutShort(_) => 6,
            Refusal::BadTally { .. } => 7,
            Refusal::PlotOrder(_) => 8,
            Refusal::NoSuchPlot => 9,
            Refusal::Full(_) => 10,
        }
    }

    fn place(&self) -> usize {
        match self {
            Refusal::WrongLength => 0,
            Refusal::BadMark(place) => *place,
            Refusal::CutShort(place) => *place,
            Refusal::BadTally { place, .. } => *place,
            Refusal::PlotOrder(place) => *place,
            Refusal::NoSuchPlot => 0,
            Refusal::Full(place) => *place,
        }
    }
}

impl LineAtFault for Refusal {
    ghost figure_of = { refusal_figure };

    ghost index_of = { refusal_index };

    fn figure(&self) -> u8 {
        match self {
            Refusal::BadTally {
                line: Some(bad),
                ..
            } => bad.fault.figure(),
            _ => 0,
        }
    }

    fn index(&self) -> usize {
        match self {
            Refusal::BadTally {
                line: Some(bad),
                ..
            } => bad.index,
            _ => 0,
        }
    }
}

impl<T, E: LineAtFault> LineAtFault for Result<T, E> {
    ghost figure_of = { or_zero E.figure_of };

    ghost index_of = { or_zero E.index_of };

    fn figure(&self) -> u8 {
        match self {
            Ok(_) => 0,
            Err(e) => e.figure(),
        }
    }

    fn index(&self) -> usize {
        match self {
            Ok(_) => 0,
            Err(e) => e.index(),
        }
    }
}
