// The number and the place of a refusal, and the figure and the index of the line at fault in a payload, as the documents have them (specs/Numbers.antt). Every
// answer has them by its refusal, and 0 where it is accepted; each is one match.
ghost use Rattle.stand.specs.Numbers.{refused_number, refused_place, refused_figure, refused_index};

use crate::TableRefusal;
use answers::Numbered;
use plot::LineAtFault;

impl Numbered for TableRefusal {
    ghost number_of = { refused_number };

    ghost place_of = { refused_place };

    fn number(&self) -> u8 {
        match self {
            TableRefusal::SpeciesList => 13,
            TableRefusal::TractFull => 14,
            TableRefusal::NoPlots => 15,
            TableRefusal::Payload(r) => r.number(),
        }
    }

    fn place(&self) -> usize {
        match self {
            TableRefusal::Payload(r) => r.place(),
            _ => 0,
        }
    }
}

impl LineAtFault for TableRefusal {
    ghost figure_of = { refused_figure };

    ghost index_of = { refused_index };

    fn figure(&self) -> u8 {
        match self {
            TableRefusal::Payload(r) => r.figure(),
            _ => 0,
        }
    }

    fn index(&self) -> usize {
        match self {
            TableRefusal::Payload(r) => r.index(),
            _ => 0,
        }
    }
}
