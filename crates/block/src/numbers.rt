// What the entries on a block answer, and the documents' number and values of each answer. Each function is one match, and its contract is the definition of
// specs/Numbers.antt.
ghost use Rattle.std.specs.Prelude.{◌≡◌};
ghost use Rattle.block.specs.Numbers.{correct_refusal_number, fill_refusal_number, correct_early, fill_early, correction_start, correction_length, correction_count, correction_lowest};

use answers::Numbered;

/// How a block was corrected. By a run (document 01: mended): `length` cells from `start` on are "the result s and f", and a clean block has 0 and 0. Or in cells
/// anywhere in it (document 02, Note 1: mended): `count` cells, of which `lowest` is the lowest; `correct` and `look` never answer this.
#[derive(Clone, Copy, Debug, PartialEq, Eq)]
pub enum Correction {
    Run { start: usize, length: usize },
    Cells { count: usize, lowest: usize },
}

/// Why a block is not corrected. Document 01 calls the cases misprint, wrong frame, torn and tied. `TooManyErrors` is of document 02, Note 1: spotted; `correct` and
/// `look` never answer it. `Sparse` is of its Note 7: thin.
#[derive(Clone, Copy, Debug, PartialEq, Eq)]
pub enum Refusal {
    BadProfile,
    WrongLength,
    Uncorrectable,
    Ambiguous,
    TooManyErrors,
    Sparse,
}

/// Why a run is not filled: misprint, wrong frame, bad span (document 02, Note 3), or torn, which speaks of that one run only.
#[derive(Clone, Copy, Debug, PartialEq, Eq)]
pub enum FillRefusal {
    BadProfile,
    WrongLength,
    BadSpan,
    NoCodeword,
}

/// The verdict on a block, in every mode: how it was corrected, or why it is refused.
pub type Verdict = Result<Correction, Refusal>;

impl Correction {
    /// The start of the run; 0 where it is none.
    pub fn start(self) -> usize
        ensures { result ≡ correction_start self }
    {
        match self {
            Correction::Run { start, .. } => start,
            Correction::Cells { .. } => 0,
        }
    }

    /// The length of the run; 0 where it is none.
    pub fn length(self) -> usize
        ensures { result ≡ correction_length self }
    {
        match self {
            Correction::Run { length, .. } => length,
            Correction::Cells { .. } => 0,
        }
    }

    /// The number of cells changed, where cells anywhere in the block may change; else 0.
    pub fn count(self) -> usize
        ensures { result ≡ correction_count self }
    {
        match self {
            Correction::Run { .. } => 0,
            Correction::Cells { count, .. } => count,
        }
    }

    /// The lowest of these cells; 0 where none is changed.
    pub fn lowest(self) -> usize
        ensures { result ≡ correction_lowest self }
    {
        match self {
            Correction::Run { .. } => 0,
            Correction::Cells { lowest, .. } => lowest,
        }
    }
}

impl From<profile::Refusal> for Refusal {
    ghost from_gives = { λ early e. e ≡ correct_early early };

    fn from(early: profile::Refusal) -> Refusal {
        match early {
            profile::Refusal::BadProfile => Refusal::BadProfile,
            profile::Refusal::WrongLength => Refusal::WrongLength,
        }
    }
}

impl From<profile::Refusal> for FillRefusal {
    ghost from_gives = { λ early e. e ≡ fill_early early };

    fn from(early: profile::Refusal) -> FillRefusal {
        match early {
            profile::Refusal::BadProfile => FillRefusal::BadProfile,
            profile::Refusal::WrongLength => FillRefusal::WrongLength,
        }
    }
}

impl Numbered for Refusal {
    ghost number_of = { correct_refusal_number };

    ghost place_of = { λ _. 0 };

    fn number(&self) -> u8 {
        match self {
            Refusal::BadProfile => 1,
            Refusal::WrongLength => 2,
            Refusal::Uncorrectable => 3,
            Refusal::Ambiguous => 4,
            Refusal::TooManyErrors => 11,
            Refusal::Sparse => 16,
        }
    }

    fn place(&self) -> usize {
        0
    }
}

impl Numbered for FillRefusal {
    ghost number_of = { fill_refusal_number };

    ghost place_of = { λ _. 0 };

    fn number(&self) -> u8 {
        match self {
            FillRefusal::BadProfile => 1,
            FillRefusal::WrongLength => 2,
            FillRefusal::BadSpan => 12,
            FillRefusal::NoCodeword => 3,
        }
    }

    fn place(&self) -> usize {
        0
    }
}
