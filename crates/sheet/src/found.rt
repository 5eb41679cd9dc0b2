// What the first pass over a sheet finds and keeps for the second, in 480 bytes whatever the depth is: of each of up to sixteen blocks its run, two bytes, and of
// each of the first seven that is changed its error, 64 cells. An eighth error would make it 544 bytes.
ghost use Rattle.std.specs.Prelude.{◌≡◌, ◌<◌, Some, length, slice_get, slice_set};

use block::Correction;
use register::Register;

/// The run of a corrected block, its start and its size; in spot mode 0, and the number of wrong cells.
#[derive(Clone, Copy, Debug, PartialEq, Eq)]
pub(crate) struct Run {
    pub start: u8,
    pub size: u8,
}

impl Run {
    ghost use Rattle.sheet.specs.Steps.{Small, run_of};

    // The run of a correction whose numbers fit a byte each.
    pub(crate) fn of(c: Correction) -> Run
        requires { Small c }
        ensures { result ≡ run_of c }
    {
        match c {
            Correction::Run { start, length } => Run {
                start: start as u8,
                size: length as u8,
            },
            Correction::Cells { count, lowest: _ } => Run {
                start: 0,
                size: count as u8,
            },
        }
    }
}

/// The runs of the blocks, and the errors of the first seven.
#[derive(Drop)]
pub(crate) struct Findings {
    runs: [Run; 16],
    errors: [Register; 7],
    ghost sized: { length runs ≡ 16 },
}

impl Findings {
    ghost use Rattle.sheet.specs.Steps.{with_error};

    pub(crate) fn new() -> Findings {
        Findings {
            runs: [Run { start: 0, size: 0 }; 16],
            errors: [register::blank(); 7],
        }
    }

    // What was found of block d is written down. An unchanged block has no error.
    #[tactic(auto, unfolding(crate::specs::Steps::with_error))]
    pub(crate) fn keep(&mut self, d: usize, run: Run, error: Register)
        requires { d < 16 }
        ensures runs_after { self.new.runs ≡ slice_set self.old.runs d run }
        ensures errors_after { self.new.errors ≡ with_error self.old.errors d run error }
    {
        self.runs[d] = run;
        if run.size != 0 && d < self.errors.len() {
            self.errors[d] = error;
        }
    }

    pub(crate) fn run(&self, d: usize) -> Run
        requires { d < 16 }
        ensures { slice_get self.now.runs d ≡ Some result }
    {
        self.runs[d]
    }

    // The error of block d; none where it is not kept.
    pub(crate) fn error(&self, d: usize) -> Option<Register>
        ensures { result ≡ slice_get self.now.errors d }
    {
        self.errors.get(d).copied()
    }
}
