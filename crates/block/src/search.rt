// The search for the shortest run: one pass over the starts of a block, by the extents of its shifted remainders. What was found at the starts below s is
// what the definition of crates/code/specs/Search.antt finds there, with the shifted remainder at the first start of the least length beside it.
ghost use Rattle.std.specs.Prelude.{◌≡◌, ◌<◌, take};
ghost use Rattle.code.specs.Run.{ZeroFrom};
ghost use Rattle.register.specs.Words.{cells};
ghost use Rattle.block.specs.Found.{improved_by, Searched};

use crate::division::Code;
use register::{ByteMultiples, Register};

// What the search has found: the least length, its first start, the shifted remainder there, and whether a second start has that length.
#[derive(Clone, Copy)]
pub(crate) struct Found {
    pub size: usize,
    pub start: usize,
    pub error: Register,
    pub again: bool,
}

impl Found {
    // One start: the run from s needs as many cells as the extent of its shifted remainder.
    #[tactic(auto, unfolding(crate::specs::Found::improved_by))]
    fn improved(self, n: usize, s: usize, rest: Register) -> Found
        requires { s < 256 }
        ensures { result ≡ improved_by self n s rest }
    {
        let e = register::extent(rest);
        let is_past = n < s + e;
        if is_past || self.size < e {
            return self;
        }
        if e < self.size {
            return Found {
                size: e,
                start: s,
                error: rest,
                again: false,
            };
        }
        Found {
            again: true,
            ..self
        }
    }
}

// The search: one pass over the starts, with the shifted remainder of each. A step back adds the multiple by the lowest cell.
pub(crate) fn search(code: &Code, first: Register) -> Found
    requires { ZeroFrom code.now.profile.r (cells first) }
    ensures { Searched code.now.profile (take code.now.profile.r (cells first)) result }
{
    let p = code.profile;
    let multiples = ByteMultiples::of(register::generator_bottom(code.generator, p.r));
    let mut rest = first;
    let mut found = Found {
        size: p.limit + 1,
        start: 0,
        error: first,
        again: false,
    };
    'starts: for s in 0..p.n {
        found = found.improved(p.n, s, rest);
        rest = multiples.add_to(register::shift_down(rest), register::bottom(rest));
    }
    found
}
