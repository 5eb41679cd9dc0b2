// The profile of document 01: five numbers, their ranges, k and h, and the rule on long but thin repairs (document 02, Note 7). Every entry on a block or a sheet takes one and refuses it by 1 where it is out of
// range; specs/Refusals.antt says of all of them together when the refusals 1 and 2 come.

#![tactic(auto)]

mod refusals;

ghost use Rattle.std.specs.Prelude.{◌≡◌, Ok, Err};
ghost use Rattle.profile.specs.Refusals.{refusing};
ghost use Rattle.profile.specs.declared.refusals.Refusal.TheVariants.{BadProfile, WrongLength};
ghost use Rattle.profile.specs.Profile.{in_range, message_length, half, is_sparse};

pub use refusals::Refusal;

/// The five numbers of a profile: cells in a block (n), check cells (r), starting power (b), the longest run that may be
/// corrected (L, `limit`), and blocks in a sheet (D, `depth`).
#[derive(Clone, Copy, Debug, PartialEq, Eq)]
pub struct Profile {
    pub n: usize,
    pub r: usize,
    pub b: usize,
    pub limit: usize,
    pub depth: usize,
}

impl Profile {
    /// Message bytes in a block, k = n − r; 0 where that is below zero.
    pub fn message_length(self) -> usize
        ensures { result ≡ message_length self }
    {
        self.n.saturating_sub(self.r)
    }

    /// h, half of r rounded down.
    pub fn half(self) -> usize
        ensures { result ≡ half self }
    {
        self.r / 2
    }

    /// Whether a run of `length` cells of which `changed` are changed is thin: longer than half of r, and at most half of it changed.
    pub fn is_sparse(self, length: usize, changed: usize) -> bool
        ensures { result ≡ is_sparse self length changed }
    {
        if length <= self.r / 2 {
            return false;
        }
        changed <= length / 2
    }

    /// Refuses a profile out of range by 1, and then lent buffers that do not fit by 2.
    pub fn admit(self, fits: bool) -> Result<(), Refusal>
        ensures { result ≡ refusing self fits (Err BadProfile) (Err WrongLength) (Ok tt) }
    {
        if !self.in_range() {
            return Err(Refusal::BadProfile);
        }
        if !fits {
            return Err(Refusal::WrongLength);
        }
        Ok(())
    }

    /// Whether all five numbers are in range.
    pub fn in_range(self) -> bool
        ensures { result ≡ in_range self }
    {
        let n = self.n;
        let r = self.r;
        let depth = self.depth;
        if n < 3 {
            return false;
        }
        if 255 < n {
            return false;
        }
        if r < 2 {
            return false;
        }
        if 64 < r {
            return false;
        }
        if n <= r {
            return false;
        }
        if 254 < self.b {
            return false;
        }
        if r <= self.limit {
            return false;
        }
        if depth < 1 {
            return false;
        }
        if 16 < depth {
            return false;
        }
        true
    }
}
