// The multiples of a register by every byte: those by the numbers below 16 and those by 16 times these are kept, and the multiples by the two halves of a byte add up to the multiple by it.
// A step of a division adds one of them.
ghost use Rattle.std.specs.Prelude.{◌≡◌, ℕ, ◌<◌, ◌*◌, get_or};
ghost use Rattle.code.specs.Poly.{padd, pscale};
ghost use Rattle.register.specs.Words.{cells};
ghost use Rattle.register.specs.declared.Register.{Register};

use crate::{Register, add, high_rows, rows};

/// A register, and its multiples by the lower and by the higher halves of bytes.
#[derive(Drop)]
pub struct ByteMultiples {
    pub register: Register,
    low: [Register; 16],
    high: [Register; 16],
    pub ghost low_halves: { (d : Register) (n : ℕ) → n < 16 → cells (get_or low n d) ≡ pscale n (cells register) },
    pub ghost high_halves: { (d : Register) (n : ℕ) → n < 16 → cells (get_or high n d) ≡ pscale (16 * n) (cells register) },
}

impl ByteMultiples {
    /// The multiples of a register.
    pub fn of(register: Register) -> ByteMultiples
        ensures { result.register ≡ register }
    {
        ByteMultiples {
            register,
            low: rows(register),
            high: high_rows(register),
        }
    }

    /// A register and f times this one. The sum with the lower half's multiple is last, since its row is found a little later.
    pub fn add_to(&self, x: Register, f: u8) -> Register
        ensures { cells result ≡ padd (cells x) (pscale f (cells self.now.register)) }
    {
        let n = usize::from(f);
        add(add(x, self.high[n / 16]), self.low[n % 16])
    }
}
