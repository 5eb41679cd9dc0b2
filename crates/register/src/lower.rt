// The cells of a register moved down by any number of places, zeros coming in on top: by whole words, and cell by cell.

ghost use Rattle.std.specs.Prelude.{◌≡◌, ℕ, ◌*◌, drop};
ghost use Rattle.words.specs.Cells.{pad_to};
ghost use Rattle.register.specs.Words.{cells};

use crate::{Register, shift_down};

// Eight cells down: the words move.
fn word_lower(x: Register) -> Register
    ensures { cells result ≡ pad_to 64 (drop 8 (cells x)) }
{
    Register {
        w0: x.w1,
        w1: x.w2,
        w2: x.w3,
        w3: x.w4,
        w4: x.w5,
        w5: x.w6,
        w6: x.w7,
        w7: 0,
    }
}

// One cell down.
fn cell_lower(x: Register) -> Register
    ensures { cells result ≡ pad_to 64 (drop 1 (cells x)) }
{
    shift_down(x)
}

// A step that moves the cells down by `size` places, n times.
fn repeated<F: Fn(Register) -> Register>(step: F, x: Register, n: usize) -> Register
    ghost size: { ℕ }
    requires callable { F.IsAlwaysCallable step }
    requires moves { (r s : Register) → F.post step r s → cells s ≡ pad_to 64 (drop size (cells r)) }
    ensures { cells result ≡ pad_to 64 (drop (size * n) (cells x)) }
{
    let mut rest = x;
    for _ in 0..n {
        rest = step(rest);
    }
    rest
}

// 8 n cells down.
pub(crate) fn lower_words(x: Register, n: usize) -> Register
    ensures { cells result ≡ pad_to 64 (drop (8 * n) (cells x)) }
{
    repeated(word_lower, x, n)
}

// n cells down.
pub(crate) fn lower_cells(x: Register, n: usize) -> Register
    ensures { cells result ≡ pad_to 64 (drop n (cells x)) }
{
    repeated(cell_lower, x, n)
}
