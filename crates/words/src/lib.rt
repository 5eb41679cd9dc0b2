// Operations on one word of eight cells, each a byte of GF(256): taken from a slice, moved by a cell, doubled, multiplied, and how many cells are
// in use. The contracts are equations on the list of a word's cells, the lowest first. Exclusive or, shifts by a constant and masks keep sums, so
// what they do to the cells is settled at the 64 powers of two.

#![tactic(auto)]

ghost use Rattle.std.specs.Prelude.{◌≡◌, List, [], ◌∷◌, ℕ, ◌*◌, ◌^◌, ◌<◌, ◌≤◌, ⊤, drop};
ghost use Rattle.code.specs.Code.{nonzero};
ghost use Rattle.code.specs.Poly.{padd, pscale};
ghost use Rattle.code.specs.Search.{extent};
ghost use Rattle.words.specs.Word.{byte, bytes_from};
ghost use Rattle.words.specs.Doubles.{Doubled, bits_at};
ghost use Rattle.words.specs.Cells.{shift_up, shift_down, pad_to};

use std::alloc::AllocError;

/// The cell as the highest of a word.
pub fn at_top(c: u8) -> u64
    ensures { result ≡ c * 2 ^ 56 }
{
    u64::from(c) << 56
}

/// The cell as the lowest of a word.
pub fn at_bottom(c: u8) -> u64
    ensures { result ≡ c }
{
    u64::from(c)
}

/// Cell k of a word; 0 past its eight cells.
pub fn cell_at(w: u64, k: usize) -> u8
    ensures { result ≡ byte w k }
{
    if 7 < k {
        return 0;
    }
    ((w >> (8 * k)) % 256) as u8
}

/// A word moved up by a cell; the highest cell of the word below comes in.
pub fn word_up(w: u64, below: u64) -> u64
    ensures { bytes_from 8 0 result ≡ shift_up (byte below 7) (bytes_from 8 0 w) }
{
    (w << 8) ^ (below >> 56)
}

/// A word moved down by a cell; the lowest cell of the word above comes in.
pub fn word_down(w: u64, above: u64) -> u64
    ensures { bytes_from 8 0 result ≡ shift_down (bytes_from 8 0 w) (byte above 0) }
{
    (w >> 8) ^ (above << 56)
}

/// 1 for a cell that is not zero, and 0 for one that is.
pub fn nonzero(c: u8) -> usize
    ensures { result ≡ nonzero c }
{
    if c != 0 {
        return 1;
    }
    0
}

/// Eight cells of a slice as a word, from cell k on, with zeros where it has fewer.
pub fn load_word(s: &[u8], k: usize) -> u64
    ensures { bytes_from 8 0 result ≡ pad_to 8 (drop k s.now) }
{
    if s.len() <= k {
        return 0;
    }
    let mut w: u64 = 0;
    let end = s.len().min(k + 8);
    for i in (k..end).rev() {
        w = word_up(w, at_top(s[i]));
    }
    w
}

/// Each cell of a word doubled: shifted, and 29 added for the bit that leaves.
pub fn word_twice(w: u64) -> u64
    ensures { bytes_from 8 0 result ≡ pscale 2 (bytes_from 8 0 w) }
{
    let l = (w & 0x7f7f7f7f7f7f7f7f) << 1;
    let h = (w >> 7) & 0x0101010101010101;
    l ^ h ^ (h << 2) ^ (h << 3) ^ (h << 4)
}

/// How many cells of a word are in use.
pub fn word_extent(w: u64) -> usize
    ensures { (result ≡ extent (bytes_from 8 0 w)) × (result ≤ 8) }
{
    8 - (u64::leading_zeros(w) as usize) / 8
}

/// What can be doubled cell by cell: a cell, or a word of eight.
pub trait Doubling: Copy {
    ghost cells: { Self → List ℕ };

    fn twice(self) -> Self
        ensures { cells result ≡ pscale 2 (cells self) };
}

impl Doubling for u8 {
    ghost cells = { λ c. c ∷ [] };

    fn twice(self) -> u8 {
        field::double(self)
    }
}

impl Doubling for u64 {
    ghost cells = { bytes_from 8 0 };

    fn twice(self) -> u64 {
        word_twice(self)
    }
}

/// a, 2 a, 4 a, .., 128 a: each is twice the one before.
pub struct Doubles<T: Doubling> {
    pub c0: T,
    pub c1: T,
    pub c2: T,
    pub c3: T,
    pub c4: T,
    pub c5: T,
    pub c6: T,
    pub c7: T,
    pub ghost doubled: { Doubled T.cells c0 c1 c2 c3 c4 c5 c6 c7 },
}

impl<T: Doubling> Clone for Doubles<T> {
    ghost is_clone = { λ x y. y ≡ x };

    ghost is_infallible = { λ _. ⊤ };

    fn clone(&self) -> Result<Doubles<T>, AllocError> {
        Ok(*self)
    }
}

impl<T: Doubling> Copy for Doubles<T> {}

impl<T: Doubling> Doubles<T> {
    /// The doubles of a.
    pub fn of(a: T) -> Doubles<T>
        ensures { result.c0 ≡ a }
    {
        let c1 = a.twice();
        let c2 = c1.twice();
        let c3 = c2.twice();
        let c4 = c3.twice();
        let c5 = c4.twice();
        let c6 = c5.twice();
        let c7 = c6.twice();
        Doubles {
            c0: a,
            c1,
            c2,
            c3,
            c4,
            c5,
            c6,
            c7,
        }
    }

    /// The doubles of 2 a, from those of a: each moves down by one place.
    pub fn next(&self) -> Doubles<T>
        ensures { result.c0 ≡ self.now.c1 }
    {
        Doubles {
            c0: self.c1,
            c1: self.c2,
            c2: self.c3,
            c3: self.c4,
            c4: self.c5,
            c5: self.c6,
            c6: self.c7,
            c7: self.c7.twice(),
        }
    }
}

// Bit k of each cell of a word, times c. A product of a bit and a byte is a byte, so no cell carries into the next.
fn plane(w: u64, k: u64, c: u8) -> u64
    requires { k < 8 }
    ensures { bytes_from 8 0 result ≡ pscale c (bits_at k (bytes_from 8 0 w)) }
{
    ((w >> k) & 0x0101010101010101) * u64::from(c)
}

/// Each cell of a word times a, of which d has the doubles, over the bits of the cells; a blank word needs no work.
pub fn word_scale(d: &Doubles<u8>, w: u64) -> u64
    ensures { bytes_from 8 0 result ≡ pscale d.now.c0 (bytes_from 8 0 w) }
{
    if w == 0 {
        return 0;
    }
    let low = plane(w, 0, d.c0) ^ plane(w, 1, d.c1) ^ plane(w, 2, d.c2) ^ plane(w, 3, d.c3);
    let high = plane(w, 4, d.c4) ^ plane(w, 5, d.c5) ^ plane(w, 6, d.c6) ^ plane(w, 7, d.c7);
    low ^ high
}

/// A word of a generator's cells with a further root a, of which d has the doubles: the word, and a times the word moved down by a cell.
pub fn word_root(d: &Doubles<u8>, w: u64, above: u64) -> u64
    ensures { bytes_from 8 0 result ≡ padd (bytes_from 8 0 w) (pscale d.now.c0 (shift_down (bytes_from 8 0 w) (byte above 0))) }
{
    w ^ word_scale(d, word_down(w, above))
}
