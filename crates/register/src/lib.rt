// A shift register of 64 cells, each a byte of GF(256): eight words of eight cells, by value. Its contracts are equations on the list of its
// cells, the lowest first. Each function works on a word at a time by the operations of the crate `words`.

#![tactic(auto)]

ghost use Rattle.std.specs.Prelude.{◌≡◌, ◌==◌, not, count_by, ℕ, ◌<◌, ◌*◌, ◌-◌, ◌/◌, ◌%◌, ◌^◌, min, eqb, get_or, take, drop, replicate};
ghost use Rattle.field.specs.Field.{add};
ghost use Rattle.code.specs.Poly.{padd, pscale};
ghost use Rattle.code.specs.Code.{generator, weight};
ghost use Rattle.code.specs.Search.{extent};
ghost use Rattle.words.specs.Cells.{shift_up, shift_down, pad_to};
ghost use Rattle.register.specs.Words.{cells, EachWord, EachWithAbove};
ghost use Rattle.register.specs.Register.{feeds, feeds_back, on_top, monic_of, back_generator};

use words::Doubles;

mod byte_multiples;
mod lower;

pub use byte_multiples::ByteMultiples;

/// Eight words of eight cells; the lowest cell is the lowest byte of w0.
// Eight fields and no array: that an array's list has eight words would be a ghost field here, which whatever makes a register would have to prove.
#[derive(Clone, Copy)]
pub struct Register {
    pub w0: u64,
    pub w1: u64,
    pub w2: u64,
    pub w3: u64,
    pub w4: u64,
    pub w5: u64,
    pub w6: u64,
    pub w7: u64,
}

/// All cells zero.
pub fn blank() -> Register
    ensures { cells result ≡ replicate 64 0 }
{
    Register {
        w0: 0,
        w1: 0,
        w2: 0,
        w3: 0,
        w4: 0,
        w5: 0,
        w6: 0,
        w7: 0,
    }
}

/// The sum, cell by cell. The highest word comes first: when a message is divided, the next feedback waits for it alone.
pub fn add(x: Register, y: Register) -> Register
    ensures { cells result ≡ padd (cells x) (cells y) }
{
    Register {
        w7: x.w7 ^ y.w7,
        w6: x.w6 ^ y.w6,
        w5: x.w5 ^ y.w5,
        w4: x.w4 ^ y.w4,
        w3: x.w3 ^ y.w3,
        w2: x.w2 ^ y.w2,
        w1: x.w1 ^ y.w1,
        w0: x.w0 ^ y.w0,
    }
}

/// Every cell moves up by one, and c comes in below.
pub fn push_bottom(x: Register, c: u8) -> Register
    ensures { cells result ≡ shift_up c (cells x) }
{
    Register {
        w0: words::word_up(x.w0, words::at_top(c)),
        w1: words::word_up(x.w1, x.w0),
        w2: words::word_up(x.w2, x.w1),
        w3: words::word_up(x.w3, x.w2),
        w4: words::word_up(x.w4, x.w3),
        w5: words::word_up(x.w5, x.w4),
        w6: words::word_up(x.w6, x.w5),
        w7: words::word_up(x.w7, x.w6),
    }
}

// The register of what f gives of each word.
fn map<F: Fn(u64) -> u64>(x: Register, f: F) -> Register
    requires { F.IsAlwaysCallable f }
    ensures { EachWord (F.post f) x result }
{
    Register {
        w0: f(x.w0),
        w1: f(x.w1),
        w2: f(x.w2),
        w3: f(x.w3),
        w4: f(x.w4),
        w5: f(x.w5),
        w6: f(x.w6),
        w7: f(x.w7),
    }
}

// The register of what f gives of each word and the word above it; above the highest stands top.
fn map_with_above<F: Fn(u64, u64) -> u64>(x: Register, top: u64, f: F) -> Register
    requires { F.IsAlwaysCallable f }
    ensures { EachWithAbove (F.post f) x top result }
{
    Register {
        w0: f(x.w0, x.w1),
        w1: f(x.w1, x.w2),
        w2: f(x.w2, x.w3),
        w3: f(x.w3, x.w4),
        w4: f(x.w4, x.w5),
        w5: f(x.w5, x.w6),
        w6: f(x.w6, x.w7),
        w7: f(x.w7, top),
    }
}

/// Every cell moves down by one, and c comes in on top.
pub fn push_top(x: Register, c: u8) -> Register
    ensures { cells result ≡ shift_down (cells x) c }
{
    map_with_above(x, words::at_bottom(c), words::word_down)
}

/// Every cell moves up by one, and zero comes in below.
pub fn shift_up(x: Register) -> Register
    ensures { cells result ≡ shift_up 0 (cells x) }
{
    push_bottom(x, 0)
}

/// Every cell moves down by one, and zero comes in on top.
pub fn shift_down(x: Register) -> Register
    ensures { cells result ≡ shift_down (cells x) 0 }
{
    push_top(x, 0)
}

/// The feedback of division: the sum of the highest cell and the cell that comes in.
pub fn feedback(x: Register, c: u8) -> u8
    ensures { result ≡ add (get_or (cells x) 63 0) c }
{
    (x.w7 >> 56) as u8 ^ c
}

/// The lowest cell.
pub fn bottom(x: Register) -> u8
    ensures { result ≡ get_or (cells x) 0 0 }
{
    (x.w0 % 256) as u8
}

// The feedback of division backwards: the sum of the lowest cell and the cell that comes in.
fn feedback_below(x: Register, c: u8) -> u8
    ensures { result ≡ add (get_or (cells x) 0 0) c }
{
    bottom(x) ^ c
}

/// Each cell doubled.
pub fn twice(x: Register) -> Register
    ensures { cells result ≡ pscale 2 (cells x) }
{
    map(x, words::word_twice)
}

/// The sixteen multiples of a register by the numbers below 16.
pub fn rows(x1: Register) -> [Register; 16]
    ensures { (d : Register) (n : ℕ) → n < 16 → cells (get_or result n d) ≡ pscale n (cells x1) }
{
    let x2 = twice(x1);
    let x4 = twice(x2);
    let x8 = twice(x4);
    let x3 = add(x2, x1);
    let x5 = add(x4, x1);
    let x6 = add(x4, x2);
    let x7 = add(x4, x3);
    let x9 = add(x8, x1);
    let x10 = add(x8, x2);
    let x11 = add(x8, x3);
    let x12 = add(x8, x4);
    let x13 = add(x8, x5);
    let x14 = add(x8, x6);
    let x15 = add(x8, x7);
    [
        blank(),
        x1,
        x2,
        x3,
        x4,
        x5,
        x6,
        x7,
        x8,
        x9,
        x10,
        x11,
        x12,
        x13,
        x14,
        x15,
    ]
}

/// The sixteen multiples of a register by 16 n, for n below 16.
pub fn high_rows(x: Register) -> [Register; 16]
    ensures { (d : Register) (n : ℕ) → n < 16 → cells (get_or result n d) ≡ pscale (16 * n) (cells x) }
{
    rows(twice(twice(twice(twice(x)))))
}

/// The register after all cells of the input, from the last to the first, with g as the low cells of the generator: at each step the multiple of g by the
/// feedback is added.
pub fn divide(g: Register, input: &[u8]) -> Register
    ensures { cells result ≡ feeds 64 (cells g) input.now }
{
    let multiples = ByteMultiples::of(g);
    let mut x = blank();
    for c in input.iter().rev() {
        x = multiples.add_to(shift_up(x), feedback(x, *c));
    }
    x
}

/// The register after all cells of the input, from the first to the last, with g as the generator of the step back: each cell is added to the lowest one,
/// and the multiple of g by the sum takes the step.
pub fn divide_back(g: Register, input: &[u8]) -> Register
    ensures { cells result ≡ feeds_back (cells g) (replicate 64 0) input.now }
{
    let multiples = ByteMultiples::of(g);
    let mut x = blank();
    for c in input {
        x = multiples.add_to(shift_down(x), feedback_below(x, *c));
    }
    x
}

/// The first 64 cells of a slice from the lowest cell on, with zeros where it has fewer.
pub fn load(s: &[u8]) -> Register
    ensures { cells result ≡ pad_to 64 s.now }
{
    Register {
        w0: words::load_word(s, 0),
        w1: words::load_word(s, 8),
        w2: words::load_word(s, 16),
        w3: words::load_word(s, 24),
        w4: words::load_word(s, 32),
        w5: words::load_word(s, 40),
        w6: words::load_word(s, 48),
        w7: words::load_word(s, 56),
    }
}

/// The cells of a register.
pub fn low_cells(x: Register) -> [u8; 64]
    ensures { result ≡ cells x }
{
    let w = [x.w0, x.w1, x.w2, x.w3, x.w4, x.w5, x.w6, x.w7];
    let mut out = [0u8; 64];
    for i in 0..64 {
        out[i] = words::cell_at(w[i / 8], i % 8);
    }
    out
}

/// The highest r cells, moved down to the lowest.
pub fn lowered(x: Register, r: usize) -> Register
    ensures { cells result ≡ pad_to 64 (drop (64 - min r 64) (cells x)) }
{
    let n = 64 - r.min(64);
    lower::lower_cells(lower::lower_words(x, n / 8), n % 8)
}

/// One past the last cell that is not zero; 0 for a blank register.
pub fn extent(x: Register) -> usize
    ensures { result ≡ extent (cells x) }
{
    if x.w7 != 0 {
        return 56 + words::word_extent(x.w7);
    }
    if x.w6 != 0 {
        return 48 + words::word_extent(x.w6);
    }
    if x.w5 != 0 {
        return 40 + words::word_extent(x.w5);
    }
    if x.w4 != 0 {
        return 32 + words::word_extent(x.w4);
    }
    if x.w3 != 0 {
        return 24 + words::word_extent(x.w3);
    }
    if x.w2 != 0 {
        return 16 + words::word_extent(x.w2);
    }
    if x.w1 != 0 {
        return 8 + words::word_extent(x.w1);
    }
    words::word_extent(x.w0)
}

/// Whether all cells are zero.
pub fn is_zero(x: Register) -> bool
    ensures { result ≡ eqb (extent (cells x)) 0 }
{
    extent(x) == 0
}

// How many of the cells pass the test.
fn nonzero_count(cells: &[u8; 64]) -> usize
    ensures { result ≡ count_by (λ c. not (c == 0)) cells.now }
{
    cells.iter().filter(|c| **c != 0).count()
}

/// How many cells are not zero.
pub fn weight(x: Register) -> usize
    ensures { result ≡ weight (cells x) }
{
    nonzero_count(&low_cells(x))
}

/// Each cell times a.
pub fn scale(a: u8, x: Register) -> Register
    ensures { cells result ≡ pscale a (cells x) }
{
    let d = Doubles::of(a);
    map(x, |w| words::word_scale(&d, w))
}

// A generator's low cells with a further root a, of which the doubles are given: the cells, and a times the cells moved down by one with 1 on top.
fn with_root(d: &Doubles<u8>, g: Register) -> Register
    ensures { cells result ≡ padd (cells g) (pscale d.now.c0 (shift_down (cells g) 1)) }
{
    map_with_above(
        g,
        words::at_bottom(1),
        |w, above| words::word_root(d, w, above),
    )
}

/// The low r cells of the generator with the roots α^b, α^(b+1), .. as the highest of the register; r counts as at most 64.
pub fn generator_top(b: usize, r: usize) -> Register
    ensures { cells result ≡ on_top (min r 64) (take (min r 64) (generator b (min r 64))) }
{
    let mut g = blank();
    let mut d = Doubles::of(field::alpha_power(b));
    for _ in 0..r.min(64) {
        g = with_root(&d, g);
        d = d.next();
    }
    g
}

/// The generator of the step back as the lowest cells of the register, from the r low cells of a generator as the highest of g: its cells above the
/// lowest, each divided by the lowest; r counts as at most 64.
pub fn generator_bottom(g: Register, r: usize) -> Register
    ensures { cells result ≡ pad_to 64 (back_generator (monic_of (min r 64) (cells g))) }
{
    let c = bottom(lowered(g, r));
    scale(field::inverse(c), lowered(push_top(g, 1), r))
}
