// Operations of GF(256) on many cells at once: the product of two words cell by cell, the values of a polynomial at eight points, powers of eight
// cells, and the dot product of two registers. A product of two cells is the sum of the doubles of one that the bits of the other choose; a mask of
// whole cells is a bit of each times 255.

#![tactic(auto)]

ghost use Rattle.std.specs.Prelude.{◌≡◌, [], ◌∷◌, ◌<◌, ◌%◌, replicate};
ghost use Rattle.field.specs.Field.{alpha};
ghost use Rattle.code.specs.Poly.{padd, pscale};
ghost use Rattle.words.specs.Word.{bytes_from};
ghost use Rattle.words.specs.Doubles.{bits_at};
ghost use Rattle.register.specs.Words.{cells};
ghost use Rattle.products.specs.Products.{times, total, dot, evals, powers, listed};

use register::Register;
use words::Doubles;

// The cells of d where bit k of the cell of v is set, and 0 elsewhere.
fn chosen(v: u64, k: u64, d: u64) -> u64
    requires { k < 8 }
    ensures { bytes_from 8 0 result ≡ times (bits_at k (bytes_from 8 0 v)) (bytes_from 8 0 d) }
{
    (((v >> k) & 0x0101010101010101) * 255) & d
}

// Each cell of v times the same cell of the word of which d has the doubles.
fn times_doubles(d: &Doubles<u64>, v: u64) -> u64
    ensures { bytes_from 8 0 result ≡ times (bytes_from 8 0 d.now.c0) (bytes_from 8 0 v) }
{
    let low = chosen(v, 0, d.c0) ^ chosen(v, 1, d.c1) ^ chosen(v, 2, d.c2) ^ chosen(v, 3, d.c3);
    let high = chosen(v, 4, d.c4) ^ chosen(v, 5, d.c5) ^ chosen(v, 6, d.c6) ^ chosen(v, 7, d.c7);
    low ^ high
}

/// Each cell of a times the same cell of b; a blank word needs no work.
pub fn word_times(a: u64, b: u64) -> u64
    ensures { bytes_from 8 0 result ≡ times (bytes_from 8 0 a) (bytes_from 8 0 b) }
{
    if a == 0 {
        return 0;
    }
    times_doubles(&Doubles::of(a), b)
}

// A word with c in each cell.
fn spread(c: u8) -> u64
    ensures { bytes_from 8 0 result ≡ replicate 8 c }
{
    0x0101010101010101 * u64::from(c)
}

// Horner's step at eight points, of which d has the doubles: v times the points, plus c.
fn horner_step(d: &Doubles<u64>, v: u64, c: u8) -> u64
    ensures { bytes_from 8 0 result ≡ padd (replicate 8 c) (times (bytes_from 8 0 d.now.c0) (bytes_from 8 0 v)) }
{
    spread(c) ^ times_doubles(d, v)
}

/// The values of the polynomial p at the eight points, by Horner's rule from the last cell to the first.
pub fn values_at(p: &[u8], points: u64) -> u64
    ensures { bytes_from 8 0 result ≡ evals p.now (bytes_from 8 0 points) }
{
    let d = Doubles::of(points);
    let mut v: u64 = 0;
    for c in p.iter().rev() {
        v = horner_step(&d, v, *c);
    }
    v
}

// The result so far, times the square where the exponent that is left is odd.
fn power_turn(res: u64, square: u64, left: usize) -> u64
    ensures { bytes_from 8 0 result ≡ times (powers (left % 2) (bytes_from 8 0 square)) (bytes_from 8 0 res) }
{
    if left % 2 == 0 {
        return res;
    }
    word_times(square, res)
}

/// Each cell to the power e, by squaring.
pub fn word_power(x: u64, e: usize) -> u64
    ensures { bytes_from 8 0 result ≡ powers e (bytes_from 8 0 x) }
{
    let mut result: u64 = 0x0101010101010101;
    let mut square = x;
    let mut left = e;
    while 0 < left {
        result = power_turn(result, square, left);
        square = word_times(square, square);
        left /= 2;
    }
    result
}

// The sum of the eight cells of a word.
fn sum_of_cells(w: u64) -> u8
    ensures { result ≡ total (bytes_from 8 0 w) }
{
    let four = w ^ (w >> 32);
    let two = four ^ (four >> 16);
    ((two ^ (two >> 8)) % 256) as u8
}

/// The sum of the products of the cells of two registers.
pub fn dot(x: Register, y: Register) -> u8
    ensures { result ≡ dot (cells x) (cells y) }
{
    let low = word_times(x.w0, y.w0)
        ^ word_times(x.w1, y.w1)
        ^ word_times(x.w2, y.w2)
        ^ word_times(x.w3, y.w3);
    let high = word_times(x.w4, y.w4)
        ^ word_times(x.w5, y.w5)
        ^ word_times(x.w6, y.w6)
        ^ word_times(x.w7, y.w7);
    sum_of_cells(low ^ high)
}

// The eight doubles of a byte as the cells of a word.
fn word_of(d: Doubles<u8>) -> u64
    ensures { bytes_from 8 0 result ≡ d.c0 ∷ d.c1 ∷ d.c2 ∷ d.c3 ∷ d.c4 ∷ d.c5 ∷ d.c6 ∷ d.c7 ∷ [] }
{
    u64::from_le_bytes([d.c0, d.c1, d.c2, d.c3, d.c4, d.c5, d.c6, d.c7])
}

/// The points α^e, α^(e+1), .., α^(e+7).
pub fn points_from(e: usize) -> u64
    ensures { bytes_from 8 0 result ≡ listed (λ i. alpha i) 8 e }
{
    word_of(Doubles::of(field::alpha_power(e)))
}

/// The points eight places on: each times α^8 = 29.
pub fn next_points(x: u64) -> u64
    ensures { bytes_from 8 0 result ≡ pscale (alpha 8) (bytes_from 8 0 x) }
{
    words::word_scale(&Doubles::of(29), x)
}
