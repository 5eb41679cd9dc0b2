// Filling known places of a block from its syndromes, eight cells a word: the syndromes are values at powers of α, and the value at a place is a quotient
// of two polynomials at its point, which is handed in beside the place. That this is the filled word is proved in specs/ and proofs/.

#![tactic(auto)]

ghost use Rattle.std.specs.Prelude.{◌≡◌, map, ℕ, ◌+◌, ◌*◌, ◌<◌, ◌≤◌, min, length, get_or, set};
ghost use Rattle.field.specs.Field.{add, alpha};
ghost use Rattle.words.specs.Word.{bytes_from};
ghost use Rattle.words.specs.Cells.{pad_to};
ghost use Rattle.register.specs.Words.{cells};
ghost use Rattle.products.specs.Products.{evals, listed};
ghost use Rattle.erasure.specs.Filling.{rooted_at, windows, even_cells, quotient_at, laid_at, filled_at};
ghost use Rattle.erasure.specs.Erasure.{syndromes};

use register::Register;

// The values of the cells at α^b, α^(b+1), .., eight a word: `count` words.
fn syndrome_words(b: usize, rest: &[u8], count: usize) -> [u64; 8]
    requires { count ≤ 8 }
    ensures { (k : ℕ) → k < count → bytes_from 8 0 (get_or result k 0) ≡ evals rest.now (listed (λ i. alpha i) 8 (b + 8 * k)) }
{
    let mut w = [0u64; 8];
    let mut x = products::points_from(b);
    for word in &mut w[..count] {
        *word = products::values_at(rest, x);
        x = products::next_points(x);
    }
    w
}

/// The syndromes of the cells `rest`, as many as there are cells and at most 64, with zeros after them.
pub fn syndromes(b: usize, rest: &[u8]) -> [u8; 64]
    ensures { result ≡ pad_to 64 (syndromes b (min (length rest.now) 64) rest.now) }
{
    let n = rest.len().min(64);
    let w = syndrome_words(b, rest, n.div_ceil(8));
    let mut out = [0u8; 64];
    for i in 0..n {
        out[i] = words::cell_at(w[i / 8], i % 8);
    }
    out
}

// The product of (x + X) for the points X, from the last to the first.
fn rooted_of(points: &[u8]) -> Register
    ensures { cells result ≡ pad_to 64 (rooted_at points.now) }
{
    let mut p = register::push_bottom(register::blank(), 1);
    for x in points.iter().rev() {
        p = register::add(register::scale(*x, p), register::shift_up(p));
    }
    p
}

// Each end part of the cells of l against s: a multiple of l is added for each cell of s, and l moves down.
fn evaluator_of(l: Register, s: &[u8]) -> Register
    ensures { cells result ≡ windows (cells l) s.now }
{
    let mut w = register::blank();
    let mut rest = l;
    for x in s {
        w = register::add(w, register::scale(*x, rest));
        rest = register::shift_down(rest);
    }
    w
}

// Every second cell.
fn derivative_of(l: Register) -> Register
    ensures { cells result ≡ even_cells (cells l) }
{
    Register {
        w0: l.w0 & 0x00ff00ff00ff00ff,
        w1: l.w1 & 0x00ff00ff00ff00ff,
        w2: l.w2 & 0x00ff00ff00ff00ff,
        w3: l.w3 & 0x00ff00ff00ff00ff,
        w4: l.w4 & 0x00ff00ff00ff00ff,
        w5: l.w5 & 0x00ff00ff00ff00ff,
        w6: l.w6 & 0x00ff00ff00ff00ff,
        w7: l.w7 & 0x00ff00ff00ff00ff,
    }
}

// The value is added to the cell at the place, if there is one.
fn add_at(cells: &mut [u8], place: u8, value: u8)
    ensures { cells.new ≡ set cells.old place (add (get_or cells.old place 0) value) }
{
    let m = usize::from(place);
    if m < cells.len() {
        cells[m] ^= value;
    }
}

// The values of a word are added to the cells at the first eight places.
fn add_values(v: u64, places: &[u8], cells: &mut [u8])
    ensures { cells.new ≡ laid_at places.now (bytes_from 8 0 v) cells.old }
{
    let values = v.to_le_bytes();
    for (place, value) in places.iter().zip(values.iter()) {
        add_at(cells, *place, *value);
    }
}

// What Forney's formula reads: the power b, the derivative and the evaluator.
#[derive(Clone, Copy)]
struct Formula<'a> {
    b: usize,
    derivative: &'a [u8],
    evaluator: &'a [u8],
}

impl Formula<'_> {
    // The values at eight points; the inverse is the power 254.
    fn values_at(&self, x: u64) -> u64
        ensures { bytes_from 8 0 result ≡ map (quotient_at self.now.b self.now.derivative.now self.now.evaluator.now) (bytes_from 8 0 x) }
    {
        let power = products::word_power(x, self.b);
        let below = products::word_times(power, products::values_at(self.derivative, x));
        let inverse = products::word_power(below, 254);
        products::word_times(inverse, products::values_at(self.evaluator, x))
    }

    // The value at each point is added to the cell at its place.
    fn lay(&self, places: &[u8], points: &[u8], cells: &mut [u8])
        requires { length places.now ≤ length points.now }
        ensures { cells.new ≡ laid_at places.now (map (quotient_at self.now.b self.now.derivative.now self.now.evaluator.now) points.now) cells.old }
    {
        for (eight, x) in places.chunks(8).zip(points.chunks(8)) {
            let v = self.values_at(words::load_word(x, 0));
            add_values(v, eight, cells);
        }
    }
}

/// Fills the first 63 places from the syndromes: the value at each point, by Forney's formula, is added to the cell at its place.
pub fn fill_places(b: usize, syndromes: &[u8], places: &[u8], points: &[u8], cells: &mut [u8])
    ensures { cells.new ≡ filled_at b syndromes.now places.now points.now cells.old }
{
    let n = points.len().min(63);
    let m = places.len().min(n);
    let k = syndromes.len().min(n);
    let l = register::shift_down(rooted_of(&points[..n]));
    let w = register::low_cells(evaluator_of(l, &syndromes[..k]));
    let d = register::low_cells(derivative_of(l));
    let formula = Formula {
        b,
        derivative: &d[..n],
        evaluator: &w[..n],
    };
    formula.lay(&places[..m], &points[..n], cells);
}
