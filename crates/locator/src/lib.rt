// Where a read block is wrong: Massey's recursion over the syndromes, in registers of 64 cells, and the roots of the locator, eight cells at a time.
// The contracts are equations with the definitions of specs/; that those are right is specs/Theorems.antt.

#![tactic(auto)]

ghost use Rattle.std.specs.Prelude.{◌≡◌, List, [], ◌∷◌, ◌++◌, ℕ, ◌+◌, ◌≤◌, ◌<◌, length, take};
ghost use Rattle.field.specs.Field.{alpha};
ghost use Rattle.products.specs.Products.{evals, listed};
ghost use Rattle.words.specs.Word.{bytes_from};
ghost use Rattle.words.specs.Cells.{pad_to};
ghost use Rattle.register.specs.Words.{cells};
ghost use Rattle.locator.specs.Locator.{start, massey, mirrored, roots_from};
ghost use Rattle.locator.specs.Answer.{recursion_of, turn_at, WithinLimit, errors_at, error_locations};

use register::Register;

/// The errors of a block. The places of the wrong cells rise; point i is α to the power of place i; both are 0 from `count` on. They are two arrays, of
/// fixed size, since filling reads eight points at a time as a word.
#[derive(Clone, Copy)]
pub struct Errors {
    pub count: usize,
    pub places: [u8; 32],
    pub points: [u8; 32],
}

// ---- Massey's recursion

// The recursion after some syndromes.
#[derive(Clone, Copy)]
struct State {
    connection: Register,
    before: Register,
    size: usize,
    unit: u8,
}

// Before any syndrome.
fn first_state() -> State
    ensures { recursion_of result ≡ start 64 }
{
    let one = register::push_bottom(register::blank(), 1);
    State {
        connection: one,
        before: one,
        size: 0,
        unit: 1,
    }
}

// The state after n syndromes, of which `read` has the last 64, the last one first. Where the discrepancy is zero the polynomial stays.
fn next_state(k: State, read: Register, n: usize) -> State
    requires { k.size ≤ n }
    ensures { (recursion_of result ≡ turn_at n (cells read) (recursion_of k)) × (result.size ≤ n) }
{
    let before = register::shift_up(k.before);
    let d = products::dot(k.connection, read);
    if d == 0 {
        return State { before, ..k };
    }
    let connection = register::add(
        register::scale(k.unit, k.connection),
        register::scale(d, before),
    );
    if n - k.size <= k.size {
        return State {
            connection,
            before,
            ..k
        };
    }
    State {
        connection,
        before: k.connection,
        size: n - k.size,
        unit: d,
    }
}

// The recursion over the syndromes, at most 64 of them; none where its size passes the limit.
fn recursion_over(syndromes: &[u8], limit: usize) -> Option<State>
    ensures { WithinLimit limit (massey 64 (take 64 syndromes.now)) result }
{
    let first = &syndromes[..syndromes.len().min(64)];
    let mut k = first_state();
    let mut read = register::blank();
    for (i, x) in first.iter().enumerate() {
        read = register::push_bottom(read, *x);
        k = next_state(k, read, i + 1);
        let is_above = limit < k.size;
        if is_above {
            return None;
        }
    }
    Some(k)
}

// ---- the roots

// The locator as the lowest cells: cells size, .., 0 of the connection polynomial.
fn locator_cells(connection: Register, size: usize) -> [u8; 64]
    requires { size < 64 }
    ensures { (take (size + 1) result ≡ mirrored size (cells connection)) × (length result ≡ 64) }
{
    let mut out = register::low_cells(connection);
    out[..size + 1].reverse();
    out
}

impl Errors {
    // One error more; past 32 of them only the count goes on.
    fn push(&mut self, place: u8, point: u8)
        requires point_value { point ≡ alpha place }
        requires count_le_place { self.old.count ≤ place }
        ensures count { self.new.count ≤ place + 1 }
        ensures pushed { (E : List ℕ) → self.old ≡ errors_at E → self.new ≡ errors_at (E ++ (place ∷ [])) }
    {
        let count = self.count;
        if count < 32 {
            self.places[count] = place;
            self.points[count] = point;
        }
        self.count = count + 1;
    }
}

// The roots among the m places from j on, where the locator has the values given and the points are α^j, α^(j+1), ..
fn push_roots(found: &mut Errors, values: u64, points: u64, j: usize, m: usize)
    requires m_bound { (m ≤ 8) × (j + m ≤ 255) }
    requires points_value { bytes_from 8 0 points ≡ listed (λ i. alpha i) 8 j }
    requires count_le_j { found.old.count ≤ j }
    ensures count { found.new.count ≤ j + m }
    ensures pushed { (P E : List ℕ) → bytes_from 8 0 values ≡ evals P (bytes_from 8 0 points) → found.old ≡ errors_at E → found.new ≡ errors_at (E ++ roots_from P m j) }
{
    for i in 0..m {
        if words::cell_at(values, i) == 0 {
            found.push((j + i) as u8, words::cell_at(points, i));
        }
    }
}

// The roots of the locator among n places, eight at a time.
fn roots_among(locator: &[u8], n: usize) -> Errors
    requires { n ≤ 255 }
    ensures { result ≡ errors_at (roots_from locator.now n 0) }
{
    let mut found = Errors {
        count: 0,
        places: [0; 32],
        points: [0; 32],
    };
    let mut points = products::points_from(0);
    for j in (0..n).step_by(8) {
        let values = products::values_at(locator, points);
        push_roots(&mut found, values, points, j, (n - j).min(8));
        points = products::next_points(points);
    }
    found
}

/// The errors that the syndromes locate among n cells; none where there is no codeword within h cells. At most 64 syndromes, 255 cells and 32 errors count.
pub fn locate(syndromes: &[u8], n: usize, h: usize) -> Option<Errors>
    ensures { result ≡ error_locations syndromes.now n h }
{
    let k = recursion_over(syndromes, h.min(32))?;
    let size = k.size;
    let cells = locator_cells(k.connection, size);
    let found = roots_among(&cells[..size + 1], n.min(255));
    let is_another = found.count != size;
    if is_another {
        return None;
    }
    Some(found)
}
