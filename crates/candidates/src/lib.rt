// The tester's list: every codeword that some run of at most L cells of a read block reaches, each by its tight run, from the first to the last cell that it changes.
// A tight run from s is known by the shifted remainder there: its lowest cell is not zero, and its extent is the run's length. So one pass over the starts finds them
// all, at most one for each start, and they are written by length and then start.

#![tactic(auto)]

ghost use Rattle.std.specs.Prelude.{◌≡◌, [], ◌∷◌, ℕ, ◌+◌, ◌*◌, ◌≤◌, ◌<◌, length, get_or, take};
ghost use Rattle.code.specs.Run.{ZeroFrom};
ghost use Rattle.register.specs.Words.{cells};
ghost use Rattle.profile.specs.Profile.{InRange};
ghost use Rattle.candidates.specs.Candidates.{tight_from, tight_length, of_length, up_to_length, candidates, laid_behind, list_answer, list_leaves};
ghost use Rattle.candidates.specs.Lengths.{length_at};

use profile::{Profile, Refusal};
use register::{ByteMultiples, Register};

// ---- the tight run from each start

// The length of the tight run from s, of which `error` is the shifted remainder; 0 where there is none of at most L cells within the block.
fn tight_length(p: Profile, s: usize, error: Register) -> usize
    requires { s < 256 }
    ensures { result ≡ tight_from p s (cells error) }
{
    let e = register::extent(error);
    let is_unchanged = register::bottom(error) == 0;
    if is_unchanged || p.limit < e || p.n < s + e {
        return 0;
    }
    e
}

// These lengths for the n starts of a block of which `first` is the remainder.
fn tight_lengths(p: Profile, first: Register) -> [u8; 255]
    requires in_range { InRange p }
    requires zero_from { ZeroFrom p.r (cells first) }
    ensures { (s : ℕ) → s < p.n → get_or result s 0 ≡ tight_length p (take p.r (cells first)) s }
{
    let top = register::generator_top(p.b, p.r);
    let multiples = ByteMultiples::of(register::generator_bottom(top, p.r));
    let mut lengths = [0u8; 255];
    let mut rest = first;
    for s in 0..p.n {
        lengths[s] = tight_length(p, s, rest) as u8;
        rest = multiples.add_to(register::shift_down(rest), register::bottom(rest));
    }
    lengths
}

// ---- the list

// Writes a run behind the first k pairs.
fn put(k: usize, start: usize, size: usize, pairs: &mut [u8])
    requires { (2 * (k + 1) ≤ length pairs.old) × (start < 256) × (size < 256) }
    ensures { pairs.new ≡ laid_behind k (record { start = start; size = size } ∷ []) pairs.old }
{
    pairs[2 * k..2 * k + 2].copy_from_slice(&[start as u8, size as u8]);
}

// Writes the runs of `size` cells, of which `lengths` has the length from each start, behind the first k pairs, and tells how many pairs there are then.
fn put_length(lengths: &[u8], size: usize, k: usize, pairs: &mut [u8]) -> usize
    requires in_byte { (length lengths.now < 256) × (size < 256) }
    requires room { 2 * (k + length (of_length (length_at lengths.now) size (length lengths.now))) ≤ length pairs.old }
    ensures value { result ≡ k + length (of_length (length_at lengths.now) size (length lengths.now)) }
    ensures pairs_after { pairs.new ≡ laid_behind k (of_length (length_at lengths.now) size (length lengths.now)) pairs.old }
{
    let mut count = k;
    for (s, length) in lengths.iter().enumerate() {
        if usize::from(*length) == size {
            put(count, s, size, pairs);
            count += 1;
        }
    }
    count
}

// Writes the runs of 1 to `limit` cells, and tells how many there are.
fn put_lengths(lengths: &[u8], limit: usize, pairs: &mut [u8]) -> usize
    requires { (length lengths.now < 256) × (limit < 256) × (length pairs.old ≡ 2 * length lengths.now) }
    ensures value { result ≡ length (up_to_length (length_at lengths.now) (length lengths.now) limit) }
    ensures pairs_after { pairs.new ≡ laid_behind 0 (up_to_length (length_at lengths.now) (length lengths.now) limit) pairs.old }
{
    let mut count = 0;
    for size in 1..=limit {
        count = put_length(lengths, size, count, pairs);
    }
    count
}

// Writes the list of a block of n cells, and tells how many runs are listed.
fn put_list(p: Profile, read: &[u8], pairs: &mut [u8]) -> usize
    requires in_range { InRange p }
    requires fits { (length read.now ≡ p.n) × (length pairs.old ≡ 2 * p.n) }
    ensures value { result ≡ length (candidates p read.now) }
    ensures pairs_after { pairs.new ≡ laid_behind 0 (candidates p read.now) pairs.old }
{
    let rest = block::remainder(p, read);
    if register::is_zero(rest) {
        put(0, 0, 0, pairs);
        return 1;
    }
    let lengths = tight_lengths(p, rest);
    put_lengths(&lengths[..p.n], p.limit, pairs)
}

/// Lists a block: n cells read, and for each codeword that some run of at most L cells reaches its tight run, start and length, written to `pairs`, 2 n bytes,
/// by length and then start: how many runs are listed, which may be none. The block itself, if it is a codeword, is listed by 0 and 0. Bytes behind the list are as they were.
pub fn list(p: Profile, read: &[u8], pairs: &mut [u8]) -> Result<usize, Refusal>
    ensures value { result ≡ list_answer p read.now pairs.old }
    ensures pairs_after { pairs.new ≡ list_leaves p read.now pairs.old }
{
    p.admit(read.len() == p.n)?;
    if pairs.len() != 2 * p.n {
        return Err(Refusal::WrongLength);
    }
    Ok(put_list(p, read, pairs))
}
