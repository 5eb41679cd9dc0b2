// The block of document 01: writing, checking and correcting one block; and looking at a block and filling a run of it (document 02, Note 3), of which
// correcting is made. A block's check cells, its remainder and the shifted remainders come from the shift register of the crate `register`; each entry
// refuses with 1, then 2, and its contract gives the answer and every lent byte by a definition of specs/Block.antt.

#![tactic(auto)]

ghost use Rattle.std.specs.Prelude.{◌≡◌, ◌≤◌, length, take};
ghost use Rattle.code.specs.Code.{generator, remainder, weight};
ghost use Rattle.code.specs.Run.{ZeroFrom, shifted_remainder};
ghost use Rattle.register.specs.Words.{cells};
ghost use Rattle.words.specs.Cells.{pad_to};
ghost use Rattle.profile.specs.Profile.{InRange, is_sparse};
ghost use Rattle.block.specs.Block.{check_cells, is_span, write_answer, write_leaves, read_remainder, check_answer, correct_answer, correct_leaves, look_answer, look_error, fill_answer, fill_leaves, fill_by_answer, fill_by_leaves};
ghost use Rattle.block.specs.Found.{decided_by, JudgedFrom, shifted_at};

use division::Code;
use profile::Profile;
use register::Register;
use search::Found;

mod division;
mod lay;
mod numbers;
mod search;

pub use numbers::{Correction, FillRefusal, Refusal, Verdict};

// ---- writing

/// Writes the block of a message: k bytes in, n cells out. Refused are a profile out of range and buffers of other lengths; `cells` is then as it was.
pub fn write(p: Profile, message: &[u8], cells: &mut [u8]) -> Result<(), profile::Refusal>
    ensures value { result ≡ write_answer p message.now cells.old }
    ensures cells_after { cells.new ≡ write_leaves p message.now cells.old }
{
    p.admit(message.len() == p.message_length() && cells.len() == p.n)?;
    let checks = Code::new(p).checks(message);
    lay::lay_out(p.r, register::low_cells(checks), message, cells);
    Ok(())
}

// ---- checking

/// The remainder of a block by the generator, as the lowest r cells of the register; the zero register beside refusals 1 and 2.
pub fn remainder(p: Profile, read: &[u8]) -> Register
    ensures { cells result ≡ read_remainder p read.now }
{
    match p.admit(read.len() == p.n) {
        Err(_) => register::blank(),
        Ok(()) => Code::new(p).remainder(read),
    }
}

/// Whether a block is clean ("called clean exactly if all its syndromes are zero"), which is where it is a codeword. One that is not clean is no refusal.
pub fn check(p: Profile, read: &[u8]) -> Result<bool, profile::Refusal>
    ensures { result ≡ check_answer p read.now }
{
    p.admit(read.len() == p.n)?;
    let rest = Code::new(p).remainder(read);
    Ok(register::is_zero(rest))
}

// ---- looking

/// What a look finds: the verdict, and the shifted remainder at its start, from which the fill of its run is made. A refusal has start 0.
#[derive(Clone, Copy)]
pub struct Judgement {
    pub verdict: Verdict,
    pub error: Register,
}

// Whether a run is thin, by the shifted remainder at its start. One of at most h cells is exempt, and its changed cells are not counted.
fn run_is_sparse(p: Profile, size: usize, error: Register) -> bool
    ensures { result ≡ is_sparse p size (weight (cells error)) }
{
    p.half() < size && p.is_sparse(size, register::weight(error))
}

// The verdict on a block that is not clean, from what the search has found.
#[tactic(auto, unfolding(crate::specs::Found::decided_by))]
fn decided(p: Profile, found: Found) -> Verdict
    ensures { result ≡ decided_by p found }
{
    let is_torn = p.limit < found.size;
    if is_torn {
        return Err(Refusal::Uncorrectable);
    }
    if found.again {
        return Err(Refusal::Ambiguous);
    }
    if run_is_sparse(p, found.size, found.error) {
        return Err(Refusal::Sparse);
    }
    Ok(Correction::Run {
        start: found.start,
        length: found.size,
    })
}

// The verdict on a block of which `rest` is the remainder.
fn judge_remainder(code: &Code, rest: Register) -> Judgement
    requires { ZeroFrom code.now.profile.r (cells rest) }
    ensures { JudgedFrom code.now.profile (take code.now.profile.r (cells rest)) result }
{
    if register::is_zero(rest) {
        let clean = Correction::Run {
            start: 0,
            length: 0,
        };
        return Judgement {
            verdict: Ok(clean),
            error: rest,
        };
    }
    let found = search::search(code, rest);
    let verdict = decided(code.profile, found);
    let error = if verdict.is_err() { rest } else { found.error };
    Judgement { verdict, error }
}

/// Looks at a block of n cells, and hands out the shifted remainder at the verdict's start beside it; the zero register beside refusals 1 and 2.
pub fn judge(p: Profile, read: &[u8]) -> Judgement
    ensures verdict_value { result.verdict ≡ look_answer p read.now }
    ensures error_value { cells result.error ≡ look_error p read.now }
{
    if let Err(early) = p.admit(read.len() == p.n) {
        return Judgement {
            verdict: Err(Refusal::from(early)),
            error: register::blank(),
        };
    }
    let code = Code::new(p);
    judge_remainder(&code, code.remainder(read))
}

/// Looks at a block of n cells: the verdict that correcting gives. Nothing is written.
pub fn look(p: Profile, read: &[u8]) -> Verdict
    ensures { result ≡ look_answer p read.now }
{
    judge(p, read).verdict
}

// ---- filling

// Whether a start and a length are a run of the block, shorter than r. Their sum may be too large for a word, so it is not made.
#[tactic(auto, unfolding(crate::specs::Block::is_span))]
fn is_span(p: Profile, start: usize, length: usize) -> bool
    ensures { result ≡ is_span p start length }
{
    start <= p.n && length < p.r && length <= p.n - start
}

/// Fills a run by a register that is at hand as the shifted remainder at its start, as a look has it.
pub fn fill_by(
    p: Profile,
    read: &[u8],
    start: usize,
    length: usize,
    error: Register,
    out: &mut [u8],
) -> Result<(), FillRefusal>
    ensures value { result ≡ fill_by_answer p read.now start length (cells error) out.old }
    ensures out_after { out.new ≡ fill_by_leaves p read.now start length (cells error) out.old }
{
    p.admit(read.len() == p.n && out.len() == p.n)?;
    if !is_span(p, start, length) {
        return Err(FillRefusal::BadSpan);
    }
    lay::fill_run(read, error, start, length, out)
}

// The shifted remainder at a start of n cells; the zero register where the fill is refused by 1, by the read block's length, or by its start.
fn shifted_at(p: Profile, read: &[u8], start: usize) -> Register
    ensures { cells result ≡ shifted_at p read.now start }
{
    if p.admit(read.len() == p.n).is_err() || p.n < start {
        return register::blank();
    }
    Code::new(p).shifted(read, start)
}

/// Fills a run of a block: the codeword that agrees with the n cells read outside the `length` cells from `start` on is written to `out`, n bytes,
/// where there is one. Else `out` is as it was. The limit has no effect once it is in range.
pub fn fill(
    p: Profile,
    read: &[u8],
    start: usize,
    length: usize,
    out: &mut [u8],
) -> Result<(), FillRefusal>
    ensures value { result ≡ fill_answer p read.now start length out.old }
    ensures out_after { out.new ≡ fill_leaves p read.now start length out.old }
{
    let error = shifted_at(p, read, start);
    fill_by(p, read, start, length, error, out)
}

// ---- correcting

/// Corrects a block: n cells read, and the codeword of the shortest run written to `out`, n bytes. It is the look and, where that accepts, the fill of
/// its run, by the shifted remainder that the look has. Refused blocks leave `out` as it was.
pub fn correct(p: Profile, read: &[u8], out: &mut [u8]) -> Verdict
    ensures value { result ≡ correct_answer p read.now out.old }
    ensures out_after { out.new ≡ correct_leaves p read.now out.old }
{
    p.admit(read.len() == p.n && out.len() == p.n)?;
    let found = judge(p, read);
    let run = found.verdict?;
    fill_by(p, read, run.start(), run.length(), found.error, out).unwrap();
    Ok(run)
}
