// The sheet of document 01: D interleaved blocks, written from a payload and read back with every block corrected. There is one reader for every
// mode; a mode is how one block is corrected. Its two passes, with a scratch of one block (document 02, Note 6), are in judge.rt and fill.rt.

#![tactic(auto)]

ghost use Rattle.std.specs.Prelude.{◌≡◌, ◌+◌, ◌*◌, ◌≤◌, ◌<◌, eqb, length};
ghost use Rattle.profile.specs.Profile.{InRange, message_length};
ghost use Rattle.block.specs.Block.{encode};
ghost use Rattle.sheet.specs.Sheet.{block_of, written_sheet, read_answer, read_scratch, read_payload, write_sheet_answer, write_sheet_leaves, read_fits, write_sheet_fits};
ghost use Rattle.sheet.specs.Steps.{Laid};

use profile::Profile;
use reader::Reader;

mod fill;
mod found;
mod judge;
mod numbers;
mod reader;

/// How the blocks of a sheet are read: each goes to the codeword within the shortest run, at most L cells long, unless that is long but thin (document 02,
/// Note 7), or (Note 1) to the codeword that differs in the fewest cells, at most h anywhere in the block.
// A value and not a type or a closure: the theorems (`ReadResults`) range over every mode, and callers pass it.
#[derive(Clone, Copy, Debug, PartialEq, Eq)]
pub enum Mode {
    Burst,
    Spots,
}

/// Why a sheet is refused. Document 01 calls the first two misprint and wrong frame; the third has the block's number and its verdict.
#[derive(Clone, Copy, Debug, PartialEq, Eq)]
pub enum Refusal {
    BadProfile,
    WrongLength,
    Block {
        number: usize,
        verdict: block::Verdict,
    },
}

// The cells d, D + d, 2 D + d, .. of the sheet.
fn gather(sheet: &[u8], d: usize, depth: usize, out: &mut [u8])
    requires { (d < depth) × (depth ≤ 16) × (length sheet.now ≡ depth * length out.old) }
    ensures { out.new ≡ block_of depth (length out.old) sheet.now d }
{
    for (i, cell) in out.iter_mut().enumerate() {
        *cell = sheet[i * depth + d];
    }
}

// Lays the cells of a block at d, D + d, 2 D + d, .. of the sheet.
fn scatter(word: &[u8], d: usize, depth: usize, sheet: &mut [u8])
    requires { (d < depth) × (depth ≤ 16) × (length sheet.old ≡ depth * length word.now) }
    ensures { Laid depth (length word.now) d word.now sheet.old sheet.new }
{
    for (i, cell) in word.iter().enumerate() {
        sheet[i * depth + d] = *cell;
    }
}

// Whether a length is a × b, which may be more than a word holds.
fn is_product(length: usize, a: usize, b: usize) -> bool
    ensures { result ≡ eqb length (a * b) }
{
    a.checked_mul(b) == Some(length)
}

// Whether the reader's buffers have their lengths.
#[tactic(auto, unfolding(crate::specs::Sheet::read_fits))]
fn read_fits(p: Profile, sheet: usize, scratch: usize, payload: usize) -> bool
    ensures { result ≡ read_fits p sheet scratch payload }
{
    is_product(sheet, p.depth, p.n)
        && scratch == p.n
        && is_product(payload, p.depth, p.message_length())
}

// Whether the writer's buffers have their lengths.
#[tactic(auto, unfolding(crate::specs::Sheet::write_sheet_fits))]
fn write_fits(p: Profile, payload: usize, sheet: usize) -> bool
    ensures { result ≡ write_sheet_fits p payload sheet }
{
    is_product(payload, p.depth, p.message_length()) && is_product(sheet, p.depth, p.n)
}

/// Reads a sheet of D × n cells in a mode: every block is judged in the scratch (n bytes) before a byte of the payload (D × k bytes) is written. After
/// every result but the refusals 1 and 2 the scratch is all zero.
pub fn read_in(
    mode: Mode,
    p: Profile,
    sheet: &[u8],
    scratch: &mut [u8],
    payload: &mut [u8],
) -> Result<usize, Refusal>
    ensures value { result ≡ read_answer mode p sheet.now scratch.old payload.old }
    ensures scratch_after { scratch.new ≡ read_scratch mode p sheet.now scratch.old payload.old }
    ensures payload_after { payload.new ≡ read_payload mode p sheet.now scratch.old payload.old }
{
    p.admit(read_fits(p, sheet.len(), scratch.len(), payload.len()))?;
    let reader = Reader { mode, p, sheet };
    let mut cells = [0u8; 255];
    let word = &mut cells[..p.n];
    let answer = reader.read(scratch, word, payload);
    scratch.fill(0);
    answer
}

/// Reads a sheet in burst mode.
pub fn read(
    p: Profile,
    sheet: &[u8],
    scratch: &mut [u8],
    payload: &mut [u8],
) -> Result<usize, Refusal>
    ensures value { result ≡ read_answer Mode.Burst p sheet.now scratch.old payload.old }
    ensures scratch_after { scratch.new ≡ read_scratch Mode.Burst p sheet.now scratch.old payload.old }
    ensures payload_after { payload.new ≡ read_payload Mode.Burst p sheet.now scratch.old payload.old }
{
    read_in(Mode::Burst, p, sheet, scratch, payload)
}

// Writes a message, and lays it as block d of the sheet. With profile and lengths right the block's entry refuses nothing.
fn write_block(p: Profile, message: &[u8], d: usize, sheet: &mut [u8])
    requires in_range { InRange p }
    requires d_lt_depth { (d < p.depth) × (length message.now ≡ message_length p) × (length sheet.old ≡ p.depth * p.n) }
    ensures { Laid p.depth p.n d (encode p.b p.r message.now) sheet.old sheet.new }
{
    let mut cells = [0u8; 255];
    let word = &mut cells[..p.n];
    let _ = block::write(p, message, word);
    scatter(word, d, p.depth, sheet);
}

fn write_blocks(p: Profile, payload: &[u8], sheet: &mut [u8])
    requires in_range { InRange p }
    requires payload_len { (length payload.now ≡ p.depth * message_length p) × (length sheet.old ≡ p.depth * p.n) }
    ensures { sheet.new ≡ written_sheet p payload.now }
{
    for (d, message) in payload.chunks_exact(p.message_length()).enumerate() {
        write_block(p, message, d, sheet);
    }
}

/// Writes a payload of D × k bytes as a sheet of D × n cells.
pub fn write(p: Profile, payload: &[u8], sheet: &mut [u8]) -> Result<(), profile::Refusal>
    ensures value { result ≡ write_sheet_answer p payload.now sheet.old }
    ensures sheet_after { sheet.new ≡ write_sheet_leaves p payload.now sheet.old }
{
    p.admit(write_fits(p, payload.len(), sheet.len()))?;
    write_blocks(p, payload, sheet);
    Ok(())
}
