// Correcting a block in spot mode (document 02, Note 1): the codeword that differs from the read cells in the fewest cells, up to h cells anywhere. The
// syndromes of the block's remainder are located by the crate `locator` and filled by the crate `erasure`; the contract gives the answer and every lent
// byte by a definition of specs/Spots.antt.

#![tactic(auto)]

ghost use Rattle.std.specs.Prelude.{◌≡◌, ◌≤◌, length, take};
ghost use Rattle.register.specs.Words.{cells};
ghost use Rattle.erasure.specs.Filling.{filled_at};
ghost use Rattle.profile.specs.Profile.{InRange};
ghost use Rattle.block.specs.Block.{correct_fits, read_remainder};
ghost use Rattle.spots.specs.Spots.{read_syndromes, spot_answer, spot_leaves};
ghost use Rattle.spots.specs.Steps.{SpotsInto};

use block::{Correction, Refusal, Verdict};
use locator::Errors;
use profile::Profile;
use register::Register;

// The cells at the places that were located, filled.
fn fill_located(b: usize, syndromes: &[u8], errors: Errors, out: &mut [u8])
    requires { (errors.count ≤ 32) × (length errors.places ≡ 32) × (length errors.points ≡ 32) }
    ensures { out.new ≡ filled_at b syndromes.now (take errors.count errors.places) (take errors.count errors.points) out.old }
{
    let count = errors.count;
    let places = errors.places;
    let points = errors.points;
    erasure::fill_places(b, syndromes, &places[..count], &points[..count], out);
}

// A block with its syndromes: its codeword is written where one is near.
fn correct_located(p: Profile, syndromes: &[u8], read: &[u8], out: &mut [u8]) -> Verdict
    requires in_range { InRange p }
    requires read_len { (length read.now ≡ p.n) × (length out.old ≡ p.n) }
    requires syndromes_value { syndromes.now ≡ read_syndromes p read.now }
    ensures { SpotsInto p read.now out.old result out.new }
{
    let Some(errors) = locator::locate(syndromes, p.n, p.half()) else {
        return Err(Refusal::TooManyErrors);
    };
    let count = errors.count;
    let places = errors.places;
    out.copy_from_slice(read);
    fill_located(p.b, syndromes, errors, out);
    Ok(Correction::Cells {
        count,
        lowest: usize::from(places[0]),
    })
}

// A block with its remainder.
fn correct_cells(p: Profile, rest: Register, read: &[u8], out: &mut [u8]) -> Verdict
    requires in_range { InRange p }
    requires read_len { (length read.now ≡ p.n) × (length out.old ≡ p.n) }
    requires rest_value { cells rest ≡ read_remainder p read.now }
    ensures { SpotsInto p read.now out.old result out.new }
{
    let r = p.r;
    let low = register::low_cells(rest);
    let syndromes = erasure::syndromes(p.b, &low[..r]);
    correct_located(p, &syndromes[..r], read, out)
}

// Whether the cells and the second buffer have their lengths.
#[tactic(auto, unfolding(block::specs::Block::correct_fits))]
fn fits(p: Profile, read: &[u8], out: &[u8]) -> bool
    ensures { result ≡ correct_fits p read.now out.now }
{
    read.len() == p.n && out.len() == p.n
}

/// Corrects a block in spot mode: n cells read, and the nearest codeword written to `out`, n bytes, where one differs in at most h cells. Refused blocks
/// leave `out` as it was.
pub fn correct(p: Profile, read: &[u8], out: &mut [u8]) -> Verdict
    ensures value { result ≡ spot_answer p read.now out.old }
    ensures out_after { out.new ≡ spot_leaves p read.now out.old }
{
    p.admit(fits(p, read, out))?;
    let rest = block::remainder(p, read);
    if register::is_zero(rest) {
        out.copy_from_slice(read);
        return Ok(Correction::Cells {
            count: 0,
            lowest: 0,
        });
    }
    correct_cells(p, rest, read, out)
}
