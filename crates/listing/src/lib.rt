// From the bytes of the plot lister's standard input to the text of its answer. The profile's five bytes are taken off, the sheet is read
// with buffers of the lister's own, and the text is that of the payload that came back, or of the refusal.

#![tactic(auto)]

ghost use Rattle.std.specs.Prelude.{◌≡◌};
ghost use Rattle.profile.specs.Profile.{InRange};
ghost use Rattle.listing_text.specs.Buffer.{text_in, text_length};
ghost use Rattle.listing.specs.Listing.{profile_in, sheet_text, listed};

use answers::Numbered;
use profile::{Profile, Refusal};

// The profile of an input: five bytes, each a number in its range.
fn profile_of(input: &[u8]) -> Result<Profile, Refusal>
    ensures { result ≡ profile_in input.now }
{
    let is_short = input.len() < 5;
    if is_short {
        return Err(Refusal::BadProfile);
    }
    let p = Profile {
        n: usize::from(input[0]),
        r: usize::from(input[1]),
        b: usize::from(input[2]),
        limit: usize::from(input[3]),
        depth: usize::from(input[4]),
    };
    if p.in_range() {
        Ok(p)
    } else {
        Err(Refusal::BadProfile)
    }
}

// The text for a sheet, read with buffers of zeros, of which the reader takes the parts that the profile asks for.
fn list_sheet(p: Profile, sheet: &[u8], out: &mut [u8]) -> usize
    requires { InRange p }
    ensures value { result ≡ text_length (sheet_text p sheet.now) out.old }
    ensures out_after { out.new ≡ text_in (sheet_text p sheet.now) out.old }
{
    let mut scratch = [0u8; 255];
    let mut payload = [0u8; 4048];
    let scratch = &mut scratch[..p.n];
    let size = p.depth * p.message_length();
    let payload = &mut payload[..size];
    match sheet::read(p, sheet, scratch, payload) {
        Ok(changed) => listing_text::write_listing(payload, changed, out),
        Err(refusal) => listing_text::write_refusal(refusal.number(), refusal.place(), out),
    }
}

/// Writes the answer's text into `out` from its first byte on, and answers how many bytes that is.
pub fn list(input: &[u8], out: &mut [u8]) -> usize
    ensures value { result ≡ text_length (listed input.now) out.old }
    ensures out_after { out.new ≡ text_in (listed input.now) out.old }
{
    match profile_of(input) {
        Ok(p) => list_sheet(p, &input[5..], out),
        Err(refusal) => listing_text::write_refusal(refusal.number(), refusal.place(), out),
    }
}
