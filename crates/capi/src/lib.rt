// The library for C and Rust: each exported function takes numbers and byte slices (pointer and length), answers the documents' number, 0 where
// accepted, or the length of a text, and hands every other number out through a reference. Each calls one entry of the crates below, and its
// contract is that entry's answer, as the numbers that its own crate defines; specs/Numbers.antt has what C alone needs.

#![tactic(auto)]

ghost use Rattle.std.specs.Prelude.{◌≡◌};
ghost use Rattle.profile.specs.Profile.{message_length, half};
ghost use Rattle.block.specs.Block.{write_answer, write_leaves, check_answer, correct_answer, correct_leaves, look_answer, fill_answer, fill_leaves};
ghost use Rattle.profile.specs.Numbers.{early_number};
ghost use Rattle.block.specs.Numbers.{verdict_number, verdict_start, verdict_length, verdict_count, verdict_lowest, checked_clean, filled_number};
ghost use Rattle.spots.specs.Spots.{spot_answer, spot_leaves};
ghost use Rattle.sheet.specs.declared.Mode.TheVariants.{Burst, Spots};
ghost use Rattle.sheet.specs.Sheet.{write_sheet_answer, write_sheet_leaves, read_answer, read_scratch, read_payload};
ghost use Rattle.sheet.specs.Numbers.{reading_number, reading_place, reading_changed};
ghost use Rattle.plot.specs.Grammar.{reading};
ghost use Rattle.plot.specs.Answers.{checked, located, added, payload_with};
ghost use Rattle.plot.specs.Numbers.{payload_number, payload_place, payload_figure, payload_index, payload_end, located_number, located_place, located_figure, located_index, located_start, located_length, added_number, added_place, added_figure, added_index, added_start};
ghost use Rattle.listing_text.specs.Text.{listing_text, refusal_text};
ghost use Rattle.listing_text.specs.Buffer.{text_in, text_length};
ghost use Rattle.listing.specs.Listing.{listed};
ghost use Rattle.capi.specs.Numbers.{profile_of, profile_number, value_or_place};

use answers::Numbered;
use block::Correction;
use numbers::profile_of;
use plot::LineAtFault;
use profile::Profile;
use sheet::Mode;

mod numbers;
mod runs;
mod tables;

// ---- blocks

/// Whether the five numbers are a profile, with its k and h.
#[unsafe(no_mangle)]
pub extern "C" fn tishwabe_profile(
    n: usize,
    r: usize,
    b: usize,
    limit: usize,
    depth: usize,
    k: &mut usize,
    h: &mut usize,
) -> usize
    ensures value { result ≡ profile_number (profile_of n r b limit depth) }
    ensures k_after { k.new ≡ message_length (profile_of n r b limit depth) }
    ensures h_after { h.new ≡ half (profile_of n r b limit depth) }
{
    let p = profile_of(n, r, b, limit, depth);
    *k = p.message_length();
    *h = p.half();
    usize::from(!p.in_range())
}

/// Writes the block of a message.
#[unsafe(no_mangle)]
pub extern "C" fn tishwabe_write_block(
    n: usize,
    r: usize,
    b: usize,
    limit: usize,
    depth: usize,
    message: &[u8],
    cells: &mut [u8],
) -> usize
    ensures value { result ≡ early_number (write_answer (profile_of n r b limit depth) message.now cells.old) }
    ensures cells_after { cells.new ≡ write_leaves (profile_of n r b limit depth) message.now cells.old }
{
    usize::from(block::write(profile_of(n, r, b, limit, depth), message, cells).number())
}

/// Whether a block is a codeword: `clean` is 1 or 0.
#[unsafe(no_mangle)]
pub extern "C" fn tishwabe_check_block(
    n: usize,
    r: usize,
    b: usize,
    limit: usize,
    depth: usize,
    read: &[u8],
    clean: &mut usize,
) -> usize
    ensures value { result ≡ early_number (check_answer (profile_of n r b limit depth) read.now) }
    ensures clean_after { clean.new ≡ checked_clean (check_answer (profile_of n r b limit depth) read.now) }
{
    let answer = block::check(profile_of(n, r, b, limit, depth), read);
    *clean = answer.map_or(0, usize::from);
    usize::from(answer.number())
}

/// Corrects a block in burst mode: the start and the length of the run.
#[unsafe(no_mangle)]
pub extern "C" fn tishwabe_correct_block(
    n: usize,
    r: usize,
    b: usize,
    limit: usize,
    depth: usize,
    read: &[u8],
    out: &mut [u8],
    start: &mut usize,
    length: &mut usize,
) -> usize
    ensures value { result ≡ verdict_number (correct_answer (profile_of n r b limit depth) read.now out.old) }
    ensures start_after { start.new ≡ verdict_start (correct_answer (profile_of n r b limit depth) read.now out.old) }
    ensures length_after { length.new ≡ verdict_length (correct_answer (profile_of n r b limit depth) read.now out.old) }
    ensures out_after { out.new ≡ correct_leaves (profile_of n r b limit depth) read.now out.old }
{
    let answer = block::correct(profile_of(n, r, b, limit, depth), read, out);
    *start = answer.map_or(0, Correction::start);
    *length = answer.map_or(0, Correction::length);
    usize::from(answer.number())
}

/// Looks at a block in burst mode, and writes nothing: the start and the length of the run.
#[unsafe(no_mangle)]
pub extern "C" fn tishwabe_look_block(
    n: usize,
    r: usize,
    b: usize,
    limit: usize,
    depth: usize,
    read: &[u8],
    start: &mut usize,
    length: &mut usize,
) -> usize
    ensures value { result ≡ verdict_number (look_answer (profile_of n r b limit depth) read.now) }
    ensures start_after { start.new ≡ verdict_start (look_answer (profile_of n r b limit depth) read.now) }
    ensures length_after { length.new ≡ verdict_length (look_answer (profile_of n r b limit depth) read.now) }
{
    let verdict = block::look(profile_of(n, r, b, limit, depth), read);
    *start = verdict.map_or(0, Correction::start);
    *length = verdict.map_or(0, Correction::length);
    usize::from(verdict.number())
}

/// Fills a run of a block, whatever the limit is: the codeword within that run goes to `out`.
#[unsafe(no_mangle)]
pub extern "C" fn tishwabe_fill_block(
    n: usize,
    r: usize,
    b: usize,
    limit: usize,
    depth: usize,
    read: &[u8],
    start: usize,
    length: usize,
    out: &mut [u8],
) -> usize
    ensures value { result ≡ filled_number (fill_answer (profile_of n r b limit depth) read.now start length out.old) }
    ensures out_after { out.new ≡ fill_leaves (profile_of n r b limit depth) read.now start length out.old }
{
    let answer = block::fill(profile_of(n, r, b, limit, depth), read, start, length, out);
    usize::from(answer.number())
}

/// Corrects a block in spot mode: the number of cells changed and the lowest of them.
#[unsafe(no_mangle)]
pub extern "C" fn tishwabe_correct_spots(
    n: usize,
    r: usize,
    b: usize,
    limit: usize,
    depth: usize,
    read: &[u8],
    out: &mut [u8],
    count: &mut usize,
    lowest: &mut usize,
) -> usize
    ensures value { result ≡ verdict_number (spot_answer (profile_of n r b limit depth) read.now out.old) }
    ensures count_after { count.new ≡ verdict_count (spot_answer (profile_of n r b limit depth) read.now out.old) }
    ensures lowest_after { lowest.new ≡ verdict_lowest (spot_answer (profile_of n r b limit depth) read.now out.old) }
    ensures out_after { out.new ≡ spot_leaves (profile_of n r b limit depth) read.now out.old }
{
    let answer = spots::correct(profile_of(n, r, b, limit, depth), read, out);
    *count = answer.map_or(0, Correction::count);
    *lowest = answer.map_or(0, Correction::lowest);
    usize::from(answer.number())
}

// ---- sheets

/// Writes the sheet of a payload.
#[unsafe(no_mangle)]
pub extern "C" fn tishwabe_write_sheet(
    n: usize,
    r: usize,
    b: usize,
    limit: usize,
    depth: usize,
    payload: &[u8],
    sheet: &mut [u8],
) -> usize
    ensures value { result ≡ early_number (write_sheet_answer (profile_of n r b limit depth) payload.now sheet.old) }
    ensures sheet_after { sheet.new ≡ write_sheet_leaves (profile_of n r b limit depth) payload.now sheet.old }
{
    usize::from(sheet::write(profile_of(n, r, b, limit, depth), payload, sheet).number())
}

// Reads a sheet in a mode.
fn read_sheet(
    mode: Mode,
    p: Profile,
    sheet: &[u8],
    scratch: &mut [u8],
    payload: &mut [u8],
    changed: &mut usize,
    place: &mut usize,
) -> usize
    ensures value { result ≡ reading_number (read_answer mode p sheet.now scratch.old payload.old) }
    ensures changed_after { changed.new ≡ reading_changed (read_answer mode p sheet.now scratch.old payload.old) }
    ensures place_after { place.new ≡ reading_place (read_answer mode p sheet.now scratch.old payload.old) }
    ensures scratch_after { scratch.new ≡ read_scratch mode p sheet.now scratch.old payload.old }
    ensures payload_after { payload.new ≡ read_payload mode p sheet.now scratch.old payload.old }
{
    let answer = sheet::read_in(mode, p, sheet, scratch, payload);
    *changed = answer.unwrap_or(0);
    *place = answer.place();
    usize::from(answer.number())
}

/// Reads a sheet in burst mode: the number of blocks changed, or the place of the refusal.
#[unsafe(no_mangle)]
pub extern "C" fn tishwabe_read_sheet(
    n: usize,
    r: usize,
    b: usize,
    limit: usize,
    depth: usize,
    sheet: &[u8],
    scratch: &mut [u8],
    payload: &mut [u8],
    changed: &mut usize,
    place: &mut usize,
) -> usize
    ensures value { result ≡ reading_number (read_answer Burst (profile_of n r b limit depth) sheet.now scratch.old payload.old) }
    ensures changed_after { changed.new ≡ reading_changed (read_answer Burst (profile_of n r b limit depth) sheet.now scratch.old payload.old) }
    ensures place_after { place.new ≡ reading_place (read_answer Burst (profile_of n r b limit depth) sheet.now scratch.old payload.old) }
    ensures scratch_after { scratch.new ≡ read_scratch Burst (profile_of n r b limit depth) sheet.now scratch.old payload.old }
    ensures payload_after { payload.new ≡ read_payload Burst (profile_of n r b limit depth) sheet.now scratch.old payload.old }
{
    read_sheet(
        Mode::Burst,
        profile_of(n, r, b, limit, depth),
        sheet,
        scratch,
        payload,
        changed,
        place,
    )
}

/// Reads a sheet in spot mode: the number of blocks changed, or the place of the refusal.
#[unsafe(no_mangle)]
pub extern "C" fn tishwabe_read_sheet_spots(
    n: usize,
    r: usize,
    b: usize,
    limit: usize,
    depth: usize,
    sheet: &[u8],
    scratch: &mut [u8],
    payload: &mut [u8],
    changed: &mut usize,
    place: &mut usize,
) -> usize
    ensures value { result ≡ reading_number (read_answer Spots (profile_of n r b limit depth) sheet.now scratch.old payload.old) }
    ensures changed_after { changed.new ≡ reading_changed (read_answer Spots (profile_of n r b limit depth) sheet.now scratch.old payload.old) }
    ensures place_after { place.new ≡ reading_place (read_answer Spots (profile_of n r b limit depth) sheet.now scratch.old payload.old) }
    ensures scratch_after { scratch.new ≡ read_scratch Spots (profile_of n r b limit depth) sheet.now scratch.old payload.old }
    ensures payload_after { payload.new ≡ read_payload Spots (profile_of n r b limit depth) sheet.now scratch.old payload.old }
{
    read_sheet(
        Mode::Spots,
        profile_of(n, r, b, limit, depth),
        sheet,
        scratch,
        payload,
        changed,
        place,
    )
}

// ---- plots

/// Checks a payload: the byte after the last record, or the place of the refusal; and the figure and the index of the line at fault.
#[unsafe(no_mangle)]
pub extern "C" fn tishwabe_check_payload(
    payload: &[u8],
    place: &mut usize,
    figure: &mut usize,
    line: &mut usize,
) -> usize
    ensures value { result ≡ payload_number (checked payload.now) }
    ensures place_after { let a = checked payload.now in place.new ≡ value_or_place (payload_number a) (payload_end a) (payload_place a) }
    ensures figure_after { figure.new ≡ payload_figure (checked payload.now) }
    ensures line_after { line.new ≡ payload_index (checked payload.now) }
{
    let answer = plot::check(payload);
    *place = answer.map_or_else(|refusal| refusal.place(), |end| end.at);
    *figure = usize::from(answer.figure());
    *line = answer.index();
    usize::from(answer.number())
}

/// Asks for a plot: the record's first byte, or the place of the refusal, and the record's length; and the figure and the index of the line at fault.
#[unsafe(no_mangle)]
pub extern "C" fn tishwabe_ask(
    payload: &[u8],
    plot: u16,
    place: &mut usize,
    length: &mut usize,
    figure: &mut usize,
    line: &mut usize,
) -> usize
    ensures value { result ≡ located_number (located plot payload.now) }
    ensures place_after { let a = located plot payload.now in place.new ≡ value_or_place (located_number a) (located_start a) (located_place a) }
    ensures length_after { length.new ≡ located_length (located plot payload.now) }
    ensures figure_after { figure.new ≡ located_figure (located plot payload.now) }
    ensures line_after { line.new ≡ located_index (located plot payload.now) }
{
    let found = plot::locate(payload, plot);
    *place = found.map_or_else(|refusal| refusal.place(), |record| record.start);
    *length = found.map_or(0, |record| record.length);
    *figure = usize::from(found.figure());
    *line = found.index();
    usize::from(found.number())
}

/// Adds a plot: the record's first byte, or the place of the refusal; and the figure and the index of the line at fault.
#[unsafe(no_mangle)]
pub extern "C" fn tishwabe_add(
    payload: &mut [u8],
    plot: u16,
    lines: &[u8],
    place: &mut usize,
    figure: &mut usize,
    line: &mut usize,
) -> usize
    ensures value { result ≡ added_number (added (record { number = plot; lines = lines.now }) payload.old) }
    ensures place_after { let a = added (record { number = plot; lines = lines.now }) payload.old in place.new ≡ value_or_place (added_number a) (added_start a) (added_place a) }
    ensures figure_after { figure.new ≡ added_figure (added (record { number = plot; lines = lines.now }) payload.old) }
    ensures line_after { line.new ≡ added_index (added (record { number = plot; lines = lines.now }) payload.old) }
    ensures payload_after { payload.new ≡ payload_with (record { number = plot; lines = lines.now }) payload.old }
{
    let answer = plot::add(payload, plot, lines);
    *place = answer.unwrap_or_else(|refusal| refusal.place());
    *figure = usize::from(answer.figure());
    *line = answer.index();
    usize::from(answer.number())
}

/// The lister's text for a payload, as far as `text` goes: the number of bytes written.
#[unsafe(no_mangle)]
pub extern "C" fn tishwabe_list(payload: &[u8], changed: usize, text: &mut [u8]) -> usize
    ensures value { result ≡ text_length (listing_text changed (reading payload.now)) text.old }
    ensures text_after { text.new ≡ text_in (listing_text changed (reading payload.now)) text.old }
{
    listing_text::write_listing(payload, changed, text)
}

/// The lister's text for a refusal, as far as `text` goes: the number of bytes written.
#[unsafe(no_mangle)]
pub extern "C" fn tishwabe_list_refusal(number: u8, place: usize, text: &mut [u8]) -> usize
    ensures value { result ≡ text_length (refusal_text number place) text.old }
    ensures text_after { text.new ≡ text_in (refusal_text number place) text.old }
{
    listing_text::write_refusal(number, place, text)
}

/// The lister's text for the bytes of its standard input, as far as `text` goes: the number of bytes written.
#[unsafe(no_mangle)]
pub extern "C" fn tishwabe_list_input(input: &[u8], text: &mut [u8]) -> usize
    ensures value { result ≡ text_length (listed input.now) text.old }
    ensures text_after { text.new ≡ text_in (listed input.now) text.old }
{
    listing::list(input, text)
}
