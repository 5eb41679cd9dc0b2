// The plot records in a payload: a cursor that moves on one record at a time, the check of a whole payload, asking for a plot and adding one.
// Each answer is an equation with one reading of the payload (specs/Grammar.antt).

#![tactic(auto)]

mod layout;
mod numbers;
mod tally;

ghost use Rattle.std.specs.Prelude.{◌≡◌, ◌+◌, ◌≤◌, drop};
ghost use Rattle.plot.specs.Grammar.{step_at, record_at, reading, Readable};
ghost use Rattle.plot.specs.Answers.{checked, located, asked, room_for, added, payload_with};
ghost use Rattle.plot.specs.Numbers.{located_start};
ghost use Rattle.plot.specs.NewPlot.{new_plot};

use layout::{HEADER, NewPlot, all_zero, head, put_record};
pub use numbers::LineAtFault;
use tally::{NO_LINE, check_line, check_lines};

/// The longest payload, in bytes.
pub const LONGEST: usize = 4048;

/// Document 01's "place in the payload", with the number of the last plot before it (0 if there is none).
#[derive(Clone, Copy, Debug, PartialEq, Eq)]
pub struct Cursor {
    pub at: usize,
    pub last: u16,
}

/// A tally line: its species number, its diameter class in centimetres and its tree count.
#[derive(Clone, Copy, Debug, PartialEq, Eq)]
pub struct Line {
    pub species: u8,
    pub class: u8,
    pub count: u8,
}

/// What fails first in a line: a value out of its range, or the rise above the line before.
#[derive(Clone, Copy, Debug, PartialEq, Eq)]
pub enum LineFault {
    Species,
    Class,
    Count,
    Order,
}

/// The first line of a record that fails: what fails first in it, and its index from 0.
#[derive(Clone, Copy, Debug, PartialEq, Eq)]
pub struct BadLine {
    pub fault: LineFault,
    pub index: usize,
}

/// A refusal. Document 01 calls them wrong frame, bad mark, cut short, bad tally, plot order, no such plot and full; each has its place, but for
/// wrong frame and no such plot, whose place is 0. A bad tally has the line at fault, or `None` where the fault is outside a line.
#[derive(Clone, Copy, Debug, PartialEq, Eq)]
pub enum Refusal {
    WrongLength,
    BadMark(usize),
    CutShort(usize),
    BadTally { place: usize, line: Option<BadLine> },
    PlotOrder(usize),
    NoSuchPlot,
    Full(usize),
}

/// A record whose checks before the lines hold: the place and the number of its lines, and the cursor after it, which has its plot number.
#[derive(Clone, Copy, Debug, PartialEq, Eq)]
pub struct Record {
    pub lines: usize,
    pub count: usize,
    pub next: Cursor,
}

/// Where a record lies in the payload: its first byte and its length.
#[derive(Clone, Copy, Debug, PartialEq, Eq)]
pub struct Place {
    pub start: usize,
    pub length: usize,
}

impl Cursor {
    /// Moves on one record: the one that stands at this place, or `None` where zero bytes go to the end.
    pub fn next(self, payload: &[u8]) -> Result<Option<Record>, Refusal>
        ensures { result ≡ step_at self.at (drop self.at payload.now) }
    {
        let at = self.at;
        if payload.len() <= at {
            return Ok(None);
        }
        if payload[at] != 0 {
            return head(&payload[at..], at);
        }
        if all_zero(&payload[at..]) {
            return Ok(None);
        }
        Err(Refusal::BadMark(at))
    }

    /// Moves on one record with every check of it made, its lines and its number too.
    pub fn next_checked(self, payload: &[u8]) -> Result<Option<Record>, Refusal>
        ensures { result ≡ record_at self.at self.last (drop self.at payload.now) }
    {
        let Some(found) = self.next(payload)? else {
            return Ok(None);
        };
        if let Err(bad) = check_lines(&payload[found.lines..found.next.at]) {
            return Err(Refusal::BadTally {
                place: self.at,
                line: Some(bad),
            });
        }
        if found.next.last <= self.last {
            return Err(Refusal::PlotOrder(self.at));
        }
        Ok(Some(found))
    }
}

/// Checks a whole payload, and gives the place after its last record: records outside, lines inside; the first failing check of the first failing
/// record leaves both.
pub fn check(payload: &[u8]) -> Result<Cursor, Refusal>
    ensures { result ≡ checked payload.now }
{
    if LONGEST < payload.len() {
        return Err(Refusal::WrongLength);
    }
    let mut c = Cursor { at: 0, last: 0 };
    let refusal = 'records: loop {
        let Some(found) = c.next(payload)? else {
            return Ok(c);
        };
        let mut before = NO_LINE;
        let lines = &payload[found.lines..found.next.at];
        for (index, bytes) in lines.chunks_exact(3).enumerate() {
            let line = Line::from_bytes(bytes);
            if let Err(fault) = check_line(before, line) {
                break 'records Refusal::BadTally {
                    place: c.at,
                    line: Some(BadLine { fault, index }),
                };
            }
            before = line;
        }
        if found.next.last <= c.last {
            break 'records Refusal::PlotOrder(c.at);
        }
        c = found.next;
    };
    Err(refusal)
}

// The record of `plot` in an accepted payload.
fn search(payload: &[u8], plot: u16) -> Result<Place, Refusal>
    requires { Readable (reading payload.now) }
    ensures { result ≡ located plot payload.now }
{
    let mut c = Cursor { at: 0, last: 0 };
    while let Some(found) = c.next(payload)? {
        if found.next.last == plot {
            return Ok(Place {
                start: c.at,
                length: found.next.at - c.at,
            });
        }
        c = found.next;
    }
    Err(Refusal::NoSuchPlot)
}

/// The companion entry of asking for a plot: where its record lies, or why there is none.
pub fn locate(payload: &[u8], plot: u16) -> Result<Place, Refusal>
    ensures { result ≡ located plot payload.now }
{
    check(payload)?;
    search(payload, plot)
}

/// Asks for a plot: its record, mark to last line, as a part of the payload and not as a copy; empty after a refusal.
pub fn ask<'a>(payload: &'a [u8], plot: u16) -> &'a [u8]
    ensures result_value { result.now ≡ asked plot payload.now }
    ensures ref_ptr_value { (result.ref_ptr.0 ≡ payload.entry.ref_ptr.0) × (result.ref_ptr.1 ≡ payload.entry.ref_ptr.1 + located_start (located plot payload.now)) }
{
    match locate(payload, plot) {
        Ok(place) => &payload[place.start..place.start + place.length],
        Err(_) => &payload[..0],
    }
}

// Where a plot would be added to an accepted payload of `size` bytes, c being the cursor after its last record; or why it is not.
fn room(size: usize, c: Cursor, plot: NewPlot) -> Result<usize, Refusal>
    requires { c.at ≤ size }
    ensures { result ≡ room_for size c.at c.last (new_plot plot.entry) }
{
    let at = c.at;
    let lines = plot.lines;
    // A bad tally outside a line.
    let outside = Refusal::BadTally {
        place: at,
        line: None,
    };
    if 120 < lines.len() {
        return Err(outside);
    }
    if lines.len() % 3 != 0 {
        return Err(outside);
    }
    if plot.number == 0 {
        return Err(outside);
    }
    if let Err(bad) = check_lines(lines) {
        return Err(Refusal::BadTally {
            place: at,
            line: Some(bad),
        });
    }
    if plot.number <= c.last {
        return Err(Refusal::PlotOrder(at));
    }
    if size - at < HEADER + lines.len() {
        return Err(Refusal::Full(at));
    }
    Ok(at)
}

// Where a plot would be added, or why it is not.
fn place_for(payload: &[u8], plot: NewPlot) -> Result<usize, Refusal>
    ensures { result ≡ added (new_plot plot.entry) payload.now }
{
    let c = check(payload)?;
    room(payload.len(), c, plot)
}

/// Adds a plot: writes its record right after the last record, and gives its first byte. After a refusal the payload is as it was.
pub fn add(payload: &mut [u8], plot: u16, lines: &[u8]) -> Result<usize, Refusal>
    ensures value { result ≡ added (record { number = plot; lines = lines.now }) payload.old }
    ensures payload_after { payload.new ≡ payload_with (record { number = plot; lines = lines.now }) payload.old }
{
    let new = NewPlot {
        number: plot,
        lines,
    };
    let start = place_for(payload, new)?;
    let end = start + (HEADER + lines.len());
    put_record(&mut payload[start..end], new);
    Ok(start)
}
