// The bytes of one record, read and written: mark, plot number, number of lines, then the lines. A later edition of the record changes this file.
// Each function meets its part of specs/Layout.antt and specs/Grammar.antt.
ghost use Rattle.std.specs.Prelude.{◌≡◌, ◌+◌, ◌≤◌, ◌<◌, ◌^◌, length};
ghost use Rattle.plot.specs.Layout.{mark, header_length, header_of, record_of};
ghost use Rattle.plot.specs.NewPlot.{new_plot};
ghost use Rattle.plot.specs.Grammar.{all_zero, agree, head_at};

use crate::{Cursor, Record, Refusal};

// The mark before each record: compared by the reader, written by `add`.
const MARK: [u8; 2] = [0x50, 0x4C];
// Mark, plot number and number of lines.
pub(crate) const HEADER: usize = 5;

const MOST_LINES: usize = 40;

// A plot to be added: its number and the bytes of its lines.
#[derive(Clone, Copy)]
pub(crate) struct NewPlot<'a> {
    pub number: u16,
    pub lines: &'a [u8],
}

pub(crate) fn all_zero(s: &[u8]) -> bool
    ensures { result ≡ all_zero s.now }
{
    s.iter().all(|b| *b == 0)
}

// As much of the mark as s holds.
fn has_mark(s: &[u8]) -> bool
    ensures { result ≡ agree mark s.now }
{
    s.iter().zip(MARK.iter()).all(|(b, m)| *b == *m)
}

// The record at the front of s, which stands at `at` in the payload: its checks before the lines.
pub(crate) fn head(s: &[u8], at: usize) -> Result<Option<Record>, Refusal>
    requires { at + length s.now < 2 ^ 64 }
    ensures { result ≡ head_at at s.now }
{
    // A bad tally outside a line.
    let outside = Refusal::BadTally {
        place: at,
        line: None,
    };
    if !has_mark(s) {
        return Err(Refusal::BadMark(at));
    }
    if s.len() < HEADER {
        return Err(Refusal::CutShort(at));
    }
    let count = usize::from(s[4]);
    if MOST_LINES < count {
        return Err(outside);
    }
    if s.len() < HEADER + count * 3 {
        return Err(Refusal::CutShort(at));
    }
    let plot = u16::from_le_bytes([s[2], s[3]]);
    if plot == 0 {
        return Err(outside);
    }
    Ok(Some(Record {
        lines: at + HEADER,
        count,
        next: Cursor {
            at: at + (HEADER + count * 3),
            last: plot,
        },
    }))
}

// Mark, plot number, low byte first, and number of lines.
fn header(plot: u16, count: u8) -> [u8; HEADER]
    ensures { result ≡ header_of plot count }
{
    let [low, high] = plot.to_le_bytes();
    [MARK[0], MARK[1], low, high, count]
}

pub(crate) fn put_record(s: &mut [u8], plot: NewPlot)
    requires s_len { length s.old ≡ header_length + length plot.lines.now }
    requires lines_len_bound { length plot.lines.now ≤ 120 }
    ensures { s.new ≡ record_of (new_plot plot.entry) }
{
    let count = (plot.lines.len() / 3) as u8;
    s[..HEADER].copy_from_slice(&header(plot.number, count));
    s[HEADER..].copy_from_slice(plot.lines);
}
