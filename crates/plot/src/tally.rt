// Tally lines: the check of one line after the line before it, which says what fails first, and the check of lines in turn.
// Each meets its definition of specs/Layout.antt.
ghost use Rattle.std.specs.Prelude.{◌≡◌, ◌≤◌, ◌/◌, length, get_or};
ghost use Rattle.plot.specs.Layout.{within, rises, line_of, line_check, lines_check, no_line};

use crate::{BadLine, Line, LineFault};

// Before the first line stands this one, above which every line in its ranges rises.
pub(crate) const NO_LINE: Line = Line {
    species: 0,
    class: 0,
    count: 0,
};

// Byte i, or 0 where there is none.
fn byte_at(bytes: &[u8], i: usize) -> u8
    ensures { result ≡ get_or bytes.now i 0 }
{
    if i < bytes.len() { bytes[i] } else { 0 }
}

impl Line {
    /// The line at the front of `bytes`; a byte that is not there counts as 0.
    pub fn from_bytes(bytes: &[u8]) -> Line
        ensures { result ≡ line_of bytes.now }
    {
        Line {
            species: byte_at(bytes, 0),
            class: byte_at(bytes, 1),
            count: byte_at(bytes, 2),
        }
    }

    // By species, then class. Two tests, and not one of the pairs, which has no branch to foresee and makes `check` slower by half.
    fn rises_above(self, before: Line) -> bool
        ensures { result ≡ rises before self }
    {
        if before.species < self.species {
            return true;
        }
        if before.species != self.species {
            return false;
        }
        before.class < self.class
    }
}

// The check of one line after the line before it.
pub(crate) fn check_line(before: Line, line: Line) -> Result<(), LineFault>
    ensures { result ≡ line_check before line }
{
    if !(1..=99).contains(&line.species) {
        return Err(LineFault::Species);
    }
    if !(1..=200).contains(&line.class) {
        return Err(LineFault::Class);
    }
    if !(1..=255).contains(&line.count) {
        return Err(LineFault::Count);
    }
    if !line.rises_above(before) {
        return Err(LineFault::Order);
    }
    Ok(())
}

// Lines on their own, in turn.
pub(crate) fn check_lines(lines: &[u8]) -> Result<(), BadLine>
    ensures { result ≡ lines_check no_line 0 (length lines.now / 3) lines.now }
{
    let mut before = NO_LINE;
    for (index, bytes) in lines.chunks_exact(3).enumerate() {
        let line = Line::from_bytes(bytes);
        if let Err(fault) = check_line(before, line) {
            return Err(BadLine { fault, index });
        }
        before = line;
    }
    Ok(())
}
