// Writes and reads the sheets of document 01 and prints what comes out, in decimal. The file stdout has the expected lines: the cells,
// the payload and the numbers are those of document 01, "The plot lister" and "Bench sheet of examples". The last three are read in spot mode; the scratch of D × n bytes is document 02's, Note 6.

#![tactic(auto)]

use answers::Numbered;
use profile::Profile;
use sheet::{Mode, Refusal};
use std::io;

fn print_bytes(rt: &impl Print, bytes: &[u8]) -> io::Result<()> {
    for x in bytes {
        print!(rt; " {x}")?;
    }
    rt.write_all(b"\n")
}

fn print_answer(rt: &impl Print, reading: Result<usize, Refusal>) -> io::Result<()> {
    match reading {
        Ok(changed) => println!(rt; "changed {changed}"),
        Err(refusal) => println!(rt; "refused {} {}", refusal.number(), refusal.place()),
    }
}

// The answer, and what stands in both buffers afterwards.
fn print_reading(
    rt: &impl Print,
    reading: Result<usize, Refusal>,
    payload: &[u8],
    scratch: &[u8],
) -> io::Result<()> {
    print_answer(rt, reading)?;
    rt.write_all(b"payload")?;
    print_bytes(rt, payload)?;
    rt.write_all(b"scratch")?;
    print_bytes(rt, scratch)
}

// Two blocks of four cells, of which three are check cells.
const SMALL: Profile = Profile {
    n: 4,
    r: 3,
    b: 0,
    limit: 0,
    depth: 2,
};

// Payload 1 0 as two blocks of four cells.
fn write_small(rt: &impl Print) -> io::Result<()> {
    let mut cells = [0u8; 8];
    let written = sheet::write(SMALL, &[1, 0], &mut cells);
    print!(rt; "written {}:", written.number())?;
    print_bytes(rt, &cells)
}

// Eight blocks of three cells.
fn read_worked(rt: &impl Print, cells: &[u8], limit: usize) -> io::Result<()> {
    let p = Profile {
        n: 3,
        r: 2,
        b: 0,
        limit,
        depth: 8,
    };
    let mut scratch = [9u8; 3];
    let mut payload = [9u8; 8];
    let reading = sheet::read(p, cells, &mut scratch, &mut payload);
    print_reading(rt, reading, &payload, &scratch)
}

// Two blocks of four cells, with a scratch that may be too long.
fn read_small(
    rt: &impl Print,
    mode: Mode,
    cells: &[u8],
    limit: usize,
    scratch: &mut [u8],
) -> io::Result<()> {
    let p = Profile { limit, ..SMALL };
    let mut payload = [9u8; 2];
    let reading = sheet::read_in(mode, p, cells, scratch, &mut payload);
    print_reading(rt, reading, &payload, scratch)
}

// The first of them alone: too short a sheet for two blocks.
fn read_short(rt: &impl Print) -> io::Result<()> {
    read_small(rt, Mode::Burst, &[8, 14, 7, 1], 0, &mut [9u8; 4])
}

// A clean sheet of two blocks, with a scratch of D × n bytes, where n are due.
fn read_with_long_scratch(rt: &impl Print, mode: Mode) -> io::Result<()> {
    read_small(rt, mode, &[8, 0, 14, 0, 7, 0, 1, 0], 0, &mut [9u8; 8])
}

// 8 14 7 1, and 8 14 0 0, which is refused.
fn refused_cells() -> [u8; 8] {
    [8, 8, 14, 14, 7, 0, 1, 0]
}

fn read_burst(rt: &impl Print) -> io::Result<()> {
    // The sheet of document 01, "The plot lister"; then the same with its first eight cells lost.
    read_worked(
        rt,
        b"\xa0\x98\x0e\x00\x02\x06\x40\x04\xf0\xd4\x09\x00\x03\x05\x60\x06\x50\x4c\x07\x00\x01\x03\x20\x02",
        1,
    )?;
    read_worked(
        rt,
        b"\x00\x00\x00\x00\x00\x00\x00\x00\xf0\xd4\x09\x00\x03\x05\x60\x06\x50\x4c\x07\x00\x01\x03\x20\x02",
        1,
    )?;
    read_small(rt, Mode::Burst, &refused_cells(), 1, &mut [9u8; 4])?;
    read_small(rt, Mode::Burst, &refused_cells(), 2, &mut [9u8; 4])?;
    read_small(rt, Mode::Burst, &refused_cells(), 3, &mut [9u8; 4])?;
    read_short(rt)?;
    read_with_long_scratch(rt, Mode::Burst)
}

fn read_spots(rt: &impl Print) -> io::Result<()> {
    // 8 14 7 1 and 0 0 0 0, with one cell of each changed.
    read_small(
        rt,
        Mode::Spots,
        &[9, 0, 14, 0, 7, 0, 1, 5],
        0,
        &mut [9u8; 4],
    )?;
    read_small(rt, Mode::Spots, &refused_cells(), 2, &mut [9u8; 4])?;
    read_with_long_scratch(rt, Mode::Spots)
}

fn main(rt: HostRuntime) -> io::Result<()> {
    write_small(&rt)?;
    read_burst(&rt)?;
    read_spots(&rt)
}
