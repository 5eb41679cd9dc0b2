// Runs the library on the vectors of standard input and prints one line of numbers for each. The files stdin and stdout were made by
// rust/second, which shares no code with the library: `vectors library --bytes` and `vectors library --answers`;
// rust/second/src/bin/vectors/main.rs says what a vector is. It begins with a byte for the operation (0 correct, 1 write, 2 check a block;
// 3 write, 4 read a sheet; 5 check a payload, 6 ask it for a plot, 7 add a plot to it; 8 correct a block and 9 read a sheet in spot mode; 10 look at a
// block, 11 fill a run of it; 12 begin a stand table, add payloads to a state of one, and ask for its total and its trees per plot; 13 list the codewords
// of a block); a word is two bytes, the low one first. Of 5, 6, 7 and each payload of 12 figure and line follow the other numbers, 0 and 0 where no line is at fault.

#![tactic(auto)]

ghost use Rattle.std.specs.Prelude.{◌≤◌, length, IfOk};

use answers::Numbered;
use block::{Correction, Verdict};
use plot::LineAtFault;
use profile::Profile;
use sheet::Mode;
use std::io;
use std::io::{Input, Read};
use tables::stand_table;

mod tables;

// ---- reading

// Reads until the buffer is full or the input ends: how many bytes were put at its start. Not by `bytes`, which asks the system for each byte by itself.
fn read_full(rt: &impl Input, buf: &mut [u8]) -> io::Result<usize>
    ensures { IfOk result (λ n. n ≤ length buf.new) }
{
    let mut input = rt.reader();
    let mut done = 0;
    while done < buf.len() {
        let n = input.read(&mut buf[done..])?;
        if n == 0 {
            break;
        }
        done += n;
    }
    Ok(done)
}

// The next byte, if the input has not ended.
pub(crate) fn next_byte(rt: &impl Input) -> io::Result<Option<u8>> {
    rt.reader().bytes().next().transpose()
}

// Numbers of two, four and eight bytes, the low one first, with zeros past the end of the input. They are three functions and not one with a const parameter,
// which tools/no-tables takes for a table.

pub(crate) fn word(rt: &impl Input) -> io::Result<u16> {
    let mut bytes = [0u8; 2];
    read_full(rt, &mut bytes)?;
    Ok(u16::from_le_bytes(bytes))
}

pub(crate) fn count(rt: &impl Input) -> io::Result<u32> {
    let mut bytes = [0u8; 4];
    read_full(rt, &mut bytes)?;
    Ok(u32::from_le_bytes(bytes))
}

fn long(rt: &impl Input) -> io::Result<usize> {
    let mut bytes = [0u8; 8];
    read_full(rt, &mut bytes)?;
    Ok(usize::from_le_bytes(bytes))
}

fn profile(rt: &impl Input) -> io::Result<Profile> {
    let n = usize::from(word(rt)?);
    let r = usize::from(word(rt)?);
    let b = usize::from(word(rt)?);
    let limit = usize::from(word(rt)?);
    let depth = usize::from(word(rt)?);
    Ok(Profile {
        n,
        r,
        b,
        limit,
        depth,
    })
}

// As much of the space as the next word says, at most all of it.
fn part<'a>(rt: &impl Input, space: &'a mut [u8]) -> io::Result<&'a mut [u8]> {
    let n = usize::from(word(rt)?).min(space.len());
    Ok(&mut space[..n])
}

// The next buffer, its length and then its bytes, read into the space.
pub(crate) fn buffer<'a>(rt: &impl Input, space: &'a mut [u8]) -> io::Result<&'a mut [u8]> {
    let lent = part(rt, space)?;
    read_full(rt, lent)?;
    Ok(lent)
}

// ---- printing

fn cells(rt: &impl Print, s: &[u8]) -> io::Result<()> {
    for x in s {
        print!(rt; " {x}")?;
    }
    Ok(())
}

// The number of an answer in burst mode, and its run.
fn run(rt: &impl Print, answer: Verdict) -> io::Result<()> {
    let start = answer.map_or(0, Correction::start);
    let length = answer.map_or(0, Correction::length);
    print!(rt; "{} {start} {length}", answer.number())
}

// Figure and index of the line at fault.
pub(crate) fn fault(rt: &impl Print, answer: &impl LineAtFault) -> io::Result<()> {
    print!(rt; " {} {}", answer.figure(), answer.index())
}

// ---- blocks; the second buffer has as many bytes as the stream says, each 170

fn correct(rt: &(impl Input + Print), p: Profile) -> io::Result<()> {
    let mut space = [0u8; 4096];
    let read = buffer(rt, &mut space)?;
    let mut second = [170u8; 512];
    let out = part(rt, &mut second)?;
    run(rt, block::correct(p, read, out))?;
    cells(rt, out)
}

fn look(rt: &(impl Input + Print), p: Profile) -> io::Result<()> {
    let mut space = [0u8; 4096];
    let read = buffer(rt, &mut space)?;
    run(rt, block::look(p, read))
}

fn fill(rt: &(impl Input + Print), p: Profile) -> io::Result<()> {
    let mut space = [0u8; 4096];
    let read = buffer(rt, &mut space)?;
    let start = long(rt)?;
    let length = long(rt)?;
    let mut second = [170u8; 512];
    let out = part(rt, &mut second)?;
    print!(rt; "{}", block::fill(p, read, start, length, out).number())?;
    cells(rt, out)
}

fn list(rt: &(impl Input + Print), p: Profile) -> io::Result<()> {
    let mut space = [0u8; 4096];
    let read = buffer(rt, &mut space)?;
    let mut second = [170u8; 512];
    let pairs = part(rt, &mut second)?;
    let answer = candidates::list(p, read, pairs);
    print!(rt; "{} {}", answer.number(), answer.unwrap_or(0))?;
    cells(rt, pairs)
}

fn correct_spots(rt: &(impl Input + Print), p: Profile) -> io::Result<()> {
    let mut space = [0u8; 4096];
    let read = buffer(rt, &mut space)?;
    let mut second = [170u8; 512];
    let out = part(rt, &mut second)?;
    let answer = spots::correct(p, read, out);
    let changed = answer.map_or(0, Correction::count);
    let lowest = answer.map_or(0, Correction::lowest);
    print!(rt; "{} {changed} {lowest}", answer.number())?;
    cells(rt, out)
}

fn write(rt: &(impl Input + Print), p: Profile) -> io::Result<()> {
    let mut space = [0u8; 4096];
    let message = buffer(rt, &mut space)?;
    let mut second = [170u8; 512];
    let out = part(rt, &mut second)?;
    print!(rt; "{}", block::write(p, message, out).number())?;
    cells(rt, out)
}

fn check(rt: &(impl Input + Print), p: Profile) -> io::Result<()> {
    let mut space = [0u8; 4096];
    let read = buffer(rt, &mut space)?;
    let answer = block::check(p, read);
    print!(rt; "{} {}", answer.number(), answer.map_or(0, u8::from))
}

// ---- sheets

fn write_sheet(rt: &(impl Input + Print), p: Profile) -> io::Result<()> {
    let mut first_space = [0u8; 4096];
    let payload = buffer(rt, &mut first_space)?;
    let mut second_space = [0u8; 4096];
    let sheet = buffer(rt, &mut second_space)?;
    let answer = sheet::write(p, payload, sheet);
    print!(rt; "{} {}", answer.number(), answer.place())?;
    cells(rt, sheet)
}

fn read_sheet(rt: &(impl Input + Print), m: Mode, p: Profile) -> io::Result<()> {
    let mut first_space = [0u8; 4096];
    let sheet = buffer(rt, &mut first_space)?;
    let mut second_space = [0u8; 4096];
    let scratch = buffer(rt, &mut second_space)?;
    let mut third_space = [0u8; 4096];
    let payload = buffer(rt, &mut third_space)?;
    let answer = sheet::read_in(m, p, sheet, scratch, payload);
    let place = answer.unwrap_or_else(|refusal| refusal.place());
    print!(rt; "{} {place}", answer.number())?;
    cells(rt, scratch)?;
    cells(rt, payload)
}

// ---- payloads

fn check_payload(rt: &(impl Input + Print)) -> io::Result<()> {
    let mut space = [0u8; 4096];
    let payload = buffer(rt, &mut space)?;
    let answer = plot::check(payload);
    let place = answer.map_or_else(|refusal| refusal.place(), |end| end.at);
    print!(rt; "{} {place}", answer.number())?;
    fault(rt, &answer)
}

fn ask(rt: &(impl Input + Print)) -> io::Result<()> {
    let mut space = [0u8; 4096];
    let payload = buffer(rt, &mut space)?;
    let plot = word(rt)?;
    let answer = plot::locate(payload, plot);
    let place = answer.map_or_else(|refusal| refusal.place(), |record| record.start);
    let length = answer.map_or(0, |record| record.length);
    print!(rt; "{} {place} {length}", answer.number())?;
    fault(rt, &answer)?;
    cells(rt, plot::ask(payload, plot))
}

fn add(rt: &(impl Input + Print)) -> io::Result<()> {
    let mut first_space = [0u8; 4096];
    let payload = buffer(rt, &mut first_space)?;
    let plot = word(rt)?;
    let mut second_space = [0u8; 4096];
    let lines = buffer(rt, &mut second_space)?;
    let answer = plot::add(payload, plot, lines);
    let place = answer.unwrap_or_else(|refusal| refusal.place());
    print!(rt; "{} {place}", answer.number())?;
    fault(rt, &answer)?;
    cells(rt, payload)
}

// A vector after its first byte. The bytes are matched as they are: an enum of the operations would list all of them twice more.
fn vector(rt: &(impl Input + Print), o: u8) -> io::Result<()> {
    match o {
        0 => correct(rt, profile(rt)?)?,
        1 => write(rt, profile(rt)?)?,
        2 => check(rt, profile(rt)?)?,
        3 => write_sheet(rt, profile(rt)?)?,
        4 => read_sheet(rt, Mode::Burst, profile(rt)?)?,
        5 => check_payload(rt)?,
        6 => ask(rt)?,
        7 => add(rt)?,
        8 => correct_spots(rt, profile(rt)?)?,
        9 => read_sheet(rt, Mode::Spots, profile(rt)?)?,
        10 => look(rt, profile(rt)?)?,
        11 => fill(rt, profile(rt)?)?,
        13 => list(rt, profile(rt)?)?,
        _ => stand_table(rt)?,
    }
    rt.write_all(b"\n")
}

// At most 2,000 vectors, so that it ends; the byte 255 ends them too.
fn main(rt: HostRuntime) -> io::Result<()> {
    for _ in 0..2000 {
        match next_byte(&rt)? {
            None | Some(255) => break,
            Some(o) => vector(&rt, o)?,
        }
    }
    Ok(())
}
