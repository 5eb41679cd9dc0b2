// Document 01's example of a plot record and of a full payload, and one payload for each refusal, with the texts that the lister prints for them, and
// the figure and the line of each refusal. What is printed is held to the file stdout.

#![tactic(auto)]

use answers::Numbered;
use plot::{LineAtFault, Refusal};
use std::io;

// The text for a payload, printed.
fn list(rt: &impl Print, payload: &[u8]) -> io::Result<()> {
    let mut out = [0u8; 256];
    let n = listing_text::write_listing(payload, 0, &mut out);
    rt.write_all(&out[..n])
}

// Document 02's two numbers beside a refusal.
fn figure(rt: &impl Print, r: Refusal) -> io::Result<()> {
    println!(rt; "figure {}, line {}", r.figure(), r.index())
}

fn refuse(rt: &impl Print, r: Refusal) -> io::Result<()> {
    let mut out = [0u8; 64];
    let n = listing_text::write_refusal(r.number(), r.place(), &mut out);
    rt.write_all(&out[..n])?;
    figure(rt, r)
}

// The text for a payload, and why it is refused.
fn check(rt: &impl Print, payload: &[u8]) -> io::Result<()> {
    list(rt, payload)?;
    match plot::check(payload) {
        Ok(_) => Ok(()),
        Err(r) => figure(rt, r),
    }
}

// A plot is added, and the payload listed; or the refusal.
fn add(rt: &impl Print, payload: &mut [u8], plot: u16, lines: &[u8]) -> io::Result<()> {
    match plot::add(payload, plot, lines) {
        Ok(_) => list(rt, payload),
        Err(r) => refuse(rt, r),
    }
}

// The record of a plot, listed on its own; or the refusal.
fn ask(rt: &impl Print, payload: &[u8], plot: u16) -> io::Result<()> {
    match plot::locate(payload, plot) {
        Ok(_) => list(rt, plot::ask(payload, plot)),
        Err(r) => refuse(rt, r),
    }
}

fn examples(rt: &impl Print) -> io::Result<()> {
    let mut eight = [0u8; 8];
    add(rt, &mut eight, 7, b"\x03\x20\x02")?;
    let mut seven = [0u8; 7];
    add(rt, &mut seven, 7, b"\x03\x20\x02")?;
    let mut two = [0u8; 40];
    add(rt, &mut two, 7, b"\x03\x20\x02\x03\x21\x01")?;
    add(rt, &mut two, 300, b"\x01\x64\xff")?;
    add(rt, &mut two, 300, b"\x01\x64\xff")?;
    add(rt, &mut two, 301, b"\x01\x64\xff\x01\x64\xff")?;
    add(rt, &mut two, 0, b"")?;
    ask(rt, &two, 300)?;
    ask(rt, &two, 8)
}

fn refusals(rt: &impl Print) -> io::Result<()> {
    check(rt, b"\x50")?;
    check(rt, b"\x51")?;
    check(rt, b"\x50\x4d")?;
    check(rt, b"\x50\x4c\x07\x00\x00\x00\x00\x01")?;
    check(rt, b"\x50\x4c\x07\x00")?;
    check(rt, b"\x50\x4c\x07\x00\x29")?;
    check(rt, b"\x50\x4c\x07\x00\x01\x03\xc9\x02")?;
    check(
        rt,
        b"\x50\x4c\x07\x00\x03\x03\x20\x02\x03\x21\x01\x03\x22\x00",
    )?;
    check(rt, b"\x50\x4c\x07\x00\x02\x03\x20\x02\x03\x20\x01")?;
    check(rt, b"\x50\x4c\x07\x00\x01\x64\xc9\x02")?;
    check(rt, b"\x50\x4c\x07\x00\x00\x50\x4c\x07\x00\x00")?;
    let long = [0u8; 4049];
    check(rt, &long)
}

fn main(rt: HostRuntime) -> io::Result<()> {
    examples(&rt)?;
    refusals(&rt)
}
