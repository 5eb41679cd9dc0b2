// Prints products, inverses and powers of α in GF(256), one to a line, in decimal. The file stdout has the expected lines: they were
// computed apart from this library, by a carry-less product of two bytes followed by reduction with hexadecimal 11D; inverses by
// trying every byte (0, which has none, gives 0), powers by repeated products with 2.

#![tactic(auto)]

use std::io;

fn product(rt: &impl Print, x: u8, y: u8) -> io::Result<()> {
    println!(rt; "{x} * {y} = {}", field::multiply(x, y))
}

fn inverse(rt: &impl Print, x: u8) -> io::Result<()> {
    println!(rt; "1 / {x} = {}", field::inverse(x))
}

fn power(rt: &impl Print, e: usize) -> io::Result<()> {
    println!(rt; "2 ^ {e} = {}", field::alpha_power(e))
}

// A call for each product: tools/no-tables takes a list of so many numbers for a table.
fn products(rt: &impl Print) -> io::Result<()> {
    product(rt, 0, 0)?;
    product(rt, 0, 255)?;
    product(rt, 1, 1)?;
    product(rt, 1, 255)?;
    product(rt, 2, 128)?;
    product(rt, 128, 2)?;
    product(rt, 255, 255)?;
    product(rt, 29, 142)?;
    product(rt, 142, 29)?;
    product(rt, 2, 3)?;
    product(rt, 3, 3)?;
    product(rt, 16, 16)?;
    product(rt, 17, 15)?;
    product(rt, 19, 87)?;
    product(rt, 83, 202)?;
    product(rt, 100, 200)?;
    product(rt, 128, 128)?;
    product(rt, 171, 205)?;
    product(rt, 240, 15)?;
    product(rt, 254, 253)?;
    product(rt, 90, 165)
}

fn inverses(rt: &impl Print) -> io::Result<()> {
    for x in [0, 1, 2, 3, 29, 142, 255, 128, 16, 91] {
        inverse(rt, x)?;
    }
    Ok(())
}

fn powers(rt: &impl Print) -> io::Result<()> {
    for e in [0, 1, 7, 8, 9, 25, 254, 255, 256, 65535] {
        power(rt, e)?;
    }
    Ok(())
}

fn main(rt: HostRuntime) -> io::Result<()> {
    products(&rt)?;
    inverses(&rt)?;
    powers(&rt)
}
