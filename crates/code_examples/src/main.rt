// Prints the coefficients of generators, lowest first, one generator to a line. The file stdout has the expected lines: rust/second made them
// (`vectors generators --answers`), which multiplies the linear factors one after another in an arithmetic of its own and shares no code with
// the library. Document 01 gives the first line: 8 14 7 1 for b = 0 and r = 3.

#![tactic(auto)]

use std::io;

// The low coefficients, and 1, the highest.
fn coefficients(rt: &impl Print, low: &[u8]) -> io::Result<()> {
    for x in low {
        print!(rt; "{x} ")?;
    }
    rt.write_all(b"1\n")
}

fn line(rt: &impl Print, b: usize, r: usize) -> io::Result<()> {
    if r <= 64 {
        let low = register::low_cells(register::lowered(register::generator_top(b, r), r));
        coefficients(rt, &low[..r])?;
    }
    Ok(())
}

// A call for each line: tools/no-tables takes a list of so many numbers for a table.
fn main(rt: HostRuntime) -> io::Result<()> {
    line(&rt, 0, 3)?;
    line(&rt, 0, 2)?;
    line(&rt, 1, 2)?;
    line(&rt, 254, 2)?;
    line(&rt, 253, 4)?;
    line(&rt, 7, 5)?;
    line(&rt, 100, 10)?;
    line(&rt, 200, 16)?;
    line(&rt, 120, 33)?;
    line(&rt, 1, 63)?;
    line(&rt, 0, 64)?;
    line(&rt, 254, 64)?;
    line(&rt, 127, 64)
}
