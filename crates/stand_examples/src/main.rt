// A stand table worked by hand from document 02's Note 4: a tract with two listed species and three payloads, the second of them refused; then what the
// table itself refuses, 13 to 15. What is printed is held to the file stdout.

#![tactic(auto)]

use answers::Numbered;
use plot::LineAtFault;
use stand::{TableRefusal, Tract};
use std::io;

// The number of an answer, 0 if accepted, and its place; then, for a bad tally, the figure at fault (2 is the class) and its line, counted from 0.
fn print_answer<T>(
    rt: &impl Print,
    what: &str,
    answer: &Result<T, TableRefusal>,
) -> io::Result<()> {
    println!(rt;
        "{what}: answer {}, place {}, figure {}, line {}",
        answer.number(),
        answer.place(),
        answer.figure(),
        answer.index()
    )
}

// The cells of a row in which trees are.
fn print_row(rt: &impl Print, row: usize, cells: &[u32; 20]) -> io::Result<()> {
    for (column, trees) in cells.iter().enumerate() {
        if 0 < *trees {
            println!(rt; "row {row}, column {column}: trees {trees}")?;
        }
    }
    Ok(())
}

// Both counters, the cells, the total, and the total over the number of plots.
fn print_table(rt: &impl Print, table: &[[u32; 20]; 17], tract: &Tract) -> io::Result<()> {
    println!(rt; "payloads {}, plots {}", tract.payloads, tract.records)?;
    for (row, cells) in table.iter().enumerate() {
        print_row(rt, row, cells)?;
    }
    let total = stand::total(*table, *tract);
    println!(rt;
        "total: answer {}, trees {}",
        total.number(),
        total.unwrap_or(0)
    )?;
    let per_plot = stand::trees_per_plot(*table, *tract);
    let quotient = per_plot.map_or(0, |p| p.quotient);
    let remainder = per_plot.map_or(0, |p| p.remainder);
    println!(rt;
        "trees per plot: answer {}, quotient {quotient}, remainder {remainder}",
        per_plot.number()
    )
}

// A list, and the empty table that is begun from it.
fn begin(rt: &impl Print, species: &[u8]) -> io::Result<Tract> {
    let (tract, answer) = stand::begin(species);
    print_answer(rt, "list", &answer)?;
    print_table(rt, &stand::empty(), &tract)?;
    Ok(tract)
}

// A payload is added; the answer, and the table after it.
fn add(
    rt: &impl Print,
    table: &mut [[u32; 20]; 17],
    tract: &mut Tract,
    payload: &[u8],
) -> io::Result<()> {
    print_answer(rt, "payload", &stand::add(table, tract, payload))?;
    print_table(rt, table, tract)
}

// A record is the mark 50 4c, the plot number with its low byte first, the number of lines, and the lines: species, diameter class and trees. The bytes
// are in hexadecimal: 0a is 10, 0b is 11, 0c is 12, c8 is 200, c9 is 201 and ff is 255.

// Plot 5 alone: species 3, class 11, 1 tree; species 7, class 200, 255 trees.
fn add_one_plot(rt: &impl Print, table: &mut [[u32; 20]; 17], tract: &mut Tract) -> io::Result<()> {
    let payload = b"\x50\x4c\x05\x00\x02\x03\x0b\x01\x07\xc8\xff";
    add(rt, table, tract, payload)
}

// Rows and columns are counted from 0. Column 0 has the classes 1 to 10, column 1 those from 11 to 20, column 19 those from 191 to 200.
fn whole_tract(rt: &impl Print) -> io::Result<()> {
    let mut table = stand::empty();
    // Species 3 has row 0, species 7 row 1, and any other row 16. No plot was added yet, so trees per plot are 15.
    let mut tract = begin(rt, b"\x03\x07")?;
    // Plot 5: species 3, class 10, 4 trees, and class 11, 6; species 7, class 200, 2; species 12, class 10, 1.
    // Plot 6: species 3, class 10, 5 trees; species 12, class 200, 9.
    // Row 0: 4 + 5 = 9 in column 0, 6 in column 1. Row 1: 2 in column 19. Row 16: 1 in column 0, 9 in column 19.
    // In all 9 + 6 + 2 + 1 + 9 = 27 trees, over 2 plots 13 a plot and 1 left.
    let first = b"\x50\x4c\x05\x00\x04\x03\x0a\x04\x03\x0b\x06\x07\xc8\x02\x0c\x0a\x01\
                  \x50\x4c\x06\x00\x02\x03\x0a\x05\x0c\xc8\x09";
    add(rt, &mut table, &mut tract, first)?;
    // Plot 1: species 3, class 10, 255 trees. Plot 2: species 3, class 11, 8 trees; species 7, class 201, 3.
    // There is no class 201: 7 at byte 8, where plot 2 begins, for its line 1. Plot 1 is not counted either.
    let second = b"\x50\x4c\x01\x00\x01\x03\x0a\xff\
                   \x50\x4c\x02\x00\x02\x03\x0b\x08\x07\xc9\x03";
    add(rt, &mut table, &mut tract, second)?;
    // Row 0: 6 + 1 = 7 in column 1. Row 1: 2 + 255 = 257 in column 19.
    // In all 27 + 256 = 283 trees, over 3 plots 94 a plot and 1 left.
    add_one_plot(rt, &mut table, &mut tract)
}

// A list with a repeat is 13, and so is all that is asked under it.
fn repeat(rt: &impl Print) -> io::Result<()> {
    let mut table = stand::empty();
    let mut tract = begin(rt, b"\x03\x07\x03")?;
    add_one_plot(rt, &mut table, &mut tract)
}

// A state handed in with so many payloads, 2,000 plots and no tree: the thousandth payload is taken, one more is 14.
fn handed_in(rt: &impl Print, payloads: u32) -> io::Result<()> {
    let mut table = stand::empty();
    add_one_plot(rt, &mut table, &mut Tract::new(b"\x03\x07", payloads, 2000))
}

// A payload with no plot in it is taken, and trees per plot are still 15.
fn no_plots(rt: &impl Print) -> io::Result<()> {
    let mut table = stand::empty();
    let mut tract = Tract::new(b"\x03\x07", 0, 0);
    add(rt, &mut table, &mut tract, b"\x00\x00\x00\x00\x00")
}

fn main(rt: HostRuntime) -> io::Result<()> {
    whole_tract(&rt)?;
    repeat(&rt)?;
    handed_in(&rt, 999)?;
    handed_in(&rt, 1000)?;
    no_plots(&rt)
}
