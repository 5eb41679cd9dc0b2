// The vectors of a stand table: its species list, both counters and the cells that are not zero, then payloads, each with how often it is added. A line
// has the number of beginning, that of each payload's last addition with place, figure and line, the counters, the total, the quotient and the cells.
use crate::{buffer, count, fault, next_byte, word};
use answers::Numbered;
use stand::{TableRefusal, Tract};
use std::io;
use std::io::Input;

// A row or a column; past the end of the input one that the table does not have.
fn index(rt: &impl Input) -> io::Result<usize> {
    Ok(next_byte(rt)?.map_or(usize::MAX, usize::from))
}

// A cell that the table does not have is left out.
fn put(table: &mut [[u32; 20]; 17], row: usize, column: usize, trees: u32) {
    if row < 17 && column < 20 {
        table[row][column] = trees;
    }
}

// Reads the cells that are not zero into the table.
fn read_cells(rt: &impl Input, table: &mut [[u32; 20]; 17]) -> io::Result<()> {
    for _ in 0..word(rt)? {
        let row = index(rt)?;
        let column = index(rt)?;
        put(table, row, column, count(rt)?);
    }
    Ok(())
}

// Adds a payload in so many turns, at least one: the last answer.
fn add_again(
    table: &mut [[u32; 20]; 17],
    tract: &mut Tract,
    payload: &[u8],
    turns: u16,
) -> Result<(), TableRefusal> {
    let mut last = stand::add(table, tract, payload);
    for _ in 1..turns {
        last = stand::add(table, tract, payload);
    }
    last
}

// Reads a payload and how often it is added, adds it, and prints the last answer.
fn add_payload(
    rt: &(impl Input + Print),
    table: &mut [[u32; 20]; 17],
    tract: &mut Tract,
) -> io::Result<()> {
    let mut space = [0u8; 4096];
    let payload = buffer(rt, &mut space)?;
    let last = add_again(table, tract, payload, word(rt)?);
    print!(rt; " {} {}", last.number(), last.place())?;
    fault(rt, &last)
}

fn add_payloads(
    rt: &(impl Input + Print),
    table: &mut [[u32; 20]; 17],
    tract: &mut Tract,
) -> io::Result<()> {
    for _ in 0..word(rt)? {
        add_payload(rt, table, tract)?;
    }
    Ok(())
}

// Row, column and count of the cells of a row that are not zero.
fn print_row(rt: &impl Print, i: usize, row: &[u32; 20]) -> io::Result<()> {
    for (j, trees) in row.iter().enumerate() {
        if 0 < *trees {
            print!(rt; " {i} {j} {trees}")?;
        }
    }
    Ok(())
}

fn print_table(rt: &impl Print, table: &[[u32; 20]; 17]) -> io::Result<()> {
    for (i, row) in table.iter().enumerate() {
        print_row(rt, i, row)?;
    }
    Ok(())
}

pub(crate) fn stand_table(rt: &(impl Input + Print)) -> io::Result<()> {
    let mut space = [0u8; 4096];
    let species = buffer(rt, &mut space)?;
    let payloads = count(rt)?;
    let records = count(rt)?;
    let mut table = stand::empty();
    read_cells(rt, &mut table)?;
    print!(rt; "{}", stand::begin(species).1.number())?;
    let mut tract = Tract::new(species, payloads, records);
    add_payloads(rt, &mut table, &mut tract)?;
    print!(rt; " {} {}", tract.payloads, tract.records)?;
    let total = stand::total(table, tract);
    print!(rt; " {} {}", total.number(), total.unwrap_or(0))?;
    let per_plot = stand::trees_per_plot(table, tract);
    let quotient = per_plot.map_or(0, |p| p.quotient);
    let remainder = per_plot.map_or(0, |p| p.remainder);
    print!(rt; " {} {quotient} {remainder}", per_plot.number())?;
    print_table(rt, &table)
}
