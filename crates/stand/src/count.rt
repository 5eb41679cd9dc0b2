// The cells of a table: the trees of a payload counted into them, record by record and line by line, their limit, and their sum. No sum overflows,
// since a cell begins at the limit at most and each three bytes of the payload add 255 trees at most.
ghost use Rattle.std.specs.Prelude.{◌≡◌, ◌*◌, ◌/◌, ◌≤◌, length, IfOk, IfErr};
ghost use Rattle.plot.specs.Layout.{tallies};
ghost use Rattle.plot.specs.Grammar.{Stopped, reading};
ghost use Rattle.stand.specs.Table.{column_of, plus_line, plus_lines, row_holds, cells_hold, row_total, table_total};
ghost use Rattle.stand.specs.Bounds.{LineFits, LinesFit, RecordsFit, AllCounted};

use crate::MOST;
use crate::list::Rows;
use plot::{Cursor, Line};

fn column_of(class: u8) -> usize
    requires { (1 ≤ class) × (class ≤ 200) }
    ensures { result ≡ column_of class }
{
    usize::from((class - 1) / 10)
}

// A tally line, in the row of its species and the column of its class.
#[tactic(auto, unfolding(crate::specs::Table::plus_line))]
fn count_line(table: &mut [[u32; 20]; 17], rows: &Rows, line: Line)
    requires { LineFits line table.old }
    ensures { table.new ≡ plus_line rows.now.by_species line table.old }
{
    let row = rows.row(line.species);
    let column = column_of(line.class);
    table[row][column] += u32::from(line.count);
}

// The lines of a record, three bytes each.
fn count_lines(table: &mut [[u32; 20]; 17], rows: &Rows, lines: &[u8])
    requires { LinesFit lines.now table.old }
    ensures { table.new ≡ plus_lines rows.now.by_species (tallies (length lines.now / 3) lines.now) table.old }
{
    for bytes in lines.chunks_exact(3) {
        count_line(table, rows, Line::from_bytes(bytes));
    }
}

// The records of a payload, each checked and then counted, and how many there are; where one is refused, the table has those before it.
pub(crate) fn count_records(
    table: &mut [[u32; 20]; 17],
    rows: &Rows,
    payload: &[u8],
) -> Result<u32, plot::Refusal>
    requires { RecordsFit payload.now table.old }
    ensures accepted { IfOk result (λ records. AllCounted rows.now.by_species payload.now table.old records table.new) }
    ensures refused { IfErr result (λ r. reading payload.now ≡ Stopped r) }
{
    let mut records = 0;
    let mut c = Cursor { at: 0, last: 0 };
    while let Some(record) = c.next_checked(payload)? {
        count_lines(table, rows, &payload[record.lines..record.next.at]);
        records += 1;
        c = record.next;
    }
    Ok(records)
}

fn row_holds(row: &[u32; 20]) -> bool
    ensures { result ≡ row_holds row.now }
{
    row.iter().all(|&cell| cell <= MOST)
}

// No cell is above the limit.
pub(crate) fn cells_hold(table: [[u32; 20]; 17]) -> bool
    ensures { result ≡ cells_hold table }
{
    table.iter().all(row_holds)
}

fn row_total(row: &[u32; 20]) -> u64
    ensures value { result ≡ row_total row.now }
    ensures bound { result ≤ 20 * 4294967296 }
{
    row.iter().map(|&cell| u64::from(cell)).sum()
}

// The sum of all cells.
pub(crate) fn total_of(table: &[[u32; 20]; 17]) -> u64
    ensures { result ≡ table_total table.now }
{
    table.iter().map(row_total).sum()
}
