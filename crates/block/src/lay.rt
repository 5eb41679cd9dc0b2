// Laying a block's cells into a lent buffer: cells copied, check cells below a message, and read cells with an error added to a part of them.
ghost use Rattle.std.specs.Prelude.{◌≡◌, ◌++◌, ◌+◌, ◌≤◌, Ok, Err, length, take, leb};
ghost use Rattle.code.specs.Poly.{padd};
ghost use Rattle.code.specs.Run.{added_at};
ghost use Rattle.code.specs.Search.{extent};
ghost use Rattle.lists.specs.Choice.{pick};
ghost use Rattle.register.specs.Words.{cells};
ghost use Rattle.block.specs.declared.numbers.FillRefusal.TheVariants.{NoCodeword};

use crate::FillRefusal;
use register::Register;

// Copies all cells. A function of its own, so that must-fail edits can try a corrector and a writer that copy nothing, or zeros.
pub(crate) fn copy_cells(from: &[u8], to: &mut [u8])
    requires { length to.old ≡ length from.now }
    ensures { to.new ≡ from.now }
{
    to.copy_from_slice(from);
}

// The first r of the check cells, and the message above them.
pub(crate) fn lay_out(r: usize, checks: [u8; 64], message: &[u8], cells: &mut [u8])
    requires r_bound { r ≤ 64 }
    requires cells_len { length cells.old ≡ r + length message.now }
    ensures { cells.new ≡ take r checks ++ message.now }
{
    copy_cells(&checks[..r], &mut cells[..r]);
    copy_cells(message, &mut cells[r..]);
}

// Adds the lowest cells of an error to a part of a block.
fn add_error(error: [u8; 64], part: &mut [u8])
    requires { length part.old ≤ 64 }
    ensures { part.new ≡ padd part.old (take (length part.old) error) }
{
    'cells: for (i, cell) in part.iter_mut().enumerate() {
        *cell ^= error[i];
    }
}

// The read cells with the lowest cells of an error added from `start` on.
fn place(read: &[u8], error: [u8; 64], start: usize, size: usize, out: &mut [u8])
    requires out_len { length out.old ≡ length read.now }
    requires size_in_bounds { (start + size ≤ length read.now) × (size ≤ 64) }
    ensures { out.new ≡ added_at start (take size error) read.now }
{
    let end = start + size;
    copy_cells(read, out);
    add_error(error, &mut out[start..end]);
}

// The read cells with the lowest cells of an error added in a run, where the error has no others.
pub(crate) fn fill_run(
    read: &[u8],
    error: Register,
    start: usize,
    size: usize,
    out: &mut [u8],
) -> Result<(), FillRefusal>
    requires out_len { length out.old ≡ length read.now }
    requires size_in_bounds { (start + size ≤ length read.now) × (size ≤ 64) }
    ensures value { result ≡ pick (leb (extent (cells error)) size) (Ok tt) (Err NoCodeword) }
    ensures out_after { out.new ≡ pick (leb (extent (cells error)) size) (added_at start (take size (cells error)) read.now) out.old }
{
    let needed = register::extent(error);
    let is_short = size < needed;
    if is_short {
        return Err(FillRefusal::NoCodeword);
    }
    place(read, register::low_cells(error), start, size, out);
    Ok(())
}
