// The stand table for C and Rust: the caller keeps the species list, the table's seventeen rows of twenty counts and the two counters, and hands them to each call.
// Each function calls one entry of the crate `stand`, and its contract is that entry's answer.
ghost use Rattle.std.specs.Prelude.{◌≡◌};
ghost use Rattle.stand.specs.Table.{empty_table};
ghost use Rattle.stand.specs.Answers.{tract_of, begun_answer, add_answer, add_table, add_tract, total_answer, per_plot_answer};
ghost use Rattle.stand.specs.Numbers.{answer_number, answer_place, answer_figure, answer_index, total_number, total_trees, per_plot_number, per_plot_quotient, per_plot_remainder};
ghost use Rattle.capi.specs.Numbers.{unless_refused};

use answers::Numbered;
use plot::LineAtFault;
use stand::Tract;

/// Begins a table from a species list: no tree, no payload, no record. After a refusal table and counters are as they were.
#[unsafe(no_mangle)]
pub extern "C" fn tishwabe_begin_table(
    species: &[u8],
    table: &mut [[u32; 20]; 17],
    payloads: &mut u32,
    records: &mut u32,
) -> usize
    ensures value { result ≡ answer_number (begun_answer species.now) }
    ensures table_after { table.new ≡ unless_refused (answer_number (begun_answer species.now)) empty_table table.old }
    ensures payloads_after { payloads.new ≡ unless_refused (answer_number (begun_answer species.now)) 0 payloads.old }
    ensures records_after { records.new ≡ unless_refused (answer_number (begun_answer species.now)) 0 records.old }
{
    let (begun, answer) = stand::begin(species);
    if answer.is_ok() {
        *table = stand::empty();
        *payloads = begun.payloads;
        *records = begun.records;
    }
    usize::from(answer.number())
}

/// Adds a payload to a table: the place of the refusal, and the figure and the index of the line at fault. After a refusal table and counters are as they were.
#[unsafe(no_mangle)]
pub extern "C" fn tishwabe_add_to_table(
    species: &[u8],
    table: &mut [[u32; 20]; 17],
    payloads: &mut u32,
    records: &mut u32,
    payload: &[u8],
    place: &mut usize,
    figure: &mut usize,
    line: &mut usize,
) -> usize
    ensures value { result ≡ answer_number (add_answer table.old (tract_of species.now payloads.old records.old) payload.now) }
    ensures place_after { place.new ≡ answer_place (add_answer table.old (tract_of species.now payloads.old records.old) payload.now) }
    ensures figure_after { figure.new ≡ answer_figure (add_answer table.old (tract_of species.now payloads.old records.old) payload.now) }
    ensures line_after { line.new ≡ answer_index (add_answer table.old (tract_of species.now payloads.old records.old) payload.now) }
    ensures table_after { table.new ≡ add_table table.old (tract_of species.now payloads.old records.old) payload.now }
    ensures payloads_after { payloads.new ≡ (add_tract table.old (tract_of species.now payloads.old records.old) payload.now).payloads }
    ensures records_after { records.new ≡ (add_tract table.old (tract_of species.now payloads.old records.old) payload.now).records }
{
    let mut tract = Tract::new(species, *payloads, *records);
    let answer = stand::add(table, &mut tract, payload);
    *payloads = tract.payloads;
    *records = tract.records;
    *place = answer.place();
    *figure = usize::from(answer.figure());
    *line = answer.index();
    usize::from(answer.number())
}

/// The table's total, the sum of its cells.
#[unsafe(no_mangle)]
pub extern "C" fn tishwabe_table_total(
    species: &[u8],
    table: &[[u32; 20]; 17],
    payloads: u32,
    records: u32,
    total: &mut u64,
) -> usize
    ensures value { result ≡ total_number (total_answer table.now (tract_of species.now payloads records)) }
    ensures total_after { total.new ≡ total_trees (total_answer table.now (tract_of species.now payloads records)) }
{
    let answer = stand::total(*table, Tract::new(species, payloads, records));
    *total = answer.unwrap_or(0);
    usize::from(answer.number())
}

/// Trees per plot: the whole quotient of the total by the number of records, and the exact remainder.
#[unsafe(no_mangle)]
pub extern "C" fn tishwabe_trees_per_plot(
    species: &[u8],
    table: &[[u32; 20]; 17],
    payloads: u32,
    records: u32,
    quotient: &mut u64,
    remainder: &mut u64,
) -> usize
    ensures value { result ≡ per_plot_number (per_plot_answer table.now (tract_of species.now payloads records)) }
    ensures quotient_after { quotient.new ≡ per_plot_quotient (per_plot_answer table.now (tract_of species.now payloads records)) }
    ensures remainder_after { remainder.new ≡ per_plot_remainder (per_plot_answer table.now (tract_of species.now payloads records)) }
{
    let answer = stand::trees_per_plot(*table, Tract::new(species, payloads, records));
    *quotient = answer.map_or(0, |per_plot| per_plot.quotient);
    *remainder = answer.map_or(0, |per_plot| per_plot.remainder);
    usize::from(answer.number())
}
