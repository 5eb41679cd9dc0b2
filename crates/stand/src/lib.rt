// The stand table of a tract (document 02, Note 4): begun from a species list, added to by payloads one after another, totalled, and divided by the number of
// records. Each answer and each table is an equation with specs/Answers.antt. A payload is counted into a copy of the table in one pass, each record as soon as it is
// checked, and the copy becomes the table once the whole payload is accepted. Table and tract are lent side by side, since C lends the bare cells of a table.

#![tactic(auto)]

mod count;
mod list;
mod numbers;

ghost use Rattle.std.specs.Prelude.{◌≡◌};
ghost use Rattle.stand.specs.declared.TableRefusal.TheVariants.{Payload};
ghost use Rattle.stand.specs.Table.{empty_table, limits_hold};
ghost use Rattle.stand.specs.Answers.{tract_of, begun_answer, judged, add_answer, add_table, add_tract, total_answer, per_plot_answer};

use count::{cells_hold, count_records, total_of};
use list::{Rows, list_holds, places, species_hold};

/// Payloads in a tract, at most.
const MOST_PAYLOADS: u32 = 1000;

/// What a cell or a counter that is handed in holds, at most.
pub(crate) const MOST: u32 = 400000000;

/// The tract beside its table: the listed species, which are the first `listed` of the sixteen places, and how many payloads and records were added.
#[derive(Clone, Copy, Debug, PartialEq, Eq)]
pub struct Tract {
    pub species: [u8; 16],
    pub listed: usize,
    pub payloads: u32,
    pub records: u32,
}

/// A refusal. Document 02 calls the first three species list, tract full and no plots, and their place is 0; the last is the payload's own.
#[derive(Clone, Copy, Debug, PartialEq, Eq)]
pub enum TableRefusal {
    SpeciesList,
    TractFull,
    NoPlots,
    Payload(plot::Refusal),
}

impl From<plot::Refusal> for TableRefusal {
    ghost from_gives = { λ r e. e ≡ Payload r };

    fn from(r: plot::Refusal) -> TableRefusal {
        TableRefusal::Payload(r)
    }
}

/// Trees per plot: the whole quotient of the total by the number of records, and the exact remainder.
#[derive(Clone, Copy, Debug, PartialEq, Eq)]
pub struct PerPlot {
    pub quotient: u64,
    pub remainder: u64,
}

/// A table with no tree in it.
pub fn empty() -> [[u32; 20]; 17]
    ensures { result ≡ empty_table }
{
    [[0; 20]; 17]
}

impl Tract {
    /// The tract with this species list, of any length, and these counters; a list of more than sixteen is refused by every entry.
    pub fn new(species: &[u8], payloads: u32, records: u32) -> Tract
        ensures { result ≡ tract_of species.now payloads records }
    {
        Tract {
            species: places(species),
            listed: species.len(),
            payloads,
            records,
        }
    }
}

/// Begins a table from a species list: its tract, to which nothing was added yet, and whether the list is taken. Each comes with the other, since the tract of
/// a list that is not taken is refused by every other entry too.
pub fn begin(species: &[u8]) -> (Tract, Result<(), TableRefusal>)
    ensures tract { result.0 ≡ tract_of species.now 0 0 }
    ensures answer { result.1 ≡ begun_answer species.now }
{
    let tract = Tract::new(species, 0, 0);
    if !species_hold(species) {
        return (tract, Err(TableRefusal::SpeciesList));
    }
    (tract, Ok(()))
}

// No cell and no counter that is handed in is above the limit.
fn limits_hold(table: [[u32; 20]; 17], tract: Tract) -> bool
    ensures { result ≡ limits_hold table tract }
{
    tract.payloads <= MOST && tract.records <= MOST && cells_hold(table)
}

// What adding a payload of `size` bytes answers before the payload itself is read.
#[tactic(auto, unfolding(crate::specs::Answers::judged))]
fn judge(table: [[u32; 20]; 17], tract: Tract, size: usize) -> Result<(), TableRefusal>
    ensures { result ≡ judged table tract size (Ok tt) }
{
    if plot::LONGEST < size {
        return Err(TableRefusal::Payload(plot::Refusal::WrongLength));
    }
    if !list_holds(&tract) {
        return Err(TableRefusal::SpeciesList);
    }
    if MOST_PAYLOADS <= tract.payloads {
        return Err(TableRefusal::TractFull);
    }
    if !limits_hold(table, tract) {
        return Err(TableRefusal::TractFull);
    }
    Ok(())
}

/// Adds a payload: the trees of its records go into the table. A refused payload writes nothing, and the tract is as it was.
pub fn add(
    table: &mut [[u32; 20]; 17],
    tract: &mut Tract,
    payload: &[u8],
) -> Result<(), TableRefusal>
    ensures value { result ≡ add_answer table.old tract.old payload.now }
    ensures table_after { table.new ≡ add_table table.old tract.old payload.now }
    ensures tract_after { tract.new ≡ add_tract table.old tract.old payload.now }
{
    let mut counts = *table;
    judge(counts, *tract, payload.len())?;
    let rows = Rows::of(tract);
    let records = count_records(&mut counts, &rows, payload)?;
    *table = counts;
    tract.payloads += 1;
    tract.records += records;
    Ok(())
}

/// The total: the sum of the cells.
#[tactic(auto, unfolding(crate::specs::Answers::total_answer))]
pub fn total(table: [[u32; 20]; 17], tract: Tract) -> Result<u64, TableRefusal>
    ensures { result ≡ total_answer table tract }
{
    if !list_holds(&tract) {
        return Err(TableRefusal::SpeciesList);
    }
    if !limits_hold(table, tract) {
        return Err(TableRefusal::TractFull);
    }
    Ok(total_of(&table))
}

/// Trees per plot: the total over the number of records added.
#[tactic(auto, unfolding(crate::specs::Answers::per_plot_of))]
pub fn trees_per_plot(table: [[u32; 20]; 17], tract: Tract) -> Result<PerPlot, TableRefusal>
    ensures { result ≡ per_plot_answer table tract }
{
    let trees = total(table, tract)?;
    if tract.records == 0 {
        return Err(TableRefusal::NoPlots);
    }
    let records = u64::from(tract.records);
    Ok(PerPlot {
        quotient: trees / records,
        remainder: trees % records,
    })
}
