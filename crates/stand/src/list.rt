// The species list: which lists are taken, the sixteen places that hold one, and the row of every species under it. Each meets its definition of
// specs/Table.antt. Every row is one of the table's seventeen, whatever the list, so that no index leaves the table.
ghost use Rattle.std.specs.Prelude.{◌≡◌};
ghost use Rattle.stand.specs.Bounds.{RowsFit};
ghost use Rattle.stand.specs.Table.{numbers_hold, species_hold, places_of, tract_listed};

use crate::Tract;

// The row of the species that are not listed.
const LAST_ROW: u8 = 16;

// Listed species, at most.
const MOST_LISTED: usize = 16;

// Species numbers, and none twice.
fn numbers_hold(s: &[u8]) -> bool
    ensures { result ≡ numbers_hold s.now }
{
    for (i, &x) in s.iter().enumerate() {
        if !(1..=99).contains(&x) {
            return false;
        }
        if s[i + 1..].contains(&x) {
            return false;
        }
    }
    true
}

// A list that is taken.
pub(crate) fn species_hold(species: &[u8]) -> bool
    ensures { result ≡ species_hold species.now }
{
    if MOST_LISTED < species.len() {
        return false;
    }
    numbers_hold(species)
}

// The tract's list is taken; places past it are not looked at.
pub(crate) fn list_holds(tract: &Tract) -> bool
    ensures { result ≡ tract_listed tract.now }
{
    let listed = tract.listed;
    if MOST_LISTED < listed {
        return false;
    }
    numbers_hold(&tract.species[..listed])
}

// A list in sixteen places, as much of it as they hold, and zeros in the others.
pub(crate) fn places(species: &[u8]) -> [u8; 16]
    ensures { result ≡ places_of species.now }
{
    let mut held = [0u8; 16];
    let count = species.len().min(MOST_LISTED);
    held[..count].copy_from_slice(&species[..count]);
    held
}

/// The row of each species, by its number.
#[derive(Clone, Copy)]
pub(crate) struct Rows {
    by_species: [u8; 256],
    ghost in_table: { RowsFit by_species },
}

impl Rows {
    ghost use Rattle.std.specs.Prelude.{◌≡◌, ◌≤◌, ◌<◌, slice_index};
    ghost use Rattle.stand.specs.Table.{list_of, rows_of};

    // From the list's last species down, so that the first place of a number decides.
    pub(crate) fn of(tract: &Tract) -> Rows
        requires { tract.now.listed ≤ 16 }
        ensures { result.by_species ≡ rows_of (list_of tract.now) }
    {
        let mut by_species = [LAST_ROW; 256];
        for i in (0..tract.listed).rev() {
            by_species[usize::from(tract.species[i])] = i as u8;
        }
        Rows { by_species }
    }

    pub(crate) fn row(&self, species: u8) -> usize
        ensures value { result ≡ slice_index self.now.by_species species }
        ensures in_table { result < 17 }
    {
        usize::from(self.by_species[usize::from(species)])
    }
}
