//! Rows of units, one for each opening.

ghost use Rattle.std.specs.Prelude.{◌≡◌, ◌<◌, IfOk, OnOk, All, length, replicate, []};
ghost use Rattle.opening_match.specs.Places.{AreDistinct};
ghost use Rattle.opening_match.specs.Rows.{GainsUnit, GainsAt};

use std::alloc::Global;
use venue_types::{List, OutOfMemory};

/// So many rows without units.
pub(crate) fn empty_rows(alloc: Global, count: usize) -> Result<Vec<List<u32>>, OutOfMemory>
    ensures { IfOk result (λ rows. rows.items ≡ replicate count []) }
{
    let mut rows = Vec::with_capacity(alloc, count)?;
    for _ in 0..count {
        rows.push(List::new(alloc))?;
    }
    Ok(rows)
}

// Adds the unit to one row.
fn add_at(rows: &mut Vec<List<u32>>, place: usize, unit: u32) -> Result<(), OutOfMemory>
    requires { place < length rows.old.items }
    ensures { OnOk result (GainsAt place unit rows.old.items rows.new.items) }
{
    rows[place].push(unit)
}

/// Adds the unit to the rows of these openings.
pub(crate) fn add_unit(
    rows: &mut Vec<List<u32>>,
    places: &[usize],
    unit: u32,
) -> Result<(), OutOfMemory>
    requires distinct { AreDistinct places.now }
    requires within { All (λ o. o < length rows.old.items) places.now }
    ensures { OnOk result (GainsUnit unit places.now rows.old.items rows.new.items) }
{
    for place in places {
        add_at(rows, *place, unit)?;
    }
    Ok(())
}
