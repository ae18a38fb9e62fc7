//! The walks to the nearest.

ghost use Rattle.std.specs.Prelude.{◌≡◌, All, IfOk, Some, map};
ghost use Rattle.nearest_laws.specs.Nearest.{last_cost};
ghost use Rattle.route_search.specs.Reaches.{cost_of};
ghost use Rattle.nearest_place.specs.declared.entries.Entry.{Entry as AEntry};
ghost use Rattle.nearest_place.specs.Entries.{AreRows, IsWalked, entry_of_row};
ghost use Rattle.nearest_place.specs.Near.{row_of};

use crate::entries::Entry;
use crate::near::NearWalk;
use route_search::Reach;
use std::alloc::Global;
use venue_types::{List, OutOfMemory};

// The row of an entry. Takes time and memory in proportion to the links of its walk.
fn row_to(alloc: Global, reach: &Reach, entry: Entry) -> Result<NearWalk, OutOfMemory>
    requires { cost_of reach.now entry.node ≡ Some entry.cost }
    ensures same { IfOk result (λ row. entry_of_row row ≡ entry) }
    ensures walked { IfOk result (IsWalked reach.now) }
{
    let walk = reach.walk(alloc, entry.node)?;
    Ok(NearWalk {
        node: entry.node,
        walk,
        cost: entry.cost,
    })
}

/// The rows of these entries. Takes time and memory in proportion to the links of their walks.
pub(crate) fn rows_of(
    alloc: Global,
    reach: &Reach,
    entries: &[Entry],
) -> Result<List<NearWalk>, OutOfMemory>
    requires { All (λ (e : AEntry). cost_of reach.now e.node ≡ Some e.cost) entries.now }
    ensures { IfOk result (AreRows reach.now entries.now) }
{
    let mut rows = List::new(alloc);
    for entry in entries {
        let row = row_to(alloc, reach, *entry)?;
        rows.push(row)?;
    }
    Ok(rows)
}

/// The cost of the last row, 0 without rows.
pub(crate) fn last_of(rows: &[NearWalk]) -> u64
    ensures { result ≡ last_cost (map row_of rows.now) }
{
    match rows.last() {
        Some(row) => row.cost,
        None => 0,
    }
}
