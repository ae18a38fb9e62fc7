//! How many openings touch units.

ghost use Rattle.std.specs.Prelude.{◌≡◌, ◌↔◌, ◌+◌, ◌<◌, ◌≤◌, ◌^◌, IsTrue, OnOk, All, length};
ghost use Rattle.imdf_access.specs.Categories.{is_walkable};
ghost use Rattle.venue_nodes.specs.TouchCounts.{walked_part};
ghost use Rattle.opening_match.specs.Places.{AreDistinct};
ghost use Rattle.opening_match.specs.Rows.{GainsUnit};

use crate::rows::add_unit;
use imdf_access::walkable;
use venue_types::{List, OutOfMemory, UnitRow};

// With the unit itself one more than a unit may have members.
const MOST_OPENINGS: usize = 4_095;

/// How often openings touch units in which people walk at most. The squares of their numbers sum to no less.
pub(crate) const MOST_WALKED: usize = 20_000_000;

// Whether people walk in the unit.
fn can_walk(unit: &UnitRow) -> bool
    ensures { result ≡ is_walkable unit.now.category }
{
    walkable(unit.category.as_str().as_bytes())
}

/// Whether people walk in the unit, and more openings touch it than may.
pub(crate) fn is_full(unit: &UnitRow, count: usize) -> bool
    ensures { IsTrue result ↔ (IsTrue (is_walkable unit.now.category) × (4095 < count)) }
{
    can_walk(unit) && count > MOST_OPENINGS
}

/// How often units in which people walk are touched, with one unit more.
pub(crate) fn walked_with(walked: usize, unit: &UnitRow, count: usize) -> usize
    requires { walked + walked_part unit.now count < 2 ^ 64 }
    ensures { result ≡ walked + walked_part unit.now count }
{
    if can_walk(unit) {
        walked + count
    } else {
        walked
    }
}

/// How often the units in which nobody walks may yet be touched.
pub(crate) fn left_after(left: usize, unit: &UnitRow, count: usize) -> Result<usize, OutOfMemory> {
    if can_walk(unit) {
        return Ok(left);
    }
    left.checked_sub(count).ok_or(OutOfMemory)
}

/// Adds the unit to the rows of these openings, where units in which people walk are touched few times.
pub(crate) fn keep(
    rows: &mut Vec<List<u32>>,
    places: &[usize],
    unit: u32,
    walked: usize,
) -> Result<(), OutOfMemory>
    requires distinct { AreDistinct places.now }
    requires within { walked ≤ 20000000 → All (λ o. o < length rows.old.items) places.now }
    ensures { OnOk result (walked ≤ 20000000 → GainsUnit unit places.now rows.old.items rows.new.items) }
{
    if walked > MOST_WALKED {
        return Ok(());
    }
    add_unit(rows, places, unit)
}
