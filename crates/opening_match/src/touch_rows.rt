//! Which openings of a folder touch which of its units.

ghost use Rattle.std.specs.Prelude.{◌≤◌, All, IfOk, length};
ghost use Rattle.venue_types.specs.declared.features.UnitRow.{UnitRow};
ghost use Rattle.feature_rows.specs.Sound.{AreSound};
ghost use Rattle.feature_rows.specs.Figures.{judged_positions};
ghost use Rattle.plane_exact.specs.Figure.{AllClose};
ghost use Rattle.opening_match.specs.Entries.{HaveVertices};
ghost use Rattle.opening_match.specs.Matches.{AreBeside};
ghost use Rattle.opening_match.specs.Kept.{AreKept, AreKeptOf};

use crate::candidates::matches_of;
use crate::counts::{MOST_WALKED, is_full, keep, left_after, walked_with};
use crate::matches::Matches;
use crate::rows::empty_rows;
use crate::starts::starts_of;
use feature_rows::opening_point_law;
use std::alloc::Global;
use venue_types::{Features, List, OpeningRow, OutOfMemory, Settings, Touches, UnitRow};

// How often units in which nobody walks are touched at most.
const MOST_SOLID: usize = 100_000_000;

/// For each opening the places of the units that it touches, or how many touch each of the first units where they are too many.
pub(crate) fn matches_by(
    alloc: Global,
    openings: &[OpeningRow],
    units: &[UnitRow],
    tolerance: u32,
) -> Result<Matches, OutOfMemory>
    requires vertices { HaveVertices openings.now }
    requires close { All (λ (unit : UnitRow). AreBeside unit.shape openings.now) units.now }
    requires range { tolerance ≤ 100000 }
    requires few { length units.now ≤ 100000 }
    ensures { IfOk result (AreKeptOf tolerance openings.now units.now) }
{
    let starts = starts_of(alloc, openings)?;
    let mut rows = empty_rows(alloc, openings.len())?;
    let mut counts = Vec::new(alloc);
    let mut walked = 0;
    let mut left = MOST_SOLID;
    for (place, unit) in units.iter().enumerate() {
        let found = matches_of(alloc, openings, &starts, unit, tolerance)?;
        let count = found.len();
        counts.push(count)?;
        if is_full(unit, count) {
            return Ok(Matches::Many(List::from_vec(counts)));
        }
        walked = walked_with(walked, unit, count);
        left = left_after(left, unit, count)?;
        keep(&mut rows, &found, place as u32, walked)?;
    }
    if walked > MOST_WALKED {
        return Ok(Matches::Many(List::from_vec(counts)));
    }
    Ok(Matches::Each(Touches {
        rows: List::from_vec(rows),
    }))
}

/// Which openings touch which units, within the tolerance of the settings, in a folder whose positions lie close together; or how many
/// touch each of the first units, where they are more than any venue may have.
///
/// A unit is compared with those openings of its level that begin in its frame, by an index that is sorted once, or near its edges, by a
/// tree that is grown once; and each of these with the bands of its border. Where units in which nobody walks are touched more than 100,000,000 times, the answer is want of
/// memory.
pub fn touches(
    alloc: Global,
    features: &Features,
    settings: &Settings,
) -> Result<Matches, OutOfMemory>
    requires sound { AreSound features.now }
    requires close { AllClose (judged_positions features.now) }
    ensures { IfOk result (AreKept settings.now.border_tol features.now) }
{
    opening_point_law();
    let openings = features.openings.as_slice();
    let units = features.units.as_slice();
    let matches = matches_by(alloc, openings, units, settings.border_tol)?;
    Ok(matches)
}
