//! What is done in a building, and reported of it.

ghost use Rattle.std.specs.Prelude.{◌≡◌, ◌≤◌, ◌<◌, IfOk, length, string_bytes};
ghost use Rattle.std.specs.Arc.{arc_value};
ghost use Rattle.version_board.specs.Closed.{Version};
ghost use Rattle.version_board.specs.Histories.{Replays};
ghost use Rattle.version_board.specs.Halls.{facts_of};
ghost use Rattle.venue_commands.specs.BuildingReports.{IsSummary};
ghost use Rattle.venue_commands.specs.Costs.{AreBothLines, AreLaterLines, AreActLines};

use crate::building::closure::close_number;
use crate::building::hall::{OwnHall, opened};
use crate::building::sizes::size_of_venue;
use crate::building::ways::way_line;
use gen_text::{lift_number, room_number};
use std::alloc::Global;
use std::sync::Arc;
use venue_types::{OutOfMemory, Settings};
use version_board::{Asks, Venue, legal_law, number_law};

// The lines of a wheelchair's way and that on foot, at what is seen.
fn both_lines(
    alloc: Global,
    hall: &mut OwnHall,
    start: u32,
    finish: u32,
) -> Result<String, OutOfMemory>
    requires { 1 ≤ length (facts_of hall.old).seen }
    ensures { IfOk result (λ text. (v : Version) → Replays (facts_of hall.old).seen v → AreBothLines v start finish (string_bytes text)) }
{
    let rolling = way_line(alloc, hall, "wheelchair", start, finish)?;
    let walking = way_line(alloc, hall, "walk", start, finish)?;
    let text = format!(in alloc; "{rolling}{walking}")?;
    Ok(text)
}

// The line of the version that is seen, and the lines of both ways at it.
fn later_lines(
    alloc: Global,
    hall: &mut OwnHall,
    start: u32,
    finish: u32,
) -> Result<String, OutOfMemory>
    requires { 1 ≤ length (facts_of hall.old).seen }
    ensures { IfOk result (λ text. (v : Version) × (Replays (facts_of hall.old).seen v × AreLaterLines v start finish (string_bytes text))) }
{
    legal_law();
    number_law();
    let number = hall.number();
    let ways = both_lines(alloc, hall, start, finish)?;
    let text = format!(in alloc; "version {number}\n{ways}")?;
    Ok(text)
}

// Looks for a wheelchair's way, closes the lowest lift, and looks for both ways.
fn act_lines(alloc: Global, hall: &mut OwnHall, levels: u8) -> Result<String, OutOfMemory>
    requires seen { 1 ≤ length (facts_of hall.old).seen }
    requires some { 1 ≤ levels }
    ensures { IfOk result (λ text. (v : Version) → v.number < v.settings.last_version → Replays (facts_of hall.old).seen v → AreActLines levels v (string_bytes text)) }
{
    let start = room_number(levels, 0, 0);
    let finish = room_number(levels, levels - 1, 99);
    let before = way_line(alloc, hall, "wheelchair", start, finish)?;
    close_number(alloc, hall, lift_number(levels, 0))?;
    let later = later_lines(alloc, hall, start, finish)?;
    let text = format!(in alloc; "{before}{later}")?;
    Ok(text)
}

/// The lines of a building that is a venue: its size, and what is done in it.
pub(crate) fn summary(
    alloc: Global,
    settings: Arc<Settings>,
    venue: Arc<Venue>,
    levels: u8,
) -> Result<String, OutOfMemory>
    requires settings { (arc_value venue).settings ≡ arc_value settings }
    requires room { 1 < (arc_value settings).last_version }
    requires some { 1 ≤ levels }
    ensures { IfOk result (λ text. IsSummary levels (arc_value venue) (string_bytes text)) }
{
    let size = size_of_venue(alloc, &venue)?;
    let mut hall = opened(alloc, settings, venue)?;
    let acts = act_lines(alloc, &mut hall, levels)?;
    let text = format!(in alloc; "{size}{acts}")?;
    Ok(text)
}
