//! Closing a feature.

ghost use Rattle.std.specs.Prelude.{◌≡◌, ◌≢◌, ◌≤◌, ◌<◌, IfOk, true, length};
ghost use Rattle.venue_types.specs.declared.query.Change.TheVariants.{Closure as AClosure};
ghost use Rattle.venue_types.specs.declared.reply.Reply.TheVariants as told;
ghost use Rattle.version_board.specs.Closed.{Version};
ghost use Rattle.version_board.specs.Histories.{Replays};
ghost use Rattle.version_board.specs.Halls.{facts_of};
ghost use Rattle.venue_commands.specs.BuildingReports.{IsBehindClosing};
ghost use Rattle.venue_commands.specs.Costs.{IsBehindChange};

use crate::building::hall::{OwnHall, changed};
use crate::building::ways::named;
use std::alloc::Global;
use venue_types::{Change, Closure, FeatureId, OutOfMemory, Reply};
use version_board::entry_law;

// Whether a reply tells that memory ran out.
fn judged(reply: &Reply) -> Result<(), OutOfMemory>
    ensures { IfOk result (λ _. reply.now ≢ told.OutOfMemory) }
{
    match reply {
        Reply::OutOfMemory => Err(OutOfMemory),
        _ => Ok(()),
    }
}

// Closes a feature.
fn close(hall: &mut OwnHall, feature: FeatureId) -> Result<(), OutOfMemory>
    requires { 1 ≤ length (facts_of hall.old).seen }
    ensures closed { IfOk result (λ _. (v w : Version) → v.number < v.settings.last_version → Replays (facts_of hall.old).seen v → Replays (facts_of hall.new).seen w → IsBehindChange feature v w) }
    ensures some { 1 ≤ length (facts_of hall.new).seen }
{
    entry_law();
    let reply = changed(
        hall,
        &Change::Closure(Closure {
            feature,
            closed: true,
            profiles: None,
        }),
    );
    judged(&reply)
}

/// Closes the feature of a number, where that can be closed.
pub(crate) fn close_number(
    alloc: Global,
    hall: &mut OwnHall,
    number: u32,
) -> Result<(), OutOfMemory>
    requires { 1 ≤ length (facts_of hall.old).seen }
    ensures closed { IfOk result (λ _. (v w : Version) → v.number < v.settings.last_version → Replays (facts_of hall.old).seen v → Replays (facts_of hall.new).seen w → IsBehindClosing number v w) }
    ensures some { 1 ≤ length (facts_of hall.new).seen }
{
    match named(alloc, number)? {
        Some(feature) => close(hall, feature),
        None => Ok(()),
    }
}
