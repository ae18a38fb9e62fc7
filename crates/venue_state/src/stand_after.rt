//! What stands after an act.

ghost use Rattle.std.specs.Prelude.{◌≡◌, ◌+◌, ◌<◌, IfOk};
ghost use Rattle.std.specs.Arc.{arc_value};
ghost use Rattle.route_search.specs.Nodes.{closables};
ghost use Rattle.venue_history.specs.declared.entry.Act.TheVariants.{Published};
ghost use Rattle.venue_history.specs.Closed.{Version};
ghost use Rattle.venue_history.specs.Versions.{after};
ghost use Rattle.venue_state.specs.Boards.{IsStand, version_of};
ghost use Rattle.venue_state.specs.Preparing.{HasSettings, dropped_by};
ghost use Rattle.venue_state.specs.Replaying.{IsClosureAct, IsLeft};
ghost use Rattle.venue_state.specs.Tallies.{remarked};

use crate::closures::{Carried, carry_over};
use crate::outgoing::Outgoing;
use crate::stand::Stand;
use crate::tally::mark;
use std::alloc::Global;
use std::sync::Arc;
use venue_history::{Act, Venue};
use venue_types::{FeatureId, List, OutOfMemory, ProfileSet};

/// What stands after an act, and the closed features that the act drops.
#[derive(Drop)]
pub(crate) struct After {
    pub stand: Stand,
    pub dropped: List<FeatureId>,
}

/// What comes after an act, beside what stands.
pub(crate) fn following(alloc: Global, stand: &Stand, act: &Act) -> Result<After, OutOfMemory>
    requires stands { IsStand stand.now }
    requires room { (version_of stand.now).number < (version_of stand.now).settings.last_version }
    requires settings { HasSettings (version_of stand.now) act.now }
    ensures stands { IfOk result (λ a. IsStand a.stand) }
    ensures next { IfOk result (λ a. version_of a.stand ≡ after (version_of stand.now) act.now) }
    ensures dropped { IfOk result (λ a. a.dropped ≡ dropped_by (version_of stand.now) act.now) }
{
    match act {
        Act::Published(venue) => published(alloc, stand, venue),
        Act::Closed(_) | Act::Reopened(_) => changed(alloc, stand, act),
    }
}

// After a closure or a reopening, which drops nothing.
fn changed(alloc: Global, stand: &Stand, act: &Act) -> Result<After, OutOfMemory>
    requires stands { IsStand stand.now }
    requires room { (version_of stand.now).number < (version_of stand.now).settings.last_version }
    requires closure { IsClosureAct act.now }
    ensures stands { IfOk result (λ a. IsStand a.stand) }
    ensures next { IfOk result (λ a. version_of a.stand ≡ after (version_of stand.now) act.now) }
    ensures dropped { IfOk result (λ a. a.dropped ≡ dropped_by (version_of stand.now) act.now) }
{
    let mut stand = stand.copy(alloc)?;
    make(&mut stand, act);
    Ok(After {
        stand,
        dropped: List::new(alloc),
    })
}

/// Makes a closure or a reopening in place, by one mark.
pub(crate) fn make(stand: &mut Stand, act: &Act)
    requires stands { IsStand stand.old }
    requires room { (version_of stand.old).number < (version_of stand.old).settings.last_version }
    requires closure { IsClosureAct act.now }
    ensures stands { IsStand stand.new }
    ensures next { version_of stand.new ≡ after (version_of stand.old) act.now }
{
    match act {
        Act::Published(_) => unreachable!(),
        Act::Closed(it) => {
            let closed = stand.closed_set(it.feature).joined(it.profiles);
            change(stand, it.feature, closed)
        }
        Act::Reopened(it) => {
            let left = stand.closed_set(it.feature).without(it.profiles);
            change(stand, it.feature, left)
        }
    }
}

// Closes a feature for these profiles alone, or for none.
#[tactic(auto, unfolding(crate::specs::Boards::version_of))]
fn change(stand: &mut Stand, id: FeatureId, profiles: ProfileSet)
    requires stands { IsStand stand.old }
    requires room { (version_of stand.old).number < (version_of stand.old).settings.last_version }
    ensures stands { IsStand stand.new }
    ensures next { version_of stand.new ≡ record (version_of stand.old) { number = (version_of stand.old).number + 1; closed = remarked (closables (version_of stand.old).features) (version_of stand.old).closed id profiles } }
{
    let _last = stand.settings.last_version;
    let _can = mark(&mut stand.tally, stand.venue.graph(), id, profiles);
    stand.number += 1;
}

// After a publication.
fn published(alloc: Global, stand: &Stand, venue: &Arc<Venue>) -> Result<After, OutOfMemory>
    requires stands { IsStand stand.now }
    requires room { (version_of stand.now).number < (version_of stand.now).settings.last_version }
    requires settings { (arc_value venue.now).settings ≡ (version_of stand.now).settings }
    ensures stands { IfOk result (λ a. IsStand a.stand) }
    ensures next { IfOk result (λ a. version_of a.stand ≡ after (version_of stand.now) (Published venue.now)) }
    ensures dropped { IfOk result (λ a. a.dropped ≡ dropped_by (version_of stand.now) (Published venue.now)) }
{
    let left = stand.outgoing(alloc)?;
    succeeding(alloc, &left, venue)
}

/// After a publication behind a version of which this is left: what is closed and can be closed still stays so, for the same profiles.
pub(crate) fn succeeding(
    alloc: Global,
    left: &Outgoing,
    venue: &Arc<Venue>,
) -> Result<After, OutOfMemory>
    requires room { left.now.number < (arc_value left.now.settings).last_version }
    requires settings { (arc_value venue.now).settings ≡ arc_value left.now.settings }
    ensures stands { IfOk result (λ a. IsStand a.stand) }
    ensures next { IfOk result (λ a. (v : Version) → IsLeft v left.now → version_of a.stand ≡ after v (Published venue.now)) }
    ensures dropped { IfOk result (λ a. (v : Version) → IsLeft v left.now → a.dropped ≡ dropped_by v (Published venue.now)) }
{
    let Carried { tally, dropped } = carry_over(alloc, venue.graph(), left.closed.as_slice())?;
    let stand = left.next_stand(venue, tally)?;
    Ok(After { stand, dropped })
}
