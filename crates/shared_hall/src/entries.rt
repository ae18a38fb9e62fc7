//! Entries of a legal history, replayed one after the other.

ghost use Rattle.std.specs.Prelude.{◌≡◌, [], ◌∷◌, ◌++◌, IfOk};
ghost use Rattle.std.specs.Arc.{arc_value};
ghost use Rattle.venue_hall.specs.Venues.{SeenVenue};
ghost use Rattle.venue_hall.specs.Histories.{IsLegal, IsPublished};
ghost use Rattle.venue_hall.specs.Act.TheVariants.{Published};
ghost use Rattle.board_copies.specs.Replaying.{IsClosureAct};
ghost use Rattle.board_copies.specs.Stamps.{entries_of};
ghost use Rattle.venue_hall.specs.Openings.{HaveSettings};

use board_copies::{Resumed, Resuming, first_law, following_law};
use std::alloc::Global;
use std::sync::Arc;
use venue_hall::{Act, Entry, Venue, beginning_law};
use venue_types::{OutOfMemory, Settings};

// The history that the first entry opens.
fn opened(alloc: Global, settings: &Arc<Settings>, entry: Entry) -> Result<Resuming, OutOfMemory>
    requires legal { IsLegal (entry ∷ []) }
    requires settings { (venue : SeenVenue) → IsPublished venue entry.act → venue.settings ≡ arc_value settings.now }
    ensures entries { IfOk result (λ r. entries_of r.stamp ≡ entry ∷ []) }
    ensures settings { IfOk result (λ r. r.version.settings ≡ arc_value settings.now) }
{
    first_law();
    match entry.act {
        Act::Published(venue) => Resuming::first(alloc, Arc::try_clone(settings)?, venue),
        Act::Closed(_) | Act::Reopened(_) => unreachable!(),
    }
}

// Publishes a venue, which may follow.
fn published(
    alloc: Global,
    history: Resuming,
    venue: Arc<Venue>,
    worker: u8,
) -> Result<Resuming, OutOfMemory>
    requires legal { IsLegal (entries_of history.stamp ++ record { worker = worker; act = Published venue } ∷ []) }
    ensures entries { IfOk result (λ r. entries_of r.stamp ≡ entries_of history.stamp ++ record { worker = worker; act = Published venue } ∷ []) }
    ensures settings { IfOk result (λ r. r.version.settings ≡ history.version.settings) }
{
    following_law();
    let awaiting = history.let_go(alloc)?;
    match awaiting.publish(alloc, venue, worker)? {
        Some(longer) => Ok(longer),
        None => unreachable!(),
    }
}

// Closes or reopens a feature, which may follow.
fn changed(mut history: Resuming, act: Act, worker: u8) -> Result<Resuming, OutOfMemory>
    requires legal { IsLegal (entries_of history.stamp ++ record { worker = worker; act = act } ∷ []) }
    requires closure { IsClosureAct act }
    ensures entries { IfOk result (λ r. entries_of r.stamp ≡ entries_of history.stamp ++ record { worker = worker; act = act } ∷ []) }
    ensures settings { IfOk result (λ r. r.version.settings ≡ history.version.settings) }
{
    if history.step(act, worker)? {
        Ok(history)
    } else {
        unreachable!()
    }
}

// Makes the next entry, which may follow.
fn entered(alloc: Global, history: Resuming, entry: Entry) -> Result<Resuming, OutOfMemory>
    requires legal { IsLegal (entries_of history.stamp ++ entry ∷ []) }
    ensures entries { IfOk result (λ r. entries_of r.stamp ≡ entries_of history.stamp ++ entry ∷ []) }
    ensures settings { IfOk result (λ r. r.version.settings ≡ history.version.settings) }
{
    let Entry { worker, act } = entry;
    match act {
        Act::Published(venue) => published(alloc, history, venue, worker),
        Act::Closed(it) => changed(history, Act::Closed(it), worker),
        Act::Reopened(it) => changed(history, Act::Reopened(it), worker),
    }
}

/// The board to which the entries lead.
pub(crate) fn resumed(
    alloc: Global,
    settings: &Arc<Settings>,
    entries: Vec<Entry>,
) -> Result<Resumed, OutOfMemory>
    requires legal { IsLegal entries.items }
    requires settings { HaveSettings (arc_value settings.now) entries.items }
    ensures entries { IfOk result (λ resumed. entries_of resumed.held.stamp ≡ entries.items) }
    ensures settings { IfOk result (λ resumed. resumed.held.board.settings ≡ arc_value settings.now) }
{
    beginning_law();
    let mut entries = entries.into_iter();
    let Some(first) = entries.next() else {
        unreachable!()
    };
    let mut history = opened(alloc, settings, first)?;
    for entry in entries {
        history = entered(alloc, history, entry)?;
    }
    history.finish(alloc)
}
