//! Whether a record may follow a history, and the history with it.

ghost use Rattle.std.specs.Prelude.{◌≡◌, [], IfOk, length};
ghost use Rattle.std.specs.Arc.{arc_value};
ghost use Rattle.venue_hall.specs.Records.{AreSlots, IsAct, published};
ghost use Rattle.board_copies.specs.Replaying.{IsClosureAct};
ghost use Rattle.board_copies.specs.Resumes.{EntersBehind};
ghost use Rattle.board_copies.specs.Stamps.{entries_of};
ghost use Rattle.change_journal.specs.Readers.{kept_act};
ghost use Rattle.journal_restore.specs.Judging.{HasSettings, IsJudged, Makes, history_entries};

use board_copies::{Resuming, first_law, following_law};
use change_journal::FoundAct;
use std::alloc::Global;
use std::sync::Arc;
use venue_hall::{Act, Built, Venue, build, entry_law, one_outcome};
use venue_state::Closing;
use venue_types::{Files, OutOfMemory, Settings};

// The venue that files make under these settings, if nothing is wrong with them. The files are let go.
fn venue_of(
    alloc: Global,
    settings: &Settings,
    files: Files,
) -> Result<Option<Arc<Venue>>, OutOfMemory>
    requires { length files.slots ≡ 17 }
    ensures { IfOk result (Makes files settings.now) }
{
    one_outcome();
    match build(alloc, &files, settings)? {
        Built::Rejected(_report) => Ok(None),
        Built::Venue(venue) => Ok(Some(Arc::new(alloc, venue)?)),
    }
}

// The history that a first record opens: a publication by worker 0.
fn opened(
    alloc: Global,
    settings: &Arc<Settings>,
    worker: u8,
    act: FoundAct,
) -> Result<Option<Resuming>, OutOfMemory>
    requires { IsAct (kept_act act) }
    ensures { IfOk result (IsJudged (arc_value settings.now) (record { worker = worker; act = kept_act act }) []) }
{
    first_law();
    let FoundAct::Published(files) = act else {
        return Ok(None);
    };
    if worker != 0 {
        return Ok(None);
    }
    let Some(venue) = venue_of(alloc, settings, files)? else {
        return Ok(None);
    };
    let resuming = Resuming::first(alloc, Arc::try_clone(settings)?, venue)?;
    Ok(Some(resuming))
}

// The history with a publication more, where it may follow. The venue of the version before is let go before the new one is made.
fn with_venue(
    alloc: Global,
    settings: &Arc<Settings>,
    resuming: Resuming,
    worker: u8,
    files: Files,
) -> Result<Option<Resuming>, OutOfMemory>
    requires files { AreSlots files.slots }
    requires settings { resuming.version.settings ≡ arc_value settings.now }
    ensures { IfOk result (IsJudged (arc_value settings.now) (record { worker = worker; act = published files.slots }) (entries_of resuming.stamp)) }
{
    one_outcome();
    entry_law();
    following_law();
    let awaiting = resuming.let_go(alloc)?;
    match venue_of(alloc, settings, files)? {
        None => Ok(None),
        Some(venue) => awaiting.publish(alloc, venue, worker),
    }
}

// The history with a closure or a reopening more, where it may follow.
fn with_closure(
    mut resuming: Resuming,
    worker: u8,
    act: Act,
) -> Result<Option<Resuming>, OutOfMemory>
    requires { IsClosureAct act }
    ensures { IfOk result (EntersBehind (entries_of resuming.stamp) resuming.version.settings (record { worker = worker; act = act })) }
{
    if resuming.step(act, worker)? {
        Ok(Some(resuming))
    } else {
        Ok(None)
    }
}

// The history with a later record more.
fn followed(
    alloc: Global,
    settings: &Arc<Settings>,
    resuming: Resuming,
    worker: u8,
    act: FoundAct,
) -> Result<Option<Resuming>, OutOfMemory>
    requires act { IsAct (kept_act act) }
    requires settings { resuming.version.settings ≡ arc_value settings.now }
    ensures { IfOk result (IsJudged (arc_value settings.now) (record { worker = worker; act = kept_act act }) (entries_of resuming.stamp)) }
{
    match act {
        FoundAct::Published(files) => with_venue(alloc, settings, resuming, worker, files),
        FoundAct::Closed { feature, profiles } => {
            let closing = Closing { feature, profiles };
            with_closure(resuming, worker, Act::Closed(closing))
        }
        FoundAct::Reopened { feature, profiles } => {
            let closing = Closing { feature, profiles };
            with_closure(resuming, worker, Act::Reopened(closing))
        }
    }
}

/// The history with a record more, or none where the record may not follow: then the one before is let go. Takes the memory of a publication's
/// venue, for which that of the one before is given back first.
pub(crate) fn judged(
    alloc: Global,
    settings: &Arc<Settings>,
    history: Option<Resuming>,
    worker: u8,
    act: FoundAct,
) -> Result<Option<Resuming>, OutOfMemory>
    requires act { IsAct (kept_act act) }
    requires settings { HasSettings (arc_value settings.now) history }
    ensures { IfOk result (IsJudged (arc_value settings.now) (record { worker = worker; act = kept_act act }) (history_entries history)) }
{
    match history {
        None => opened(alloc, settings, worker, act),
        Some(resuming) => followed(alloc, settings, resuming, worker, act),
    }
}
