//! The next board made ready behind the present one, kept, and published, step by step.

ghost use Rattle.std.specs.Prelude.{◌≡◌, ◌+◌, ◌^◌, ◌<◌, ◌≤◌, [], ◌∷◌, ◌++◌, drop, IfErr, IfOk, OnErr, OnOk};
ghost use Rattle.std.specs.Arc.{arc_value};
ghost use Rattle.std.specs.Option.{option_map};
ghost use Rattle.venue_types.specs.declared.settings.Settings.{Settings as TheSettings};
ghost use Rattle.venue_hall.specs.Logging.{logged};
ghost use Rattle.venue_hall.specs.Openings.{HaveSettings};
ghost use Rattle.venue_hall.specs.Records.{IsLoggable, AreKept};
ghost use Rattle.venue_hall.specs.Standing.{StandsFor};
ghost use Rattle.venue_hall.specs.Versions.{MayFollow, after};
ghost use Rattle.board_copies.specs.Queues.{EndsWith};
ghost use Rattle.board_copies.specs.Rules.{list_of, book_of, IsOneLonger};
ghost use Rattle.board_copies.specs.Stamps.{entries_of};
ghost use Rattle.shared_hall.specs.Keeping.{ComesOf, IsUnkept};

use board_copies::{Held, Keeper, NextBoard, Ready, Roll, SideWriter, fall_back, queue, show};
use core::mem::replace_with;
use std::alloc::Global;
use std::sync::{Arc, Wait};
use venue_hall::{Act, Entry, Log, Record, slots_law};
use venue_types::{Files, OutOfMemory, Reply};

// Queues what is ready in place.
fn queue_in(writer: &mut SideWriter, ready: Ready) -> Result<(), OutOfMemory>
    ensures shown { writer.new.desk.shown.value ≡ writer.old.desk.shown.value }
    ensures queued { OnOk result (EndsWith (drop writer.new.behind writer.new.log.items) (arc_value ready.held)) }
{
    replace_with(writer, ready, |writer, ready| queue(writer, ready))
}

/// The record of an entry for a log, with the files that were read for it.
pub(crate) fn record_of<'a>(entry: &Entry, files: &'a Option<Files>) -> Record<'a>
    requires comes { ComesOf entry.now.act files.now }
    requires worker { entry.now.worker ≤ 16 }
    ensures loggable { IsLoggable (logged result) }
    ensures stands { (settings : TheSettings) → HaveSettings settings (entry.now ∷ []) → StandsFor settings (logged result) entry.now }
{
    slots_law();
    let worker = entry.worker;
    match (&entry.act, files) {
        (Act::Published(_), Some(files)) => Record::Published { worker, files },
        (Act::Closed(it), _) => Record::Closed {
            worker,
            feature: it.feature,
            profiles: it.profiles.0,
        },
        (Act::Reopened(it), _) => Record::Reopened {
            worker,
            feature: it.feature,
            profiles: it.profiles.0,
        },
        (Act::Published(_), None) => unreachable!(),
    }
}

/// Queues what is ready behind the published board, which stays: the last step that wants memory. What is queued then is published by
/// `show_in`, without memory.
pub(crate) fn queue_next(
    alloc: Global,
    keeper: &mut Keeper,
    roll: &mut Roll,
    ready: NextBoard,
) -> Result<Arc<Held>, OutOfMemory>
    requires book { roll.old.seen.book ≡ book_of keeper.old.writer.desk.shown.value }
    requires may { MayFollow (arc_value keeper.old.writer.desk.shown.value.held).board ready.entry }
    requires next { ready.board ≡ after (arc_value keeper.old.writer.desk.shown.value.held).board ready.entry.act }
    ensures shown { keeper.new.writer.desk.shown.value ≡ keeper.old.writer.desk.shown.value }
    ensures queued { IfOk result (λ last. EndsWith (drop keeper.new.writer.behind keeper.new.writer.log.items) (arc_value last)) }
    ensures entries { IfOk result (λ last. entries_of (arc_value last).stamp ≡ list_of keeper.old.writer.desk.shown.value ++ ready.entry ∷ []) }
    ensures book { IfOk result (λ last. (arc_value last).stamp.seen.book ≡ book_of keeper.old.writer.desk.shown.value) }
    ensures settings { IfOk result (λ last. (arc_value last).board.settings ≡ (arc_value keeper.old.writer.desk.shown.value.held).board.settings) }
    ensures roll { roll.new.seen.book ≡ roll.old.seen.book }
{
    let next = keeper.writer.published().held.next(roll, ready)?;
    let held = Arc::new(alloc, next)?;
    let last = Arc::try_clone(&held)?;
    queue_in(&mut keeper.writer, Ready { held })?;
    Ok(last)
}

/// Keeps a record, or tells that the log failed. Takes no memory.
pub(crate) fn keep<J: Log>(log: &mut J, entry: &Record<'_>) -> Result<(), Reply>
    requires room { J.length log.old < 2 ^ 32 }
    requires loggable { IsLoggable (logged entry.now) }
    ensures one_more { OnOk result (J.length log.new ≡ J.length log.old + 1) }
    ensures appended { OnOk result (J.records log.new ≡ option_map (λ front. front ++ logged entry.now ∷ []) (J.records log.old)) }
    ensures faultless { OnOk result (J.faults log.new ≡ J.faults log.old) }
    ensures as_many { OnErr result (J.length log.new ≡ J.length log.old) }
    ensures kept { OnErr result (AreKept (J.records log.old) (J.records log.new)) }
    ensures failed { IfErr result (λ reply. IsUnkept (J.faults log.old) (J.faults log.new) reply) }
{
    let before = log.fault_count();
    if log.append(entry).is_err() {
        let after = log.fault_count();
        return Err(Reply::JournalFault { before, after });
    }
    Ok(())
}

/// Publishes all that is queued in place. It waits as a publication does.
pub(crate) fn show_in<R: Wait>(writer: &mut SideWriter, rt: &R, last: Arc<Held>)
    requires last { EndsWith (drop writer.old.behind writer.old.log.items) (arc_value last) }
    requires book { (arc_value last).stamp.seen.book ≡ book_of writer.old.desk.shown.value }
    requires longer { IsOneLonger (list_of writer.old.desk.shown.value) (entries_of (arc_value last).stamp) }
    ensures shown { arc_value writer.new.desk.shown.value.held ≡ arc_value last }
{
    replace_with(
        writer,
        (rt, last),
        |writer, (rt, last)| show(writer, rt, last),
    );
}

/// Takes what is queued out of the way in place: the published board stays. It waits as a publication does. Where memory runs out what is queued
/// stays so, and the next publication takes it along.
pub(crate) fn fall_back_in<R: Wait>(writer: &mut SideWriter, rt: &R)
    ensures shown { arc_value writer.new.desk.shown.value.held ≡ arc_value writer.old.desk.shown.value.held }
{
    let _fell = replace_with(writer, rt, |writer, rt| fall_back(writer, rt));
}
