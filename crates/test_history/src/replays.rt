//! Histories of the station replayed in place, beside boards that go the same way step by step. What stands at their end was worked out by hand.
//! Profile 0 is `walk`, 1 `wheelchair`.

ghost use Rattle.std.specs.Prelude.{◌≡◌, ◌≤◌, IfOk, IfSome};
ghost use Rattle.venue_state.specs.Preparing.{HasSettings};
ghost use Rattle.venue_state.specs.Replaying.{IsClosureAct};

use crate::boards::settings_until;
use crate::profiles::{Closed, judge_rows_of};
use board_copies::Resuming;
use std::alloc::Global;
use std::process::Abort;
use std::sync::Arc;
use std::test::Fail;
use test_station::{Edit, NO_LIFT};
use test_venues::{closing, id, venue_of};
use venue_history::{Act, Closing};
use venue_state::Board;
use venue_types::{Ask, ProfileSet, Query, Reply, Settings};

// What an entry does: a feature and a set of profiles, or changes of the folder.
#[derive(Clone, Copy)]
enum Deed {
    Close(u128, u16),
    Open(u128, u16),
    Publish(&'static [Edit]),
}

// An entry, and whether it may follow those before it.
type Row = (Deed, u8, bool);

fn any_closing(tail: u128, set: u16) -> Closing {
    Closing {
        feature: id(tail),
        profiles: ProfileSet(set),
    }
}

// The history behind a closure or a reopening, and whether it was made in place.
fn stepped(mut history: Resuming, act: Act, worker: u8) -> Result<(Option<Resuming>, bool), Fail>
    requires { IsClosureAct act }
    ensures { IfOk result (λ r. IfSome r.0 (λ h. h.version.settings ≡ history.version.settings)) }
{
    let is_made = history.step(act, worker)?;
    Ok((Some(history), is_made))
}

// The history behind a publication, and whether it was made. Where it wasn't there is none any more, since the venue was let go before.
fn republished(
    alloc: Global,
    settings: &Settings,
    history: Resuming,
    edits: &'static [Edit],
    worker: u8,
) -> Result<(Option<Resuming>, bool), Fail>
    requires { history.version.settings ≡ settings.now }
    ensures { IfOk result (λ r. IfSome r.0 (λ h. h.version.settings ≡ settings.now)) }
{
    let awaiting = history.let_go(alloc)?;
    let venue = venue_of(alloc, settings, edits)?;
    match awaiting.publish(alloc, venue, worker)? {
        Some(longer) => Ok((Some(longer), true)),
        None => Ok((None, false)),
    }
}

// The history behind an entry, and whether it was made.
fn replayed(
    alloc: Global,
    settings: &Settings,
    history: Resuming,
    deed: Deed,
    worker: u8,
) -> Result<(Option<Resuming>, bool), Fail>
    requires { history.version.settings ≡ settings.now }
    ensures { IfOk result (λ r. IfSome r.0 (λ h. h.version.settings ≡ settings.now)) }
{
    match deed {
        Deed::Close(tail, set) => stepped(history, Act::Closed(any_closing(tail, set)), worker),
        Deed::Open(tail, set) => stepped(history, Act::Reopened(any_closing(tail, set)), worker),
        Deed::Publish(edits) => republished(alloc, settings, history, edits, worker),
    }
}

// Whether a board makes the act ready, which then is put in its place.
fn applied(alloc: Global, board: &mut Board, act: Act, worker: u8) -> bool
    requires settings { HasSettings board.old act }
    requires some { 1 ≤ worker }
    requires range { worker ≤ 16 }
    ensures { board.new.settings ≡ board.old.settings }
{
    match board.prepare(alloc, act, worker) {
        Ok(mut ready) => {
            board.apply(&mut ready);
            true
        }
        Err(_) => false,
    }
}

// Whether the settings have all profiles of a set, of which there is one.
fn has_all(settings: &Settings, set: u16) -> bool {
    let profiles = ProfileSet(set);
    !profiles.is_empty() && profiles.within(settings.profiles.len() as u32)
}

// Whether a board does it, by a worker that may. For profiles that the settings lack it is asked for nothing.
fn done(
    alloc: Global,
    settings: &Settings,
    board: &mut Board,
    deed: Deed,
    worker: u8,
) -> Result<bool, Fail>
    requires settings { board.old.settings ≡ settings.now }
    requires some { 1 ≤ worker }
    requires range { worker ≤ 16 }
    ensures { IfOk result (λ _. board.new.settings ≡ settings.now) }
{
    match deed {
        Deed::Close(tail, set) => {
            if !has_all(settings, set) {
                return Ok(false);
            }
            let it = closing(settings, tail, set)?;
            Ok(applied(alloc, board, Act::Closed(it), worker))
        }
        Deed::Open(tail, set) => {
            if !has_all(settings, set) {
                return Ok(false);
            }
            let it = closing(settings, tail, set)?;
            Ok(applied(alloc, board, Act::Reopened(it), worker))
        }
        Deed::Publish(edits) => {
            let venue = venue_of(alloc, settings, edits)?;
            Ok(applied(alloc, board, Act::Published(venue), worker))
        }
    }
}

// An entry at a history, unless that has ended, and at a board.
fn judge(
    rt: &impl Abort,
    alloc: Global,
    settings: &Settings,
    history: Option<Resuming>,
    board: &mut Board,
    row: &Row,
) -> Result<Option<Resuming>, Fail>
    requires history { IfSome history (λ h. h.version.settings ≡ settings.now) }
    requires board { board.old.settings ≡ settings.now }
    ensures history { IfOk result (λ r. IfSome r (λ h. h.version.settings ≡ settings.now)) }
    ensures board { IfOk result (λ _. board.new.settings ≡ settings.now) }
{
    let (deed, worker, is_made) = *row;
    let Some(history) = history else {
        return Err(Fail::new("nothing follows a refused publication"));
    };
    let (longer, is_replayed) = replayed(alloc, settings, history, deed, worker)?;
    assert!(rt; is_replayed == is_made);
    if worker >= 1 && worker <= 16 {
        assert!(rt; done(alloc, settings, board, deed, worker)? == is_made);
    }
    Ok(longer)
}

// The number of the version, and what is closed at it.
fn judge_end(rt: &impl Abort, alloc: Global, board: &Board, number: u32, closed: &[Closed]) {
    assert!(rt; board.number() == number);
    let query = Query {
        since: None,
        what: Ask::Closures,
    };
    match board.ask(alloc, &query) {
        Reply::Closures(told) => {
            assert!(rt; told.number == number);
            judge_rows_of(rt, told.closed.as_slice(), closed);
        }
        _ => assert!(rt; false),
    }
}

// These entries, one after the other, behind the opening of the station, under a last version. A refused publication is the last of them.
fn judge_history(
    rt: &impl Abort,
    alloc: Global,
    last_version: u32,
    rows: &[Row],
    number: u32,
    closed: &[Closed],
) -> Result<(), Fail> {
    let settings = Arc::new(alloc, settings_until(alloc, last_version)?)?;
    let venue = venue_of(alloc, &settings, &[])?;
    let mut board = Board::first(alloc, Arc::try_clone(&venue)?, Arc::try_clone(&settings)?)?;
    let mut history = Some(Resuming::first(alloc, Arc::try_clone(&settings)?, venue)?);
    for row in rows {
        history = judge(rt, alloc, &settings, history, &mut board, row)?;
    }
    if let Some(history) = history {
        let resumed = history.finish(alloc)?;
        judge_end(rt, alloc, &resumed.held.board, number, closed);
    }
    judge_end(rt, alloc, &board, number, closed);
    Ok(())
}

#[test]
fn histories_are_replayed_in_place(rt: HostRuntime) -> Result<(), Fail> {
    let alloc = rt.alloc();
    judge_history(&rt, alloc, u32::MAX, &[], 1, &[])?;
    // The lift for one, for both, and for one again; the ramp beside it. The same folder keeps both.
    judge_history(
        &rt,
        alloc,
        u32::MAX,
        &[
            (Deed::Close(0x0301, 2), 1, true),
            (Deed::Close(0x0301, 2), 1, false),
            (Deed::Close(0x0301, 3), 0, false),
            (Deed::Close(0x0301, 3), 17, false),
            (Deed::Close(0x0301, 0), 1, false),
            (Deed::Close(0x0301, 4), 1, false),
            (Deed::Close(0x0301, 3), 16, true),
            (Deed::Close(0x0999, 3), 1, false),
            (Deed::Close(0x0024, 3), 2, true),
            (Deed::Open(0x0301, 1), 2, true),
            (Deed::Open(0x0301, 1), 2, false),
            (Deed::Open(0x0301, 0), 2, false),
            (Deed::Open(0x0999, 3), 2, false),
            (Deed::Publish(&[]), 3, true),
        ],
        6,
        &[(0x0024, &[]), (0x0301, &["wheelchair"])],
    )?;
    // No worker 0 and no worker 17 publishes.
    for worker in [0u8, 17] {
        judge_history(
            &rt,
            alloc,
            u32::MAX,
            &[
                (Deed::Close(0x0301, 2), 1, true),
                (Deed::Publish(&[]), worker, false),
            ],
            2,
            &[(0x0301, &["wheelchair"])],
        )?;
    }
    // A folder without lifts drops the lift, and the ramp stays closed for whom it was.
    judge_history(
        &rt,
        alloc,
        u32::MAX,
        &[
            (Deed::Close(0x0301, 3), 1, true),
            (Deed::Close(0x0024, 1), 1, true),
            (Deed::Publish(&NO_LIFT), 1, true),
            (Deed::Open(0x0301, 3), 1, false),
            (Deed::Close(0x0301, 3), 1, false),
        ],
        4,
        &[(0x0024, &["walk"])],
    )?;
    // The second version is the last.
    judge_history(
        &rt,
        alloc,
        2,
        &[
            (Deed::Close(0x0301, 2), 1, true),
            (Deed::Close(0x0301, 1), 1, false),
            (Deed::Open(0x0301, 2), 1, false),
            (Deed::Publish(&[]), 1, false),
        ],
        2,
        &[(0x0301, &["wheelchair"])],
    )
}
