//! Changes, made ready at a board. Nothing here knows where the history is kept.

ghost use Rattle.std.specs.Prelude.{◌≡◌, ℕ, ◌+◌, ◌<◌, ◌≤◌, List as AList, Option as AnOption, Some, IsTrue, IfOk, IfErr, OnOk, All, Contains, length};
ghost use Rattle.std.specs.Arc.{arc_value};
ghost use Rattle.venue_types.specs.declared.query.Change.TheVariants.{Closure as AskedClosure, Publish};
ghost use Rattle.venue_types.specs.ProfileSets.{is_within};
ghost use Rattle.route_search.specs.Nodes.{closables};
ghost use Rattle.venue_history.specs.Built.{IsVenueOf};
ghost use Rattle.venue_history.specs.Shelves.{Shelf};
ghost use Rattle.venue_history.specs.Changes.{AreRead};
ghost use Rattle.venue_history.specs.Closed.{closed_ids};
ghost use Rattle.venue_history.specs.Named.{named_set, repeated};
ghost use Rattle.venue_state.specs.Preparing.{IsReady, IsUnready};
ghost use Rattle.venue_state.specs.Making.{shelf_of, closure_act, IsOutcome, CountsOutcome, IsUnread, IsUnmade};

use crate::base_folders::BaseFolders;
use crate::board::Board;
use crate::prepared::NextBoard;
use crate::profile_names::{named_set, repeated};
use crate::unready::Unready;
use std::alloc::Global;
use std::sync::Arc;
use venue_history::{Act, Built, Closing, Venue, build};
use venue_ports::{Folders, ReadFault};
use venue_types::{
    Change, Closure, ClosureDone, FeatureId, Files, List, OutOfMemory, ProfileSet, Reply, Settings,
    Text,
};

/// What becomes of a change.
#[derive(Drop)]
pub enum Outcome {
    /// The history stays, and this is the reply.
    Stays(Reply),
    /// The change is ready. The reply tells it once it is in the history; the files are those that were read for it.
    Made(NextBoard, Reply, Option<Files>),
}

// The number of the version after that of a board that isn't at the last one.
fn next_number(board: &Board, settings: &Settings) -> u32
    requires { board.now.number < settings.now.last_version }
    ensures { result ≡ board.now.number + 1 }
{
    let _last = settings.last_version;
    board.number() + 1
}

// What closes a feature for these profiles, or opens it again.
fn closure_act(asked: &Closure, profiles: ProfileSet) -> Act
    ensures { result ≡ closure_act asked.now profiles }
{
    let closing = Closing {
        feature: asked.feature,
        profiles,
    };
    if asked.closed {
        Act::Closed(closing)
    } else {
        Act::Reopened(closing)
    }
}

// A closure for these profiles made ready. For nobody it changes nothing.
fn ready_for(
    alloc: Global,
    board: &Board,
    worker: u8,
    asked: &Closure,
    profiles: ProfileSet,
) -> Result<NextBoard, Unready>
    requires some { 1 ≤ worker }
    requires range { worker ≤ 16 }
    requires known { IsTrue (is_within (length board.now.settings.profiles) profiles) }
    ensures ready { IfOk result (λ ready. IsReady board.now (closure_act asked.now profiles) worker ready) }
    ensures unready { IfErr result (λ unready. IsUnready board.now (closure_act asked.now profiles) unready) }
{
    if profiles.is_empty() {
        match board.state(asked.feature) {
            Some(_) => Err(Unready::Unchanged),
            None => Err(Unready::NoFeature),
        }
    } else {
        board.ready(alloc, closure_act(asked, profiles), worker)
    }
}

// A feature closed for these profiles, or opened again, and the names that the reply repeats of them.
fn closed_for(
    alloc: Global,
    board: &Board,
    settings: &Settings,
    worker: u8,
    asked: &Closure,
    profiles: ProfileSet,
    names: Option<List<Text>>,
) -> Outcome
    requires some { 1 ≤ worker }
    requires range { worker ≤ 16 }
    requires settings { settings.now ≡ board.now.settings }
    requires closable { All (Contains (closables board.now.features)) (closed_ids board.now) }
    requires set { named_set board.now.settings asked.now.profiles ≡ Some profiles }
    requires known { IsTrue (is_within (length board.now.settings.profiles) profiles) }
    requires names { names ≡ repeated board.now.settings asked.now.profiles profiles }
    ensures outcome { (shelf : AnOption Shelf) → IsOutcome shelf board.now worker (AskedClosure asked.now) result }
    ensures counts { (n : ℕ) → CountsOutcome n n result }
{
    match ready_for(alloc, board, worker, asked, profiles) {
        Ok(ready) => {
            let number = next_number(board, settings);
            let done = ClosureDone {
                number,
                feature: asked.feature,
                closed: asked.closed,
                changed: true,
                profiles: names,
            };
            Outcome::Made(ready, Reply::ClosureDone(done), None)
        }
        Err(Unready::NoFeature) => Outcome::Stays(Reply::NoFeature),
        Err(Unready::Unchanged) => Outcome::Stays(Reply::ClosureDone(ClosureDone {
            number: board.number(),
            feature: asked.feature,
            closed: asked.closed,
            changed: false,
            profiles: names,
        })),
        Err(Unready::Full) => Outcome::Stays(Reply::HistoryFull {
            number: board.number(),
        }),
        Err(Unready::OutOfMemory) => Outcome::Stays(Reply::OutOfMemory),
    }
}

// A feature closed, or opened again.
fn ready_closure(
    alloc: Global,
    board: &Board,
    settings: &Settings,
    worker: u8,
    asked: &Closure,
) -> Outcome
    requires some { 1 ≤ worker }
    requires range { worker ≤ 16 }
    requires settings { settings.now ≡ board.now.settings }
    requires closable { All (Contains (closables board.now.features)) (closed_ids board.now) }
    ensures outcome { (shelf : AnOption Shelf) → IsOutcome shelf board.now worker (AskedClosure asked.now) result }
    ensures counts { (n : ℕ) → CountsOutcome n n result }
{
    match named_set(settings, &asked.profiles) {
        Some(profiles) => match repeated(alloc, settings, &asked.profiles, profiles) {
            Ok(names) => closed_for(alloc, board, settings, worker, asked, profiles, names),
            Err(OutOfMemory) => Outcome::Stays(Reply::OutOfMemory),
        },
        None => Outcome::Stays(Reply::NoProfile),
    }
}

/// The seventeen files of a folder, or the reply that tells why not. Its faults are counted.
pub fn read_folder<F: Folders>(
    alloc: Global,
    reader: &mut BaseFolders<F>,
    folder: &Text,
) -> Result<Files, Reply>
    ensures read { IfOk result (λ files. AreRead (shelf_of (F.files reader.old.folders) reader.old.base) folder.now files) }
    ensures kept { OnOk result (F.faults reader.new.folders ≡ F.faults reader.old.folders) }
    ensures unread { IfErr result (IsUnread (F.faults reader.old.folders) (F.faults reader.new.folders)) }
    ensures same { F.files reader.new.folders ≡ F.files reader.old.folders }
    ensures base { reader.new.base ≡ reader.old.base }
{
    let before = reader.folders.fault_count();
    match reader.read(alloc, folder) {
        Ok(files) => Ok(files),
        Err(ReadFault::Failed) => Err(Reply::FolderFault {
            before,
            after: reader.folders.fault_count(),
        }),
        Err(ReadFault::OutOfMemory) => Err(Reply::OutOfMemory),
    }
}

/// The venue that files make under these settings, or the reply that tells why not. It asks no board, so any may be published meanwhile.
pub fn judge_files(alloc: Global, files: &Files, settings: &Settings) -> Result<Arc<Venue>, Reply>
    requires { length files.now.slots ≡ 17 }
    ensures venue { IfOk result (λ venue. IsVenueOf files.now settings.now (arc_value venue)) }
    ensures unmade { IfErr result (IsUnmade files.now settings.now) }
{
    match build(alloc, files, settings) {
        Ok(Built::Venue(venue)) => match Arc::new(alloc, venue) {
            Ok(venue) => Ok(venue),
            Err(_) => Err(Reply::OutOfMemory),
        },
        Ok(Built::Rejected(report)) => Err(Reply::Rejected(report)),
        Err(OutOfMemory) => Err(Reply::OutOfMemory),
    }
}

// The same identifiers once more.
fn copied(alloc: Global, ids: &List<FeatureId>) -> Result<List<FeatureId>, OutOfMemory>
    ensures { IfOk result (λ copy. copy ≡ ids.now) }
{
    let copy = Vec::from_slice(alloc, ids.as_slice())?;
    Ok(List::from_vec(copy))
}

/// Makes the publication of a venue ready at a board, or tells why not. The files of which it was made go along.
pub fn ready_venue(
    alloc: Global,
    board: &Board,
    settings: &Settings,
    worker: u8,
    files: Files,
    venue: Arc<Venue>,
) -> Outcome
    requires some { 1 ≤ worker }
    requires range { worker ≤ 16 }
    requires settings { settings.now ≡ board.now.settings }
    requires venue { IsVenueOf files settings.now (arc_value venue) }
    ensures outcome { (shelf : AnOption Shelf) (folder : AList ℕ) → AreRead shelf folder files → IsOutcome shelf board.now worker (Publish folder) result }
    ensures counts { (n : ℕ) → CountsOutcome n n result }
{
    match board.ready(alloc, Act::Published(venue), worker) {
        Ok(ready) => match copied(alloc, &ready.dropped) {
            Ok(dropped) => {
                let number = next_number(board, settings);
                let reply = Reply::Published { number, dropped };
                Outcome::Made(ready, reply, Some(files))
            }
            Err(OutOfMemory) => Outcome::Stays(Reply::OutOfMemory),
        },
        Err(Unready::Full) => Outcome::Stays(Reply::HistoryFull {
            number: board.number(),
        }),
        // A publication names no feature: all else that stops it is want of memory.
        Err(_) => Outcome::Stays(Reply::OutOfMemory),
    }
}

// What files make published.
fn ready_files(
    alloc: Global,
    board: &Board,
    settings: &Settings,
    worker: u8,
    files: Files,
) -> Outcome
    requires some { 1 ≤ worker }
    requires range { worker ≤ 16 }
    requires settings { settings.now ≡ board.now.settings }
    requires seventeen { length files.slots ≡ 17 }
    ensures outcome { (shelf : AnOption Shelf) (folder : AList ℕ) → AreRead shelf folder files → IsOutcome shelf board.now worker (Publish folder) result }
    ensures counts { (n : ℕ) → CountsOutcome n n result }
{
    match judge_files(alloc, &files, settings) {
        Ok(venue) => ready_venue(alloc, board, settings, worker, files, venue),
        Err(reply) => Outcome::Stays(reply),
    }
}

// A folder published.
fn ready_folder<F: Folders>(
    alloc: Global,
    board: &Board,
    settings: &Settings,
    worker: u8,
    reader: &mut BaseFolders<F>,
    folder: &Text,
) -> Outcome
    requires some { 1 ≤ worker }
    requires range { worker ≤ 16 }
    requires settings { settings.now ≡ board.now.settings }
    ensures outcome { IsOutcome (shelf_of (F.files reader.old.folders) reader.old.base) board.now worker (Publish folder.now) result }
    ensures counts { CountsOutcome (F.faults reader.old.folders) (F.faults reader.new.folders) result }
    ensures same { F.files reader.new.folders ≡ F.files reader.old.folders }
    ensures base { reader.new.base ≡ reader.old.base }
{
    match read_folder(alloc, reader, folder) {
        Ok(files) => ready_files(alloc, board, settings, worker, files),
        Err(reply) => Outcome::Stays(reply),
    }
}

/// Makes a worker's change ready at a board, with all memory that it needs but room in a history, or tells why not. Reads a folder
/// for a publication, and then counts its faults.
pub fn ready_change<F: Folders>(
    alloc: Global,
    board: &Board,
    settings: &Settings,
    worker: u8,
    reader: &mut BaseFolders<F>,
    change: &Change,
) -> Outcome
    requires some { 1 ≤ worker }
    requires range { worker ≤ 16 }
    requires settings { settings.now ≡ board.now.settings }
    requires closable { All (Contains (closables board.now.features)) (closed_ids board.now) }
    ensures outcome { IsOutcome (shelf_of (F.files reader.old.folders) reader.old.base) board.now worker change.now result }
    ensures counts { CountsOutcome (F.faults reader.old.folders) (F.faults reader.new.folders) result }
    ensures same { F.files reader.new.folders ≡ F.files reader.old.folders }
    ensures base { reader.new.base ≡ reader.old.base }
{
    match change {
        Change::Closure(asked) => ready_closure(alloc, board, settings, worker, asked),
        Change::Publish { folder } => ready_folder(alloc, board, settings, worker, reader, folder),
    }
}
