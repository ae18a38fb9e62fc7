//! The command `session`: reads the folder, and serves the console, or prints what stops it.

ghost use Rattle.std.specs.Prelude.{◌≡◌, ◌≤◌, ℕ, List, Option, None};
ghost use Rattle.venue_ports.specs.Files.{StoredFile};
ghost use Rattle.venue_commands.specs.Commands.{Session, Asks};
ghost use Rattle.venue_commands.specs.Ends.{Ends};
ghost use Rattle.venue_commands.specs.Openings.{IsOpening};
ghost use Rattle.venue_commands.specs.Runs.{folders_between, run_between};
ghost use Rattle.venue_commands.specs.Served.{end_status};

use crate::command::FolderOf;
use crate::prints::{CommandEnd, print_answer};
use crate::reached::{Reached, reach_folder};
use crate::start::Start;
use crate::status::Status;
use std::alloc::Global;
use venue_ports::{Folders, Stream};
use venue_session::{End, serve_session};
use version_board::{Alone, Unopened};

// The status with which a session ends.
fn status_of(end: End) -> Status
    ensures { result ≡ end_status end }
{
    match end {
        End::Done => Status::Done,
        End::Cut(_) => Status::Negative,
        End::Refused(_) => Status::Negative,
        End::Worn => Status::Negative,
        End::LinkFault => Status::Fault,
        End::OutOfMemory => Status::Memory,
    }
}

// Opens a hall over the folders, and serves the console.
fn serve_console<F: Folders, C: Stream>(
    alloc: Global,
    opening: Start,
    folders: F,
    console: &mut C,
) -> CommandEnd<F>
    ensures ends { (words : List (List ℕ)) (files : Option (List StoredFile)) (before : F) → IsOpening words files opening
        → F.files folders ≡ files → F.faults folders ≡ F.faults before
        → Ends words files (run_between C.Stream console.old console.new (folders_between F.Folders before result.folders)) result.status }
    ensures files { F.files result.folders ≡ F.files folders }
    ensures folders_later { F.faults folders ≤ F.faults result.folders }
    ensures console_later { C.faults console.old ≤ C.faults console.new }
{
    // The files that the venue was made of are let go once the hall is open.
    let Start {
        base,
        files: _files,
        venue,
        settings,
        front,
    } = opening;
    match Alone::begin(alloc, settings, venue, folders, base) {
        Ok(mut hall) => {
            let end = serve_session(alloc, &mut hall, &front, console);
            CommandEnd {
                status: status_of(end),
                folders: hall.finish(),
            }
        }
        Err(Unopened { folders }) => CommandEnd {
            status: Status::Memory,
            folders,
        },
    }
}

/// Answers `session BASE FOLDER`.
pub(crate) fn session<F: Folders, C: Stream>(
    alloc: Global,
    of: FolderOf<'_>,
    folders: F,
    console: &mut C,
) -> CommandEnd<F>
    ensures ends { (words : List (List ℕ)) → Asks words (Session of.entry.base.now of.entry.folder.now None) → Ends words (F.files folders)
        (run_between C.Stream console.old console.new (folders_between F.Folders folders result.folders)) result.status }
    ensures files { F.files result.folders ≡ F.files folders }
    ensures folders_later { F.faults folders ≤ F.faults result.folders }
    ensures console_later { C.faults console.old ≤ C.faults console.new }
{
    let mut folders = folders;
    match reach_folder(alloc, of, &mut folders) {
        Ok(Reached::Opened(opening)) => serve_console(alloc, opening, folders, console),
        Ok(Reached::Printed(answer)) => print_answer(console, Ok(answer), folders),
        Err(fault) => print_answer(console, Err(fault), folders),
    }
}
