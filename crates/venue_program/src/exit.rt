//! With which number the process ends.

ghost use Rattle.std.specs.Prelude.{◌≡◌, ◌≤◌, ◌↔◌, false};
ghost use Rattle.std.specs.Process.{exit_status};
ghost use Rattle.venue_commands.specs.Codes.{status_code};
ghost use Rattle.venue_commands.specs.Runs.{folders_between, run_between};
ghost use Rattle.venue_program.specs.Disks.{disks_between};
ghost use Rattle.venue_program.specs.Doors.{doors_between};
ghost use Rattle.venue_program.specs.Exits.{ExitsAfter, KeepsAfter, LeavesAfter};

use crate::outcome::Outcome;
use crate::program::run;
use std::alloc::Global;
use std::io::ErrorKind;
use std::process::ExitCode;
use std::sync::Wait;
use std::thread::Threads;
use venue_commands::Status;
use venue_ports::{Disks, Doors, Folders, Stream};

/// Why the words of the command line were not read.
#[derive(Clone, Copy, Debug, PartialEq, Eq)]
pub enum WordsFault {
    /// One of them is not UTF-8.
    NotText,
    /// Memory ran out.
    OutOfMemory,
}

/// What is handed to the system, and what was handed in.
#[derive(Drop)]
pub struct Exit<F, D, K: Disks> {
    pub code: ExitCode,
    pub folders: F,
    pub doors: D,
    pub disk: Option<K::Disk>,
}

/// Why the words were not read, where the system reports an error of this kind.
pub fn words_fault(kind: ErrorKind) -> WordsFault
    ensures { (result ≡ WordsFault.OutOfMemory) ↔ (kind ≡ ErrorKind.OutOfMemory) }
{
    match kind {
        ErrorKind::OutOfMemory => WordsFault::OutOfMemory,
        _ => WordsFault::NotText,
    }
}

// The number of a status, as the system is handed it.
fn code_of(status: Status) -> ExitCode
    ensures { exit_status result ≡ status_code status }
{
    ExitCode::from(status.code())
}

/// Runs the command that the words name, where they were read, and gives the number with which the process ends.
pub fn exit_after<
    F: Folders + Send,
    D: Doors + Send,
    C: Stream,
    K: Disks,
    R: Threads + Wait + Sync,
>(
    rt: &R,
    alloc: Global,
    words: Result<Vec<String>, WordsFault>,
    folders: F,
    doors: D,
    console: &mut C,
    disks: &mut K,
) -> Exit<F, D, K>
    requires { D.ready doors ≡ false }
    ensures exits { ExitsAfter words (F.files folders)
        (run_between C.Stream console.old console.new (folders_between F.Folders folders result.folders))
        (doors_between D.Doors doors result.doors) (disks_between K.Disks K.Disk.Disk disks.old disks.new result.disk) (exit_status result.code) }
    ensures files { F.files result.folders ≡ F.files folders }
    ensures doors { KeepsAfter words (result.doors ≡ doors) }
    ensures left { LeavesAfter words (C.left console.old) (C.left console.new) }
    ensures disks_later { K.faults disks.old ≤ K.faults disks.new }
    ensures folders_later { F.faults folders ≤ F.faults result.folders }
    ensures doors_later { D.faults doors ≤ D.faults result.doors }
    ensures console_later { C.faults console.old ≤ C.faults console.new }
{
    match words {
        Ok(words) => {
            let Outcome {
                status,
                folders,
                doors,
                disk,
            } = run(rt, alloc, words.as_slice(), folders, doors, console, disks);
            Exit {
                code: code_of(status),
                folders,
                doors,
                disk,
            }
        }
        Err(WordsFault::NotText) => {
            let Outcome {
                status,
                folders,
                doors,
                disk,
            } = run(rt, alloc, &[], folders, doors, console, disks);
            Exit {
                code: code_of(status),
                folders,
                doors,
                disk,
            }
        }
        Err(WordsFault::OutOfMemory) => Exit {
            code: code_of(Status::Memory),
            folders,
            doors,
            disk: None,
        },
    }
}
