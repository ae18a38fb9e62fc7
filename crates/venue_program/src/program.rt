//! The whole program, over what is handed in.

ghost use Rattle.std.specs.Prelude.{◌≡◌, ◌≤◌, map, string_bytes, None, false};
ghost use Rattle.venue_commands.specs.Commands.{AskNoConsole, AskNoDoors, AskNoJournal};
ghost use Rattle.venue_commands.specs.Headlines.{SaysHeadline};
ghost use Rattle.venue_commands.specs.Runs.{folders_between, run_between};
ghost use Rattle.venue_program.specs.Disks.{disks_between};
ghost use Rattle.venue_program.specs.Doors.{doors_between};
ghost use Rattle.venue_program.specs.Ends.{RunEnds};

use crate::kept_commands::{kept_service, kept_session};
use crate::outcome::{Ended, Outcome};
use crate::serve_command::serve;
use std::alloc::Global;
use std::sync::Wait;
use std::thread::Threads;
use venue_commands::{Command, read_command, run_alone};
use venue_ports::{Disks, Doors, Folders, Stream};

/// Runs the command that the words name, and hands the folders and the doors back, and the disk of a journal, where it was opened. It waits in the doors, in
/// their connections and for other workers, and that alone where the words ask for a service, or for a session that keeps a journal.
pub fn run<F: Folders + Send, D: Doors + Send, C: Stream, K: Disks, R: Threads + Wait + Sync>(
    rt: &R,
    alloc: Global,
    words: &[String],
    folders: F,
    doors: D,
    console: &mut C,
    disks: &mut K,
) -> Outcome<F, D, K>
    requires unbound { D.ready doors ≡ false }
    ensures ends { RunEnds (map string_bytes words.now) (F.files folders)
        (run_between C.Stream console.old console.new (folders_between F.Folders folders result.folders))
        (doors_between D.Doors doors result.doors) (disks_between K.Disks K.Disk.Disk disks.old disks.new result.disk) result.status }
    ensures headline { SaysHeadline (map string_bytes words.now) (F.files folders)
        (run_between C.Stream console.old console.new (folders_between F.Folders folders result.folders)) result.status }
    ensures files { F.files result.folders ≡ F.files folders }
    ensures doors { AskNoDoors (map string_bytes words.now) → result.doors ≡ doors }
    ensures left { AskNoConsole (map string_bytes words.now) → C.left console.new ≡ C.left console.old }
    ensures disks { AskNoJournal (map string_bytes words.now) → (disks.new ≡ disks.old) × (result.disk ≡ None) }
    ensures disks_later { K.faults disks.old ≤ K.faults disks.new }
    ensures folders_later { F.faults folders ≤ F.faults result.folders }
    ensures doors_later { D.faults doors ≤ D.faults result.doors }
    ensures console_later { C.faults console.old ≤ C.faults console.new }
{
    match read_command(words) {
        Command::Serve(service) => {
            let Ended {
                status,
                folders,
                doors,
            } = serve(rt, alloc, service, folders, doors, console);
            Outcome {
                status,
                folders,
                doors,
                disk: None,
            }
        }
        Command::KeptSession(of) => { kept_session(rt, alloc, of, folders, doors, console, disks) }
        Command::KeptServe(of) => kept_service(rt, alloc, of, folders, doors, console, disks),
        Command::Local(command) => {
            let (status, folders) = run_alone(alloc, command, folders, console);
            Outcome {
                status,
                folders,
                doors,
                disk: None,
            }
        }
    }
}
