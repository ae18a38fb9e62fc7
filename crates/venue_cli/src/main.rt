//! The program: takes the words of its command line, the directory, the doors, the console and the disks of the system, and ends with a number.
#![tactic(auto)]

use std::env;
use std::fs::File;
use std::process::ExitCode;
use venue_ports::{Console, DirFolders, FileDisks};
use venue_program::{WordsFault, exit_after, words_fault};
use venue_sockets::{Lobby, LobbyDoors};

// The number with which the process ends where there is no memory for the lobby.
const MEMORY: u8 = 4;

// The words of the command line, less the program's name.
fn words_of(rt: &HostRuntime) -> Result<Vec<String>, WordsFault> {
    match env::args(rt) {
        Ok(args) => args
            .skip(1)
            .collect(rt.alloc())
            .map_err(|_| WordsFault::OutOfMemory),
        Err(error) => Err(words_fault(error.kind())),
    }
}

// The root, which can neither be read nor written.
fn root(rt: &HostRuntime) -> Option<File> {
    File::open(rt, "/").ok()
}

// Three files that take the numbers of standard streams that are closed. Else the journal could get one, and be printed over.
fn stand_ins(rt: &HostRuntime) -> [Option<File>; 3] {
    [root(rt), root(rt), root(rt)]
}

fn main(rt: HostRuntime) -> ExitCode {
    let _held = stand_ins(&rt);
    let mut console = Console::new(&rt);
    let folders = DirFolders::new(&rt);
    let Ok(lobby) = Lobby::new(rt.alloc()) else {
        return ExitCode::from(MEMORY);
    };
    let doors = LobbyDoors::new(&rt, &lobby);
    let mut disks = FileDisks::new(&rt);
    let words = words_of(&rt);
    exit_after(
        &rt,
        rt.alloc(),
        words,
        folders,
        doors,
        &mut console,
        &mut disks,
    )
    .code
}
