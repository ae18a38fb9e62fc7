//! The commands that need no doors, over what is handed in.

ghost use Rattle.std.specs.Prelude.{◌≡◌, ◌≤◌, ℕ, List, IfOk, IfErr};
ghost use Rattle.venue_commands.specs.Commands.{AskNoConsole};
ghost use Rattle.venue_commands.specs.Ends.{Ends};
ghost use Rattle.venue_commands.specs.Headlines.{SaysHeadline};
ghost use Rattle.venue_commands.specs.ReadCommands.{IsLocal};
ghost use Rattle.venue_commands.specs.Runs.{folders_between, run_between};
ghost use Rattle.venue_commands.specs.Steps.{IsUnknown};

use crate::canon_command::canon_answer;
use crate::check_command::check_answer;
use crate::command::LocalCommand;
use crate::gen_command::building_answer;
use crate::laws::run_headline_law;
use crate::links_command::links_answer;
use crate::price_command::price_answer;
use crate::printout::{Printout, printed};
use crate::prints::{CommandEnd, print_answer};
use crate::route_command::routing_answer;
use crate::session_command::session;
use crate::status::Status;
use crate::verify_command::verify_answer;
use std::alloc::Global;
use venue_ports::{Folders, ReadFault, Stream};

// The answer to words that no command has.
fn unknown_answer(alloc: Global) -> Result<Printout, ReadFault>
    ensures told { IfOk result IsUnknown }
    ensures memory { IfErr result (λ why. why ≡ ReadFault.OutOfMemory) }
{
    Ok(printed(Status::Wrong, String::from_str(alloc, "words\n")?))
}

// Answers a command: prints the answer, or serves the session.
fn answer<F: Folders, C: Stream>(
    alloc: Global,
    command: LocalCommand<'_>,
    folders: F,
    console: &mut C,
) -> CommandEnd<F>
    ensures ends { (words : List (List ℕ)) → IsLocal words command.entry → Ends words (F.files folders)
        (run_between C.Stream console.old console.new (folders_between F.Folders folders result.folders)) result.status }
    ensures files { F.files result.folders ≡ F.files folders }
    ensures left { (words : List (List ℕ)) → IsLocal words command.entry → AskNoConsole words → C.left console.new ≡ C.left console.old }
    ensures folders_later { F.faults folders ≤ F.faults result.folders }
    ensures console_later { C.faults console.old ≤ C.faults console.new }
{
    let mut folders = folders;
    match command {
        LocalCommand::Price(base) => {
            print_answer(console, price_answer(alloc, base, &mut folders), folders)
        }
        LocalCommand::Verify(base) => {
            print_answer(console, verify_answer(alloc, base, &mut folders), folders)
        }
        LocalCommand::Check(of) => {
            print_answer(console, check_answer(alloc, of, &mut folders), folders)
        }
        LocalCommand::Canon(canon) => {
            print_answer(console, canon_answer(alloc, canon, &mut folders), folders)
        }
        LocalCommand::Links(links) => {
            print_answer(console, links_answer(alloc, links, &mut folders), folders)
        }
        LocalCommand::Route(route) => {
            print_answer(console, routing_answer(alloc, route, &mut folders), folders)
        }
        LocalCommand::Gen(levels) => print_answer(console, building_answer(alloc, levels), folders),
        LocalCommand::Session(of) => session(alloc, of, folders, console),
        LocalCommand::Unknown => print_answer(console, unknown_answer(alloc), folders),
    }
}

/// Answers a command that needs no doors, and hands the folders back.
pub fn run_alone<F: Folders, C: Stream>(
    alloc: Global,
    command: LocalCommand<'_>,
    folders: F,
    console: &mut C,
) -> (Status, F)
    ensures ends { (words : List (List ℕ)) → IsLocal words command.entry → Ends words (F.files folders)
        (run_between C.Stream console.old console.new (folders_between F.Folders folders result.1)) result.0 }
    ensures headline { (words : List (List ℕ)) → IsLocal words command.entry → SaysHeadline words (F.files folders)
        (run_between C.Stream console.old console.new (folders_between F.Folders folders result.1)) result.0 }
    ensures files { F.files result.1 ≡ F.files folders }
    ensures left { (words : List (List ℕ)) → IsLocal words command.entry → AskNoConsole words → C.left console.new ≡ C.left console.old }
    ensures folders_later { F.faults folders ≤ F.faults result.1 }
    ensures console_later { C.faults console.old ≤ C.faults console.new }
{
    run_headline_law();
    let CommandEnd { status, folders } = answer(alloc, command, folders, console);
    (status, folders)
}
