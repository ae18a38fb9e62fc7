//! What is told on the console of an answer, or of why there is none.

ghost use Rattle.std.specs.Prelude.{◌≡◌, ◌≤◌, ℕ, List, Option, Err, IfSome};
ghost use Rattle.venue_ports.specs.Files.{StoredFile};
ghost use Rattle.venue_commands.specs.Ends.{Ends};
ghost use Rattle.venue_commands.specs.Output.{Output};
ghost use Rattle.venue_commands.specs.Runs.{FoldersRun, folders_between, run_between};
ghost use Rattle.venue_commands.specs.Steps.{IsPrinted, Fails, IsAnswer};

use crate::console_text::write_all;
use crate::printout::Printout;
use crate::status::Status;
use venue_ports::{Folders, ReadFault, Stream};

// Prints an answer, over folders whose count stays.
fn print<C: Stream>(console: &mut C, answer: &Printout) -> Status
    ensures ends { (words : List (List ℕ)) (files : Option (List StoredFile)) (folders : FoldersRun) → IsPrinted answer.now.status
        → IfSome files (λ fs. Output words fs answer.now.text answer.now.status) → folders.faults_now ≡ folders.faults
        → Ends words files (run_between C.Stream console.old console.new folders) result }
    ensures left { C.left console.new ≡ C.left console.old }
    ensures later { C.faults console.old ≤ C.faults console.new }
{
    match write_all(console, answer.text.as_slice()) {
        Ok(()) => answer.status,
        Err(_) => Status::Fault,
    }
}

// Tells that the folders failed, whose count rose.
fn print_fault<C: Stream>(console: &mut C) -> Status
    ensures ends { (words : List (List ℕ)) (files : Option (List StoredFile)) (folders : FoldersRun) → Fails words files folders
        → Ends words files (run_between C.Stream console.old console.new folders) result }
    ensures left { C.left console.new ≡ C.left console.old }
    ensures later { C.faults console.old ≤ C.faults console.new }
{
    let _ = write_all(console, b"fault folder\n");
    Status::Fault
}

// Tells that the folders failed; where memory ran out nothing is printed.
fn tell_fault<C: Stream>(console: &mut C, fault: ReadFault) -> Status
    ensures ends { (words : List (List ℕ)) (files : Option (List StoredFile)) (folders : FoldersRun) → IsAnswer words files folders (Err fault)
        → Ends words files (run_between C.Stream console.old console.new folders) result }
    ensures left { C.left console.new ≡ C.left console.old }
    ensures later { C.faults console.old ≤ C.faults console.new }
{
    match fault {
        ReadFault::Failed => print_fault(console),
        ReadFault::OutOfMemory => Status::Memory,
    }
}

/// Prints an answer, or tells that the folders failed; where memory ran out nothing is printed.
pub fn tell<C: Stream>(console: &mut C, answer: Result<Printout, ReadFault>) -> Status
    ensures ends { (words : List (List ℕ)) (files : Option (List StoredFile)) (folders : FoldersRun) → IsAnswer words files folders answer
        → Ends words files (run_between C.Stream console.old console.new folders) result }
    ensures left { C.left console.new ≡ C.left console.old }
    ensures later { C.faults console.old ≤ C.faults console.new }
{
    match answer {
        Ok(answer) => print(console, &answer),
        Err(fault) => tell_fault(console, fault),
    }
}

/// How a command ended, and the folders.
#[derive(Drop)]
pub(crate) struct CommandEnd<F> {
    pub status: Status,
    pub folders: F,
}

/// The same, with the folders handed on.
pub(crate) fn print_answer<F: Folders, C: Stream>(
    console: &mut C,
    answer: Result<Printout, ReadFault>,
    folders: F,
) -> CommandEnd<F>
    ensures ends { (words : List (List ℕ)) (files : Option (List StoredFile)) (before : F) → IsAnswer words files (folders_between F.Folders before folders) answer
        → Ends words files (run_between C.Stream console.old console.new (folders_between F.Folders before result.folders)) result.status }
    ensures folders { result.folders ≡ folders }
    ensures left { C.left console.new ≡ C.left console.old }
    ensures later { C.faults console.old ≤ C.faults console.new }
{
    let status = tell(console, answer);
    CommandEnd { status, folders }
}
