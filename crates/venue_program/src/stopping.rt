//! What is told where a command with a journal serves nothing.

ghost use Rattle.std.specs.Prelude.{◌≡◌, ◌≤◌};
ghost use Rattle.venue_service.specs.Ends.{connection_between};
ghost use Rattle.venue_commands.specs.Ends.{folder_fault};
ghost use Rattle.venue_program.specs.Kept.{TellsWhy, WasTold, disk_fault};

use journal_start::Why;
use venue_commands::{Printout, Status, write_all};
use venue_ports::Stream;

// Prints an answer.
fn tell_answer<C: Stream>(console: &mut C, answer: &Printout) -> Status
    ensures told { TellsWhy (Why.Printed answer.now) (connection_between C.Stream console.old console.new) result }
    ensures left { C.left console.new ≡ C.left console.old }
    ensures later { C.faults console.old ≤ C.faults console.new }
{
    match write_all(console, answer.text.as_slice()) {
        Ok(()) => answer.status,
        Err(_) => Status::Fault,
    }
}

// Tells that the folders failed.
fn tell_folders<C: Stream>(console: &mut C)
    ensures told { WasTold (connection_between C.Stream console.old console.new) folder_fault }
    ensures left { C.left console.new ≡ C.left console.old }
    ensures later { C.faults console.old ≤ C.faults console.new }
{
    let _ = write_all(console, b"fault folder\n");
}

// Tells that the disks failed, or the disk.
fn tell_disk<C: Stream>(console: &mut C)
    ensures told { WasTold (connection_between C.Stream console.old console.new) disk_fault }
    ensures left { C.left console.new ≡ C.left console.old }
    ensures later { C.faults console.old ≤ C.faults console.new }
{
    let _ = write_all(console, b"fault disk\n");
}

/// Tells why nothing is served; where memory ran out nothing is printed.
pub(crate) fn tell_why<C: Stream>(console: &mut C, why: &Why) -> Status
    ensures told { TellsWhy why.now (connection_between C.Stream console.old console.new) result }
    ensures left { C.left console.new ≡ C.left console.old }
    ensures later { C.faults console.old ≤ C.faults console.new }
{
    match why {
        Why::Printed(answer) => tell_answer(console, answer),
        Why::FolderFault => {
            tell_folders(console);
            Status::Fault
        }
        Why::DiskFault => {
            tell_disk(console);
            Status::Fault
        }
        Why::OutOfMemory => Status::Memory,
    }
}
