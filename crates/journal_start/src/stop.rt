//! What stops a command over a journal, before anything is served.

ghost use Rattle.std.specs.Prelude.{◌≡◌, ◌++◌, codes, string_bytes, IfOk};
ghost use Rattle.std.specs.Fmt.{decimal};
ghost use Rattle.line_forms.specs.Lines.{line};
ghost use Rattle.journal_start.specs.Stops.{IsToldOf, IsWhyOf, IsWhyOfRead};

use journal_restore::RestoreFault;
use std::alloc::{AllocError, Global};
use venue_commands::{Printout, Status, printed};
use venue_ports::ReadFault;

/// Why nothing is served.
#[derive(Drop)]
pub enum Why {
    /// This is printed.
    Printed(Printout),
    /// The folders failed, and counted it.
    FolderFault,
    /// The disks or the disk failed, and counted it.
    DiskFault,
    /// Memory ran out.
    OutOfMemory,
}

/// Why nothing is served, and the disk, where it was opened.
#[derive(Drop)]
pub struct Stop<K> {
    pub why: Why,
    pub disk: Option<K>,
}

// A word, a number and the line's end.
fn numbered(alloc: Global, word: &str, number: u64) -> Result<String, AllocError>
    ensures { IfOk result (λ text. string_bytes text ≡ line (word.now ++ (codes " " ++ decimal number))) }
{
    format!(in alloc; "{word} {number}\n")
}

// What is printed of a journal that stops the command.
fn told(alloc: Global, word: &str, number: u64) -> Why
    ensures { IsToldOf (word.now ++ (codes " " ++ decimal number)) result }
{
    match numbered(alloc, word, number) {
        Ok(text) => Why::Printed(printed(Status::Wrong, text)),
        Err(_) => Why::OutOfMemory,
    }
}

/// Why nothing is served of a journal that isn't read back.
pub(crate) fn of_restore(alloc: Global, fault: RestoreFault) -> Why
    ensures { IsWhyOf fault result }
{
    match fault {
        RestoreFault::Failed => Why::DiskFault,
        RestoreFault::Damaged(place) => told(alloc, "damaged", place),
        RestoreFault::Unfit(number) => told(alloc, "unfit", number),
        RestoreFault::OutOfMemory => Why::OutOfMemory,
    }
}

/// Why nothing is served where the folders aren't read.
pub(crate) fn of_read(fault: ReadFault) -> Why
    ensures { IsWhyOfRead fault result }
{
    match fault {
        ReadFault::Failed => Why::FolderFault,
        ReadFault::OutOfMemory => Why::OutOfMemory,
    }
}
