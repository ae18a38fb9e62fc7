//! A hall that keeps its changes nowhere.

ghost use Rattle.std.specs.Prelude.{◌≡◌, ◌<◌, ◌≤◌, length, All, IfOk, IfErr};
ghost use Rattle.board_copies.specs.Making.{shelf_of};
ghost use Rattle.shared_hall.specs.Copied.{entries_in, book_in};
ghost use Rattle.shared_hall.specs.Offices.{parts_of, AreNumbered, IsNew};

use super::{LoggedOffice, OpenedOf, UnopenedOf, open_kept};
use crate::copies::Copies;
use crate::name::HallName;
use std::alloc::Global;
use std::sync::ledger::Blank;
use venue_hall::{NoLog, Unopened};
use venue_ports::Folders;
use venue_types::Text;

/// The office of such a hall.
pub type Office<N, F> = LoggedOffice<N, F, NoLog>;

/// What such a hall begins with.
pub type Opened<N, F> = OpenedOf<N, F, NoLog>;

/// A hall under a name, opened with the entries of the copies, over folders below a base, with one to `workers` passes. Its changes are kept
/// nowhere; else it is as `open_kept` has it.
pub fn open_hall<N: HallName, F: Folders>(
    alloc: Global,
    blank: Blank,
    copies: Copies,
    folders: F,
    base: Text,
    workers: u8,
) -> Result<Opened<N, F>, Unopened<F>>
    requires some { 1 ≤ workers }
    requires range { workers ≤ 16 }
    requires name { blank.name ≡ N.name }
    requires parts { blank.parts ≡ N.parts }
    requires share { blank.parts ≡ workers }
    requires book { book_in copies ≡ N.book }
    requires opening { entries_in copies ≡ N.opening }
    requires count { N.folder_count ≤ F.faults folders }
    requires files { shelf_of (F.files folders) base ≡ N.folder_files }
    requires log_count { N.log_count ≡ 0 }
    ensures new { IfOk result (λ opened. All (IsNew (entries_in copies)) opened.passes.items) }
    ensures some { IfOk result (λ opened. 0 < length opened.passes.items) }
    ensures few { IfOk result (λ opened. length opened.passes.items ≤ workers) }
    ensures numbered { IfOk result (λ opened. AreNumbered 1 opened.passes.items) }
    ensures shared { IfOk result (λ opened. parts_of opened.passes.items ≡ N.parts) }
    ensures err { IfErr result (λ unopened. unopened.folders ≡ folders) }
{
    let log = copies.no_log();
    match open_kept(alloc, blank, copies, folders, base, workers, log) {
        Ok(opened) => Ok(opened),
        Err(UnopenedOf { folders, .. }) => Err(Unopened { folders }),
    }
}
