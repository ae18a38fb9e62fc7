//! A hall opened: the office over the two copies, and the passes.

ghost use Rattle.std.specs.Prelude.{◌≡◌, ◌+◌, ◌<◌, ◌≤◌, length, All, IfOk, IfErr};
ghost use Rattle.left_right.specs.Sides.{view};
ghost use Rattle.venue_hall.specs.Standing.{AreRecordsOf};
ghost use Rattle.board_copies.specs.Rules.{list_of, book_of, whole, Knows};
ghost use Rattle.board_copies.specs.Stamps.{entries_of};
ghost use Rattle.board_copies.specs.Making.{shelf_of};
ghost use Rattle.shared_hall.specs.Copied.{entries_in, book_in};
ghost use Rattle.shared_hall.specs.Offices.{parts_of, AreNumbered, IsNew};

use super::{LoggedOffice, OfficeOf, Pass, PassOf};
use crate::copies::Copies;
use crate::name::HallName;
use board_copies::{BaseFolders, Held, SideReader, SideWriter, make_reader};
use std::alloc::Global;
use std::sync::Mutex;
use std::sync::ledger::{Blank, Share};
use venue_hall::{Log, number_law};
use venue_ports::Folders;
use venue_types::{OutOfMemory, Text};

/// What a hall begins with.
#[derive(Drop)]
pub struct OpenedOf<N: HallName, F: Folders, J: Log> {
    pub office: Mutex<LoggedOffice<N, F, J>>,
    pub passes: Vec<Pass<N>>,
}

/// No hall was opened, since memory ran out. The folders and the log come back.
#[derive(Drop)]
pub struct UnopenedOf<F, J> {
    pub folders: F,
    pub log: J,
}

// One to `workers` readers, each of which knows all of the copy that is published.
fn make_readers(
    alloc: Global,
    writer: &mut SideWriter,
    workers: u8,
) -> Result<Vec<SideReader>, OutOfMemory>
    requires known { Knows (view writer.old.desk.place) writer.old.desk.shown.value }
    requires some { 1 ≤ workers }
    ensures readers { IfOk result (λ readers. All (λ reader. Knows (view reader.place) writer.old.desk.shown.value) readers.items) }
    ensures some { IfOk result (λ readers. 0 < length readers.items) }
    ensures range { IfOk result (λ readers. length readers.items ≤ workers) }
    ensures shown { writer.new.desk.shown.value ≡ writer.old.desk.shown.value }
{
    let mut readers = Vec::new(alloc);
    readers.push(make_reader(writer)?)?;
    while readers.len() < usize::from(workers) {
        let Ok(reader) = make_reader(writer) else {
            break;
        };
        readers.push(reader)?;
    }
    Ok(readers)
}

// A pass of a reader that has seen this board's entries, which told no change.
fn pass_of<N: HallName>(reader: SideReader, held: &Held, worker: u8, share: Share<N>) -> Pass<N>
    requires reader { view reader.place ≡ whole (entries_of held.now.stamp) N.book }
    requires opening { entries_of held.now.stamp ≡ N.opening }
    requires some { 1 ≤ worker }
    requires range { worker ≤ 16 }
    requires part { 0 < share.parts }
    requires nothing { share.amount ≡ 0 }
    ensures new { IsNew (entries_of held.now.stamp) result }
    ensures worker { result.worker ≡ worker }
    ensures parts { result.parts ≡ share.parts }
{
    number_law();
    PassOf {
        reader,
        number: held.board.number(),
        worker,
        share,
        faults: 0,
        looks: 0,
    }
}

// The passes of these readers, numbered from 1: each has one part of the changes, and the last all that are left.
fn passes_of<N: HallName>(
    alloc: Global,
    held: &Held,
    readers: Vec<SideReader>,
    rest: Share<N>,
) -> Result<Vec<Pass<N>>, OutOfMemory>
    requires readers { All (λ reader. view reader.place ≡ whole (entries_of held.now.stamp) N.book) readers.items }
    requires opening { entries_of held.now.stamp ≡ N.opening }
    requires some { 0 < length readers.items }
    requires range { length readers.items ≤ 16 }
    requires parts { length readers.items ≤ rest.parts }
    requires nothing { rest.amount ≡ 0 }
    ensures new { IfOk result (λ passes. All (IsNew (entries_of held.now.stamp)) passes.items) }
    ensures count { IfOk result (λ passes. length passes.items ≡ length readers.items) }
    ensures numbered { IfOk result (λ passes. AreNumbered 1 passes.items) }
    ensures parts { IfOk result (λ passes. parts_of passes.items ≡ rest.parts) }
{
    let mut readers = readers;
    let mut rest = rest;
    let Some(last) = readers.pop() else {
        unreachable!()
    };
    let mut passes = Vec::new(alloc);
    let mut worker = 1u8;
    while let Some(reader) = readers.pop() {
        let share = rest.split_off(1, 0);
        passes.push(pass_of(reader, held, worker, share))?;
        worker += 1;
    }
    passes.push(pass_of(last, held, worker, rest))?;
    Ok(passes)
}

// The passes over what the writer publishes.
fn open_passes<N: HallName>(
    alloc: Global,
    writer: &mut SideWriter,
    rest: Share<N>,
    workers: u8,
) -> Result<Vec<Pass<N>>, OutOfMemory>
    requires known { Knows (view writer.old.desk.place) writer.old.desk.shown.value }
    requires book { book_of writer.old.desk.shown.value ≡ N.book }
    requires opening { list_of writer.old.desk.shown.value ≡ N.opening }
    requires some { 1 ≤ workers }
    requires range { workers ≤ 16 }
    requires parts { rest.parts ≡ workers }
    requires nothing { rest.amount ≡ 0 }
    ensures new { IfOk result (λ passes. All (IsNew (list_of writer.old.desk.shown.value)) passes.items) }
    ensures some { IfOk result (λ passes. 0 < length passes.items) }
    ensures range { IfOk result (λ passes. length passes.items ≤ workers) }
    ensures numbered { IfOk result (λ passes. AreNumbered 1 passes.items) }
    ensures parts { IfOk result (λ passes. parts_of passes.items ≡ rest.parts) }
    ensures shown { writer.new.desk.shown.value ≡ writer.old.desk.shown.value }
{
    let readers = make_readers(alloc, writer, workers)?;
    passes_of(alloc, &writer.published().held, readers, rest)
}

/// A hall under a name, opened with the entries of the copies and a log that has a record of each, over folders below a base, with one to
/// `workers` passes. Each has seen these entries, and has a part of the changes. Where memory runs out the folders and the log come back.
pub fn open_kept<N: HallName, F: Folders, J: Log>(
    alloc: Global,
    blank: Blank,
    copies: Copies,
    folders: F,
    base: Text,
    workers: u8,
    log: J,
) -> Result<OpenedOf<N, F, J>, UnopenedOf<F, J>>
    requires some { 1 ≤ workers }
    requires range { workers ≤ 16 }
    requires name { blank.name ≡ N.name }
    requires parts { blank.parts ≡ N.parts }
    requires share { blank.parts ≡ workers }
    requires book { book_in copies ≡ N.book }
    requires opening { entries_in copies ≡ N.opening }
    requires count { N.folder_count ≤ F.faults folders }
    requires files { shelf_of (F.files folders) base ≡ N.folder_files }
    requires length { J.length log ≡ length (entries_in copies) }
    requires records { AreRecordsOf (J.records log) (entries_in copies) }
    requires log_count { N.log_count ≤ J.faults log }
    ensures new { IfOk result (λ opened. All (IsNew (entries_in copies)) opened.passes.items) }
    ensures some { IfOk result (λ opened. 0 < length opened.passes.items) }
    ensures few { IfOk result (λ opened. length opened.passes.items ≤ workers) }
    ensures numbered { IfOk result (λ opened. AreNumbered 1 opened.passes.items) }
    ensures shared { IfOk result (λ opened. parts_of opened.passes.items ≡ N.parts) }
    ensures folders { IfErr result (λ unopened. unopened.folders ≡ folders) }
    ensures log { IfErr result (λ unopened. unopened.log ≡ log) }
{
    number_law();
    let (book, rest) = blank.open::<N>();
    let Copies {
        mut keeper,
        roll,
        settings,
    } = copies;
    let Ok(passes) = open_passes(alloc, &mut keeper.writer, rest, workers) else {
        return Err(UnopenedOf { folders, log });
    };
    let start = keeper.writer.published().held.board.number();
    let office = OfficeOf {
        keeper,
        roll,
        book,
        reader: BaseFolders { folders, base },
        settings,
        log,
        start,
    };
    Ok(OpenedOf {
        office: Mutex::new(office),
        passes,
    })
}
