//! A hall closed.

ghost use Rattle.std.specs.Prelude.{◌≡◌, ◌+◌, ◌<◌, ◌≤◌, length, All};
ghost use mathlib.Core.List.{IsPrefix};
ghost use Rattle.venue_hall.specs.Histories.{IsLegal};
ghost use Rattle.venue_hall.specs.Standing.{AreRecordsOf};
ghost use Rattle.shared_hall.specs.Offices.{parts_of, made_of, Begins, HasShelf, IsOneHistory};

use super::{LoggedOffice, OfficeOf, Pass, PassOf};
use crate::name::HallName;
use board_copies::{BaseFolders, Keeper};
use std::sync::ledger::Share;
use std::sync::{Mutex, Wait};
use venue_hall::{Log, legal_law, number_law};
use venue_ports::Folders;

/// What a hall ends with.
#[derive(Drop)]
pub struct Closed<F, J> {
    pub folders: F,
    pub log: J,
    /// How many entries the history has.
    pub number: u32,
    /// How many accepted changes the passes told.
    pub changes: u32,
}

impl<N: HallName, F: Folders, J: Log> OfficeOf<N, F, Keeper, J> {
    // Takes in a pass, which has seen a beginning of the history.
    fn take_in<R: Wait>(&mut self, rt: &R, pass: Pass<N>) -> Share<N>
        ensures office { self.new ≡ self.old }
        ensures parts { result.parts ≡ pass.parts }
        ensures amount { result.amount ≡ pass.made }
        ensures begins { Begins self.old.entries pass }
    {
        let mut pass = pass;
        self.tell(rt, &mut pass);
        let PassOf { share, .. } = pass;
        share
    }

    // Ends the history, of whose changes the share has all parts.
    fn end<R: Wait>(self, rt: &R, all: Share<N>) -> Closed<F, J>
        requires { all.parts ≡ N.parts }
        ensures number { result.number ≡ length self.entries }
        ensures legal { IsLegal self.entries }
        ensures told { result.changes ≡ all.amount }
        ensures opened { IsPrefix N.opening self.entries }
        ensures counted { result.number ≡ length N.opening + result.changes }
        ensures folders { F.faults result.folders ≡ self.faults }
        ensures files { HasShelf (F.files result.folders) N.folder_files }
        ensures count { N.folder_count ≤ self.faults }
        ensures records { AreRecordsOf (J.records result.log) self.entries }
        ensures length { J.length result.log ≡ length self.entries }
        ensures log_count { N.log_count ≤ J.faults result.log }
    {
        number_law();
        let OfficeOf {
            keeper,
            mut book,
            reader,
            log,
            start,
            ..
        } = self;
        let mut all = all;
        book.audit(&mut all);
        let number = keeper.writer.published().held.board.number();
        drop(keeper.into_writer().take(rt));
        let BaseFolders { folders, .. } = reader;
        Closed {
            folders,
            log,
            number,
            changes: number - start,
        }
    }
}

// Takes in all passes, each of which has seen a beginning of the history.
fn take_in_all<N: HallName, F: Folders, J: Log, R: Wait>(
    rt: &R,
    office: &mut LoggedOffice<N, F, J>,
    passes: Vec<Pass<N>>,
    all: Share<N>,
) -> Share<N>
    ensures office { office.new ≡ office.old }
    ensures parts { result.parts ≡ all.parts + parts_of passes.items }
    ensures amount { result.amount ≡ all.amount + made_of passes.items }
    ensures begins { All (Begins office.old.entries) passes.items }
{
    let mut passes = passes;
    let mut all = all;
    while let Some(pass) = passes.pop() {
        all.merge(office.take_in(rt, pass));
    }
    all
}

/// Closes a hall of which all passes are handed in: they have seen beginnings of one history, which has one entry for each change that
/// they told, behind those with which it was opened. The log comes back with a record for each entry. It waits for readers as a publication does.
pub fn close_hall<N: HallName, F: Folders, J: Log, R: Wait>(
    rt: &R,
    office: Mutex<LoggedOffice<N, F, J>>,
    passes: Vec<Pass<N>>,
) -> Closed<F, J>
    requires some { 0 < length passes.items }
    requires parts { parts_of passes.items ≡ N.parts }
    ensures history { IsOneHistory N.opening passes.items (J.records result.log) result.number result.changes }
    ensures length { J.length result.log ≡ result.number }
    ensures log_count { N.log_count ≤ J.faults result.log }
    ensures folders { N.folder_count ≤ F.faults result.folders }
    ensures files { HasShelf (F.files result.folders) N.folder_files }
{
    let mut office = office.into_inner();
    let mut passes = passes;
    let Some(pass) = passes.pop() else {
        unreachable!()
    };
    let first = office.take_in(rt, pass);
    let all = take_in_all(rt, &mut office, passes, first);
    office.end(rt, all)
}
