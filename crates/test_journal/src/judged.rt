//! What other workers change between the reading of a folder and its publication, while nobody holds the lock.

ghost use Rattle.std.specs.Prelude.{◌≡◌, ◌≤◌, length, IfOk};
ghost use Rattle.std.specs.Arc.{arc_value};
ghost use Rattle.venue_history.specs.Histories.{IsLegal};
ghost use Rattle.shared_hall.specs.Copied.{entries_in, book_in};
ghost use Rattle.shared_hall.specs.Judging.{AreSettingsOf};
ghost use Rattle.shared_hall.specs.Making.{shelf_of};
ghost use Rattle.shared_hall.specs.Standing.{AreRecordsOf};

use crate::disks::content;
use crate::going_on::{closure_text, disk_behind, kept, settings_until};
use crate::halls::{Beginning, Told, told_of};
use crate::publications::station;
use crate::readings::{STATION, journal_of};
use crate::records::LIFT;
use board_copies::judge_files;
use shared_hall::{
    Closed, HallName, Log, LoggedOffice, OpenedOf, Pass, Unjudged, close_hall, open_kept,
};
use std::alloc::Global;
use std::marker::Brand;
use std::process::Abort;
use std::sync::ledger::Blank;
use std::sync::{Mutex, Wait};
use std::test::Fail;
use venue_history::{legal_law, version_law};
use venue_ports::Folders;
use venue_types::{Ask, Change, Closure, Query, Text};

// The first half of a publication: the station's folder, read under the lock.
fn read<N: HallName, F: Folders, J: Log, R: Wait>(
    rt: &R,
    alloc: Global,
    office: &Mutex<LoggedOffice<N, F, J>>,
    pass: &mut Pass<N>,
) -> Result<Unjudged, Fail>
    ensures seventeen { IfOk result (λ it. length it.files.slots ≡ 17) }
    ensures settings { IfOk result (λ it. AreSettingsOf pass.new.seen (arc_value it.settings)) }
    ensures legal { IfOk result (λ _. IsLegal pass.new.seen) }
    ensures parts { pass.new.parts ≡ pass.old.parts }
{
    let folder = Text::from_string(String::from_str(alloc, "station")?);
    let mut guard = office.lock(rt);
    let office = &mut *guard;
    office.tell(rt, pass);
    match office.read_folder(alloc, &folder, pass) {
        Ok(found) => Ok(found),
        Err(_) => Err(Fail::new("the folder is not read")),
    }
}

// The second half: it is judged while the lock is free, and then published.
fn publish<N: HallName, F: Folders, J: Log, R: Wait>(
    rt: &R,
    alloc: Global,
    office: &Mutex<LoggedOffice<N, F, J>>,
    pass: &mut Pass<N>,
    found: Unjudged,
) -> Result<Told, Fail>
    requires seventeen { length found.files.slots ≡ 17 }
    requires settings { AreSettingsOf pass.old.seen (arc_value found.settings) }
    requires legal { IsLegal pass.old.seen }
    ensures parts { pass.new.parts ≡ pass.old.parts }
{
    version_law();
    legal_law();
    let Unjudged { files, settings } = found;
    let Ok(venue) = judge_files(alloc, &files, &settings) else {
        return Err(Fail::new("the folder is rejected"));
    };
    let mut guard = office.lock(rt);
    let office = &mut *guard;
    office.tell(rt, pass);
    let reply = office.publish(rt, alloc, files, venue, pass);
    Ok(told_of(&reply))
}

// Closes the lift for all.
fn close<N: HallName, F: Folders, J: Log, R: Wait>(
    rt: &R,
    alloc: Global,
    office: &Mutex<LoggedOffice<N, F, J>>,
    pass: &mut Pass<N>,
) -> Told
    ensures parts { pass.new.parts ≡ pass.old.parts }
{
    let change = Change::Closure(Closure {
        feature: LIFT,
        closed: true,
        profiles: None,
    });
    let mut guard = office.lock(rt);
    let office = &mut *guard;
    told_of(&office.change(rt, alloc, &change, pass))
}

// What is closed at the version that is published.
fn closures<N: HallName>(alloc: Global, pass: &mut Pass<N>) -> Told
    ensures parts { pass.new.parts ≡ pass.old.parts }
{
    let query = Query {
        since: None,
        what: Ask::Closures,
    };
    told_of(&pass.ask(alloc, &query))
}

// The other closes the lift between the two halves of the one's publication, which leaves it closed.
fn close_between<N: HallName, F: Folders, J: Log, R: Abort + Wait>(
    rt: &R,
    alloc: Global,
    office: &Mutex<LoggedOffice<N, F, J>>,
    one: &mut Pass<N>,
    other: &mut Pass<N>,
) -> Result<(), Fail>
    ensures one { one.new.parts ≡ one.old.parts }
    ensures other { other.new.parts ≡ other.old.parts }
{
    let found = read(rt, alloc, office, one)?;
    assert!(rt; close(rt, alloc, office, other) == Told::Closure(2, true, true));
    assert!(rt; closures(alloc, other) == Told::Closures(2, 1, 0x0301));
    assert!(rt; publish(rt, alloc, office, one, found)? == Told::Published(3, 0, 0));
    assert!(rt; closures(alloc, one) == Told::Closures(3, 1, 0x0301));
    assert!(rt; closures(alloc, other) == Told::Closures(3, 1, 0x0301));
    Ok(())
}

// The other's whole publication, between the two halves of the one's: they count as two.
fn publish_between<N: HallName, F: Folders, J: Log, R: Abort + Wait>(
    rt: &R,
    alloc: Global,
    office: &Mutex<LoggedOffice<N, F, J>>,
    one: &mut Pass<N>,
    other: &mut Pass<N>,
) -> Result<(), Fail>
    ensures one { one.new.parts ≡ one.old.parts }
    ensures other { other.new.parts ≡ other.old.parts }
{
    let found = read(rt, alloc, office, one)?;
    let same = read(rt, alloc, office, other)?;
    assert!(rt; publish(rt, alloc, office, other, same)? == Told::Published(4, 0, 0));
    assert!(rt; publish(rt, alloc, office, one, found)? == Told::Published(5, 0, 0));
    assert!(rt; closures(alloc, one) == Told::Closures(5, 1, 0x0301));
    assert!(rt; closures(alloc, other) == Told::Closures(5, 1, 0x0301));
    Ok(())
}

// Both at a hall of two workers under a name, which is then closed.
fn hall_under<N: HallName, F: Folders + Drop, J: Log + Drop, R: Abort + Wait>(
    rt: &R,
    alloc: Global,
    blank: Blank,
    beginning: Beginning<F, J>,
) -> Result<Closed<F, J>, Fail>
    requires name { blank.name ≡ N.name }
    requires parts { blank.parts ≡ N.parts }
    requires two { blank.parts ≡ 2 }
    requires book { book_in beginning.copies ≡ N.book }
    requires opening { entries_in beginning.copies ≡ N.opening }
    requires length { J.length beginning.log ≡ length (entries_in beginning.copies) }
    requires records { AreRecordsOf (J.records beginning.log) (entries_in beginning.copies) }
    requires count { N.folder_count ≤ F.faults beginning.folders }
    requires files { shelf_of (F.files beginning.folders) beginning.base ≡ N.folder_files }
    requires log_count { N.log_count ≤ J.faults beginning.log }
{
    let Beginning {
        copies,
        folders,
        base,
        log,
    } = beginning;
    let Ok(opened) = open_kept::<N, F, J>(alloc, blank, copies, folders, base, 2, log) else {
        return Err(Fail::new("no hall"));
    };
    let OpenedOf { office, passes } = opened;
    let mut passes = passes;
    let (Some(mut other), Some(mut one)) = (passes.pop(), passes.pop()) else {
        return Err(Fail::new("no two passes"));
    };
    close_between(rt, alloc, &office, &mut one, &mut other)?;
    publish_between(rt, alloc, &office, &mut one, &mut other)?;
    passes.push(one)?;
    passes.push(other)?;
    Ok(close_hall(rt, office, passes))
}

// The same at a hall that begins so.
fn hall_at<F: Folders + Drop, J: Log + Drop, R: Abort + Wait>(
    rt: &R,
    alloc: Global,
    beginning: Beginning<F, J>,
) -> Result<Closed<F, J>, Fail>
    requires length { J.length beginning.log ≡ length (entries_in beginning.copies) }
    requires records { AreRecordsOf (J.records beginning.log) (entries_in beginning.copies) }
{
    hall_under::<Brand, F, J, R>(rt, alloc, Blank::new(2), beginning)
}

#[test]
fn a_change_comes_between(rt: HostRuntime) -> Result<(), Fail> {
    let alloc = rt.alloc();
    let first = station(alloc)?.journal(alloc)?;
    let settings = settings_until(alloc, u32::MAX)?;
    let disk = disk_behind(alloc, &first, &settings, &[])?;
    let beginning = kept(&rt, alloc, disk, settings, 0, 2)?;
    let closed = hall_at(&rt, alloc, beginning)?;
    assert!(rt; closed.number == 5);
    assert!(rt; closed.changes == 4);
    // The history, each entry by its worker: the closure by the second, and publications by the first, the second and the first.
    let closing = closure_text(2, LIFT, true);
    let parts: [&[u8]; 10] = [
        &[1, 1, 0],
        STATION,
        &closing,
        &[1, 1, 1],
        STATION,
        &[1, 1, 2],
        STATION,
        &[1, 1, 1],
        STATION,
        &[0],
    ];
    let mut disk = closed.log.into_disk();
    assert!(rt; content(alloc, &mut disk)? == journal_of(alloc, &parts)?);
    Ok(())
}
