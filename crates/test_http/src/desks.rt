//! A desk over doors in memory, and its guests at a seat of the station's hall.

ghost use Rattle.std.specs.Prelude.{◌≡◌, ◌≤◌, length, true, IfOk};
ghost use Rattle.venue_ports.specs.Doors.{doors_ready, doors_accepted, doors_binds, doors_bound, doors_faults};
ghost use Rattle.venue_ports.specs.InMemory.{memory_files, memory_faults};
ghost use Rattle.shared_hall.specs.Making.{shelf_of};
ghost use Rattle.shared_hall.specs.Copied.{entries_in, book_in};

use crate::station::{base, venue_of};
use shared_hall::{Copies, HallName, Opened, Seat, open_hall, opening_entries};
use std::alloc::Global;
use std::marker::Brand;
use std::process::Abort;
use std::sync::ledger::Blank;
use std::sync::{Arc, Wait};
use std::test::Fail;
use test_station::station_settings;
use venue_ports::{Doors, MemoryDoors, MemoryFolders, MemoryStream};
use venue_service::{DoorDesk, Next};
use venue_session::End;
use venue_types::Text;
use venue_wire::Front;

// What came of an accept: how its session ended, and how many bytes were written there.
#[derive(Clone, Copy, PartialEq, Eq)]
enum Told {
    Nobody,
    Failed,
    Served(End, usize),
}

// What is told, how many connections are then left, and whether an accept has failed.
type Row = (Told, u32, bool);

// The second accept fails.
const ROWS: [Row; 5] = [
    (Told::Served(End::Done, 107), 1, false),
    (Told::Failed, 1, true),
    (Told::Served(End::Cut(3), 0), 0, true),
    (Told::Nobody, 0, true),
    (Told::Nobody, 0, true),
];

// The next connection of a desk, served at a seat.
fn next_at<N: HallName, R: Wait>(
    alloc: Global,
    seat: &mut Seat<'_, N, MemoryFolders, R>,
    desk: &mut DoorDesk<N, MemoryDoors>,
    front: &Front,
) -> Told
    requires { front.now ≡ N.keys }
{
    match desk.next() {
        Next::Nobody => Told::Nobody,
        Next::Failed => Told::Failed,
        Next::Conn(guest) => {
            let (end, conn) = guest.serve(alloc, seat, front);
            Told::Served(end, conn.written().len())
        }
    }
}

// The rows at a desk and a seat, under a name.
fn judge_under<N: HallName, R: Abort + Wait>(
    rt: &R,
    alloc: Global,
    blank: Blank,
    copies: Copies,
    folders: MemoryFolders,
    base: Text,
    doors: MemoryDoors,
    front: &Front,
    connections: u32,
) -> Result<(), Fail>
    requires name { blank.name ≡ N.name }
    requires parts { blank.parts ≡ N.parts }
    requires one { blank.parts ≡ 1 }
    requires book { book_in copies ≡ N.book }
    requires opening { entries_in copies ≡ N.opening }
    requires count { N.folder_count ≤ memory_faults folders }
    requires files { shelf_of (memory_files folders) base ≡ N.folder_files }
    requires log_count { N.log_count ≡ 0 }
    requires ready { doors_ready doors ≡ true }
    requires binds { doors_binds doors ≡ N.binds }
    requires bound { doors_bound doors ≡ N.bound }
    requires connections { connections ≡ N.connections }
    requires accepted { doors_accepted doors ≡ N.accepted }
    requires faults { doors_faults doors ≡ N.door_count }
    requires keys { front.now ≡ N.keys }
{
    let Ok(opened) = open_hall::<N, MemoryFolders>(alloc, blank, copies, folders, base, 1) else {
        return Err(Fail::new("no hall"));
    };
    let Opened { office, passes } = opened;
    let mut passes = passes;
    let Some(pass) = passes.pop() else {
        return Err(Fail::new("no pass"));
    };
    let mut seat = Seat::sit(rt, alloc, pass, &office);
    let mut desk = DoorDesk::<N, MemoryDoors>::new(doors, connections);
    for row in &ROWS {
        let (told, left, failed) = *row;
        assert!(rt; next_at(alloc, &mut seat, &mut desk, front) == told);
        assert!(rt; desk.left() == left);
        assert!(rt; desk.failed() == failed);
    }
    assert!(rt; desk.into_doors().fault_count() == 1);
    Ok(())
}

fn judge<R: Abort + Wait>(
    rt: &R,
    alloc: Global,
    copies: Copies,
    folders: MemoryFolders,
    base: Text,
    doors: MemoryDoors,
    front: &Front,
) -> Result<(), Fail>
    requires { doors_ready doors ≡ true }
{
    let blank = Blank::new(1);
    judge_under::<Brand, R>(rt, alloc, blank, copies, folders, base, doors, front, 2)
}

fn no_folders(alloc: Global) -> Result<MemoryFolders, Fail> {
    match MemoryFolders::new(Vec::new(alloc), Vec::new(alloc)) {
        Ok(folders) => Ok(folders),
        Err(_) => Err(Fail::new("no folders")),
    }
}

fn stream(alloc: Global, text: &str) -> Result<MemoryStream, Fail> {
    let input = Vec::from_slice(alloc, text.as_bytes())?;
    let pieces = Vec::new(alloc);
    match MemoryStream::new(alloc, input, pieces, 200, Vec::new(alloc), Vec::new(alloc)) {
        Ok(stream) => Ok(stream),
        Err(_) => Err(Fail::new("no stream")),
    }
}

// Through these doors come a whole request, a failure, and three bytes of a request.
fn bound_doors(alloc: Global) -> Result<MemoryDoors, Fail>
    ensures { IfOk result (λ doors. doors_ready doors ≡ true) }
{
    let mut streams = Vec::new(alloc);
    streams.push(stream(alloc, "GET /v1/version HTTP/1.1\r\nhost: a\r\n\r\n")?)?;
    streams.push(stream(alloc, "GET")?)?;
    let failing = Vec::from_slice(alloc, &[2])?;
    let Ok(mut doors) = MemoryDoors::new(alloc, streams, Vec::new(alloc), failing) else {
        return Err(Fail::new("no doors"));
    };
    match doors.bind("127.0.0.1:80") {
        Ok(()) => Ok(doors),
        Err(_) => Err(Fail::new("no bind")),
    }
}

#[test]
fn a_desk_follows_its_doors(rt: HostRuntime) -> Result<(), Fail> {
    let alloc = rt.alloc();
    let settings = Arc::new(alloc, station_settings(alloc)?)?;
    let front = Front::new(alloc, &settings.staff_keys)?;
    let venue = venue_of(alloc, &settings)?;
    let entries = opening_entries(alloc, venue)?;
    let copies = Copies::new(&rt, alloc, settings, entries, 1)?;
    let base = base(alloc)?;
    let folders = no_folders(alloc)?;
    judge(
        &rt,
        alloc,
        copies,
        folders,
        base,
        bound_doors(alloc)?,
        &front,
    )
}
