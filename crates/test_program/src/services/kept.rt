//! The command `serve` with a journal, over clients who wait for one another, and over doors of which some calls fail.

use super::talks::Talks;
use super::{ADDRESS, Spoken, clients};
use crate::hostile::texts::CLOSURE;
use crate::journals::contents::{BEGUN, CLOSED, DAMAGED, NOTHING, OPENING, Parts, bytes_of};
use crate::journals::outside::{
    BEHIND, Ended, NONE, Plan, Reads, holds, judge, run_over, run_planned, session,
};
use std::alloc::Global;
use std::process::Abort;
use std::sync::Wait;
use std::test::Fail;
use std::thread::Threads;
use test_station::{LIFT_CLOSED, VERSION};

// Two workers, and two connections.
const BY_TWO: [&str; 7] = ["serve", "base", "station", ADDRESS, "2", "2", "log"];

// One worker, and three connections.
const BY_ONE: [&str; 7] = ["serve", "base", "station", ADDRESS, "1", "3", "log"];

// The upper unit of the lift closed.
const UPPER_CLOSURE: &str =
    "POST /v1/closures HTTP/1.1\r\nhost: a\r\nx-staff-key: desk-key-1\r\ncontent-length: 64\r\n\r\n{'feature':'@0401','closed':true}";

// It was closed, as version 3.
const UPPER_CLOSED: &str =
    "HTTP/1.1 200 OK\r\ncontent-type: application/json\r\ncontent-length: 91\r\n\r\n{'changed':true,'closed':true,'feature':'@0401','version':3}";

// Version 3, at which both are closed.
const BOTH_CLOSED: &str =
    "HTTP/1.1 200 OK\r\ncontent-type: application/json\r\ncontent-length: 36\r\n\r\n{'closed':2,'places':33,'version':3}";

// The first closes the lift and stays. When it has its reply, the second closes the upper unit, by the other worker.
static CLOSING: [Spoken; 2] = [
    (&[(0, 0, CLOSURE), (1, 162, "")], &[LIFT_CLOSED]),
    (&[(0, 162, UPPER_CLOSURE)], &[UPPER_CLOSED]),
];

// Two who ask for the version.
static ASKING: [Spoken; 2] = [
    (&[(0, 0, VERSION)], &[BOTH_CLOSED]),
    (&[(1, 0, VERSION)], &[BOTH_CLOSED]),
];

// The record of a worker that closes the unit of the lift whose identifier ends in 0301 or 0401, for both profiles.
fn closing(worker: u8, unit: u8) -> [u8; 21] {
    [
        1, 2, worker, 0, 0, 0, 0, 0, 0, 0x40, 0, 0x80, 0, 0, 0, 0, 0, unit, 1, 0, 3,
    ]
}

// A journal of the opening and of both closures, that of the lift by this worker, that of the upper unit by that one.
fn both_closed(alloc: Global, lift: u8, upper: u8) -> Result<Vec<u8>, Fail> {
    let lift = closing(lift, 3);
    let upper = closing(upper, 4);
    let parts: [&[u8]; 4] = [OPENING, &lift, &upper, &[0]];
    bytes_of(alloc, &parts)
}

// Two workers serve two of these clients, each is written what it must be, and this is printed.
fn judge_clients<R: Abort + Threads + Wait + Sync>(
    rt: &R,
    alloc: Global,
    table: &[Spoken],
    first: &[u8],
    reads: Reads,
    text: &str,
) -> Result<Ended, Fail> {
    let plan = Plan {
        words: &BY_TWO,
        reads,
        ..session(first, &[])
    };
    let clients = clients(alloc, table)?;
    let ended = run_over(rt, alloc, &plan, Talks::new(clients.as_slice()))?;
    for client in &clients {
        assert!(rt; client.ending() == (0, false, false));
    }
    assert!(rt; str::from_utf8(ended.text.as_slice()) == Ok(text));
    assert!(rt; ended.status == 0);
    assert!(rt; ended.folder_faults == 0);
    assert!(rt; ended.door_faults == 0);
    assert!(rt; ended.opens == 1);
    Ok(ended)
}

#[test]
fn two_workers_keep_a_journal(rt: HostRuntime) -> Result<(), Fail> {
    let alloc = rt.alloc();
    let ended = judge_clients(
        &rt,
        alloc,
        &CLOSING,
        &[],
        NONE,
        "listening 127.0.0.1:7070\nworkers 2 sessions 2 versions 3 changes 2\n",
    )?;
    // Either worker may have had the first client.
    let one = both_closed(alloc, 1, 2)?;
    let other = both_closed(alloc, 2, 1)?;
    assert!(rt; one.len() == 12_476);
    assert!(rt; holds(&ended, one.as_slice()) || holds(&ended, other.as_slice()));
    Ok(())
}

#[test]
fn two_workers_go_on_with_a_journal(rt: HostRuntime) -> Result<(), Fail> {
    let alloc = rt.alloc();
    let first = both_closed(alloc, 2, 1)?;
    let ended = judge_clients(
        &rt,
        alloc,
        &ASKING,
        first.as_slice(),
        BEHIND,
        "listening 127.0.0.1:7070\nworkers 2 sessions 2 versions 3 changes 0\n",
    )?;
    assert!(rt; holds(&ended, first.as_slice()));
    Ok(())
}

/// Which bind, accept and write of the console fail (0: none), what the journal has, what is printed, the status, how often the doors fail, and what the
/// journal then has.
type Stop = ([u64; 3], Parts, &'static str, u8, u64, Parts);

static STOPS: [Stop; 6] = [
    // Nothing is bound.
    ([1, 0, 0], DAMAGED, "damaged 0\n", 2, 0, DAMAGED),
    ([1, 0, 0], CLOSED, "fault doors\n", 3, 1, CLOSED),
    ([1, 0, 0], NOTHING, "fault doors\n", 3, 1, BEGUN),
    (
        [0, 2, 0],
        CLOSED,
        "listening 127.0.0.1:7070\nworkers 1 sessions 1 versions 2 changes 0\n",
        3,
        1,
        CLOSED,
    ),
    ([0, 0, 1], CLOSED, "", 3, 0, CLOSED),
    (
        [0, 0, 2],
        CLOSED,
        "listening 127.0.0.1:7070\n",
        3,
        0,
        CLOSED,
    ),
];

fn judge_stop<R: Abort + Threads + Wait + Sync>(
    rt: &R,
    alloc: Global,
    row: &Stop,
) -> Result<(), Fail> {
    let (failing, first, text, status, faults, last) = *row;
    let [bind, accept, write] = failing;
    let first = bytes_of(alloc, first)?;
    let plan = Plan {
        words: &BY_ONE,
        write,
        ..session(first.as_slice(), &[])
    };
    let ended = run_planned(rt, alloc, &plan, [bind, accept])?;
    judge(rt, alloc, &ended, &[text], status, last)?;
    assert!(rt; ended.door_faults == faults);
    assert!(rt; ended.folder_faults == 0);
    Ok(())
}

#[test]
fn a_service_stops(rt: HostRuntime) -> Result<(), Fail> {
    for row in &STOPS {
        judge_stop(&rt, rt.alloc(), row)?;
    }
    Ok(())
}
