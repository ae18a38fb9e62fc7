//! Halls that keep a journal, row by row: what their seats are told, and what the journal then holds. The station's record has 12,433 bytes.

use crate::going_on::{Course, End, judge, judge_behind};
use crate::halls::{Deed, Row, Told, Who};
use crate::readings::{STATION, journal_of};
use crate::records::{CLOSING, REOPENING};
use std::test::Fail;

// A course of which no call fails.
const fn course(rows: &[Row]) -> Course<'_> {
    Course {
        last_version: u32::MAX,
        failing: &[],
        failing_read: 0,
        rows,
    }
}

// The lift is closed by the first seat; both find it so.
const CLOSED: [Row; 4] = [
    (Who::One, Deed::Close(0x0301), Told::Closure(2, true, true)),
    (Who::One, Deed::Look, Told::Seen(2)),
    (Who::Other, Deed::Look, Told::Seen(1)),
    (Who::Other, Deed::Closures, Told::Closures(2, 1, 0x0301)),
];

// It isn't, since the log fails; then it is.
const CLOSED_AGAIN: [Row; 7] = [
    (Who::One, Deed::Close(0x0301), Told::JournalFault(0, 1)),
    (Who::One, Deed::Closures, Told::Closures(1, 0, 0)),
    (Who::Other, Deed::CatchUp, Told::Seen(1)),
    (Who::Other, Deed::Closures, Told::Closures(1, 0, 0)),
    (Who::One, Deed::Close(0x0301), Told::Closure(2, true, true)),
    (Who::One, Deed::Closures, Told::Closures(2, 1, 0x0301)),
    (Who::Other, Deed::Closures, Told::Closures(2, 1, 0x0301)),
];

// The call of the closure that fails, and how many there were in all once it was closed again.
const FAILING: [(u64, u64); 4] = [(1, 5), (2, 6), (3, 9), (4, 10)];

#[test]
fn a_closure_is_kept(rt: HostRuntime) -> Result<(), Fail> {
    let end = End {
        number: 2,
        changes: 1,
        calls: 4,
        records: &[(1, 0x0301, true)],
    };
    judge(&rt, rt.alloc(), &course(&CLOSED), &end)?;
    for (failing, calls) in FAILING {
        let failing = [failing];
        let course = Course {
            failing: &failing,
            ..course(&CLOSED_AGAIN)
        };
        judge(&rt, rt.alloc(), &course, &End { calls, ..end })?;
    }
    Ok(())
}

// Three closures fail, at the first call, at the third and at the last one, and a fourth doesn't.
const THREE_FAULTS: [Row; 6] = [
    (Who::One, Deed::Close(0x0101), Told::JournalFault(0, 1)),
    (Who::Other, Deed::Close(0x0021), Told::JournalFault(1, 2)),
    (Who::One, Deed::Close(0x0301), Told::JournalFault(2, 3)),
    (Who::One, Deed::Close(0x0401), Told::Closure(2, true, true)),
    (Who::One, Deed::Closures, Told::Closures(2, 1, 0x0401)),
    (Who::Other, Deed::Closures, Told::Closures(2, 1, 0x0401)),
];

// A closure by the first worker fails, and the same by the second doesn't.
const BY_THE_OTHER: [Row; 2] = [
    (Who::One, Deed::Close(0x0301), Told::JournalFault(0, 1)),
    (
        Who::Other,
        Deed::Close(0x0301),
        Told::Closure(2, true, true),
    ),
];

#[test]
fn what_failed_leaves_nothing(rt: HostRuntime) -> Result<(), Fail> {
    let three = Course {
        failing: &[1, 4, 10],
        ..course(&THREE_FAULTS)
    };
    let end = End {
        number: 2,
        changes: 1,
        calls: 16,
        records: &[(1, 0x0401, true)],
    };
    judge(&rt, rt.alloc(), &three, &end)?;
    let by_the_other = Course {
        failing: &[1],
        ..course(&BY_THE_OTHER)
    };
    let end = End {
        calls: 5,
        records: &[(2, 0x0301, true)],
        ..end
    };
    judge(&rt, rt.alloc(), &by_the_other, &end)
}

// A folder that breaks a rule, one whose fifth file isn't read, what stands so already, and a feature that there isn't.
const NOTHING_MADE: [Row; 5] = [
    (Who::One, Deed::Publish("tall"), Told::Rejected(1)),
    (Who::One, Deed::Publish("station"), Told::Fault(0, 1)),
    (
        Who::One,
        Deed::Reopen(0x0301),
        Told::Closure(1, false, false),
    ),
    (Who::One, Deed::Close(0x0999), Told::NoFeature),
    (Who::Other, Deed::Ask, Told::Version(1, 0)),
];

// The second version is the last.
const UNTIL_2: [Row; 2] = [
    (Who::One, Deed::Close(0x0301), Told::Closure(2, true, true)),
    (Who::Other, Deed::Close(0x0401), Told::Full(2)),
];

#[test]
fn what_is_not_made_is_not_kept(rt: HostRuntime) -> Result<(), Fail> {
    let nothing = Course {
        failing_read: 22,
        ..course(&NOTHING_MADE)
    };
    let end = End {
        number: 1,
        changes: 0,
        calls: 0,
        records: &[],
    };
    judge(&rt, rt.alloc(), &nothing, &end)?;
    let until_2 = Course {
        last_version: 2,
        ..course(&UNTIL_2)
    };
    let end = End {
        number: 2,
        changes: 1,
        calls: 4,
        records: &[(1, 0x0301, true)],
    };
    judge(&rt, rt.alloc(), &until_2, &end)
}

// A history of three entries goes on.
const BEHIND_THREE: [Row; 7] = [
    (Who::One, Deed::Look, Told::Seen(3)),
    (Who::Other, Deed::Look, Told::Seen(3)),
    (Who::Other, Deed::Closures, Told::Closures(3, 1, 0x0301)),
    (Who::One, Deed::Close(0x0101), Told::Closure(4, true, true)),
    (
        Who::Other,
        Deed::Reopen(0x0301),
        Told::Closure(5, false, true),
    ),
    (Who::One, Deed::Look, Told::Seen(4)),
    (Who::One, Deed::Closures, Told::Closures(5, 1, 0x0101)),
];

#[test]
fn a_history_goes_on(rt: HostRuntime) -> Result<(), Fail> {
    let parts: [&[u8]; 5] = [&[1, 1, 0], STATION, &CLOSING, &REOPENING, &[0]];
    let first = journal_of(rt.alloc(), &parts)?;
    let end = End {
        number: 5,
        changes: 2,
        calls: 8,
        records: &[(1, 0x0101, true), (2, 0x0301, false)],
    };
    judge_behind(&rt, rt.alloc(), &first, &course(&BEHIND_THREE), &end)
}

// A request of staff: the lift is closed.
const CLOSURE: &str =
    "POST /v1/closures HTTP/1.1\r\nhost: a\r\nx-staff-key: desk-key-1\r\ncontent-length: 64\r\n\r\n{\"feature\":\"00000000-0000-4000-8000-000000000301\",\"closed\":true}";

// It was closed.
const DONE: &str =
    "HTTP/1.1 200 OK\r\ncontent-type: application/json\r\ncontent-length: 91\r\n\r\n{\"changed\":true,\"closed\":true,\"feature\":\"00000000-0000-4000-8000-000000000301\",\"version\":2}";

// The log failed.
const FAILED: &str =
    "HTTP/1.1 502 Bad Gateway\r\ncontent-type: application/json\r\ncontent-length: 25\r\n\r\n{\"error\":\"journal_fault\"}";

const SESSIONS: [Row; 3] = [
    (Who::One, Deed::Serve(CLOSURE, FAILED), Told::Written),
    (Who::Other, Deed::Ask, Told::Version(1, 0)),
    (Who::One, Deed::Serve(CLOSURE, DONE), Told::Written),
];

#[test]
fn a_session_tells_of_the_journal(rt: HostRuntime) -> Result<(), Fail> {
    let course = Course {
        failing: &[1],
        ..course(&SESSIONS)
    };
    let end = End {
        number: 2,
        changes: 1,
        calls: 5,
        records: &[(1, 0x0301, true)],
    };
    judge(&rt, rt.alloc(), &course, &end)
}
