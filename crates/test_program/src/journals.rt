//! The command `session` with a journal, over folders and disks in memory: what is written, the status, what the journal then has to the last byte, and how
//! often the folders failed and a disk was asked for. Where a journal has records, each read of the folder would fail.

pub(crate) mod contents;
pub(crate) mod outside;
mod stops;

use crate::hostile::texts::{CLOSURE, JOURNAL_FAULT, LIFT_REOPENED, REOPENED_LIFT, REOPENING};
use contents::{BEGUN, CLOSED, NOTHING, Parts, REOPENED, bytes_of};
use outside::{BEHIND, Ended, NONE, Plan, Reads, holds, judge, run_planned, session};
use std::alloc::Global;
use std::process::Abort;
use std::sync::Wait;
use std::test::Fail;
use std::thread::Threads;
use test_station::{AS_ASKED, CLOSED_LIFT, FIRST, LIFT_CLOSED, VERSION};

/// What the journal has, which reads of files fail, what is sent and written, and what the journal then has.
type Session = (
    Parts,
    Reads,
    &'static [&'static str],
    &'static [&'static str],
    Parts,
);

static SESSIONS: [Session; 8] = [
    (NOTHING, NONE, &[], &[], BEGUN),
    (NOTHING, NONE, &[VERSION], &[FIRST], BEGUN),
    // An open gate with nothing behind it.
    (&[&[1]], NONE, &[VERSION], &[FIRST], BEGUN),
    (NOTHING, NONE, &[CLOSURE], &[LIFT_CLOSED], CLOSED),
    (BEGUN, BEHIND, &[VERSION], &[FIRST], BEGUN),
    (CLOSED, BEHIND, &[VERSION], &[CLOSED_LIFT], CLOSED),
    (
        CLOSED,
        BEHIND,
        &[CLOSURE, REOPENING],
        &[AS_ASKED, LIFT_REOPENED],
        REOPENED,
    ),
    (REOPENED, BEHIND, &[VERSION], &[REOPENED_LIFT], REOPENED),
];

// What is sent and written where the last call of the first closure's append fails. The journal has the closure all the same.
static LAST_SYNCS: [(&[&str], &[&str]); 2] = [
    (&[CLOSURE], &[JOURNAL_FAULT]),
    (&[CLOSURE, CLOSURE], &[JOURNAL_FAULT, LIFT_CLOSED]),
];

// What is sent where the first reply can't be written, and what the journal then has.
static UNWRITTEN: [(&[&str], Parts); 2] = [(&[VERSION], BEGUN), (&[CLOSURE], CLOSED)];

#[test]
fn journals_have_so_many_bytes(rt: HostRuntime) -> Result<(), Fail> {
    let alloc = rt.alloc();
    assert!(rt; bytes_of(alloc, BEGUN)?.len() == 12_434);
    assert!(rt; bytes_of(alloc, CLOSED)?.len() == 12_455);
    assert!(rt; bytes_of(alloc, REOPENED)?.len() == 12_476);
    Ok(())
}

fn judge_session<R: Abort + Threads + Wait + Sync>(
    rt: &R,
    alloc: Global,
    row: &Session,
) -> Result<(), Fail> {
    let (first, reads, sent, written, last) = *row;
    let first = bytes_of(alloc, first)?;
    let plan = Plan {
        reads,
        ..session(first.as_slice(), sent)
    };
    let ended = run_planned(rt, alloc, &plan, [0, 0])?;
    judge(rt, alloc, &ended, written, 0, last)?;
    assert!(rt; ended.folder_faults == 0);
    Ok(())
}

#[test]
fn a_session_goes_on_with_its_journal(rt: HostRuntime) -> Result<(), Fail> {
    for row in &SESSIONS {
        judge_session(&rt, rt.alloc(), row)?;
    }
    Ok(())
}

// How many calls on the disk a session has.
fn calls_of<R: Threads + Wait + Sync>(
    rt: &R,
    alloc: Global,
    first: &[u8],
    sent: &[&str],
) -> Result<u64, Fail> {
    let plan = session(first, sent);
    Ok(run_planned(rt, alloc, &plan, [0, 0])?.calls)
}

#[test]
fn the_last_sync_of_a_closure_fails(rt: HostRuntime) -> Result<(), Fail> {
    let alloc = rt.alloc();
    let first = bytes_of(alloc, BEGUN)?;
    let call = calls_of(&rt, alloc, first.as_slice(), &[CLOSURE])?;
    for (sent, written) in &LAST_SYNCS {
        let plan = Plan {
            reads: BEHIND,
            call,
            ..session(first.as_slice(), sent)
        };
        let ended = run_planned(&rt, alloc, &plan, [0, 0])?;
        judge(&rt, alloc, &ended, written, 0, CLOSED)?;
    }
    Ok(())
}

#[test]
fn the_reply_is_not_written(rt: HostRuntime) -> Result<(), Fail> {
    for (sent, last) in &UNWRITTEN {
        let plan = Plan {
            write: 1,
            ..session(&[], sent)
        };
        let ended = run_planned(&rt, rt.alloc(), &plan, [0, 0])?;
        judge(&rt, rt.alloc(), &ended, &[], 3, last)?;
    }
    Ok(())
}

// The disk failed, and comes back; the folder isn't to blame.
fn judge_fault(rt: &impl Abort, ended: &Ended) {
    assert!(rt; str::from_utf8(ended.text.as_slice()) == Ok("fault disk\n"));
    assert!(rt; ended.status == 3);
    assert!(rt; ended.folder_faults == 0);
    assert!(rt; ended.opens == 1);
}

#[test]
fn each_call_of_a_restart_fails(rt: HostRuntime) -> Result<(), Fail> {
    let alloc = rt.alloc();
    let first = bytes_of(alloc, CLOSED)?;
    let calls = calls_of(&rt, alloc, first.as_slice(), &[VERSION])?;
    // A sync, the length, and a read at least.
    assert!(rt; calls > 2);
    for call in 1..=calls {
        let plan = Plan {
            reads: BEHIND,
            call,
            ..session(first.as_slice(), &[VERSION])
        };
        let ended = run_planned(&rt, alloc, &plan, [0, 0])?;
        judge_fault(&rt, &ended);
        assert!(rt; holds(&ended, first.as_slice()));
    }
    Ok(())
}

// A start over what the disk has of an opening that failed is at version 1, and its journal has the opening.
fn judge_next<R: Abort + Threads + Wait + Sync>(
    rt: &R,
    alloc: Global,
    failed: &Ended,
) -> Result<(), Fail> {
    let Some(first) = &failed.journal else {
        return Err(Fail::new("no disk"));
    };
    let plan = session(first.as_slice(), &[VERSION]);
    let ended = run_planned(rt, alloc, &plan, [0, 0])?;
    judge(rt, alloc, &ended, &[FIRST], 0, BEGUN)
}

#[test]
fn each_call_of_an_opening_fails(rt: HostRuntime) -> Result<(), Fail> {
    let alloc = rt.alloc();
    let calls = calls_of(&rt, alloc, &[], &[VERSION])?;
    // A sync and the length, and thirty of the append.
    assert!(rt; calls == 32);
    for call in 1..=calls {
        let plan = Plan {
            call,
            ..session(&[], &[VERSION])
        };
        let ended = run_planned(&rt, alloc, &plan, [0, 0])?;
        judge_fault(&rt, &ended);
        judge_next(&rt, alloc, &ended)?;
    }
    Ok(())
}
