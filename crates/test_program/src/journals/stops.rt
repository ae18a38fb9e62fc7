//! What stops a session with a journal.

use super::contents::{CLOSED, CLOSING, DAMAGED, NOTHING, OPENING, Parts, bytes_of};
use super::outside::{BEHIND, Ended, NONE, Plan, Reads, SOUND, holds, run_planned, session};
use std::alloc::Global;
use std::process::Abort;
use std::sync::Wait;
use std::test::Fail;
use std::thread::Threads;
use test_station::{EVERY, Edit, GONE, SETTINGS, UNIT, VERSION};

// Worker 1 closes the lift for a third profile.
const FOR_A_THIRD: [u8; 21] = [
    1, 2, 1, 0, 0, 0, 0, 0, 0, 0x40, 0, 0x80, 0, 0, 0, 0, 0, 3, 1, 0, 4,
];

const NO_FOLDER: &[Edit] = &[(EVERY, "", "", GONE)];

const NO_SETTINGS: &[Edit] = &[(SETTINGS, "", "", GONE)];

const ZERO_KX: &[Edit] = &[(SETTINGS, "", "kx = 10000000", "kx = 0")];

const UNTIL_1: &[Edit] = &[(
    SETTINGS,
    "",
    "kx = 10000000",
    "last_version = 1\nkx = 10000000",
)];

// A column reaches out of its level.
const TALL: &[Edit] = &[(UNIT, "@0307", "(62,22),(60,22)", "(62,61),(60,61)")];

/// What is changed in the station, which reads of files fail, what the journal has, which call on its disk fails, what is printed, the status, how often
/// the folders fail and a disk is asked for, and whether one comes back.
type Stop = (
    &'static [Edit],
    Reads,
    Parts,
    u64,
    &'static str,
    u8,
    [u64; 2],
    bool,
);

static STOPS: [Stop; 12] = [
    (&[], BEHIND, DAMAGED, SOUND, "damaged 0\n", 2, [0, 1], true),
    // No gate is behind the last record.
    (
        &[],
        BEHIND,
        &[OPENING, &CLOSING],
        SOUND,
        "damaged 12433\n",
        2,
        [0, 1],
        true,
    ),
    (
        &[],
        BEHIND,
        &[&CLOSING, &[0]],
        SOUND,
        "unfit 1\n",
        2,
        [0, 1],
        true,
    ),
    (
        &[],
        BEHIND,
        &[OPENING, &FOR_A_THIRD, &[0]],
        SOUND,
        "unfit 2\n",
        2,
        [0, 1],
        true,
    ),
    (UNTIL_1, BEHIND, CLOSED, SOUND, "unfit 2\n", 2, [0, 1], true),
    (
        NO_FOLDER,
        NONE,
        DAMAGED,
        SOUND,
        "damaged 0\n",
        2,
        [0, 1],
        true,
    ),
    // The settings are judged before the disk is asked for.
    (
        NO_SETTINGS,
        NONE,
        DAMAGED,
        SOUND,
        "missing venue.toml\n",
        2,
        [0, 0],
        false,
    ),
    (
        ZERO_KX,
        NONE,
        DAMAGED,
        SOUND,
        "settings 4 kx\n",
        2,
        [0, 0],
        false,
    ),
    (
        &[],
        (1, 1),
        DAMAGED,
        SOUND,
        "fault folder\n",
        3,
        [1, 0],
        false,
    ),
    // The folder is judged before its opening is appended.
    (
        TALL,
        NONE,
        NOTHING,
        SOUND,
        "rejected 1\nfinding K1 unit.geojson 7 0\n",
        1,
        [0, 1],
        true,
    ),
    (
        &[],
        (5, 5),
        NOTHING,
        SOUND,
        "fault folder\n",
        3,
        [1, 1],
        true,
    ),
    // The disk isn't opened.
    (&[], BEHIND, CLOSED, 0, "fault disk\n", 3, [0, 1], false),
];

// A name of 65 letters.
const LONG: &str = "aaaaaaaaaaaaaaaaaaaaaaaaaaaaaaaaaaaaaaaaaaaaaaaaaaaaaaaaaaaaaaaaa";

// Words that are those of no command.
static WORDS: [&[&str]; 8] = [
    &["session", "base", "station", "Log"],
    &["session", "base", "station", "log.journal"],
    &["session", "base", "station", LONG],
    &["session", "base", "station", ""],
    &["session", "base", "station", "log", "x"],
    &[
        "serve",
        "base",
        "station",
        "127.0.0.1:7070",
        "1",
        "1",
        "Log",
    ],
    &["serve", "base", "station", "127.0.0.1:7070", "1", "1", LONG],
    &[
        "serve",
        "base",
        "station",
        "127.0.0.1:7070",
        "1",
        "1",
        "log",
        "x",
    ],
];

// What is printed, the status, and how often a disk was asked for.
fn judge_told(rt: &impl Abort, ended: &Ended, text: &str, status: u8, opens: u64) {
    assert!(rt; str::from_utf8(ended.text.as_slice()) == Ok(text));
    assert!(rt; ended.status == status);
    assert!(rt; ended.opens == opens);
}

// The journal is as it was, where its disk comes back.
fn judge_stop<R: Abort + Threads + Wait + Sync>(
    rt: &R,
    alloc: Global,
    row: &Stop,
) -> Result<(), Fail> {
    let (edits, reads, first, call, text, status, counts, is_back) = *row;
    let [faults, opens] = counts;
    let first = bytes_of(alloc, first)?;
    let plan = Plan {
        edits,
        reads,
        call,
        ..session(first.as_slice(), &[VERSION])
    };
    let ended = run_planned(rt, alloc, &plan, [0, 0])?;
    judge_told(rt, &ended, text, status, opens);
    assert!(rt; ended.folder_faults == faults);
    assert!(rt; ended.journal.is_some() == is_back);
    assert!(rt; !is_back || holds(&ended, first.as_slice()));
    Ok(())
}

#[test]
fn a_session_stops(rt: HostRuntime) -> Result<(), Fail> {
    for row in &STOPS {
        judge_stop(&rt, rt.alloc(), row)?;
    }
    Ok(())
}

#[test]
fn there_is_no_file(rt: HostRuntime) -> Result<(), Fail> {
    let plan = Plan {
        reads: BEHIND,
        first: None,
        ..session(&[], &[VERSION])
    };
    let ended = run_planned(&rt, rt.alloc(), &plan, [0, 0])?;
    judge_told(&rt, &ended, "fault disk\n", 3, 1);
    assert!(rt; ended.folder_faults == 0);
    assert!(rt; ended.journal.is_none());
    Ok(())
}

#[test]
fn words_name_no_journal(rt: HostRuntime) -> Result<(), Fail> {
    for words in &WORDS {
        let plan = Plan {
            words: *words,
            ..session(&[], &[VERSION])
        };
        let ended = run_planned(&rt, rt.alloc(), &plan, [0, 0])?;
        judge_told(&rt, &ended, "words\n", 2, 0);
        assert!(rt; ended.journal.is_none());
    }
    Ok(())
}
