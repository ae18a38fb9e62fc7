//! What appends leave, byte by byte, and in how many calls.

use crate::disks::content;
use crate::publications::{small, station};
use crate::records::{closing, reopening};
use crate::trials::Trial;
use change_journal::one_journal;
use std::alloc::AllocError;
use std::process::Abort;
use std::test::Fail;

// A disk's first bytes, the length behind one closure, and the calls of that.
struct Row {
    first: &'static [u8],
    length: usize,
    calls: usize,
}

const ROWS: [Row; 6] = [
    Row {
        first: &[],
        length: 22,
        calls: 6,
    },
    Row {
        first: &[1],
        length: 22,
        calls: 6,
    },
    Row {
        first: &[9],
        length: 22,
        calls: 6,
    },
    Row {
        first: &[0],
        length: 22,
        calls: 6,
    },
    Row {
        first: &[7, 120, 121, 122, 1, 2],
        length: 22,
        calls: 4,
    },
    Row {
        first: &[0; 100],
        length: 100,
        calls: 4,
    },
];

// The text of the small folder's record: the gate, the kind and the worker; a file of two bytes, an empty one, fourteen absent
// ones, and one of three bytes.
const SMALL: [u8; 49] = [
    1, 1, 16, 1, 0, 0, 0, 0, 0, 0, 0, 2, 123, 125, 1, 0, 0, 0, 0, 0, 0, 0, 0, 0, 0, 0, 0, 0, 0, 0,
    0, 0, 0, 0, 0, 0, 0, 1, 0, 0, 0, 0, 0, 0, 0, 3, 1, 1, 1,
];

// The sum of bytes by Fowler, Noll and Vo in 64 bits, with which a script in Python sums the same record.
fn sum_of(bytes: &[u8]) -> u64 {
    let mut sum = 0xcbf2_9ce4_8422_2325;
    for byte in bytes {
        sum = (sum ^ u64::from(*byte)).wrapping_mul(0x100_0000_01b3);
    }
    sum
}

// The texts of a trial's records, a closed gate behind them, and what stood behind that before.
fn text_of(trial: &Trial<'_>) -> Result<Vec<u8>, AllocError> {
    let mut text = Vec::new(trial.alloc);
    for entry in trial.entries {
        text.extend_from_slice(entry.text)?;
    }
    text.push(0)?;
    if let Some(rest) = trial.plan.first.get(text.len()..) {
        text.extend_from_slice(rest)?;
    }
    Ok(text)
}

// Appends records to a journal without any, of which each is kept: the length and the number of calls.
fn appended(rt: &impl Abort, trial: &Trial<'_>) -> Result<(usize, usize), Fail> {
    let appends = trial.entries.len();
    let mut outcome = trial.run(rt, appends)?;
    let calls = outcome.disk.calls().len();
    assert!(rt; outcome.count == appends as u64);
    assert!(rt; outcome.is_kept);
    let bytes = content(trial.alloc, &mut outcome.disk)?;
    assert!(rt; bytes == text_of(trial)?);
    Ok((bytes.len(), calls))
}

#[test]
fn a_closure_on_each_beginning(rt: HostRuntime) -> Result<(), Fail> {
    let entries = [closing()];
    for row in &ROWS {
        let trial = Trial::over(rt.alloc(), row.first, &entries);
        assert!(rt; appended(&rt, &trial)? == (row.length, row.calls));
    }
    one_journal();
    Ok(())
}

#[test]
fn a_closure_and_a_reopening(rt: HostRuntime) -> Result<(), Fail> {
    let entries = [closing(), reopening()];
    let trial = Trial::over(rt.alloc(), &[], &entries);
    assert!(rt; appended(&rt, &trial)? == (43, 10));
    Ok(())
}

#[test]
fn the_station_and_a_closure(rt: HostRuntime) -> Result<(), Fail> {
    let alloc = rt.alloc();
    let station = station(alloc)?;
    let entries = [station.entry(), closing()];
    let trial = Trial::over(alloc, &[], &entries);
    assert!(rt; appended(&rt, &trial)? == (12_455, 34));
    assert!(rt; station.text.len() == 12_433);
    assert!(rt; sum_of(&station.text) == 0x3388_b1e7_0294_1034);
    Ok(())
}

#[test]
fn a_small_folder(rt: HostRuntime) -> Result<(), Fail> {
    let alloc = rt.alloc();
    let small = small(alloc)?;
    let entries = [small.entry()];
    let trial = Trial::over(alloc, &[], &entries);
    assert!(rt; appended(&rt, &trial)? == (50, 10));
    assert!(rt; small.text.as_slice() == SMALL.as_slice());
    Ok(())
}
