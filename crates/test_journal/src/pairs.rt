//! Three appends of which every one and every two calls fail: what a stop leaves at each moment.

use crate::images::{Images, Moment};
use crate::law::Law;
use crate::publications::{Publication, small, station};
use crate::records::{closing, reopening};
use crate::trials::Trial;
use change_journal::kept_law;
use std::process::Abort;
use std::test::Fail;

// Makes the appends of a trial one by one, and judges images of each moment from the one behind so many calls on.
fn judge(rt: &impl Abort, trial: &Trial<'_>, from: u64, images: &mut Images) -> Result<(), Fail> {
    let mut law = Law::first(trial)?;
    let mut from = usize::try_from(from)?;
    for (number, entry) in trial.entries.iter().enumerate() {
        let outcome = trial.run(rt, number.saturating_add(1))?;
        let calls = outcome.disk.calls().len();
        let mut moment = Moment::first(trial.alloc, &outcome.disk)?;
        law.begin(entry.text)?;
        for before in 0..calls {
            if before >= from {
                law.judge(rt, &moment, images)?;
            }
            moment.go()?;
        }
        if outcome.is_kept {
            law.keep()?;
        }
        law.judge(rt, &moment, images)?;
        from = from.max(calls);
    }
    Ok(())
}

// None of so many calls fails, or every one. A write puts its first byte all the same, so the gate is torn whole. In front of a
// call that fails the moments are those of the trial without it.
fn judge_ones(rt: &impl Abort, trial: &Trial<'_>, calls: u64) -> Result<(), Fail> {
    let mut images = Images::new(trial.alloc, 1);
    judge(rt, trial, 0, &mut images)?;
    for before in 0..calls {
        let failing = [before + 1];
        judge(rt, &trial.failing(&failing, &[1]), before, &mut images)?;
    }
    Ok(())
}

// Every two of them. The second write that fails puts all its bytes.
fn judge_twos(rt: &impl Abort, trial: &Trial<'_>, calls: u64) -> Result<(), Fail> {
    let mut images = Images::new(trial.alloc, 2);
    for later in 1..calls {
        for before in 0..later {
            let failing = [before + 1, later + 1];
            let trial = trial.failing(&failing, &[1, usize::MAX]);
            judge(rt, &trial, later, &mut images)?;
        }
    }
    Ok(())
}

#[test]
fn every_one_call(rt: HostRuntime) -> Result<(), Fail> {
    let alloc = rt.alloc();
    let station = station(alloc)?;
    let first = station.journal(alloc)?;
    let on_nothing = [station.entry(), closing(), reopening()];
    let behind_it = [closing(), reopening(), closing()];
    judge_ones(&rt, &Trial::over(alloc, &[], &on_nothing), 40)?;
    let trial = Trial::over(alloc, &first, &behind_it).behind(&station);
    judge_ones(&rt, &trial, 14)
}

// The same of a small folder on these bytes, and every two calls.
fn judge_small(rt: &impl Abort, small: &Publication, first: &[u8]) -> Result<(), Fail> {
    let entries = [small.entry(), closing(), reopening()];
    let trial = Trial::over(*small.text.allocator(), first, &entries);
    judge_ones(rt, &trial, 20)?;
    judge_twos(rt, &trial, 22)
}

#[test]
fn every_two_calls_on_a_new_journal(rt: HostRuntime) -> Result<(), Fail> {
    let small = small(rt.alloc())?;
    judge_small(&rt, &small, &[])?;
    judge_small(&rt, &small, &[1])?;
    judge_small(&rt, &small, &[9])?;
    judge_small(&rt, &small, &[0])
}

#[test]
fn every_two_calls_behind_a_closed_gate(rt: HostRuntime) -> Result<(), Fail> {
    let small = small(rt.alloc())?;
    judge_small(&rt, &small, &[7, 120, 121, 122, 1, 2])?;
    judge_small(&rt, &small, &[0; 100])
}

#[test]
fn every_two_calls_behind_a_record(rt: HostRuntime) -> Result<(), Fail> {
    let alloc = rt.alloc();
    let small = small(alloc)?;
    let first = small.journal(alloc)?;
    let entries = [small.entry(), closing(), reopening()];
    let trial = Trial::over(alloc, &first, &entries).behind(&small);
    judge_ones(&rt, &trial, 18)?;
    judge_twos(&rt, &trial, 20)?;
    kept_law();
    Ok(())
}
