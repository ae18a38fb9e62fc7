//! What a stop leaves at each moment of an append behind the station.

use crate::images::{Images, Moment};
use crate::law::{Law, Seen};
use crate::publications::station;
use crate::readings::{Told, tells};
use crate::records::{closing, reopening};
use crate::trials::Trial;
use std::alloc::Global;
use std::process::Abort;
use std::sync::Arc;
use std::test::Fail;
use test_station::station_settings;
use venue_types::Settings;

// Behind so many calls a stop leaves the station alone, the station and the closure, the station and the reopening: each of
// these that is true here, and no other.
struct Row {
    calls: usize,
    leaves: Seen,
}

const ALONE: Seen = [true, false, false, false];

const WITH_CLOSING: Seen = [false, true, false, false];

const WITH_REOPENING: Seen = [false, false, true, false];

const ALONE_OR_WITH_CLOSING: Seen = [true, true, false, false];

const ALONE_OR_WITH_REOPENING: Seen = [true, false, true, false];

// The closure: its body and the next gate, a sync, its gate, a sync.
const OF_THE_CLOSURE: [Row; 5] = [
    Row {
        calls: 0,
        leaves: ALONE,
    },
    Row {
        calls: 1,
        leaves: ALONE,
    },
    Row {
        calls: 2,
        leaves: ALONE,
    },
    Row {
        calls: 3,
        leaves: ALONE_OR_WITH_CLOSING,
    },
    Row {
        calls: 4,
        leaves: WITH_CLOSING,
    },
];

// The reopening behind a closure whose last sync failed: first that gate is closed, and a sync.
const OF_THE_REOPENING: [Row; 7] = [
    Row {
        calls: 4,
        leaves: ALONE_OR_WITH_CLOSING,
    },
    Row {
        calls: 5,
        leaves: ALONE_OR_WITH_CLOSING,
    },
    Row {
        calls: 6,
        leaves: ALONE,
    },
    Row {
        calls: 7,
        leaves: ALONE,
    },
    Row {
        calls: 8,
        leaves: ALONE,
    },
    Row {
        calls: 9,
        leaves: ALONE_OR_WITH_REOPENING,
    },
    Row {
        calls: 10,
        leaves: WITH_REOPENING,
    },
];

// What is told where these are left. A reopening of what isn't closed doesn't fit.
fn is_told(told: (Told, u64), leaves: Seen) -> bool {
    let [alone, with_closing, with_reopening, _] = leaves;
    match told {
        (Told::Version, 1) => alone,
        (Told::Version, 2) => with_closing,
        (Told::Unfit, 2) => with_reopening,
        _ => false,
    }
}

// Reads images of a moment back.
fn read_each(
    rt: &impl Abort,
    alloc: Global,
    settings: &Arc<Settings>,
    moment: &Moment<'_>,
    images: &mut Images,
    leaves: Seen,
) -> Result<(), Fail> {
    for _ in 0..images.each {
        let image = images.draw(moment)?;
        assert!(rt; is_told(tells(alloc, image, settings)?, leaves));
    }
    Ok(())
}

// Draws forty images at each moment of a table, and forty that are read back.
fn stop_at_each(rt: &impl Abort, trial: &Trial<'_>, rows: &[Row]) -> Result<(), Fail> {
    let outcome = trial.run(rt, trial.entries.len())?;
    let mut law = Law::first(trial)?;
    for entry in trial.entries {
        law.begin(entry.text)?;
    }
    let mut images = Images::new(trial.alloc, 40);
    let settings = Arc::new(trial.alloc, station_settings(trial.alloc)?)?;
    let mut moment = Moment::first(trial.alloc, &outcome.disk)?;
    let mut passed = 0;
    for row in rows {
        for _ in passed..row.calls {
            moment.go()?;
        }
        passed = row.calls;
        assert!(rt; law.judge(rt, &moment, &mut images)? == row.leaves);
        read_each(rt, trial.alloc, &settings, &moment, &mut images, row.leaves)?;
    }
    assert!(rt; outcome.disk.calls().len() == passed);
    Ok(())
}

#[test]
fn a_stop_in_an_append(rt: HostRuntime) -> Result<(), Fail> {
    let alloc = rt.alloc();
    let station = station(alloc)?;
    let first = station.journal(alloc)?;
    let entries = [closing()];
    let trial = Trial::over(alloc, &first, &entries).behind(&station);
    stop_at_each(&rt, &trial, &OF_THE_CLOSURE)
}

#[test]
fn a_stop_behind_a_last_sync_that_failed(rt: HostRuntime) -> Result<(), Fail> {
    let alloc = rt.alloc();
    let station = station(alloc)?;
    let first = station.journal(alloc)?;
    let entries = [closing(), reopening()];
    let trial = Trial::over(alloc, &first, &entries).behind(&station);
    stop_at_each(&rt, &trial.failing(&[4], &[]), &OF_THE_REOPENING)
}
