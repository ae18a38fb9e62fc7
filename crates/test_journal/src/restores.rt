//! Journals read back: what each tells, row by row, each byte of a closure and of a reopening as the format has it. The station's record has
//! 12,433 bytes.

use crate::disks::content;
use crate::journals::append;
use crate::readings::{
    CUT, Row, STATION, TALL_STATION, Told, journal_of, judge, read_back, tells, told_of,
};
use crate::records::{CLOSING, REOPENING, closing};
use journal_restore::Unrestored;
use std::alloc::Global;
use std::process::Abort;
use std::sync::Arc;
use std::test::Fail;
use test_station::station_settings;
use venue_types::{List, Profile, Settings, Text};

// The gate, the kind and the worker of a publication.
const BY_0: [u8; 3] = [1, 1, 0];

const BY_1: [u8; 3] = [1, 1, 1];

const BY_3: [u8; 3] = [1, 1, 3];

// Told by their form.
const FORMS: [Row; 20] = [
    // nothing
    Row {
        parts: &[],
        told: Told::New,
        number: 0,
        closed: &[],
    },
    Row {
        parts: &[&[0]],
        told: Told::New,
        number: 0,
        closed: &[],
    },
    Row {
        parts: &[&[1]],
        told: Told::New,
        number: 0,
        closed: &[],
    },
    Row {
        parts: &[&[0, 1, 2]],
        told: Told::New,
        number: 0,
        closed: &[],
    },
    Row {
        parts: &[&[9, 1]],
        told: Told::New,
        number: 0,
        closed: &[],
    },
    Row {
        parts: &[&[1, 9]],
        told: Told::Damaged,
        number: 0,
        closed: &[],
    },
    Row {
        parts: &[&[1, 2]],
        told: Told::Damaged,
        number: 0,
        closed: &[],
    },
    Row {
        parts: &[&[1, 1]],
        told: Told::Damaged,
        number: 0,
        closed: &[],
    },
    Row {
        parts: &[&[1, 4, 0, 0]],
        told: Told::Damaged,
        number: 0,
        closed: &[],
    },
    Row {
        parts: &[&[1, 1, 0, 2], &[0; 40]],
        told: Told::Damaged,
        number: 0,
        closed: &[],
    },
    Row {
        parts: &[&[1, 2, 17], &[0; 30]],
        told: Told::Damaged,
        number: 0,
        closed: &[],
    },
    // A slot of 33,554,433 bytes.
    Row {
        parts: &[&[1, 1, 0, 1, 0, 0, 0, 0, 2, 0, 0, 1], &[0; 99]],
        told: Told::Damaged,
        number: 0,
        closed: &[],
    },
    Row {
        parts: &[&BY_0, STATION],
        told: Told::Damaged,
        number: 0,
        closed: &[],
    },
    Row {
        parts: &[&BY_0, STATION, CUT],
        told: Told::Damaged,
        number: 0,
        closed: &[],
    },
    Row {
        parts: &[&BY_0, STATION, &CLOSING],
        told: Told::Damaged,
        number: 12_433,
        closed: &[],
    },
    // By worker 17.
    Row {
        parts: &[
            &BY_0,
            STATION,
            &[
                1, 2, 17, 0, 0, 0, 0, 0, 0, 64, 0, 128, 0, 0, 0, 0, 0, 3, 1, 0, 3,
            ],
            &[0],
        ],
        told: Told::Damaged,
        number: 12_433,
        closed: &[],
    },
    Row {
        parts: &[&BY_0, STATION, &CLOSING, &[1]],
        told: Told::Damaged,
        number: 12_454,
        closed: &[],
    },
    Row {
        parts: &[&BY_0, STATION, &CLOSING, &[1, 4, 0, 0]],
        told: Told::Damaged,
        number: 12_454,
        closed: &[],
    },
    // Damaged behind what is unfit.
    Row {
        parts: &[&BY_0, STATION, &CLOSING, &CLOSING, &[1, 9]],
        told: Told::Damaged,
        number: 12_475,
        closed: &[],
    },
    Row {
        parts: &[
            &BY_0,
            STATION,
            &[
                1, 2, 1, 0, 0, 0, 0, 0, 0, 64, 0, 128, 0, 0, 0, 0, 0, 3, 1, 0, 0,
            ],
            &[1, 9],
        ],
        told: Told::Damaged,
        number: 12_454,
        closed: &[],
    },
];

// Told by what they say.
const ACTS: [Row; 18] = [
    Row {
        parts: &[&BY_0, STATION, &[0]],
        told: Told::Version,
        number: 1,
        closed: &[],
    },
    Row {
        parts: &[&BY_0, STATION, &CLOSING, &[0]],
        told: Told::Version,
        number: 2,
        closed: &["all"],
    },
    Row {
        parts: &[&BY_0, STATION, &CLOSING, &REOPENING, &[0]],
        told: Told::Version,
        number: 3,
        closed: &["walk"],
    },
    Row {
        parts: &[&BY_0, STATION, &CLOSING, &[2], &[1; 50]],
        told: Told::Version,
        number: 2,
        closed: &["all"],
    },
    Row {
        parts: &[&BY_0, STATION, &BY_3, STATION, &[0]],
        told: Told::Version,
        number: 2,
        closed: &[],
    },
    Row {
        parts: &[&BY_0, STATION, &CLOSING, &CLOSING, &[0]],
        told: Told::Unfit,
        number: 3,
        closed: &[],
    },
    Row {
        parts: &[&CLOSING, &[0]],
        told: Told::Unfit,
        number: 1,
        closed: &[],
    },
    Row {
        parts: &[&BY_1, STATION, &[0]],
        told: Told::Unfit,
        number: 1,
        closed: &[],
    },
    Row {
        parts: &[&BY_0, TALL_STATION, &[0]],
        told: Told::Unfit,
        number: 1,
        closed: &[],
    },
    // For nobody, for a third profile alone and beside the others, by worker 0, of no feature, and of one that can't be closed.
    Row {
        parts: &[
            &BY_0,
            STATION,
            &[
                1, 2, 1, 0, 0, 0, 0, 0, 0, 64, 0, 128, 0, 0, 0, 0, 0, 3, 1, 0, 0,
            ],
            &[0],
        ],
        told: Told::Unfit,
        number: 2,
        closed: &[],
    },
    Row {
        parts: &[
            &BY_0,
            STATION,
            &[
                1, 2, 1, 0, 0, 0, 0, 0, 0, 64, 0, 128, 0, 0, 0, 0, 0, 3, 1, 0, 4,
            ],
            &[0],
        ],
        told: Told::Unfit,
        number: 2,
        closed: &[],
    },
    Row {
        parts: &[
            &BY_0,
            STATION,
            &[
                1, 2, 1, 0, 0, 0, 0, 0, 0, 64, 0, 128, 0, 0, 0, 0, 0, 3, 1, 0, 7,
            ],
            &[0],
        ],
        told: Told::Unfit,
        number: 2,
        closed: &[],
    },
    Row {
        parts: &[
            &BY_0,
            STATION,
            &[
                1, 2, 0, 0, 0, 0, 0, 0, 0, 64, 0, 128, 0, 0, 0, 0, 0, 3, 1, 0, 3,
            ],
            &[0],
        ],
        told: Told::Unfit,
        number: 2,
        closed: &[],
    },
    Row {
        parts: &[
            &BY_0,
            STATION,
            &[
                1, 2, 1, 0, 0, 0, 0, 0, 0, 64, 0, 128, 0, 0, 0, 0, 0, 9, 153, 0, 3,
            ],
            &[0],
        ],
        told: Told::Unfit,
        number: 2,
        closed: &[],
    },
    Row {
        parts: &[
            &BY_0,
            STATION,
            &[
                1, 2, 1, 0, 0, 0, 0, 0, 0, 64, 0, 128, 0, 0, 0, 0, 0, 0, 49, 0, 3,
            ],
            &[0],
        ],
        told: Told::Unfit,
        number: 2,
        closed: &[],
    },
    Row {
        parts: &[&BY_0, STATION, &REOPENING, &[0]],
        told: Told::Unfit,
        number: 2,
        closed: &[],
    },
    Row {
        parts: &[&BY_0, STATION, &BY_0, STATION, &[0]],
        told: Told::Unfit,
        number: 2,
        closed: &[],
    },
    Row {
        parts: &[&BY_0, STATION, &BY_1, TALL_STATION, &[0]],
        told: Told::Unfit,
        number: 2,
        closed: &[],
    },
];

// Where version 1 is the last, and version 2.
const UNTIL_1: [Row; 2] = [
    Row {
        parts: &[&BY_0, STATION, &[0]],
        told: Told::Version,
        number: 1,
        closed: &[],
    },
    Row {
        parts: &[&BY_0, STATION, &CLOSING, &[0]],
        told: Told::Unfit,
        number: 2,
        closed: &[],
    },
];

const UNTIL_2: [Row; 2] = [
    Row {
        parts: &[&BY_0, STATION, &CLOSING, &[0]],
        told: Told::Version,
        number: 2,
        closed: &["all"],
    },
    Row {
        parts: &[&BY_0, STATION, &CLOSING, &REOPENING, &[0]],
        told: Told::Unfit,
        number: 3,
        closed: &[],
    },
];

// Where there is a third profile.
const OF_THREE: [Row; 2] = [
    Row {
        parts: &[&BY_0, STATION, &CLOSING, &[0]],
        told: Told::Version,
        number: 2,
        closed: &["walk", "wheelchair"],
    },
    Row {
        parts: &[
            &BY_0,
            STATION,
            &[
                1, 2, 1, 0, 0, 0, 0, 0, 0, 64, 0, 128, 0, 0, 0, 0, 0, 3, 1, 0, 4,
            ],
            &[0],
        ],
        told: Told::Version,
        number: 2,
        closed: &["trolley"],
    },
];

fn judge_rows(
    rt: &impl Abort,
    alloc: Global,
    settings: Settings,
    rows: &[Row],
) -> Result<(), Fail> {
    let settings = Arc::new(alloc, settings)?;
    for row in rows {
        judge(rt, alloc, &settings, row)?;
    }
    Ok(())
}

// The settings of the station, under which this version is the last.
fn settings_until(alloc: Global, last_version: u32) -> Result<Settings, Fail> {
    let mut settings = station_settings(alloc)?;
    settings.last_version = last_version.max(1);
    Ok(settings)
}

// A profile of that name with the rights of the second.
fn trolley(alloc: Global, profiles: &[Profile]) -> Result<Profile, Fail> {
    let Some(second) = profiles.get(1) else {
        return Err(Fail::new("no second profile"));
    };
    let mut third = second.copy(alloc)?;
    third.name = Text::from_string(String::from_str(alloc, "trolley")?);
    Ok(third)
}

// The settings of the station with a third profile.
fn three_profiles(alloc: Global) -> Result<Settings, Fail> {
    let mut settings = station_settings(alloc)?;
    let mut profiles = List::new(alloc);
    for profile in settings.profiles.as_slice() {
        profiles.push(profile.copy(alloc)?)?;
    }
    profiles.push(trolley(alloc, settings.profiles.as_slice())?)?;
    if profiles.is_empty() || profiles.len() > 16 {
        return Err(Fail::new("too many profiles"));
    }
    settings.profiles = profiles;
    Ok(settings)
}

#[test]
fn each_journal_tells(rt: HostRuntime) -> Result<(), Fail> {
    let alloc = rt.alloc();
    judge_rows(&rt, alloc, station_settings(alloc)?, &FORMS)?;
    judge_rows(&rt, alloc, station_settings(alloc)?, &ACTS)
}

#[test]
fn it_tells_by_the_settings(rt: HostRuntime) -> Result<(), Fail> {
    let alloc = rt.alloc();
    judge_rows(&rt, alloc, settings_until(alloc, 1)?, &UNTIL_1)?;
    judge_rows(&rt, alloc, settings_until(alloc, 2)?, &UNTIL_2)?;
    judge_rows(&rt, alloc, three_profiles(alloc)?, &OF_THREE)
}

// What a front of so many bytes tells of the station, the closing, the reopening and a gate.
fn of_front(length: usize) -> (Told, u64) {
    match length {
        0..=1 => (Told::New, 0),
        2..=12_433 => (Told::Damaged, 0),
        12_434..=12_454 => (Told::Damaged, 12_433),
        12_455..=12_475 => (Told::Damaged, 12_454),
        _ => (Told::Version, 3),
    }
}

const THREE: [&[u8]; 5] = [&BY_0, STATION, &CLOSING, &REOPENING, &[0]];

#[test]
fn each_front_of_a_journal_tells(rt: HostRuntime) -> Result<(), Fail> {
    let alloc = rt.alloc();
    let settings = Arc::new(alloc, station_settings(alloc)?)?;
    let bytes = journal_of(alloc, &THREE)?;
    assert!(rt; bytes.len() == 12_476);
    for length in 0..=bytes.len() {
        let front = bytes.get(..length).unwrap_or(&[]);
        assert!(rt; tells(alloc, front, &settings)? == of_front(length));
    }
    Ok(())
}

// One call fails, of those that there are: whether there was such a call. The disk is as it was.
fn fails_at(
    rt: &impl Abort,
    alloc: Global,
    call: u64,
    settings: &Arc<Settings>,
) -> Result<bool, Fail> {
    let bytes = journal_of(alloc, &THREE)?;
    match read_back(alloc, &bytes, &[call], settings)? {
        Ok(restored) => {
            assert!(rt; restored.journal.record_count() == 3);
            Ok(false)
        }
        Err(Unrestored { mut disk, fault }) => {
            assert!(rt; told_of(fault) == (Told::Failed, 0));
            assert!(rt; content(alloc, &mut disk)? == bytes);
            Ok(true)
        }
    }
}

#[test]
fn each_call_fails(rt: HostRuntime) -> Result<(), Fail> {
    let alloc = rt.alloc();
    let settings = Arc::new(alloc, station_settings(alloc)?)?;
    for call in 1..1_000 {
        if !fails_at(&rt, alloc, call, &settings)? {
            // A sync, the length, and a read at least.
            assert!(rt; call > 3);
            return Ok(());
        }
    }
    Err(Fail::new("so many calls"))
}

#[test]
fn a_journal_goes_on_where_it_ends(rt: HostRuntime) -> Result<(), Fail> {
    let alloc = rt.alloc();
    let settings = Arc::new(alloc, station_settings(alloc)?)?;
    let mut bytes = journal_of(alloc, &[&BY_0, STATION, &BY_3, STATION, &[2, 1, 1]])?;
    let Ok(restored) = read_back(alloc, &bytes, &[], &settings)? else {
        return Err(Fail::new("not restored"));
    };
    let mut journal = restored.journal;
    assert!(rt; append(&rt, &mut journal, &closing()));
    assert!(rt; journal.record_count() == 3);
    bytes.truncate(24_866);
    bytes.extend_from_slice(&CLOSING)?;
    bytes.push(0)?;
    assert!(rt; content(alloc, &mut journal.into_disk())? == bytes);
    Ok(())
}
