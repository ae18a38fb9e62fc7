//! Histories begun in journals without a record: the station's opening is appended.

use crate::disks::{Plan, content, disk_of};
use crate::going_on::{begun, kept, settings_until};
use crate::halls::{Deed, Row, Told, Who, rows_at};
use crate::publications::station;
use crate::readings;
use crate::readings::{tells, told_of};
use crate::records::CLOSING;
use journal_restore::Unrestored;
use std::alloc::Global;
use std::process::Abort;
use std::sync::Arc;
use std::test::Fail;
use venue_ports::{Disk, MemoryDisk};
use venue_types::Settings;

// A disk with these bytes, of which this call fails, or none where it is 0.
fn disk(alloc: Global, first: &[u8], failing: u64) -> Result<MemoryDisk, Fail> {
    let plan = Plan {
        first,
        failing: &[failing],
        puts: &[],
    };
    disk_of(alloc, &plan)
}

#[test]
fn a_history_begins(rt: HostRuntime) -> Result<(), Fail> {
    let alloc = rt.alloc();
    let settings = settings_until(alloc, u32::MAX)?;
    let journal = station(alloc)?.journal(alloc)?;
    let firsts: [&[u8]; 4] = [&[], &[1], &[0], &[9, 1, 1, 1]];
    for first in firsts {
        let Ok(restored) = begun(alloc, disk(alloc, first, 99_999)?, &settings)? else {
            return Err(Fail::new("not begun"));
        };
        assert!(rt; restored.journal.record_count() == 1);
        assert!(rt; content(alloc, &mut restored.journal.into_disk())? == journal);
    }
    Ok(())
}

// Whether a call fails, of those that there are. Then a start finds nothing, or, where it was the last one, the opening.
fn fails_at(
    rt: &impl Abort,
    alloc: Global,
    call: u64,
    settings: &Arc<Settings>,
) -> Result<bool, Fail> {
    match begun(alloc, disk(alloc, &[], call)?, settings)? {
        Ok(restored) => {
            // The last one that failed was the last one of all.
            assert!(rt; restored.journal.into_disk().calls().len() as u64 + 1 == call);
            Ok(false)
        }
        Err(Unrestored { mut disk, fault }) => {
            assert!(rt; told_of(fault) == (readings::Told::Failed, 0));
            assert!(rt; disk.fault_count() == 1);
            let bytes = content(alloc, &mut disk)?;
            let told = tells(alloc, &bytes, settings)?;
            let is_open = bytes.first() == Some(&1);
            assert!(rt;
                told == (if is_open {
                    (readings::Told::Version, 1)
                } else {
                    (readings::Told::New, 0)
                })
            );
            Ok(true)
        }
    }
}

#[test]
fn each_call_of_a_beginning_fails(rt: HostRuntime) -> Result<(), Fail> {
    let alloc = rt.alloc();
    let settings = settings_until(alloc, u32::MAX)?;
    for call in 1..1_000 {
        if !fails_at(&rt, alloc, call, &settings)? {
            // The calls of the read, and thirty of the append.
            assert!(rt; call > 30);
            return Ok(());
        }
    }
    Err(Fail::new("so many calls"))
}

const CLOSED: [Row; 2] = [
    (Who::One, Deed::Close(0x0301), Told::Closure(2, true, true)),
    (Who::Other, Deed::Ask, Told::Version(2, 1)),
];

#[test]
fn a_new_history_is_kept(rt: HostRuntime) -> Result<(), Fail> {
    let alloc = rt.alloc();
    let mut wanted = Vec::from_slice(alloc, &station(alloc)?.text)?;
    wanted.extend_from_slice(&CLOSING)?;
    wanted.push(0)?;
    let settings = settings_until(alloc, u32::MAX)?;
    let beginning = kept(&rt, alloc, disk(alloc, &[], 99_999)?, settings, 0, 2)?;
    let closed = rows_at(&rt, alloc, beginning, &CLOSED)?;
    assert!(rt; closed.number == 2);
    assert!(rt; closed.changes == 1);
    assert!(rt; content(alloc, &mut closed.log.into_disk())? == wanted);
    Ok(())
}
