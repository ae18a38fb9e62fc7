//! Levels whose rings are of the greatest length.

use crate::rings::ring_findings;
use crate::small_folders::{Corner, MANIFEST, VENUE, collection, files, polygons, push_feature};
use std::alloc::{AllocError, Global};
use std::process::Abort;
use std::test::Fail;
use venue_types::Finding;

// The file of forty levels, of which the last has a border of its own.
fn level_file(alloc: Global, usual: &str, last: &str) -> Result<String, AllocError> {
    let mut levels = String::new(alloc);
    for number in 0..39u32 {
        push_feature(alloc, &mut levels, "level", number, usual, "\"ordinal\":0")?;
    }
    push_feature(alloc, &mut levels, "level", 39, last, "\"ordinal\":0")?;
    collection(alloc, levels.as_str())
}

// What is wrong with the rings of these levels.
fn findings(alloc: Global, usual: &str, last: &str) -> Result<Vec<Finding>, Fail> {
    let levels = level_file(alloc, usual, last)?;
    let files = files(
        alloc,
        &[(0, MANIFEST), (10, levels.as_bytes()), (16, VENUE)],
    )?;
    ring_findings(alloc, &files)
}

// Up and to the right step by step, and back by way of the end.
fn stairs(alloc: Global, end: Corner) -> Result<String, AllocError> {
    let mut corners = Vec::new(alloc);
    for i in 0..9_999i64 {
        let x = i.wrapping_mul(1000);
        corners.push((x, x))?;
        corners.push((x.wrapping_add(1000), x))?;
    }
    corners.push(end)?;
    corners.push((0, 0))?;
    polygons(alloc, &[&[corners.as_slice()]])
}

// A comb of 4,999 teeth, whose back goes along this height.
fn comb(alloc: Global, back: i64) -> Result<String, AllocError> {
    let mut corners = Vec::new(alloc);
    for i in 0..4_999i64 {
        let x = i.wrapping_mul(1000);
        let right = x.wrapping_add(500);
        corners.push((x, i.wrapping_add(1000)))?;
        corners.push((x, i.wrapping_add(9_000_000)))?;
        corners.push((right, i.wrapping_add(9_000_000)))?;
        corners.push((right, i.wrapping_add(1001)))?;
    }
    corners.push((4_998_500, back))?;
    corners.push((0, back))?;
    corners.push((0, 1000))?;
    polygons(alloc, &[&[corners.as_slice()]])
}

// Of forty levels the last alone crosses itself, if any does.
fn judge(
    rt: &impl Abort,
    alloc: Global,
    usual: &str,
    last: &str,
    crosses: bool,
) -> Result<(), Fail> {
    let findings = findings(alloc, usual, last)?;
    let only = Finding {
        rule: 27,
        file: 10,
        index: 39,
        member: 0,
    };
    assert!(rt; findings.len() == crosses as usize);
    assert!(rt; findings.iter().all(|finding| *finding == only));
    Ok(())
}

#[test]
fn the_last_of_forty_levels_crosses_itself(rt: HostRuntime) -> Result<(), Fail> {
    let alloc = rt.alloc();
    let stair = stairs(alloc, (0, 9_999_000))?;
    let stair_crossed = stairs(alloc, (0, 500))?;
    let teeth = comb(alloc, 0)?;
    let teeth_crossed = comb(alloc, 5000)?;
    for (usual, last, crosses) in [
        (&stair, &stair, false),
        (&stair, &stair_crossed, true),
        (&teeth, &teeth, false),
        (&teeth, &teeth_crossed, true),
    ] {
        judge(&rt, alloc, usual.as_str(), last.as_str(), crosses)?;
    }
    Ok(())
}
