//! The doors of a small station, worked out by hand, and a slow check of all pairs on a grid.

ghost use Rattle.std.specs.Prelude.{◌≡◌, IfOk, length};

use crate::folders::{Folder, Place, add, between, moved, opening, unit};
use crate::rows::touches_of;
use std::alloc::{AllocError, Global};
use std::process::Abort;
use std::test::Fail;
use venue_types::{Files, List};

/// The number of the first unit; those of openings begin above all units.
const FIRST_UNIT: usize = 1_000;

const FIRST_OPENING: usize = 2_000;

/// Level, two corners.
const UNITS: [(usize, Place, Place); 13] = [
    (10, (100_000, 100_000), (900_000, 400_000)),
    (10, (200_000, 400_000), (240_000, 440_000)),
    (10, (400_000, 400_000), (440_000, 500_000)),
    (10, (500_000, 400_000), (540_000, 500_000)),
    (10, (700_000, 400_000), (740_000, 550_000)),
    (10, (100_000, 0), (300_000, 100_000)),
    (10, (400_000, 0), (600_000, 100_000)),
    (10, (600_000, 200_000), (620_000, 220_000)),
    (11, (100_000, 100_000), (900_000, 400_000)),
    (11, (200_000, 400_000), (240_000, 440_000)),
    (11, (400_000, 400_000), (440_000, 500_000)),
    (11, (500_000, 400_000), (540_000, 500_000)),
    (11, (700_000, 400_000), (740_000, 550_000)),
];

/// Level, two ends.
const OPENINGS: [(usize, Place, Place); 16] = [
    (10, (210_000, 400_000), (230_000, 400_000)),
    (10, (410_000, 400_000), (430_000, 400_000)),
    (10, (510_000, 400_000), (530_000, 400_000)),
    (10, (710_000, 400_000), (730_000, 400_000)),
    (10, (190_000, 100_000), (210_000, 100_000)),
    (10, (490_000, 100_000), (510_000, 100_000)),
    (10, (100_000, 240_000), (100_000, 260_000)),
    (10, (100_000, 290_000), (100_000, 310_000)),
    (10, (900_000, 140_000), (900_000, 160_000)),
    (10, (900_000, 240_000), (900_000, 260_000)),
    (10, (900_000, 340_000), (900_000, 360_000)),
    (10, (100_000, 140_000), (100_000, 160_000)),
    (11, (210_000, 400_000), (230_000, 400_000)),
    (11, (410_000, 400_000), (430_000, 400_000)),
    (11, (510_000, 400_000), (530_000, 400_000)),
    (11, (710_000, 400_000), (730_000, 400_000)),
];

/// A corner of a unit, where the seventh unit of the station begins at this longitude.
fn corner(low: Place, west: i64) -> Place {
    if low.0 == 400_000 && low.1 == 0 {
        (west, 0)
    } else {
        low
    }
}

/// The units of these boxes, and behind them a floor with a hole.
fn units_of(
    alloc: Global,
    boxes: &[(usize, Place, Place)],
    west: i64,
) -> Result<String, AllocError> {
    let mut units = String::new(alloc);
    let mut number = FIRST_UNIT;
    for (level, low, high) in boxes {
        let ring = between(corner(*low, west), *high);
        add(
            &mut units,
            unit(alloc, number, *level, "room", &ring, &[])?.as_str(),
        )?;
        number = number.saturating_add(1);
    }
    let hole = between((600_000, 500_000), (620_000, 520_000));
    let floor = between((0, 450_000), (1_000_000, 600_000));
    add(
        &mut units,
        unit(alloc, number, 10, "room", &floor, &hole)?.as_str(),
    )?;
    Ok(units)
}

fn openings_of(alloc: Global, lines: &[(usize, Place, Place)]) -> Result<String, AllocError> {
    let mut openings = String::new(alloc);
    let mut number = FIRST_OPENING;
    for (level, from, to) in lines {
        let opening = opening(alloc, number, *level, &[*from, *from, *to])?;
        add(&mut openings, opening.as_str())?;
        number = number.saturating_add(1);
    }
    Ok(openings)
}

/// The files of these openings and units.
fn files_of(alloc: Global, openings: String, units: String) -> Result<Files, Fail>
    ensures { IfOk result (λ files. length files.slots ≡ 17) }
{
    let mut folder = Folder::empty(alloc);
    folder.openings = openings;
    folder.units = units;
    folder.files(alloc)
}

fn touched_at_station(
    alloc: Global,
    openings: String,
    west: i64,
    tolerance: u32,
) -> Result<List<List<u32>>, Fail> {
    let units = units_of(alloc, &UNITS, west)?;
    let files = files_of(alloc, openings, units)?;
    Ok(touches_of(alloc, &files, tolerance)?.rows)
}

fn judge_rows(rt: &impl Abort, rows: &[List<u32>], wanted: &[&[u32]]) {
    assert!(rt; rows.len() == wanted.len());
    for (row, want) in rows.iter().zip(wanted) {
        assert!(rt; row.as_slice() == *want);
    }
}

/// What an opening of a level touches at the station.
#[derive(Clone, Copy)]
struct Case<'a> {
    level: usize,
    points: [Place; 3],
    /// Where the seventh unit begins.
    west: i64,
    tolerance: u32,
    want: &'a [u32],
}

fn judge(rt: &impl Abort, alloc: Global, case: &Case) -> Result<(), Fail> {
    let door = opening(alloc, FIRST_OPENING, case.level, &case.points)?;
    let rows = touched_at_station(alloc, door, case.west, case.tolerance)?;
    judge_rows(rt, rows.as_slice(), &[case.want]);
    Ok(())
}

#[test]
fn openings_touch_units_of_their_level(rt: HostRuntime) -> Result<(), Fail> {
    let openings = openings_of(rt.alloc(), &OPENINGS)?;
    let rows = touched_at_station(rt.alloc(), openings, 400_000, 1000)?;
    let wanted: [&[u32]; 16] = [
        &[0, 1],
        &[0, 2],
        &[0, 3],
        &[0, 4],
        &[0, 5],
        &[0, 6],
        &[0],
        &[0],
        &[0],
        &[0],
        &[0],
        &[0],
        &[8, 9],
        &[8, 10],
        &[8, 11],
        &[8, 12],
    ];
    judge_rows(&rt, rows.as_slice(), &wanted);
    Ok(())
}

/// From the first position to the last, by one between them.
fn told<'a>(
    level: usize,
    points: [Place; 3],
    west: i64,
    tolerance: u32,
    want: &'a [u32],
) -> Case<'a> {
    Case {
        level,
        points,
        west,
        tolerance,
        want,
    }
}

#[test]
fn moved_openings_touch_others(rt: HostRuntime) -> Result<(), Fail> {
    let north = [(490_000, 100_900), (500_000, 100_900), (510_000, 100_900)];
    let across = [(299_500, 100_000), (300_000, 100_000), (300_500, 100_000)];
    let column = [(600_000, 200_000), (610_000, 200_000), (620_000, 200_000)];
    let bent = [(490_000, 100_000), (500_000, 101_001), (510_000, 100_000)];
    let hole = [(600_000, 500_000), (610_000, 500_000), (620_000, 500_000)];
    let table = [
        told(10, north, 400_000, 900, &[0, 6]),
        told(10, north, 400_000, 899, &[]),
        told(10, across, 300_000, 1000, &[0, 5, 6]),
        told(10, across, 300_000, 500, &[0, 5, 6]),
        told(10, across, 300_000, 499, &[0]),
        told(10, column, 400_000, 1000, &[7]),
        told(11, column, 400_000, 1000, &[]),
        told(10, bent, 400_000, 1000, &[]),
        told(10, hole, 400_000, 0, &[13]),
        // With equal ends, at the corner of a room and in the middle of a side.
        told(10, [(300_000, 100_000); 3], 400_000, 0, &[0, 5]),
        told(10, [(900_000, 250_000); 3], 400_000, 0, &[0]),
    ];
    for case in &table {
        judge(&rt, rt.alloc(), case)?;
    }
    Ok(())
}

/// The corners of the i-th square: on each of four levels there are five rows of ten, side by side.
fn square(i: u32) -> (Place, Place) {
    let low = (i64::from(i / 4 % 10) * 1000, i64::from(i / 40) * 1000);
    (
        low,
        (low.0.saturating_add(1000), low.1.saturating_add(1000)),
    )
}

const SQUARES: u32 = 200;

const DOORS: u32 = 300;

/// How far outside of a range a number is.
fn gap(n: i64, low: i64, high: i64) -> u64 {
    if n < low {
        low.abs_diff(n)
    } else if n > high {
        n.abs_diff(high)
    } else {
        0
    }
}

/// Whether the position is within 30 of the border of a box.
fn is_near(p: Place, low: Place, high: Place) -> bool {
    let (east, north) = (gap(p.0, low.0, high.0), gap(p.1, low.1, high.1));
    if east > 0 || north > 0 {
        let squares = east.saturating_mul(east);
        return squares.saturating_add(north.saturating_mul(north)) <= 900;
    }
    let west_or_east = p.0.abs_diff(low.0).min(p.0.abs_diff(high.0));
    let south_or_north = p.1.abs_diff(low.1).min(p.1.abs_diff(high.1));
    west_or_east.min(south_or_north) <= 30
}

/// Whether the i-th opening touches the j-th square within 30.
fn touches_slowly(i: u32, j: u32) -> bool {
    let (low, high) = square(j);
    let [a, b, c] = beside_squares(i);
    i % 4 == j % 4 && is_near(a, low, high) && is_near(b, low, high) && is_near(c, low, high)
}

/// The squares that it touches, one by one.
fn touching_squares(alloc: Global, i: u32) -> Result<Vec<u32>, AllocError> {
    let mut places = Vec::new(alloc);
    for j in 0..SQUARES {
        if touches_slowly(i, j) {
            places.push(j)?;
        }
    }
    Ok(places)
}

fn squares(alloc: Global) -> Result<String, AllocError> {
    let mut units = String::new(alloc);
    for j in 0..SQUARES {
        let (low, high) = square(j);
        let number = (j as usize).saturating_add(FIRST_UNIT);
        let unit = unit(
            alloc,
            number,
            j as usize % 4,
            "room",
            &between(low, high),
            &[],
        )?;
        add(&mut units, unit.as_str())?;
    }
    Ok(units)
}

/// The i-th of the openings near or off their sides, some of them with a bend.
fn beside_squares(i: u32) -> [Place; 3] {
    let x = i64::from(i.wrapping_mul(7) % 23) * 500 - 500;
    let y = i64::from(i.wrapping_mul(5) % 13) * 500 - 500;
    let off = i64::from(i % 5) * 20 - 40;
    let bend = if i % 11 == 0 { 100 } else { 0 };
    if i % 2 == 0 {
        let start = moved((x, y), 0, off);
        [start, moved(start, 100, bend), moved(start, 200, 0)]
    } else {
        let start = moved((x, y), off, 0);
        [start, moved(start, bend, 100), moved(start, 0, 200)]
    }
}

fn many_doors(alloc: Global) -> Result<String, AllocError> {
    let mut openings = String::new(alloc);
    for i in 0..DOORS {
        let number = (i as usize).saturating_add(FIRST_OPENING);
        let opening = opening(alloc, number, i as usize % 4, &beside_squares(i))?;
        add(&mut openings, opening.as_str())?;
    }
    Ok(openings)
}

/// Holds the rows against all pairs, and counts the touches.
fn judge_slowly(rt: &impl Abort, alloc: Global, rows: &[List<u32>]) -> Result<usize, Fail> {
    assert!(rt; rows.len() == DOORS as usize);
    let mut count: usize = 0;
    for (i, row) in (0..DOORS).zip(rows) {
        let want = touching_squares(alloc, i)?;
        assert!(rt; row.as_slice() == want.as_slice());
        count = count.saturating_add(want.len());
    }
    Ok(count)
}

#[test]
fn rows_are_those_of_all_pairs(rt: HostRuntime) -> Result<(), Fail> {
    let alloc = rt.alloc();
    let files = files_of(alloc, many_doors(alloc)?, squares(alloc)?)?;
    let touches = touches_of(alloc, &files, 30)?;
    let count = judge_slowly(&rt, alloc, touches.rows.as_slice())?;
    // 42 openings touch two squares and 16 one, by a count in exact fractions outside.
    assert!(rt; count == 100);
    Ok(())
}
