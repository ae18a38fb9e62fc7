//! Which places of rooms are joined, against tables that were worked out apart from the program, and against plain loops over what the definitions say.

ghost use Rattle.std.specs.Prelude.{◌≡◌, ◌<◌, ◌≤◌, All, IfOk, OnOk, length};
ghost use Rattle.test_figures.specs.Boxes.{IsInBox, IsInDoubledBox};
ghost use Rattle.plane_exact.specs.Figure.{vertices};

use crate::rooms::{ROOMS, Room, drawn, sees, spot_of};
use plane_exact::length_cm;
use std::alloc::{AllocError, Global};
use std::process::Abort;
use std::test::Fail;
use unit_sight::{Mask, Sights};
use venue_types::{Shape, Spot};

const SCALE: u32 = 10_000_000;

/// The spots of some places.
fn spots_of(alloc: Global, places: &[(i64, i64)]) -> Result<Vec<Spot>, AllocError>
    ensures { IfOk result (λ spots. All IsInDoubledBox spots.items) }
{
    let mut spots = Vec::new(alloc);
    for place in places {
        spots.push(spot_of(*place))?;
    }
    Ok(spots)
}

/// Which places of the room are joined. There are few.
fn joined(
    rt: &impl Abort,
    alloc: Global,
    room: &Shape,
    t: u32,
    spots: &[Spot],
) -> Result<Sights, AllocError>
    requires room { All IsInBox (vertices room.now) }
    requires spots { All IsInDoubledBox spots.now }
{
    if 4096 < spots.len() {
        return Err(AllocError);
    }
    match Sights::of(alloc, room, spots, u32::min(t, 1_000_000), SCALE, SCALE) {
        Ok(sights) => {
            assert!(rt; sights.size() as usize == spots.len());
            Ok(sights)
        }
        Err(_) => Err(AllocError),
    }
}

fn at(table: &[bool], size: usize, i: usize, j: usize) -> bool {
    table
        .get(i.wrapping_mul(size).wrapping_add(j))
        .copied()
        .unwrap_or(false)
}

/// Who sees whom, by a look at every wall for each pair.
fn seen(alloc: Global, room: &Shape, t: u32, spots: &[Spot]) -> Result<Vec<bool>, AllocError>
    requires room { All IsInBox (vertices room.now) }
    requires spots { All IsInDoubledBox spots.now }
{
    let mut table = Vec::new(alloc);
    for i in 0..spots.len() {
        for j in 0..spots.len() {
            table.push(i != j && sees(room, t, spots[i], spots[j]))?;
        }
    }
    Ok(table)
}

fn is_blind(table: &[bool], size: usize, i: usize) -> bool {
    !(0..size).any(|j| at(table, size, i, j))
}

fn length_between(spots: &[Spot], i: usize, j: usize) -> u32
    requires spots { All IsInDoubledBox spots.now }
    requires first { i < length spots.now }
    requires second { j < length spots.now }
{
    length_cm(spots[i], spots[j], SCALE, SCALE)
}

/// The nearest that sees somebody, the first of those as near.
fn host_of(spots: &[Spot], table: &[bool], i: usize) -> Option<usize>
    requires spots { All IsInDoubledBox spots.now }
    requires place { i < length spots.now }
{
    let mut best: Option<(u32, usize)> = None;
    for j in 0..spots.len() {
        if is_blind(table, spots.len(), j) {
            continue;
        }
        let length = length_between(spots, i, j);
        let is_nearer = match best {
            None => true,
            Some((least, _)) => length < least,
        };
        if is_nearer {
            best = Some((length, j));
        }
    }
    best.map(|(_, j)| j)
}

/// Who is joined to whom, by the words of the definitions.
fn expected(alloc: Global, spots: &[Spot], table: &[bool]) -> Result<Vec<bool>, AllocError>
    requires { All IsInDoubledBox spots.now }
{
    let size = spots.len();
    let mut hosts = Vec::new(alloc);
    let mut all_blind = true;
    for i in 0..size {
        if is_blind(table, size, i) {
            hosts.push(host_of(spots, table, i))?;
        } else {
            hosts.push(None)?;
            all_blind = false;
        }
    }
    let mut joined = Vec::new(alloc);
    for i in 0..size {
        for j in 0..size {
            let is_host = hosts.get(i).copied().flatten() == Some(j)
                || hosts.get(j).copied().flatten() == Some(i);
            joined.push(i != j && (at(table, size, i, j) || is_host || all_blind))?;
        }
    }
    Ok(joined)
}

fn is_new(table: &[bool], size: usize, known: Option<u32>, j: usize) -> bool {
    match known {
        None => true,
        Some(a) => a as usize != j && !at(table, size, a as usize, j),
    }
}

fn next_of(table: &[bool], size: u32, i: u32, known: Option<u32>, from: u32) -> Option<u32> {
    let m = size as usize;
    (from..size).find(|j| at(table, m, i as usize, *j as usize)
        && is_new(table, m, known, *j as usize))
}

/// What is asked of one place, against the table.
fn assert_place(rt: &impl Abort, sights: &Sights, mask: &Mask, table: &[bool], i: u32)
    requires place { i < length sights.now }
    requires mask { length mask.now ≡ length sights.now }
{
    let size = sights.size();
    let m = size as usize;
    let mut count = 0u32;
    let mut chosen = 0u32;
    for j in 0..size {
        let is_joined = at(table, m, i as usize, j as usize);
        assert!(rt; sights.joins(i, j) == is_joined);
        assert!(rt; sights.rank(i, j) == count);
        if is_joined {
            assert!(rt; sights.nth(i, count) == Some(j));
            count = count.saturating_add(1);
            if mask.has(j) {
                chosen = chosen.saturating_add(1);
            }
        }
    }
    assert!(rt; sights.count(i) == count);
    assert!(rt; sights.nth(i, count).is_none());
    assert!(rt; sights.both(i, mask) == chosen);
}

/// What is told of one place from each `step`-th place on where another is known.
fn assert_next_beside(
    rt: &impl Abort,
    sights: &Sights,
    table: &[bool],
    i: u32,
    known: u32,
    step: u32,
)
    requires place { i < length sights.now }
    requires known { known < length sights.now }
{
    let size = sights.size();
    for from in 0..size {
        if from % step.max(1) == 0 {
            let want = next_of(table, size, i, Some(known), from);
            assert!(rt; sights.next(i, Some(known), from) == want);
        }
    }
}

/// What is told of one place from each place on where no other is known.
fn assert_next_alone(rt: &impl Abort, sights: &Sights, table: &[bool], i: u32)
    requires { i < length sights.now }
{
    let size = sights.size();
    for from in 0..size {
        assert!(rt; sights.next(i, None, from) == next_of(table, size, i, None, from));
    }
}

/// What is told of one place where another is known, and where none is.
fn assert_next(rt: &impl Abort, sights: &Sights, table: &[bool], i: u32, step: u32)
    requires { i < length sights.now }
{
    for known in 0..sights.size() {
        assert_next_beside(rt, sights, table, i, known, step);
    }
    assert_next_alone(rt, sights, table, i);
}

/// A set without places.
fn nothing_of(alloc: Global, size: u32) -> Result<Mask, AllocError>
    requires { size ≤ 4096 }
    ensures { IfOk result (λ mask. length mask ≡ size) }
{
    match Mask::new(alloc, size) {
        Ok(mask) => Ok(mask),
        Err(_) => Err(AllocError),
    }
}

fn put(mask: &mut Mask, place: u32)
    requires { place < length mask.old }
    ensures { length mask.new ≡ length mask.old }
{
    mask.put(place);
}

/// A set of so many places, of which every third is left out. There are few.
fn two_of_three(alloc: Global, sights: &Sights) -> Result<Mask, AllocError>
    ensures { IfOk result (λ mask. length mask ≡ length sights.now) }
{
    let size = sights.size();
    let mut mask = nothing_of(alloc, size)?;
    for j in 0..size {
        if j % 3 != 1 {
            put(&mut mask, j);
        }
    }
    Ok(mask)
}

fn assert_room(
    rt: &impl Abort,
    alloc: Global,
    room: &Shape,
    t: u32,
    spots: &[Spot],
) -> Result<(), AllocError>
    requires room { All IsInBox (vertices room.now) }
    requires spots { All IsInDoubledBox spots.now }
{
    let sights = joined(rt, alloc, room, t, spots)?;
    let table = expected(alloc, spots, &seen(alloc, room, t, spots)?)?;
    let size = sights.size();
    let mask = two_of_three(alloc, &sights)?;
    let step = if size < 40 { 1 } else { 13 };
    let mut missing = false;
    for i in 0..size {
        assert_place(rt, &sights, &mask, &table, i);
        assert_next(rt, &sights, &table, i, step);
        for j in 0..size {
            missing |= i != j && !at(&table, size as usize, i as usize, j as usize);
        }
    }
    assert!(rt; sights.is_whole() != missing);
    Ok(())
}

type Row = (Room, &'static [(i64, i64)], &'static [(u32, u32)]);

// A room, places in it, of which the last are its corners where it has some, and the pairs that are joined within 5,000 nanodegrees.
static TABLE: [Row; 11] = [
    (
        Room::Ell,
        &[
            (350_000, 50_000),
            (50_000, 350_000),
            (200_000, 200_000),
            (100_000, 100_000),
        ],
        &[(0, 3), (1, 3), (2, 3)],
    ),
    (
        Room::Court,
        &[
            (50_000, 200_000),
            (350_000, 200_000),
            (200_000, 200_000),
            (150_000, 150_000),
            (150_000, 250_000),
            (250_000, 250_000),
            (250_000, 150_000),
        ],
        &[
            (0, 3),
            (0, 4),
            (1, 5),
            (1, 6),
            (2, 3),
            (3, 4),
            (3, 6),
            (4, 5),
            (5, 6),
        ],
    ),
    (
        Room::Fin,
        &[
            (100_000, 50_000),
            (300_000, 50_000),
            (200_000, 100_000),
            (199_000, 150_000),
            (201_000, 150_000),
        ],
        &[
            (0, 2),
            (0, 3),
            (0, 4),
            (1, 2),
            (1, 3),
            (1, 4),
            (2, 3),
            (2, 4),
            (3, 4),
        ],
    ),
    (
        Room::Fin,
        &[
            (195_000, 50_000),
            (205_000, 50_000),
            (200_000, 100_000),
            (199_000, 150_000),
            (201_000, 150_000),
        ],
        &[
            (0, 1),
            (0, 2),
            (0, 3),
            (0, 4),
            (1, 2),
            (1, 3),
            (1, 4),
            (2, 3),
            (2, 4),
            (3, 4),
        ],
    ),
    (
        Room::Spike,
        &[(100_000, 50_000), (300_000, 50_000), (50_000, 180_000)],
        &[(0, 1), (0, 2)],
    ),
    (
        Room::Kite,
        &[
            (100_000, 10_000),
            (300_000, 10_000),
            (200_000, 100_000),
            (200_000, 0),
            (150_000, 50_000),
            (200_000, 100_000),
            (250_000, 50_000),
        ],
        &[
            (0, 2),
            (0, 3),
            (0, 4),
            (0, 5),
            (1, 2),
            (1, 3),
            (1, 5),
            (1, 6),
            (2, 4),
            (2, 5),
            (2, 6),
            (3, 4),
            (3, 6),
            (4, 5),
            (5, 6),
        ],
    ),
    (
        Room::Niche,
        &[
            (100_000, 10_000),
            (300_000, 10_000),
            (200_000, 100_000),
            (150_000, 0),
            (150_000, 100_000),
            (250_000, 100_000),
            (250_000, 0),
        ],
        &[
            (0, 3),
            (0, 4),
            (1, 5),
            (1, 6),
            (2, 4),
            (2, 5),
            (3, 4),
            (3, 6),
            (4, 5),
            (5, 6),
        ],
    ),
    (
        Room::Apart,
        &[(50_000, 50_000), (350_000, 50_000), (200_000, 50_000)],
        &[(0, 1), (0, 2), (1, 2)],
    ),
    (
        Room::Apart,
        &[
            (50_000, 50_000),
            (80_000, 50_000),
            (350_000, 50_000),
            (200_000, 50_000),
        ],
        &[(0, 1), (1, 2), (1, 3)],
    ),
    (
        Room::Pair,
        &[(50_000, 50_000), (150_000, 50_000), (20_000, 80_000)],
        &[(0, 1), (0, 2)],
    ),
    (Room::Ell, &[(200_000, 200_000)], &[]),
];

fn assert_row(rt: &impl Abort, sights: &Sights, pairs: &[(u32, u32)]) {
    let size = sights.size();
    let mut found = 0usize;
    for i in 0..size {
        for j in 0..size {
            let is_listed = pairs.iter().any(|pair| *pair == (i, j) || *pair == (j, i));
            assert!(rt; sights.joins(i, j) == is_listed);
            if is_listed && i < j {
                found = found.saturating_add(1);
            }
        }
    }
    assert!(rt; found == pairs.len());
}

#[test]
fn who_is_joined(rt: HostRuntime) -> Result<(), Fail> {
    let alloc = rt.alloc();
    for (which, places, pairs) in &TABLE {
        let room = drawn(alloc, *which)?;
        let spots = spots_of(alloc, places)?;
        let sights = joined(&rt, alloc, &room, 5_000, &spots)?;
        assert_row(&rt, &sights, pairs);
    }
    Ok(())
}

/// A number below the bound by arithmetic alone, which moves the state on.
fn below(state: &mut u64, bound: u64) -> i64 {
    *state = (*state)
        .wrapping_mul(6_364_136_223_846_793_005)
        .wrapping_add(1_442_695_040_888_963_407);
    ((*state >> 33) % bound.max(1)) as i64
}

/// A coordinate on a grid of half metres round the rooms, of every second place up to twice `t` off it.
fn coordinate(state: &mut u64, t: u32) -> i64 {
    let on_grid = below(state, 89).wrapping_mul(5_000).wrapping_sub(20_000);
    if below(state, 2) == 0 {
        return on_grid;
    }
    let reach = (t as i64).wrapping_mul(2);
    on_grid
        .wrapping_add(below(state, (reach as u64).wrapping_mul(2).wrapping_add(1)))
        .wrapping_sub(reach)
}

/// The spots of so many places drawn at random.
fn drawn_spots(alloc: Global, state: &mut u64, many: i64, t: u32) -> Result<Vec<Spot>, AllocError>
    ensures { IfOk result (λ spots. All IsInDoubledBox spots.items) }
{
    let mut places = Vec::new(alloc);
    for _ in 0..many {
        places.push((coordinate(state, t), coordinate(state, t)))?;
    }
    spots_of(alloc, &places)
}

/// A room with places drawn at random, against the loops.
fn assert_drawn(
    rt: &impl Abort,
    alloc: Global,
    which: Room,
    turn: u32,
    state: &mut u64,
) -> Result<(), AllocError> {
    let room = drawn(alloc, which)?;
    let t = [0, 1_000, 5_000, 30_000][(turn % 4) as usize];
    let many = if turn == 9 {
        130
    } else {
        below(state, 29).wrapping_add(2)
    };
    let spots = drawn_spots(alloc, state, many, t)?;
    assert_room(rt, alloc, &room, t, &spots)
}

#[test]
fn rooms_against_loops(rt: HostRuntime) -> Result<(), Fail> {
    let alloc = rt.alloc();
    let mut state = 20_261_201;
    for turn in 0..25 {
        for which in ROOMS {
            assert_drawn(&rt, alloc, which, turn, &mut state)?;
        }
    }
    Ok(())
}
