//! The plain calls and the banded ones give the same answers, on rings of many forms.

ghost use Rattle.std.specs.Prelude.{◌≡◌, All, IfOk, OnOk, flat_map};
ghost use Rattle.test_figures.specs.Boxes.{IsInBox};
ghost use Rattle.plane_exact.specs.Figure.{vertices, part_points};

use plane_exact::{inside, inside_ring, near, near_ring};
use plane_trees::{Bands, RingBands, ring_crosses};
use std::alloc::{AllocError, Global};
use std::test::Fail;
use test_figures::{at, part, polygon, ring};
use venue_types::{List, Part, Ring, Shape};

const FAR: i64 = 100_000_000;

fn add_part(
    alloc: Global,
    parts: &mut Vec<Part>,
    outer: &[(i64, i64)],
    hole: &[(i64, i64)],
) -> Result<(), AllocError>
    requires { All IsInBox (flat_map part_points parts.old.items) }
    ensures { OnOk result (All IsInBox (flat_map part_points parts.new.items)) }
{
    parts.push(part(alloc, outer, hole)?)?;
    Ok(())
}

fn add_square(alloc: Global, parts: &mut Vec<Part>, i: i64) -> Result<(), AllocError>
    requires { All IsInBox (flat_map part_points parts.old.items) }
    ensures { OnOk result (All IsInBox (flat_map part_points parts.new.items)) }
{
    let x = i.saturating_mul(5000);
    let left = x.saturating_add(1000);
    let right = x.saturating_add(2000);
    let end = x.saturating_add(3000);
    let outer = [(x, 0), (end, 0), (end, 3000), (x, 3000), (x, 0)];
    let hole = [
        (left, 1000),
        (left, 2000),
        (right, 2000),
        (right, 1000),
        (left, 1000),
    ];
    add_part(alloc, parts, &outer, &hole)
}

/// Nine squares in a row, each with a square hole, and as the last part `more`.
fn row(alloc: Global, more: &[(i64, i64)]) -> Result<Shape, AllocError>
    ensures { IfOk result (λ shape. All IsInBox (vertices shape)) }
{
    let mut parts = Vec::new(alloc);
    for i in 0..9i64 {
        add_square(alloc, &mut parts, i)?;
    }
    add_part(alloc, &mut parts, more, &[])?;
    Ok(Shape {
        parts: List::from_vec(parts),
    })
}

#[derive(Clone, Copy)]
enum Form {
    Staircase,
    Comb,
    CombTurnedHalfRight,
    CombTurned,
    Circle,
    Rough,
    Star,
    Spiral,
}

fn comb(i: i64) -> (i64, i64) {
    match i {
        197 => (99_500, -1000),
        198 => (0, -1000),
        _ => (
            i.wrapping_mul(500),
            if (i.wrapping_add(1) / 2) % 2 == 0 {
                0
            } else {
                90_000
            },
        ),
    }
}

/// Corner `i` of a ring of 200 positions, where (c, s) is the direction, of length 1,000,000, and `random` is below 2^24.
fn corner(form: Form, i: i64, c: i64, s: i64, random: i64) -> (i64, i64) {
    match form {
        Form::Staircase if i == 198 => (0, 99_000),
        Form::Staircase => (
            (i.wrapping_add(1) / 2).wrapping_mul(1000),
            (i / 2).wrapping_mul(1000),
        ),
        Form::Comb => comb(i),
        Form::CombTurnedHalfRight => {
            let (x, y) = comb(i);
            (x.wrapping_sub(y), x.wrapping_add(y))
        }
        Form::CombTurned => {
            let (x, y) = comb(i);
            (
                x.wrapping_mul(12).wrapping_sub(y.wrapping_mul(5)) / 13,
                x.wrapping_mul(5).wrapping_add(y.wrapping_mul(12)) / 13,
            )
        }
        Form::Circle => (c.wrapping_mul(50), s.wrapping_mul(50)),
        Form::Rough => {
            let k = (random % 200).wrapping_add(900);
            (c.wrapping_mul(k) / 20, s.wrapping_mul(k) / 20)
        }
        Form::Star => {
            let k = (random % 50).wrapping_add(1);
            (c.wrapping_mul(k), s.wrapping_mul(k))
        }
        Form::Spiral => {
            let k = if i < 100 {
                i.wrapping_mul(3).wrapping_add(100)
            } else {
                i64::wrapping_sub(199, i).wrapping_mul(3).wrapping_add(130)
            };
            (c.wrapping_mul(k) / 10, s.wrapping_mul(k) / 10)
        }
    }
}

/// A ring of the form, of 200 positions.
fn drawn(alloc: Global, form: Form) -> Result<Vec<(i64, i64)>, AllocError> {
    let mut list = Vec::new(alloc);
    let mut c = 1_000_000i64;
    let mut s = 0i64;
    let mut random = 20_260_101u64;
    let first = corner(form, 0, c, s, 0);
    list.push(first)?;
    for i in 1..199i64 {
        random = random
            .wrapping_mul(6_364_136_223_846_793_005)
            .wrapping_add(1_442_695_040_888_963_407);
        match form {
            Form::Spiral if i < 100 => {
                c = c.wrapping_sub(s / 4);
                s = s.wrapping_add(c / 4);
            }
            Form::Spiral => {
                s = s.wrapping_sub(c / 4);
                c = c.wrapping_add(s / 4);
            }
            _ => {
                c = c.wrapping_sub(s / 32);
                s = s.wrapping_add(c / 32);
            }
        }
        list.push(corner(form, i, c, s, (random >> 40) as i64))?;
    }
    list.push(first)?;
    Ok(list)
}

fn inside_at(shape: &Shape, bands: &Bands, p: (i64, i64)) -> bool
    requires boxed { All IsInBox (vertices shape.now) }
    requires same { bands.now ≡ shape.now }
{
    let _ = shape;
    bands.inside(at(p))
}

fn near_at(shape: &Shape, bands: &Bands, p: (i64, i64), t: u32) -> bool
    requires boxed { All IsInBox (vertices shape.now) }
    requires same { bands.now ≡ shape.now }
{
    let _ = shape;
    bands.near(at(p), u32::min(t, 1_000_000))
}

/// Whether the plain and the banded calls agree on a shape at the position.
fn agree(shape: &Shape, bands: &Bands, p: (i64, i64)) -> bool
    requires boxed { All IsInBox (vertices shape.now) }
    requires same { bands.now ≡ shape.now }
{
    let p = at(p);
    if inside(p, shape) != bands.inside(p) {
        return false;
    }
    for t in [0, 1, 5000, 1_000_000] {
        let t = u32::min(t, 1_000_000);
        if near(p, shape, t) != bands.near(p, t) {
            return false;
        }
    }
    true
}

/// Whether they agree on a ring at the position.
fn agree_on_ring(ring: &Ring, bands: &RingBands, p: (i64, i64)) -> bool
    requires boxed { All IsInBox ring.now.points }
    requires same { bands.now ≡ ring.now }
{
    let p = at(p);
    if inside_ring(p, ring) != bands.inside(p) {
        return false;
    }
    for t in [0, 1, 5000, 1_000_000] {
        let t = u32::min(t, 1_000_000);
        if near_ring(p, ring, t) != bands.near(p, t) {
            return false;
        }
    }
    true
}

const STEPS: [(i64, i64); 5] = [(0, 0), (1, 0), (-1, 0), (0, 1), (0, -1)];

/// The position, and the middle between it and the next.
fn middle(a: (i64, i64), b: (i64, i64)) -> (i64, i64) {
    (a.0.wrapping_add(b.0) / 2, a.1.wrapping_add(b.1) / 2)
}

#[test]
fn forms(rt: HostRuntime) -> Result<(), Fail> {
    let alloc = rt.alloc();
    let table = [
        Form::Staircase,
        Form::Comb,
        Form::CombTurnedHalfRight,
        Form::CombTurned,
        Form::Circle,
        Form::Rough,
        Form::Star,
        Form::Spiral,
    ];
    for form in table {
        let points = drawn(alloc, form)?;
        let one = polygon(alloc, points.as_slice(), &[])?;
        let outer = ring(alloc, points.as_slice())?;
        let bands = Bands::of(alloc, &one)?;
        let ring_bands = RingBands::of(alloc, &outer)?;
        let mut before = (0, 0);
        for point in &points {
            for p in [*point, middle(before, *point), (point.0, before.1)] {
                for step in STEPS {
                    let q = (p.0.wrapping_add(step.0), p.1.wrapping_add(step.1));
                    assert!(rt; agree(&one, &bands, q));
                    assert!(rt; agree_on_ring(&outer, &ring_bands, q));
                }
            }
            before = *point;
        }
        assert!(rt; !crosses_at(alloc, points.as_slice())?);
    }
    Ok(())
}

fn crosses_at(alloc: Global, points: &[(i64, i64)]) -> Result<bool, Fail> {
    let ring = ring(alloc, points)?;
    Ok(ring_crosses(alloc, &ring)?)
}

#[test]
fn rings_that_cross(rt: HostRuntime) -> Result<(), Fail> {
    let alloc = rt.alloc();
    let mut stairs = drawn(alloc, Form::Staircase)?;
    assert!(rt; !crosses_at(alloc, stairs.as_slice())?);
    if let Some(place) = stairs.get_mut(198) {
        *place = (0, 500);
    }
    assert!(rt; crosses_at(alloc, stairs.as_slice())?);
    // A star of five points; rings that touch themselves, go there and back, stay in one place, or have no edge.
    let star = [(0, 5), (3, -4), (-5, 2), (5, 2), (-3, -4), (0, 5)];
    assert!(rt; crosses_at(alloc, &star)?);
    let touch = [(0, 0), (4, 0), (4, 4), (2, 0), (0, 4), (0, 0)];
    assert!(rt; !crosses_at(alloc, &touch)?);
    let back = [(0, 0), (9, 9), (3, 3), (9, 9), (0, 0)];
    assert!(rt; !crosses_at(alloc, &back)?);
    assert!(rt; !crosses_at(alloc, &[(7, 7); 30])?);
    assert!(rt; !crosses_at(alloc, &[(7, 7)])?);
    assert!(rt; !crosses_at(alloc, &[])?);
    let wide = [
        (-FAR, -FAR),
        (FAR, FAR),
        (-FAR, FAR),
        (FAR, -FAR),
        (-FAR, -FAR),
    ];
    assert!(rt; crosses_at(alloc, &wide)?);
    Ok(())
}

#[test]
fn many_rings(rt: HostRuntime) -> Result<(), Fail> {
    let alloc = rt.alloc();
    for open in [false, true] {
        let line = [(50_000, 0), (51_000, 1500), (52_000, 2000)];
        let many = row(alloc, if open { &line } else { &[] })?;
        let bands = Bands::of(alloc, &many)?;
        // In the hole of the second square, west of all, in the first square and on its border, between two squares.
        let table = [
            ((6500, 1500), false),
            ((-1, 1500), false),
            ((500, 1500), true),
            ((0, 1500), true),
            ((3000, 1500), false),
            ((4000, 1500), false),
            ((40_500, 500), true),
        ];
        for (p, want) in table {
            assert!(rt; inside_at(&many, &bands, p) == (want != (open && p.0 < 50_000)));
        }
        for x in -2..130i64 {
            for y in -2..9i64 {
                let p = (x.wrapping_mul(500), y.wrapping_mul(500));
                for step in STEPS {
                    let q = (p.0.wrapping_add(step.0), p.1.wrapping_add(step.1));
                    assert!(rt; agree(&many, &bands, q));
                }
            }
        }
    }
    let wide = polygon(
        alloc,
        &[
            (-FAR, -FAR),
            (FAR, -FAR),
            (FAR, FAR),
            (-FAR, FAR),
            (-FAR, -FAR),
        ],
        &[],
    )?;
    let bands = Bands::of(alloc, &wide)?;
    assert!(rt; inside_at(&wide, &bands, (-FAR, -FAR)));
    assert!(rt; !inside_at(&wide, &bands, (FAR, FAR)));
    assert!(rt; near_at(&wide, &bands, (FAR, FAR), 0));
    assert!(rt; near_at(&wide, &bands, (FAR - 1_000_000, 0), 1_000_000));
    assert!(rt; !near_at(&wide, &bands, (FAR - 1_000_001, 0), 1_000_000));
    Ok(())
}
