//! Answers that were worked out by fractions, by other methods than the crate's.

ghost use Rattle.std.specs.Prelude.{◌≡◌, All, IfOk};
ghost use Rattle.test_figures.specs.Boxes.{IsInBox, IsInDoubledBox};
ghost use Rattle.plane_exact.specs.Figure.{vertices};

use plane_exact::{crosses, inside, length_cm, near, near_edge, side, spans};
use std::alloc::{AllocError, Global};
use std::process::Abort;
use std::test::Fail;
use venue_types::{List, Part, Point, Ring, Shape, Spot};

const FAR: i64 = 100_000_000;

/// A position at most 100,000,000 from the middle on each axis, so that any two are close.
fn at(place: (i64, i64)) -> Point
    ensures { IsInBox result }
{
    Point {
        x: place.0.clamp(-100_000_000, 100_000_000),
        y: place.1.clamp(-100_000_000, 100_000_000),
    }
}

fn spot_at(place: (i64, i64)) -> Spot
    ensures { IsInDoubledBox result }
{
    Spot {
        x: place.0.clamp(-200_000_000, 200_000_000),
        y: place.1.clamp(-200_000_000, 200_000_000),
    }
}

fn side_at(a: (i64, i64), b: (i64, i64), p: (i64, i64)) -> i128 {
    side(at(a), at(b), at(p))
}

fn crosses_at(a: (i64, i64), b: (i64, i64), c: (i64, i64), d: (i64, i64)) -> bool {
    crosses(at(a), at(b), at(c), at(d))
}

fn near_edge_at(p: (i64, i64), a: (i64, i64), b: (i64, i64), t: u32) -> bool {
    near_edge(at(p), at(a), at(b), u32::min(t, 1_000_000))
}

fn length_at(a: (i64, i64), b: (i64, i64), kx: u32, ky: u32) -> u32 {
    length_cm(
        spot_at(a),
        spot_at(b),
        u32::min(kx, 20_000_000),
        u32::min(ky, 20_000_000),
    )
}

fn spans_at(a: (i64, i64), b: (i64, i64), kx: u32, ky: u32, c: u32) -> bool {
    spans(
        spot_at(a),
        spot_at(b),
        u32::min(kx, 20_000_000),
        u32::min(ky, 20_000_000),
        c,
    )
}

fn inside_at(p: (i64, i64), shape: &Shape) -> bool
    requires { All IsInBox (vertices shape.now) }
{
    inside(at(p), shape)
}

fn near_at(p: (i64, i64), shape: &Shape, t: u32) -> bool
    requires { All IsInBox (vertices shape.now) }
{
    near(at(p), shape, u32::min(t, 1_000_000))
}

#[test]
fn sides(rt: HostRuntime) {
    let table = [
        ((0, 0), (4, 0), (1, 3), 12),
        ((0, 0), (4, 0), (1, -3), -12),
        ((0, 0), (4, 2), (2, 1), 0),
        (
            (-FAR, -FAR),
            (FAR, -FAR),
            (FAR, FAR),
            40_000_000_000_000_000,
        ),
        (
            (-FAR, FAR),
            (FAR, FAR),
            (FAR, -FAR),
            -40_000_000_000_000_000,
        ),
        ((-FAR, -FAR), (FAR, FAR), (FAR, FAR - 1), -200_000_000),
    ];
    for (a, b, p, want) in table {
        assert!(rt; side_at(a, b, p) == want);
    }
}

#[test]
fn crossings(rt: HostRuntime) {
    let table = [
        ((0, 0), (4, 4), (0, 4), (4, 0), true),
        ((0, 0), (4, 4), (4, 0), (0, 4), true),
        ((-FAR, -FAR), (FAR, FAR), (-FAR, FAR), (FAR, -FAR), true),
        (
            (-FAR, -FAR),
            (FAR, FAR),
            (FAR - 1, FAR),
            (FAR, FAR - 1),
            true,
        ),
        // Ends that meet, an end on the other segment, one line, no common point.
        ((0, 0), (4, 4), (4, 4), (8, 0), false),
        ((0, 0), (4, 4), (2, 2), (5, 0), false),
        ((2, 2), (5, 0), (0, 0), (4, 4), false),
        ((0, 0), (4, 4), (1, 1), (3, 3), false),
        ((0, 0), (4, 4), (5, 5), (6, 9), false),
        ((0, 0), (4, 4), (3, 1), (9, -5), false),
        ((0, 0), (0, 0), (-1, -1), (1, 1), false),
        (
            (-FAR, -FAR),
            (FAR, FAR - 1),
            (FAR - 1, FAR),
            (FAR, FAR),
            false,
        ),
    ];
    for (a, b, c, d, want) in table {
        assert!(rt; crosses_at(a, b, c, d) == want);
    }
}

#[test]
fn distances(rt: HostRuntime) {
    let table = [
        // Beside, before and beyond the edge, and on it.
        ((0, 5), (0, 0), (9, 0), 5, true),
        ((0, 5), (0, 0), (9, 0), 4, false),
        ((-3, 4), (0, 0), (9, 0), 5, true),
        ((-3, 4), (0, 0), (9, 0), 4, false),
        ((12, 4), (0, 0), (9, 0), 5, true),
        ((12, 4), (0, 0), (9, 0), 4, false),
        ((-1, 0), (0, 0), (9, 0), 0, false),
        ((10, 0), (0, 0), (9, 0), 0, false),
        ((4, 0), (0, 0), (9, 0), 0, true),
        ((9, 0), (0, 0), (9, 0), 0, true),
        ((7, 1), (0, 0), (8, 6), 3, false),
        ((7, 1), (0, 0), (8, 6), 4, true),
        // On the line, far beyond the edge.
        ((100, 75), (0, 0), (8, 6), 10, false),
        // An edge without length.
        ((3, 4), (0, 0), (0, 0), 5, true),
        ((3, 4), (0, 0), (0, 0), 4, false),
        // The extremes.
        ((0, 1_000_000), (-FAR, 0), (FAR, 0), 1_000_000, true),
        ((0, 1_000_001), (-FAR, 0), (FAR, 0), 1_000_000, false),
        ((1_414_213, 0), (-FAR, -FAR), (FAR, FAR), 1_000_000, true),
        ((1_414_214, 0), (-FAR, -FAR), (FAR, FAR), 1_000_000, false),
        ((-FAR, FAR), (FAR, -FAR), (FAR, -FAR), 1_000_000, false),
    ];
    for (p, a, b, t, want) in table {
        assert!(rt; near_edge_at(p, a, b, t) == want);
    }
}

#[test]
fn lengths(rt: HostRuntime) {
    let table = [
        ((0, 0), (600_000, 800_000), 10_000_000, 10_000_000, 5_000),
        ((0, 0), (2, 0), 10_000_000, 10_000_000, 1),
        ((0, 0), (0, 0), 10_000_000, 10_000_000, 0),
        ((0, 0), (1, 0), 10_000_000, 10_000_000, 1),
        ((5, -7), (-599_995, -800_007), 10_000_000, 10_000_000, 5_000),
        ((0, 0), (600_001, 800_000), 10_000_000, 10_000_000, 5_001),
        ((0, 0), (0, 200), 1, 10_000_000, 1),
        ((0, 0), (0, 201), 1, 10_000_000, 2),
        ((0, 0), (200, 0), 10_000_000, 10_000_000, 1),
        ((0, 0), (201, 0), 10_000_000, 10_000_000, 2),
        ((0, 0), (200, 0), 0, 10_000_000, 0),
        ((0, 0), (123_456, 654_321), 7_381_234, 11_119_999, 3_667),
        (
            (-2 * FAR, -2 * FAR),
            (2 * FAR, 2 * FAR),
            20_000_000,
            20_000_000,
            5_656_855,
        ),
        (
            (-2 * FAR, 0),
            (2 * FAR, 0),
            20_000_000,
            20_000_000,
            4_000_000,
        ),
        ((2 * FAR, 2 * FAR), (-2 * FAR, -2 * FAR), 1, 1, 1),
    ];
    for (a, b, kx, ky, want) in table {
        assert!(rt; length_at(a, b, kx, ky) == want);
        assert_shortest(&rt, a, b, kx, ky);
    }
}

/// The product of the difference and what a unit of it counts, squared.
fn stretched(m: i64, n: i64, k: u32) -> u128 {
    let length = (m.abs_diff(n) as u128).wrapping_mul(k as u128);
    length.wrapping_mul(length)
}

/// The square of so many centimetres in the units of `stretched`.
fn square_of(c: u32) -> u128 {
    let c = c as u128;
    c.wrapping_mul(c).wrapping_mul(4_000_000_000_000_000_000)
}

/// The length spans the way and one less doesn't, by the definition's inequalities and by `spans`.
fn assert_shortest(rt: &impl Abort, a: (i64, i64), b: (i64, i64), kx: u32, ky: u32) {
    let square = stretched(a.0, b.0, kx).wrapping_add(stretched(a.1, b.1, ky));
    let c = length_at(a, b, kx, ky);
    let less = c.saturating_sub(1);
    assert!(rt; square <= square_of(c));
    assert!(rt; c == 0 || square_of(less) < square);
    assert!(rt; spans_at(a, b, kx, ky, c));
    assert!(rt; c == 0 || !spans_at(a, b, kx, ky, less));
}

/// A number up to 2^31 by arithmetic alone, which moves the state on.
fn next(state: &mut u64) -> u64 {
    *state = (*state)
        .wrapping_mul(6_364_136_223_846_793_005)
        .wrapping_add(1_442_695_040_888_963_407);
    *state >> 33
}

/// A coordinate at most 200,000,000 from the middle, nearer by the power of two.
fn coordinate(state: &mut u64, power: u32) -> i64 {
    let above = (next(state) % 400_000_001) as i64;
    above.wrapping_sub(2 * FAR).wrapping_shr(power)
}

#[test]
fn many_lengths(rt: HostRuntime) {
    let mut state = 20_260_101;
    for turn in 0..100_000u32 {
        let power = turn % 28;
        let a = (coordinate(&mut state, power), coordinate(&mut state, power));
        let b = (coordinate(&mut state, power), coordinate(&mut state, power));
        let kx = (next(&mut state) % 20_000_001) as u32;
        let ky = (next(&mut state) % 20_000_001) as u32;
        assert_shortest(&rt, a, b, kx, ky);
    }
}

/// The shape below, and which positions are inside (`i`, and `x` on the border) or not (`.`, and `o` on the border). The first
/// polygon is concave and has a hole, the second lies in the notch of the first.
const PICTURE: [&[u8]; 21] = [
    b"......o.....ooooooooo",
    b".....ii.....iiiiiiiio",
    b"...xiiio.oooiiiiiiiio",
    b"..iiiiii..i.iiiiiiiio",
    b"xiiiiiiio.oxiiiiiiiio",
    b"xiiiiiiii..iiiiiiiiio",
    b"xiiiiiiiio.iiiiiiiiio",
    b"xiiiiiiiii.iiiiiiiiio",
    b"xiiiiiiiiixiiiiiiiiio",
    b"xiiiiiiiiiiiiiiiiiiio",
    b"xiiiiiiiiiiiiiiiiiiio",
    b"xiiiiiiiiiiiiiiiiiiio",
    b"xiiixiiiiiiiiiiiiiiio",
    b"xiiio.........xiiiiio",
    b"xiiio.........xiiiiio",
    b"xiiio.........xiiiiio",
    b"xiiiooooooooooxiiiiio",
    b"xiiiiiiiiiiiiiiiiiiio",
    b"xiiiiiiiiiiiiiiiiiiio",
    b"xiiiiiiiiiiiiiiiiiiio",
    b"xxxxxxxxxxxxxxxxxxxxo",
];

fn ring(alloc: Global, points: &[(i64, i64)], scale: i64) -> Result<Ring, AllocError>
    ensures { IfOk result (λ ring. All IsInBox ring.points) }
{
    let mut list = Vec::new(alloc);
    for point in points {
        list.push(at((point.0.saturating_mul(scale), point.1.saturating_mul(scale))))?;
    }
    Ok(Ring {
        points: List::from_vec(list),
    })
}

fn pictured(alloc: Global, scale: i64) -> Result<Shape, AllocError>
    ensures { IfOk result (λ shape. All IsInBox (vertices shape)) }
{
    let outer = ring(
        alloc,
        &[
            (-10, -10),
            (10, -10),
            (10, 10),
            (2, 10),
            (0, 2),
            (-4, 10),
            (-10, 6),
            (-10, -10),
        ],
        scale,
    )?;
    let hole = ring(
        alloc,
        &[(-6, -6), (-6, -2), (4, -3), (4, -6), (-6, -6)],
        scale,
    )?;
    let notch = ring(alloc, &[(-1, 8), (0, 6), (1, 8), (-1, 8)], scale)?;
    let first = Part {
        outer,
        holes: List::from_vec(vec![in alloc; hole]?),
    };
    let second = Part {
        outer: notch,
        holes: List::new(alloc),
    };
    Ok(Shape {
        parts: List::from_vec(vec![in alloc; first, second]?),
    })
}

#[test]
fn shapes(rt: HostRuntime) -> Result<(), Fail> {
    for scale in [1, FAR / 10] {
        let shape = pictured(rt.alloc(), scale)?;
        for (y, line) in (-10..=10i64).rev().zip(PICTURE) {
            for (x, mark) in (-10..=10i64).zip(line) {
                let p = (x.saturating_mul(scale), y.saturating_mul(scale));
                assert!(rt; inside_at(p, &shape) == (*mark == b'i' || *mark == b'x'));
                assert!(rt; near_at(p, &shape, 0) == (*mark == b'o' || *mark == b'x'));
            }
        }
    }
    // The middle of the picture a hundred times as large, whose nearest border is the tip of the notch.
    let shape = pictured(rt.alloc(), 100)?;
    let table = [
        ((0, 0), 200, true),
        ((0, 0), 199, false),
        // Near the hole alone, and near the second polygon alone.
        ((-500, -350), 100, true),
        ((-500, -350), 99, false),
        ((0, 730), 58, false),
        ((0, 730), 59, true),
        ((-900, -900), 100, true),
        ((-900, -900), 99, false),
    ];
    for (p, t, want) in table {
        assert!(rt; near_at(p, &shape, t) == want);
    }
    Ok(())
}
