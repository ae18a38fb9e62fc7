//! The corners of rooms as nodes, worked out by hand: a metre is 10,000 nanodegrees.

ghost use Rattle.std.specs.Prelude.{◌≡◌, IfOk, length};

use crate::folders::{Folder, Place, add, between, unit};
use crate::members::{LEVEL, level};
use crate::rows::{nodes_of, rows_of};
use crate::station::id;
use std::alloc::Global;
use std::process::Abort;
use std::test::Fail;
use venue_nodes::{CornerRange, Nodes};
use venue_types::{Class, Files, Inside, Node, Spot};

static ELL: [Place; 7] = [
    (0, 0),
    (400_000, 0),
    (400_000, 100_000),
    (100_000, 100_000),
    (100_000, 400_000),
    (0, 400_000),
    (0, 0),
];

static HOLE: [Place; 5] = [
    (650_000, 150_000),
    (650_000, 250_000),
    (750_000, 250_000),
    (750_000, 150_000),
    (650_000, 150_000),
];

/// An ell in which people walk, one in which they are carried, one that nobody walks through, and a square with a hole.
fn rooms(alloc: Global) -> Result<Files, Fail>
    ensures { IfOk result (λ files. length files.slots ≡ 17) }
{
    let mut folder = Folder::empty(alloc);
    folder.levels = level(alloc)?;
    for (number, category) in [(300, "walkway"), (301, "movingwalkway"), (302, "column")] {
        let room = unit(alloc, number, LEVEL, category, &ELL, &[])?;
        add(&mut folder.units, room.as_str())?;
    }
    let outer = between((500_000, 0), (900_000, 400_000));
    let square = unit(alloc, 303, LEVEL, "room", &outer, &HOLE)?;
    add(&mut folder.units, square.as_str())?;
    folder.files(alloc)
}

/// A corner of the unit whose identifier ends so, at these metres, twice.
fn corner(tail: u128, number: u32, x: i64, y: i64) -> Node {
    Node {
        id: id(tail),
        class: Class::Corner,
        corner: number,
        spot: Spot { x, y },
    }
}

/// The nodes from this number on are these corners.
fn judge(rt: &impl Abort, nodes: &Nodes, wanted: &[Node]) {
    assert!(rt; nodes.len() as usize == wanted.len().saturating_add(3));
    for (k, node) in wanted.iter().enumerate() {
        let n = k.saturating_add(3);
        assert!(rt; n < nodes.len() as usize);
        assert!(rt; nodes.node(n as u32) == *node);
    }
}

#[test]
fn rooms_have_corners(rt: HostRuntime) -> Result<(), Fail> {
    let files = rooms(rt.alloc())?;
    let straight = nodes_of(rt.alloc(), &files, Inside::Straight)?;
    judge(&rt, &straight, &[]);
    let clear = nodes_of(rt.alloc(), &files, Inside::Clear)?;
    let wanted = [
        corner(0x300, 1, 200_000, 200_000),
        corner(0x303, 1, 1_300_000, 300_000),
        corner(0x303, 2, 1_300_000, 500_000),
        corner(0x303, 3, 1_500_000, 500_000),
        corner(0x303, 4, 1_500_000, 300_000),
    ];
    judge(&rt, &clear, &wanted);
    let ranges = [(3, 4), (4, 4), (4, 8)];
    assert!(rt; clear.corners(3) == None);
    for (w, (start, end)) in ranges.iter().enumerate() {
        let wanted = CornerRange {
            start: *start,
            end: *end,
        };
        assert!(rt; clear.corners(w as u32) == Some(wanted));
    }
    // A unit's identifier names its own node, and no corner.
    assert!(rt; clear.node_of(id(0x300)) == Some(0));
    assert!(rt; clear.node_of(id(0x303)) == Some(2));
    Ok(())
}

#[test]
fn corners_are_members_of_their_units(rt: HostRuntime) -> Result<(), Fail> {
    let files = rooms(rt.alloc())?;
    let (rows, limit) = rows_of(rt.alloc(), &files, Inside::Clear)?;
    assert!(rt; limit == None);
    assert!(rt; rows.nodes() == 8 && rows.len() == 3);
    let wanted: [&[u32]; 3] = [&[0, 3], &[1], &[2, 4, 5, 6, 7]];
    for (w, row) in wanted.iter().enumerate() {
        assert!(rt; rows.row(w as u32) == *row);
    }
    Ok(())
}
