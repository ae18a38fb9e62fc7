//! Growing the octagons of a line.

ghost use Rattle.std.specs.Prelude.{◌≡◌, ◌∷◌, OnOk, IfOk};
ghost use Rattle.venue_types.specs.declared.point.Point.{Point};
ghost use Rattle.plane_exact.specs.Figure.{AllNearby};
ghost use Rattle.plane_trees.specs.Octagons.{IsRound};
ghost use Rattle.plane_trees.specs.Trees.{IsTree, AddsTree};

use crate::octagons::{NOTHING, Octagon, octagon_of};
use crate::runs::last_of;
use std::alloc::Global;
use venue_types::{OutOfMemory, Point};

// How many edges are left where a run is no longer halved.
const LEAF: usize = 8;

/// How often a row is halved until at most `leaf` of its items are left.
pub(crate) fn depth_of(items: usize, leaf: usize) -> usize {
    let mut depth = 0;
    let mut left = items;
    while leaf < left && 1 < left {
        left = left.div_ceil(2);
        depth += 1;
    }
    depth
}

/// The octagons of a line, and how often it is halved.
#[derive(Drop)]
pub(crate) struct Tree {
    pub depth: usize,
    pub octagons: Vec<Octagon>,
}

/// The tree of the line from `start` through `rest`, counted from its start.
pub(crate) fn tree_of(alloc: Global, start: Point, rest: &[Point]) -> Result<Tree, OutOfMemory>
    requires { AllNearby (start ∷ rest.now) }
    ensures { IfOk result (λ tree. IsTree tree.depth start tree.octagons.items start rest.now) }
{
    let depth = depth_of(rest.len(), LEAF);
    let mut octagons = Vec::new(alloc);
    add_tree(start, start, rest, depth, &mut octagons)?;
    Ok(Tree { depth, octagons })
}

// Adds the octagons of the line from `start` through `rest`, counted from the origin.
fn add_tree(
    origin: Point,
    start: Point,
    rest: &[Point],
    depth: usize,
    octagons: &mut Vec<Octagon>,
) -> Result<Octagon, OutOfMemory>
    requires { AllNearby (origin ∷ start ∷ rest.now) }
    ensures tree { OnOk result (AddsTree depth origin start rest.now octagons.old.items octagons.new.items) }
    ensures round { IfOk result (λ octagon. IsRound octagon origin (start ∷ rest.now)) }
{
    if depth == 0 {
        let octagon = octagon_of(origin, start, rest);
        octagons.push(octagon)?;
        return Ok(octagon);
    }
    let place = octagons.len();
    octagons.push(NOTHING)?;
    let (front, back) = rest.split_at(rest.len() / 2);
    let first = add_tree(origin, start, front, depth - 1, octagons)?;
    let second = add_tree(origin, last_of(start, front), back, depth - 1, octagons)?;
    let octagon = first.with(second);
    octagons[place] = octagon;
    Ok(octagon)
}
