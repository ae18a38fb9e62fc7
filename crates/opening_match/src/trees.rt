//! A tree over where openings begin.

ghost use Rattle.std.specs.Prelude.{IfOk, OnOk, IfSome};
ghost use Rattle.opening_match.specs.declared.entries.Entry.{Entry};
ghost use Rattle.opening_match.specs.Entries.{HaveVertices};
ghost use Rattle.opening_match.specs.Extents.{IsRound};
ghost use Rattle.opening_match.specs.Trees.{AddsTree, IsTreeOf, AreHalves};

use crate::entries::Entry;
use crate::extents::{Extent, NOTHING, extent_of};
use crate::morton::in_morton_order;
use std::alloc::Global;
use venue_types::OutOfMemory;

// How many entries are left at most where a row of them is no longer halved.
const LEAF: usize = 2;

/// Where openings begin, with the extents of all of them, of each half, of each half of these, and so on.
#[derive(Drop)]
pub(crate) struct Tree {
    pub depth: usize,
    pub extents: Vec<Extent>,
    pub entries: Vec<Entry>,
}

/// Some entries of a tree. Of the extents, the first lies round them all, the first half of the others belongs to the first half of
/// the entries, and the second half to the second, until `depth` halvings are done.
#[derive(Clone, Copy)]
pub(crate) struct Branch<'a> {
    pub depth: usize,
    pub extents: &'a [Extent],
    pub entries: &'a [Entry],
}

/// The tree over these entries. Takes n log n time.
pub(crate) fn tree_of(alloc: Global, entries: &[Entry]) -> Result<Tree, OutOfMemory>
    ensures { IfOk result (λ tree. IsTreeOf entries.now tree) }
{
    let entries = in_morton_order(alloc, entries)?;
    let depth = depth_of(entries.len());
    let mut extents = Vec::new(alloc);
    add_tree(entries.as_slice(), depth, &mut extents)?;
    Ok(Tree {
        depth,
        extents,
        entries,
    })
}

// How often a row is halved until few of its items are left.
fn depth_of(items: usize) -> usize {
    let mut depth = 0;
    let mut left = items;
    while LEAF < left {
        left = left.div_ceil(2);
        depth += 1;
    }
    depth
}

// Adds the extents of these entries, halved so often.
fn add_tree(
    entries: &[Entry],
    depth: usize,
    extents: &mut Vec<Extent>,
) -> Result<Extent, OutOfMemory>
    ensures tree { OnOk result (AddsTree depth entries.now extents.old.items extents.new.items) }
    ensures round { IfOk result (λ extent. IsRound extent entries.now) }
{
    if depth == 0 {
        let extent = extent_of(entries);
        extents.push(extent)?;
        return Ok(extent);
    }
    let place = extents.len();
    extents.push(NOTHING)?;
    let (front, back) = entries.split_at(entries.len() / 2);
    let first = add_tree(front, depth - 1, extents)?;
    let second = add_tree(back, depth - 1, extents)?;
    let extent = first.with(second);
    extents[place] = extent;
    Ok(extent)
}

/// The two halves of a branch, unless it is to be looked at entry by entry.
pub(crate) fn halves<'a>(branch: Branch<'a>) -> Option<(Branch<'a>, Branch<'a>)>
    ensures { IfSome result (λ both. AreHalves branch.entry both.0 both.1) }
{
    if branch.depth == 0 {
        return None;
    }
    let below = match branch.extents {
        [] => return None,
        [_, below @ ..] => below,
    };
    let (front, back) = branch.entries.split_at(branch.entries.len() / 2);
    let (front_extents, back_extents) = below.split_at(below.len() / 2);
    let first = Branch {
        depth: branch.depth - 1,
        extents: front_extents,
        entries: front,
    };
    let second = Branch {
        depth: branch.depth - 1,
        extents: back_extents,
        entries: back,
    };
    Some((first, second))
}
