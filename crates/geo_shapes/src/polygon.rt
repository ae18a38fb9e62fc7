//! The reading of polygons.

ghost use Rattle.std.specs.Prelude.{◌≡◌, ◌<◌, ◌↔◌, ◌||◌, ◌∷◌, [], false, length, map, IfOk, IsTrue};
ghost use Rattle.exact_json.specs.View.{tree_view};
ghost use Rattle.geo_shapes.specs.Reading.{Encloses, Holds, IsBadList, MakesShape, ReadsPolygon, GathersPolygons, ReadsShape};

use crate::gathered::Gathered;
use crate::read_geometry::ReadGeometry;
use crate::ring::rings;
use exact_json::Tree;
use std::alloc::Global;
use venue_types::{List, OutOfMemory, Part, Ring, Shape};

// Where the rings keep both rules, the first is the border and the others are holes.
fn part(mut rings: Vec<Ring>, bad_position: bool, bad_form: bool) -> Option<Part>
    requires { bad_position ≡ false → bad_form ≡ false → 0 < length rings.items }
    ensures { Encloses rings.items (bad_position || bad_form) result }
{
    if bad_position || bad_form {
        None
    } else {
        let outer = rings.remove(0);
        Some(Part {
            outer,
            holes: List::from_vec(rings),
        })
    }
}

// One of its figures breaks its form, or it has none.
fn breaks_form(bad_form: bool, trees: &[Tree]) -> bool
    ensures { IsTrue result ↔ IsBadList bad_form (map tree_view trees.now) }
{
    bad_form || trees.is_empty()
}

// Reads a polygon.
fn polygon(alloc: Global, tree: &Tree) -> Result<ReadGeometry<Part>, OutOfMemory>
    ensures { IfOk result (ReadsPolygon (tree_view tree.now)) }
{
    let trees = match tree.as_items() {
        Some(trees) => trees,
        None => return Ok(ReadGeometry::no_list()),
    };
    let Gathered {
        figures,
        bad_position,
        bad_form,
        positions,
        longest,
    } = rings(alloc, trees)?;
    let bad_form = breaks_form(bad_form, trees);
    Ok(ReadGeometry {
        value: part(figures, bad_position, bad_form),
        bad_position,
        bad_form,
        positions,
        longest,
    })
}

// Reads the polygons of a list in turn.
fn polygons(alloc: Global, trees: &[Tree]) -> Result<Gathered<Part>, OutOfMemory>
    ensures { IfOk result (GathersPolygons (map tree_view trees.now)) }
{
    let mut parts = Gathered::with_capacity(alloc, trees.len())?;
    for tree in trees {
        let read = polygon(alloc, tree)?;
        parts.add(read)?;
    }
    Ok(parts)
}

// The shape of the polygons, where they keep both rules.
fn shape_of(parts: Vec<Part>, bad_position: bool, bad_form: bool) -> Option<Shape>
    ensures { Holds parts.items (bad_position || bad_form) result }
{
    if bad_position || bad_form {
        None
    } else {
        Some(Shape {
            parts: List::from_vec(parts),
        })
    }
}

/// Reads a list of polygons, one or more.
pub(crate) fn several(alloc: Global, trees: &[Tree]) -> Result<ReadGeometry<Shape>, OutOfMemory>
    ensures { IfOk result (ReadsShape (map tree_view trees.now)) }
{
    let Gathered {
        figures,
        bad_position,
        bad_form,
        positions,
        longest,
    } = polygons(alloc, trees)?;
    let bad_form = breaks_form(bad_form, trees);
    Ok(ReadGeometry {
        value: shape_of(figures, bad_position, bad_form),
        bad_position,
        bad_form,
        positions,
        longest,
    })
}

fn one_part(alloc: Global, part: Option<Part>) -> Result<Option<Shape>, OutOfMemory>
    ensures { IfOk result (MakesShape part) }
{
    match part {
        Some(part) => {
            let mut one = Vec::with_capacity(alloc, 1)?;
            one.push(part)?;
            Ok(Some(Shape {
                parts: List::from_vec(one),
            }))
        }
        None => Ok(None),
    }
}

/// Reads one polygon, as a shape of one part.
pub(crate) fn single(alloc: Global, tree: &Tree) -> Result<ReadGeometry<Shape>, OutOfMemory>
    ensures { IfOk result (ReadsShape (tree_view tree.now ∷ [])) }
{
    let ReadGeometry {
        value,
        bad_position,
        bad_form,
        positions,
        longest,
    } = polygon(alloc, tree)?;
    let value = one_part(alloc, value)?;
    Ok(ReadGeometry {
        value,
        bad_position,
        bad_form,
        positions,
        longest,
    })
}
