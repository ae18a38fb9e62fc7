//! The reading of positions.

ghost use Rattle.std.specs.Prelude.{◌≡◌, length, map, option_map, IfOk};
ghost use Rattle.exact_json.specs.View.{tree_view};
ghost use Rattle.geo_shapes.specs.Position.{half_turn, quarter_turn};
ghost use Rattle.geo_shapes.specs.Reading.{ReadsAngle, ReadsMaybe, ReadsPosition, ReadsPositions};

use exact_json::Tree;
use geo_decimal::{nano, one_value_law};
use std::alloc::Global;
use venue_types::{OutOfMemory, Point};

// The nanodegrees of a quarter of a turn.
const QUARTER_TURN: i64 = 90_000_000_000;

fn longitude(tree: &Tree) -> Option<i64>
    ensures { ReadsAngle half_turn (tree_view tree.now) result }
{
    // The law that no number has two values. It does nothing when it runs.
    one_value_law();
    match tree.as_number() {
        Some(token) => nano(token).ok(),
        None => None,
    }
}

fn latitude(tree: &Tree) -> Option<i64>
    ensures { ReadsAngle quarter_turn (tree_view tree.now) result }
{
    one_value_law();
    match longitude(tree) {
        Some(n) if -QUARTER_TURN <= n && n <= QUARTER_TURN => Some(n),
        _ => None,
    }
}

/// The position that a value is.
pub(crate) fn position(tree: &Tree) -> Option<Point>
    ensures { ReadsPosition (tree_view tree.now) result }
{
    let trees = match tree.as_items() {
        Some(trees) => trees,
        None => return None,
    };
    match trees {
        [x, y, ..] => match longitude(x) {
            Some(x) => match latitude(y) {
                Some(y) => Some(Point { x, y }),
                None => None,
            },
            None => None,
        },
        _ => None,
    }
}

/// The position that a value is, if it is there.
pub(crate) fn maybe_position(tree: Option<&Tree>) -> Option<Point>
    ensures { ReadsMaybe (option_map (λ t. tree_view t.now) tree.entry) result }
{
    match tree {
        Some(tree) => position(tree),
        None => None,
    }
}

/// The positions that the values are, if all of them are. It stops at the first that is none.
pub(crate) fn points(alloc: Global, trees: &[Tree]) -> Result<Option<Vec<Point>>, OutOfMemory>
    ensures { IfOk result (ReadsPositions (map tree_view trees.now)) }
{
    let mut points = Vec::with_capacity(alloc, trees.len())?;
    for tree in trees {
        match position(tree) {
            Some(point) => points.push(point)?,
            None => return Ok(None),
        }
    }
    Ok(Some(points))
}

/// How many values they are.
pub(crate) fn count(trees: &[Tree]) -> u64
    ensures { result ≡ length (map tree_view trees.now) }
{
    trees.len() as u64
}
