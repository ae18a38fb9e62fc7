//! The display point of a unit.

ghost use Rattle.imdf_schema.specs.Values.{seen};
ghost use Rattle.imdf_rows.specs.Fields.{IsDisplay};

use exact_json::Tree;
use geo_shapes::point;
use venue_types::Point;

/// The point that it stands for.
pub(crate) fn display_field(value: Option<&Tree>) -> Option<Point>
    ensures { IsDisplay (seen value.entry) result }
{
    match value {
        Some(tree) => point(tree).value,
        None => None,
    }
}
