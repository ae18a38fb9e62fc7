//! Geometries (RFC 7946, section 3.1).

ghost use Rattle.std.specs.Prelude.{◌≡◌, ◌≢◌, ◌∷◌, [], length};
ghost use Rattle.json_text.specs.Drafts.{onto};
ghost use Rattle.json_text.specs.Compact.{compact};
ghost use Rattle.imdf_write.specs.Values.{position_value, or_null, ring_value, part_value, point_value, line_value, shape_value, parts_value};

use crate::numbers::append_position;
use crate::values::{Written, append_list, append_more};
use json_text::Draft;
use venue_types::{Line, Part, Point, Ring, Shape};

/// A point within coordinates is its position.
impl Written for Point {
    ghost value = { position_value };

    fn append(&self, out: &mut Draft) {
        append_position(self, out);
    }
}

impl Written for Ring {
    ghost value = { ring_value };

    fn append(&self, out: &mut Draft) {
        append_list(self.points.as_slice(), out);
    }
}

impl Written for Part {
    ghost value = { part_value };

    fn append(&self, out: &mut Draft) {
        out.push(b'[');
        self.outer.append(out);
        append_more(self.holes.as_slice(), out);
        out.push(b']');
    }
}

/// Adds a Point.
pub(crate) fn append_point(point: &Point, out: &mut Draft)
    ensures { out.new ≡ onto out.old (compact (point_value point.now)) }
{
    out.append(b"{\"coordinates\":");
    point.append(out);
    out.append(b",\"type\":\"Point\"}");
}

/// Adds a Point, or null.
pub(crate) fn append_point_or_null(point: &Option<Point>, out: &mut Draft)
    ensures { out.new ≡ onto out.old (compact (or_null point_value point.now)) }
{
    match point {
        Some(point) => append_point(point, out),
        None => out.append(b"null"),
    }
}

/// Adds a LineString.
pub(crate) fn append_line(line: &Line, out: &mut Draft)
    ensures { out.new ≡ onto out.old (compact (line_value line.now)) }
{
    out.append(b"{\"coordinates\":");
    append_list(line.points.as_slice(), out);
    out.append(b",\"type\":\"LineString\"}");
}

// Adds a Polygon.
fn append_polygon(part: &Part, out: &mut Draft)
    ensures { out.new ≡ onto out.old (compact (parts_value (part.now ∷ []))) }
{
    out.append(b"{\"coordinates\":");
    part.append(out);
    out.append(b",\"type\":\"Polygon\"}");
}

// Adds a MultiPolygon.
fn append_polygons(parts: &[Part], out: &mut Draft)
    requires { length parts.now ≢ 1 }
    ensures { out.new ≡ onto out.old (compact (parts_value parts.now)) }
{
    out.append(b"{\"coordinates\":");
    append_list(parts, out);
    out.append(b",\"type\":\"MultiPolygon\"}");
}

/// Adds a Polygon, or a MultiPolygon where the parts aren't one.
pub(crate) fn append_shape(shape: &Shape, out: &mut Draft)
    ensures { out.new ≡ onto out.old (compact (shape_value shape.now)) }
{
    match shape.parts.as_slice() {
        [part] => append_polygon(part, out),
        parts => append_polygons(parts, out),
    }
}
