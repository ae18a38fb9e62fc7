//! Laws of what a geometry stands for.

ghost use Rattle.geo_shapes.specs.Laws.{HasOnePoint, HasOneLine, HasOneShape};
ghost use Rattle.geo_shapes.specs.Numbers.{SameNumbers, HasDecimals};

use exact_json::laws::numbers_law;
use geo_decimal::one_value_law;

/// No Point stands for two points.
pub fn one_point_law()
    ensures { HasOnePoint }
{
    one_value_law();
}

/// No LineString stands for two lines.
pub fn one_line_law()
    ensures { HasOneLine }
{
    one_value_law();
}

/// No Polygon or MultiPolygon stands for two shapes.
pub fn one_shape_law()
    ensures { HasOneShape }
{
    one_value_law();
}

/// A token is a number of JSON text exactly where it is one that `nano` takes.
pub fn same_numbers_law()
    ensures { SameNumbers }
{}

/// `nano` never answers `Form` to the token of a number in a tree: by `read: ok` the tree is the value of a text, and by
/// `nano: form` that answer comes where the token is no number.
pub fn decimals_law()
    ensures { HasDecimals }
{
    numbers_law();
}
