//! Feature files and features (RFC 7946, sections 3.2 and 3.3).

ghost use Rattle.std.specs.Prelude.{◌≡◌, map, option_map};
ghost use Rattle.exact_json.specs.View.{tree_view};
ghost use Rattle.imdf_schema.specs.Values.{seen};
ghost use Rattle.imdf_schema.specs.Items as specs;

use crate::table::Property;
use crate::values::{is_list, is_null, is_object, is_word, list, member};
use exact_json::Tree;
use venue_types::Geometry;

/// Whether it is an object of the type "FeatureCollection" with a list of features.
pub fn is_collection(value: Option<&Tree>) -> bool
    ensures { result ≡ specs.is_collection (seen value.entry) }
{
    is_word(member(value, b"type"), b"FeatureCollection") && is_list(member(value, b"features"))
}

/// The items of a feature file, its list of features, whatever its type. `None` where it has no such list.
pub fn items<'a, 'b>(value: Option<&'a Tree<'b>>) -> Option<&'a [Tree<'b>]>
    ensures { option_map (λ s. map tree_view s.now) result ≡ specs.feature_list (seen value.entry) }
{
    list(member(value, b"features"))
}

/// Whether it is an object of the type "Feature" with properties.
pub fn is_feature(item: &Tree) -> bool
    ensures { result ≡ specs.is_feature (tree_view item.now) }
{
    is_word(member(Some(item), b"type"), b"Feature") && is_object(member(Some(item), b"properties"))
}

/// The geometry of a feature.
pub fn geometry<'a, 'b>(item: &'a Tree<'b>) -> Option<&'a Tree<'b>>
    ensures { seen result ≡ specs.geometry (tree_view item.now) }
{
    member(Some(item), b"geometry")
}

/// A property of a feature.
pub fn property<'a, 'b>(item: &'a Tree<'b>, property: Property) -> Option<&'a Tree<'b>>
    ensures { seen result ≡ specs.property (tree_view item.now) property }
{
    member(member(Some(item), b"properties"), property.name())
}

/// A property of a feature that the table of properties lacks, by its name.
pub fn unlisted_property<'a, 'b>(item: &'a Tree<'b>, name: &[u8]) -> Option<&'a Tree<'b>>
    ensures { seen result ≡ specs.unlisted_property (tree_view item.now) name.now }
{
    member(member(Some(item), b"properties"), name)
}

/// Whether it is null, or an object of one of the types that are asked for.
pub fn fits_geometry(form: Geometry, value: Option<&Tree>) -> bool
    ensures { result ≡ specs.fits_geometry form (seen value.entry) }
{
    match form {
        Geometry::Null => is_null(value),
        Geometry::Point => is_word(member(value, b"type"), b"Point"),
        Geometry::Line => is_word(member(value, b"type"), b"LineString"),
        Geometry::Shape => {
            is_word(member(value, b"type"), b"Polygon")
                || is_word(member(value, b"type"), b"MultiPolygon")
        }
        Geometry::Unjudged => true,
    }
}
