//! The identifier of a feature, and what its properties refer to.

ghost use Rattle.std.specs.Prelude.{◌≡◌, List};
ghost use Rattle.venue_types.specs.declared.feature_id.FeatureId.{FeatureId as FeatureIdOf};
ghost use Rattle.imdf_schema.specs.declared.table.Property.{Property as PropertyOf};
ghost use Rattle.imdf_refs.specs.References.{Reference, id_or_null, object_or_null};
ghost use Rattle.imdf_refs.specs.Gathering.{reference_list};

use imdf_schema::Property;
use venue_types::{FeatureId, Ref};

/// The references in a property of a feature, in their order.
#[derive(Clone, Copy)]
pub(crate) enum References<'a> {
    Nothing,
    Id(FeatureId),
    Ids(&'a [FeatureId]),
    Object(Ref),
    Objects(&'a [Ref]),
}

/// Features of a type.
pub(crate) trait HasReferences {
    /// Its identifier.
    ghost id_of: { Self → FeatureIdOf };

    /// The references in this property of the feature.
    ghost references_of: { PropertyOf → Self → List Reference };

    fn id(&self) -> FeatureId
        ensures { result ≡ id_of self.now };

    fn references(&self, property: Property) -> References<'_>
        ensures { reference_list result ≡ references_of property self.now };
}

/// The reference of an identifier that may be null.
pub(crate) fn id_or_null<'a>(id: Option<FeatureId>) -> References<'a>
    ensures { reference_list result ≡ id_or_null id }
{
    match id {
        Some(id) => References::Id(id),
        None => References::Nothing,
    }
}

/// The reference of a reference object that may be null.
pub(crate) fn object_or_null<'a>(object: Option<Ref>) -> References<'a>
    ensures { reference_list result ≡ object_or_null object }
{
    if let Some(object) = object {
        References::Object(object)
    } else {
        References::Nothing
    }
}
