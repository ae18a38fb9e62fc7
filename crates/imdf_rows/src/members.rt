//! The fields of a row, each taken from a member of its item.

ghost use Rattle.std.specs.Prelude.{◌≡◌, IfOk};
ghost use Rattle.exact_json.specs.Json.{HasTexts};
ghost use Rattle.exact_json.specs.View.{tree_view};
ghost use Rattle.imdf_schema.specs.Values.{id_of};
ghost use Rattle.imdf_schema.specs.Items as item;
ghost use Rattle.imdf_rows.specs.Rows.{id_in};
ghost use Rattle.imdf_rows.specs.Fields.{id_field, ids_field, text_field, labels_field};

use crate::{fields, labels};
use exact_json::Tree;
use imdf_schema::{Property, id, member, property};
use std::alloc::Global;
use venue_types::{FeatureId, Label, List, OutOfMemory, Text};

/// The identifier of the feature, 0 where it has none.
pub(crate) fn id_in(tree: &Tree) -> FeatureId
    ensures { result ≡ id_in (tree_view tree.now) }
{
    fields::id_field(member(Some(tree), b"id"))
}

/// The identifier of a feature that it names.
pub(crate) fn named(tree: &Tree, name: Property) -> Option<FeatureId>
    ensures { result ≡ id_of (item.property (tree_view tree.now) name) }
{
    id(property(tree, name))
}

/// The identifier of a feature that it has to name, 0 where it names none.
pub(crate) fn always_named(tree: &Tree, name: Property) -> FeatureId
    ensures { result ≡ id_field (item.property (tree_view tree.now) name) }
{
    fields::id_field(property(tree, name))
}

/// The identifiers of the features that it names.
pub(crate) fn all_named(
    alloc: Global,
    tree: &Tree,
    name: Property,
) -> Result<List<FeatureId>, OutOfMemory>
    ensures { IfOk result (λ ids. ids ≡ ids_field (item.property (tree_view tree.now) name)) }
{
    fields::ids_field(alloc, property(tree, name))
}

/// A text.
pub(crate) fn text_in(alloc: Global, tree: &Tree, name: Property) -> Result<Text, OutOfMemory>
    ensures { IfOk result (λ text.
        HasTexts (tree_view tree.now) → text ≡ text_field (item.property (tree_view tree.now) name)) }
{
    fields::text_field(alloc, property(tree, name))
}

/// The labels of its name.
pub(crate) fn labels_in(alloc: Global, tree: &Tree) -> Result<List<Label>, OutOfMemory>
    ensures { IfOk result (λ labels.
        HasTexts (tree_view tree.now) → labels ≡ labels_field (item.property (tree_view tree.now) Property.Name)) }
{
    labels::labels_field(alloc, property(tree, Property::Name))
}
