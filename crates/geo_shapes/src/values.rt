//! What a geometry object has.

ghost use Rattle.std.specs.Prelude.{◌≡◌, option_map, unwrap_or};
ghost use Rattle.exact_json.specs.Json.{null, member};
ghost use Rattle.exact_json.specs.View.{tree_view};
ghost use Rattle.geo_shapes.specs.Values.{is_text};

use exact_json::Tree;

/// The last member of the name, if the value is an object that has it.
pub(crate) fn member<'a, 'b>(tree: &'a Tree<'b>, name: &[u8]) -> Option<&'a Tree<'b>>
    ensures { unwrap_or (option_map (λ t. tree_view t.now) result) null
        ≡ member (tree_view tree.now) name.now }
{
    match tree.as_object() {
        Some(members) => members.get(name),
        None => None,
    }
}

/// Whether the value is this text.
pub(crate) fn is_text(tree: &Tree, name: &[u8]) -> bool
    ensures { result ≡ is_text (tree_view tree.now) name.now }
{
    match tree.as_text() {
        Some(text) => text == name,
        None => false,
    }
}
