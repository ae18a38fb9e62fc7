//! The forms of properties.

ghost use Rattle.std.specs.Prelude.{◌≡◌, ◌↔◌, ◌||◌, IsTrue, IfOk, map, not, option_map};
ghost use Rattle.exact_json.specs.View.{tree_view};
ghost use Rattle.imdf_schema.specs.Values.{seen, listed, is_null as specs_null};
ghost use Rattle.imdf_schema.specs.Forms as specs;

use crate::texts::all_texts;
use crate::values::{
    is_id, is_list, is_null, is_object, is_text, is_word, list, member, object, text,
};
use exact_json::Tree;
use geo_shapes::point;
use std::alloc::Global;
use venue_types::{File, OutOfMemory, file_of_type};

/// What a property must be.
#[derive(Clone, Copy, Debug, PartialEq, Eq)]
pub enum Form {
    /// An identifier.
    Id,
    /// Null or an identifier.
    IdOrNull,
    /// A list of identifiers that is not empty.
    Ids,
    /// Null or a list of identifiers.
    IdsOrNull,
    /// Null, or an object with an identifier and a feature type.
    Reference,
    /// Null or a list of such objects.
    References,
    /// A text.
    Text,
    /// Null or a text.
    TextOrNull,
    /// Null or a list of texts.
    TextsOrNull,
    /// Null, or an object whose `type` is null or a text.
    Door,
    /// Null, or a Point (RFC 7946, section 3.1.2) whose coordinates are a position.
    DisplayPoint,
    /// Null, or an object of texts.
    Name,
}

/// The file whose feature type it names.
#[tactic(auto, unfolding(crate::specs::Forms::type_of))]
pub fn type_of(value: Option<&Tree>) -> Option<File>
    ensures { result ≡ specs.type_of (seen value.entry) }
{
    file_of_type(text(value)?)
}

/// Whether it is an object with an identifier and a feature type.
pub fn is_reference(value: Option<&Tree>) -> bool
    ensures { result ≡ specs.is_reference (seen value.entry) }
{
    is_id(member(value, b"id")) && type_of(member(value, b"feature_type")).is_some()
}

// An object whose type is null or a text.
fn is_door(value: Option<&Tree>) -> bool
    ensures { result ≡ specs.is_door (seen value.entry) }
{
    is_object(value) && (is_null(member(value, b"type")) || is_text(member(value, b"type")))
}

/// The items of a value whose form is a list, `None` where the form is none or the value is no list.
pub fn list_of<'a, 'b>(form: Form, value: Option<&'a Tree<'b>>) -> Option<&'a [Tree<'b>]>
    ensures { option_map (λ s. map tree_view s.now) result ≡ specs.list_of form (seen value.entry) }
{
    match form {
        Form::Ids | Form::IdsOrNull | Form::References | Form::TextsOrNull => list(value),
        _ => None,
    }
}

/// Whether an item of the list is of the form.
pub fn item_fits(form: Form, item: &Tree) -> bool
    ensures { result ≡ specs.item_fits form (tree_view item.now) }
{
    match form {
        Form::Ids | Form::IdsOrNull => is_id(Some(item)),
        Form::References => is_reference(Some(item)),
        Form::TextsOrNull => is_text(Some(item)),
        _ => true,
    }
}

// A Point whose coordinates are a position.
fn is_place(value: Option<&Tree>) -> bool
    ensures { IsTrue result ↔ specs.IsPlace (seen value.entry) }
{
    match value {
        Some(tree) => is_word(member(value, b"type"), b"Point") && !point(tree).bad_position,
        None => false,
    }
}

// An object of texts.
fn is_name(alloc: Global, value: Option<&Tree>) -> Result<bool, OutOfMemory>
    ensures { IfOk result (λ name. name ≡ specs.is_name (seen value.entry)) }
{
    match object(value) {
        Some(members) => all_texts(alloc, members),
        None => Ok(false),
    }
}

// A list of identifiers that is not empty, apart from its items.
fn is_filled(value: Option<&Tree>) -> bool
    ensures { result ≡ not (specs.is_empty (listed (seen value.entry))) }
{
    match list(value) {
        Some(items) => !items.is_empty(),
        None => false,
    }
}

// An object of texts, or null.
fn is_name_or_null(alloc: Global, value: Option<&Tree>) -> Result<bool, OutOfMemory>
    ensures { IfOk result (λ fits. fits ≡ (specs_null (seen value.entry) || specs.is_name (seen value.entry))) }
{
    if is_null(value) {
        return Ok(true);
    }
    is_name(alloc, value)
}

/// Whether the value is of the form, apart from the items of a list.
///
/// It takes a number of steps that grows with the value's members alone, n log n for n members of a name, and memory
/// only where a member of a name is no text.
pub fn fits(alloc: Global, form: Form, value: Option<&Tree>) -> Result<bool, OutOfMemory>
    ensures { IfOk result (λ fits. IsTrue fits ↔ specs.Fits form (seen value.entry)) }
{
    match form {
        Form::Id => Ok(is_id(value)),
        Form::IdOrNull => Ok(is_null(value) || is_id(value)),
        Form::Ids => Ok(is_filled(value)),
        Form::IdsOrNull | Form::References | Form::TextsOrNull => {
            Ok(is_null(value) || is_list(value))
        }
        Form::Reference => Ok(is_null(value) || is_reference(value)),
        Form::Text => Ok(is_text(value)),
        Form::TextOrNull => Ok(is_null(value) || is_text(value)),
        Form::Door => Ok(is_null(value) || is_door(value)),
        Form::DisplayPoint => Ok(is_null(value) || is_place(value)),
        Form::Name => is_name_or_null(alloc, value),
    }
}
