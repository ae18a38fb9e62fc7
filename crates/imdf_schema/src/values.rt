//! What a JSON value is, and what it has. `None` stands for a member that is absent, which is as good as null.

ghost use Rattle.std.specs.Prelude.{◌≡◌, option_map, map};
ghost use Rattle.exact_json.specs.Json.{member, text_bytes, list_values, object_members};
ghost use Rattle.exact_json.specs.View.{tree_view, object_view};
ghost use Rattle.std.specs.Option.{option_copied};
ghost use Rattle.imdf_schema.specs.Values.{seen, is_null, is_object, is_list, is_text, is_word, id_of, is_id};

use exact_json::{Members, Tree};
use venue_types::FeatureId;

/// The value of the last member of the name.
pub fn member<'a, 'b>(value: Option<&'a Tree<'b>>, name: &[u8]) -> Option<&'a Tree<'b>>
    ensures { seen result ≡ member (seen value.entry) name.now }
{
    object(value)?.get(name)
}

/// The bytes of the text that it is.
pub fn text<'a, 'b>(value: Option<&'a Tree<'b>>) -> Option<&'a [u8]>
    ensures { option_copied result ≡ text_bytes (seen value.entry) }
{
    value?.as_text()
}

/// The items of the list that it is.
pub fn list<'a, 'b>(value: Option<&'a Tree<'b>>) -> Option<&'a [Tree<'b>]>
    ensures { option_map (λ s. map tree_view s.now) result ≡ list_values (seen value.entry) }
{
    value?.as_items()
}

/// The members of the object that it is.
pub fn object<'a, 'b>(value: Option<&'a Tree<'b>>) -> Option<&'a Members<'b>>
    ensures { option_map (λ m. object_view m.now) result ≡ object_members (seen value.entry) }
{
    value?.as_object()
}

/// The identifier that it is, in one of the four text forms of a UUID.
pub fn id(value: Option<&Tree>) -> Option<FeatureId>
    ensures { result ≡ id_of (seen value.entry) }
{
    FeatureId::read(text(value)?)
}

pub fn is_id(value: Option<&Tree>) -> bool
    ensures { result ≡ is_id (seen value.entry) }
{
    id(value).is_some()
}

pub fn is_null(value: Option<&Tree>) -> bool
    ensures { result ≡ is_null (seen value.entry) }
{
    matches!(value, None | Some(Tree::Null))
}

pub fn is_object(value: Option<&Tree>) -> bool
    ensures { result ≡ is_object (seen value.entry) }
{
    object(value).is_some()
}

pub fn is_list(value: Option<&Tree>) -> bool
    ensures { result ≡ is_list (seen value.entry) }
{
    list(value).is_some()
}

pub fn is_text(value: Option<&Tree>) -> bool
    ensures { result ≡ is_text (seen value.entry) }
{
    text(value).is_some()
}

/// Whether it is the text of this word.
pub fn is_word(value: Option<&Tree>, word: &[u8]) -> bool
    ensures { result ≡ is_word (seen value.entry) word.now }
{
    match text(value) {
        Some(bytes) => bytes == word,
        None => false,
    }
}
