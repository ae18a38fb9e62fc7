//! What is written as a value, and lists of such.

ghost use Rattle.std.specs.Prelude.{◌≡◌, map};
ghost use Rattle.exact_json.specs.Json.{Json, text};
ghost use Rattle.json_text.specs.Drafts.{onto};
ghost use Rattle.json_text.specs.Compact.{compact, more_items};
ghost use Rattle.imdf_write.specs.Values.{items_of, list_value, or_null, id_value, reference_value};

use crate::words::type_text;
use json_text::{Draft, append_quoted};
use venue_types::{FeatureId, Ref, Text};

/// What is written as a value.
pub(crate) trait Written {
    /// The value.
    ghost value: { Self → Json };

    /// Adds the value's text.
    fn append(&self, out: &mut Draft)
        ensures { out.new ≡ onto out.old (compact (value self.now)) };
}

impl Written for FeatureId {
    ghost value = { id_value };

    fn append(&self, out: &mut Draft) {
        let text = self.write();
        out.push(b'"');
        out.append(&text);
        out.push(b'"');
    }
}

impl Written for Ref {
    ghost value = { reference_value };

    fn append(&self, out: &mut Draft) {
        out.append(b"{\"feature_type\":");
        append_quoted(out, type_text(self.feature_type));
        out.append(b",\"id\":");
        self.id.append(out);
        out.push(b'}');
    }
}

/// Adds a text.
pub(crate) fn append_text(bytes: &Text, out: &mut Draft)
    ensures { out.new ≡ onto out.old (compact (text bytes.now)) }
{
    append_quoted(out, bytes.as_str().as_bytes());
}

/// Adds the value of what is there, else null.
pub(crate) fn append_or_null<T: Written>(item: &Option<T>, out: &mut Draft)
    ensures { out.new ≡ onto out.old (compact (or_null T.value item.now)) }
{
    match item {
        Some(item) => item.append(out),
        None => out.append(b"null"),
    }
}

/// Adds the value of each, with a comma in front.
pub(crate) fn append_more<T: Written>(items: &[T], out: &mut Draft)
    ensures { out.new ≡ onto out.old (more_items (items_of (map T.value items.now))) }
{
    for item in items {
        out.push(b',');
        item.append(out);
    }
}

/// Adds a list of the value of each.
pub(crate) fn append_list<T: Written>(items: &[T], out: &mut Draft)
    ensures { out.new ≡ onto out.old (compact (list_value T.value items.now)) }
{
    out.push(b'[');
    if let Some((first, others)) = items.split_first() {
        first.append(out);
        append_more(others, out);
    }
    out.push(b']');
}
