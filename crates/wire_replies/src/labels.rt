//! Names, with a text for each tag.

ghost use Rattle.std.specs.Prelude.{◌≡◌, ◌∷◌, [], IfOk, OnOk, flat_map, string_bytes};
ghost use Rattle.json.specs.Token.{null};
ghost use Rattle.serde_json.specs.Data.{object, string, put};
ghost use Rattle.wire_replies.specs.Bodies.{label_members, name_data};
ghost use Rattle.wire_replies.specs.Tokens.{Adds, data_tokens, text_members, text_tokens};

use crate::written::{Written, begin, end, member};
use json::Writer;
use std::alloc::{AllocError, Global};
use std::collections::BTreeMap;
use venue_types::{Label, List};

// Puts in a text by its tag, in place of an earlier one of that tag.
fn put(texts: &mut BTreeMap<String, String>, tag: String, text: String) -> Result<(), AllocError>
    ensures { OnOk result (text_members texts.new.entries
        ≡ put (string_bytes tag) (string (string_bytes text)) (text_members texts.old.entries)) }
{
    texts.insert(tag, text)?;
    Ok(())
}

// Puts in a label.
fn put_label(
    alloc: Global,
    texts: &mut BTreeMap<String, String>,
    label: &Label,
) -> Result<(), AllocError>
    ensures { OnOk result (text_members texts.new.entries
        ≡ put label.now.tag (string label.now.text) (text_members texts.old.entries)) }
{
    let tag = String::from_str(alloc, label.tag.as_str())?;
    let text = String::from_str(alloc, label.text.as_str())?;
    put(texts, tag, text)
}

// The texts of labels in the order of their tags, the last of each tag.
fn texts_by_tag(alloc: Global, labels: &[Label]) -> Result<BTreeMap<String, String>, AllocError>
    ensures { IfOk result (λ texts. text_members texts.entries ≡ label_members labels.now) }
{
    let mut texts = BTreeMap::new(alloc);
    for label in labels {
        put_label(alloc, &mut texts, label)?;
    }
    Ok(texts)
}

// Writes the members of an object, a text for each tag.
fn write_members(
    alloc: Global,
    out: &mut Writer,
    texts: BTreeMap<String, String>,
) -> Result<(), AllocError>
    ensures { OnOk result (Adds (flat_map text_tokens texts.entries) out.old out.new) }
{
    for (tag, text) in texts {
        member(alloc, out, tag.as_str(), &text)?;
    }
    Ok(())
}

// Writes texts by their tags.
fn write_texts(
    alloc: Global,
    out: &mut Writer,
    texts: BTreeMap<String, String>,
) -> Result<(), AllocError>
    ensures { OnOk result (Adds (data_tokens (object (text_members texts.entries))) out.old out.new) }
{
    begin(out)?;
    write_members(alloc, out, texts)?;
    end(out)
}

fn write_null(out: &mut Writer) -> Result<(), AllocError>
    ensures { OnOk result (Adds (null ∷ []) out.old out.new) }
{
    out.null()
}

// Writes a name of one tag.
fn write_label(alloc: Global, out: &mut Writer, label: &Label) -> Result<(), AllocError>
    ensures { OnOk result (Adds (data_tokens (name_data (label.now ∷ []))) out.old out.new) }
{
    begin(out)?;
    member(alloc, out, label.tag.as_str(), &label.text)?;
    end(out)
}

// Writes a name of several tags, which may come in any order.
fn write_labels(alloc: Global, out: &mut Writer, labels: &[Label]) -> Result<(), AllocError>
    ensures { OnOk result (Adds (data_tokens (object (label_members labels.now))) out.old out.new) }
{
    let texts = texts_by_tag(alloc, labels)?;
    write_texts(alloc, out, texts)
}

// Writes a name, or null where it is empty.
fn write_name(alloc: Global, out: &mut Writer, labels: &[Label]) -> Result<(), AllocError>
    ensures { OnOk result (Adds (data_tokens (name_data labels.now)) out.old out.new) }
{
    match labels {
        [] => write_null(out),
        // Most names have one text, which needs no map.
        [label] => write_label(alloc, out, label),
        _ => write_labels(alloc, out, labels),
    }
}

/// The name of a place.
#[derive(Clone, Copy)]
pub(crate) struct Name<'r>(pub(crate) &'r List<Label>);

impl Written for Name<'_> {
    ghost use Rattle.wire_replies.specs.Bodies.{name_data};

    ghost shown = { λ name. name_data name.0.now };

    fn write_to(&self, alloc: Global, out: &mut Writer) -> Result<(), AllocError> {
        write_name(alloc, out, self.0.as_slice())
    }
}
