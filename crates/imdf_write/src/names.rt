//! Names in several languages.

ghost use Rattle.std.specs.Prelude.{◌≡◌, ◌∷◌, ◌++◌};
ghost use Rattle.json_text.specs.Drafts.{onto};
ghost use Rattle.json_text.specs.Compact.{compact, quoted, more_pairs};
ghost use Rattle.imdf_write.specs.Values.{label_pairs, name_value};

use crate::values::append_text;
use json_text::Draft;
use venue_types::Label;

// Adds a tag and the text in that language.
fn append_label(label: &Label, out: &mut Draft)
    ensures { out.new ≡ onto out.old (quoted label.now.tag ++ 58 ∷ quoted label.now.text) }
{
    append_text(&label.tag, out);
    out.push(b':');
    append_text(&label.text, out);
}

// Adds each label, with a comma in front.
fn append_more_labels(labels: &[Label], out: &mut Draft)
    ensures { out.new ≡ onto out.old (more_pairs (label_pairs labels.now)) }
{
    for label in labels {
        out.push(b',');
        append_label(label, out);
    }
}

/// Adds a name: a text for each tag, null where there is none.
pub(crate) fn append_name(labels: &[Label], out: &mut Draft)
    ensures { out.new ≡ onto out.old (compact (name_value labels.now)) }
{
    match labels.split_first() {
        None => out.append(b"null"),
        Some((first, others)) => {
            out.push(b'{');
            append_label(first, out);
            append_more_labels(others, out);
            out.push(b'}');
        }
    }
}
