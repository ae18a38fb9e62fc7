//! Values as JSON, a token at a time (RFC 8259).

ghost use Rattle.std.specs.Prelude.{[], ◌∷◌, OnOk, option_map};
ghost use Rattle.json.specs.Token.{begin_array, begin_object, end_array, end_object, key};
ghost use Rattle.serde_json.specs.Data.{Data};
ghost use Rattle.wire_replies.specs.Bodies.{list_data};
ghost use Rattle.wire_replies.specs.Tokens.{Adds, data_tokens, where_there_tokens};

use json::Writer;
use std::alloc::{AllocError, Global};
use venue_types::List;

/// What has a text as JSON.
pub(crate) trait Written {
    /// The value that the text stands for.
    ghost shown: { Self → Data };

    fn write_to(&self, alloc: Global, out: &mut Writer) -> Result<(), AllocError>
        ensures { OnOk result (Adds (data_tokens (shown self.now)) out.old out.new) };
}

/// Begins an object.
pub(crate) fn begin(out: &mut Writer) -> Result<(), AllocError>
    ensures { OnOk result (Adds (begin_object ∷ []) out.old out.new) }
{
    out.begin_object()
}

/// Ends an object.
pub(crate) fn end(out: &mut Writer) -> Result<(), AllocError>
    ensures { OnOk result (Adds (end_object ∷ []) out.old out.new) }
{
    out.end_object()
}

// Begins a list.
fn begin_list(out: &mut Writer) -> Result<(), AllocError>
    ensures { OnOk result (Adds (begin_array ∷ []) out.old out.new) }
{
    out.begin_array()
}

// Ends a list.
fn end_list(out: &mut Writer) -> Result<(), AllocError>
    ensures { OnOk result (Adds (end_array ∷ []) out.old out.new) }
{
    out.end_array()
}

// Writes the name of a member.
fn name_member(out: &mut Writer, name: &str) -> Result<(), AllocError>
    ensures { OnOk result (Adds (key name.now ∷ []) out.old out.new) }
{
    out.key(name)
}

/// Writes a member of an object.
pub(crate) fn member<T: Written>(
    alloc: Global,
    out: &mut Writer,
    name: &str,
    value: &T,
) -> Result<(), AllocError>
    ensures { OnOk result (Adds (key name.now ∷ data_tokens (T.shown value.now)) out.old out.new) }
{
    name_member(out, name)?;
    value.write_to(alloc, out)
}

/// Writes a member of an object, where there is a value for it.
pub(crate) fn member_where_there<T: Written>(
    alloc: Global,
    out: &mut Writer,
    name: &str,
    value: &Option<T>,
) -> Result<(), AllocError>
    ensures { OnOk result
        (Adds (where_there_tokens name.now (option_map T.shown value.now)) out.old out.new) }
{
    match value {
        Some(value) => member(alloc, out, name, value),
        None => Ok(()),
    }
}

/// Writes a list.
pub(crate) fn write_items<T: Written>(
    alloc: Global,
    out: &mut Writer,
    items: &[T],
) -> Result<(), AllocError>
    ensures { OnOk result (Adds (data_tokens (list_data T.shown items.now)) out.old out.new) }
{
    begin_list(out)?;
    for item in items {
        item.write_to(alloc, out)?;
    }
    end_list(out)
}

impl<T: Written> Written for List<T> {
    ghost use Rattle.wire_replies.specs.Bodies.{list_data};

    ghost shown = { λ items. list_data T.shown items };

    fn write_to(&self, alloc: Global, out: &mut Writer) -> Result<(), AllocError> {
        write_items(alloc, out, self.as_slice())
    }
}
