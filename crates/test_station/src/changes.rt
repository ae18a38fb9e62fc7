//! What may be changed in the station.

use crate::fault::EditFault;
use crate::notation::plain;
use crate::numbers::{EVERY, SETTINGS};
use crate::station::station_text;
use std::alloc::Global;

/// The number of a file, and what is changed there: behind the first of this text, the first of this one becomes that one. Where
/// the first two are empty, the last is the whole file. Texts are in a short notation: `'` is a quotation mark, `@0301` the
/// identifier that ends in 0301, `(60,20)` the position 60 metres east and 20 metres north of 10 degrees east and 50 degrees north.
pub type Edit = (usize, &'static str, &'static str, &'static str);

/// In place of a whole file's text: there is no such file.
pub const GONE: &str = "gone";

/// What becomes of the station: its edits, one after the other.
#[derive(Clone, Copy)]
pub struct Change {
    pub edits: &'static [Edit],
}

impl Change {
    /// These edits.
    pub fn of(edits: &'static [Edit]) -> Change {
        Change { edits }
    }
}

// The text of a file after an edit of it.
fn edited(alloc: Global, text: Option<String>, edit: &Edit) -> Result<Option<String>, EditFault> {
    let (_, at, old, new) = edit;
    if at.is_empty() && old.is_empty() {
        return if *new == GONE {
            Ok(None)
        } else {
            Ok(Some(String::from_str(alloc, new)?))
        };
    }
    let Some(text) = text else {
        return Err(EditFault::NoFile);
    };
    let mut out = String::new(alloc);
    let mut rest = text.as_str();
    if !at.is_empty() {
        let Some((front, back)) = rest.split_once(*at) else {
            return Err(EditFault::NoPlace(*at));
        };
        out.push_str(front)?;
        out.push_str(at)?;
        rest = back;
    }
    let Some((front, back)) = rest.split_once(*old) else {
        return Err(EditFault::NoText(*old));
    };
    out.push_str(front)?;
    out.push_str(new)?;
    out.push_str(back)?;
    Ok(Some(out))
}

/// What stands in a file of the changed station, if there is one.
pub(crate) fn file_text(
    alloc: Global,
    file: usize,
    change: Change,
) -> Result<Option<String>, EditFault> {
    let mut text = station_text(alloc, file)?;
    for edit in change.edits {
        if edit.0 == file || edit.0 == EVERY && file != SETTINGS {
            text = edited(alloc, text, edit)?;
        }
    }
    match text {
        None => Ok(None),
        Some(short) => Ok(Some(plain(alloc, short.as_str())?)),
    }
}
