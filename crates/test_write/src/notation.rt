//! The short notation of the tables: `'` is a quotation mark, and `#0301` the identifier that ends in 0301.

use std::alloc::{AllocError, Global};

const IDENTIFIER: &str = "00000000-0000-4000-8000-00000000";

/// The text that short pieces stand for, one behind the other.
pub(crate) fn plain(alloc: Global, pieces: &[&str]) -> Result<String, AllocError> {
    let mut short = String::new(alloc);
    for piece in pieces {
        short.push_str(piece)?;
    }
    let quoted = short.as_str().replace(alloc, '\'', "\"")?;
    quoted.as_str().replace(alloc, '#', IDENTIFIER)
}

/// The text of a file of one feature: its type, its geometry, its identifier and its properties in short pieces.
pub(crate) fn file_text(
    alloc: Global,
    feature_type: &str,
    geometry: &[&str],
    id: &str,
    properties: &[&str],
) -> Result<String, AllocError> {
    let geometry = plain(alloc, geometry)?;
    let properties = plain(alloc, properties)?;
    let text = format!(in alloc;
        "{{'features':[{{'feature_type':'{feature_type}','geometry':{geometry},'id':'{id}','properties':{{{properties}}},'type':'Feature'}}],'type':'FeatureCollection'}}"
    )?;
    plain(alloc, &[text.as_str()])
}
