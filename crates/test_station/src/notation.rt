//! The short notation of the tables: `'` is a quotation mark, `@0301` the identifier that ends in 0301, and `(60,20)` the
//! position 60 metres east and 20 metres north of 10 degrees east and 50 degrees north.

use std::alloc::{AllocError, Global};

const IDENTIFIER: &str = "00000000-0000-4000-8000-00000000";

// The position of a place in whole metres, of which each is 0.00001 degrees.
fn add_position(alloc: Global, text: &mut String, place: &str) -> Result<(), AllocError> {
    let (x, y) = place.split_once(',').unwrap_or((place, ""));
    let position = format!(in alloc; "[10.{x:0>5},50.{y:0>5}]")?;
    text.push_str(position.as_str())
}

// What follows a bracket that opens: a place up to the bracket that closes, and more.
fn add_placed(alloc: Global, text: &mut String, piece: &str) -> Result<(), AllocError> {
    match piece.split_once(')') {
        Some((place, behind)) => {
            add_position(alloc, text, place)?;
            text.push_str(behind)
        }
        None => text.push_str(piece),
    }
}

// Writes the positions out.
fn placed(alloc: Global, short: &str) -> Result<String, AllocError> {
    let mut text = String::new(alloc);
    for piece in short.split('(') {
        add_placed(alloc, &mut text, piece)?;
    }
    Ok(text)
}

/// The text that a short one stands for.
pub(crate) fn plain(alloc: Global, short: &str) -> Result<String, AllocError> {
    let quoted = short.replace(alloc, '\'', "\"")?;
    let named = quoted.as_str().replace(alloc, '@', IDENTIFIER)?;
    placed(alloc, named.as_str())
}
