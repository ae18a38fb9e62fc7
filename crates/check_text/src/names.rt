//! The printed names of rules, notes and files, by their numbers.

ghost use Rattle.std.specs.Prelude.{◌≡◌};
ghost use Rattle.check_text.specs.Names.{rule_name, note_name, file_name};

use imdf_schema::{File, NoteKind, Rule};

// What is printed for a number that has no name.
const NO_NAME: &str = "?";

/// The name of a rule, by its number.
pub fn rule_name(rule: u8) -> &'static str
    ensures { result.now ≡ rule_name rule }
{
    match Rule::from_number(rule) {
        Some(rule) => rule.name(),
        None => NO_NAME,
    }
}

/// The name of a note, by its number.
pub(crate) fn note_name(note: u8) -> &'static str
    ensures { result.now ≡ note_name note }
{
    match NoteKind::from_number(note) {
        Some(note) => note.name(),
        None => NO_NAME,
    }
}

/// The name of a folder's file, by its number.
pub fn file_name(file: u8) -> &'static str
    ensures { result.now ≡ file_name file }
{
    match File::from_number(file) {
        Some(file) => file.name(),
        None => NO_NAME,
    }
}
