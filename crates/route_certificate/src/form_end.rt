//! The end of a form.

ghost use Rattle.route_certificate.specs.Fronts.{IsEnding};

use line_forms::after;

/// What stands where the last line is due.
pub(crate) enum Ending {
    /// The line `end`, and nothing behind it.
    Whole,
    /// Something else, or nothing.
    Missing,
    /// The line `end`, and more behind it.
    TextBehind,
}

pub(crate) fn read_end(text: &[u8]) -> Ending
    ensures { IsEnding text.now result }
{
    match after(text, b"end\n") {
        None => Ending::Missing,
        Some(behind) if behind.is_empty() => Ending::Whole,
        Some(_) => Ending::TextBehind,
    }
}
