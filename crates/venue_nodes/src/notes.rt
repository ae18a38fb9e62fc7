//! The notes on what is no place.

ghost use Rattle.std.specs.Prelude.{◌≡◌};
ghost use Rattle.venue_nodes.specs.Unplaced.{note_of, file_noted};

use imdf_schema::{File, NoteKind};

/// A note on an element or an opening that leads nowhere.
#[derive(Clone, Copy, Debug, PartialEq, Eq)]
pub enum PlaceNote {
    /// An element of a passage has no node.
    N3,
    /// An opening touches no unit.
    N4,
}

impl PlaceNote {
    /// The note among all notes.
    pub fn kind(self) -> NoteKind
        ensures { result ≡ note_of self }
    {
        match self {
            PlaceNote::N3 => NoteKind::N3,
            PlaceNote::N4 => NoteKind::N4,
        }
    }

    /// The file of the features that are noted.
    pub fn file(self) -> File
        ensures { result ≡ file_noted self }
    {
        match self {
            PlaceNote::N3 => File::Relationship,
            PlaceNote::N4 => File::Opening,
        }
    }
}
