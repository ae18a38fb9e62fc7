//! The place of a feature.

ghost use Rattle.std.specs.Prelude.{◌≡◌};
ghost use Rattle.imdf_schema.specs.Places.{finding_at, note_at};

use crate::rules::{NoteKind, Rule};
use venue_types::{File, Finding, Note};

/// A feature's file, and its index in the list of features.
#[derive(Clone, Copy, Debug, PartialEq, Eq)]
pub struct FeatureAt {
    pub file: File,
    pub index: u32,
}

impl FeatureAt {
    /// The finding that the rule is broken there, by the part of this number.
    pub fn finding(self, rule: Rule, member: u32) -> Finding
        ensures { result ≡ finding_at rule self.file self.index member }
    {
        Finding {
            rule: rule.number(),
            file: self.file.number(),
            index: self.index,
            member,
        }
    }

    /// The note that is due there, to the part of this number.
    pub fn note(self, kind: NoteKind, member: u32) -> Note
        ensures { result ≡ note_at kind self.file self.index member }
    {
        Note {
            note: kind.number(),
            file: self.file.number(),
            index: self.index,
            member,
        }
    }
}
