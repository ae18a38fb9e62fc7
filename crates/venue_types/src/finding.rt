//! What is wrong with a folder, and what is worth a note.

use crate::List;

/// A place where a rule is broken. Findings are ordered by rule, file, index and member.
#[derive(Clone, Copy, Debug, PartialEq, Eq, PartialOrd, Ord)]
pub struct Finding {
    /// The number of the rule, from 1.
    pub rule: u8,
    /// The number of the file, from 0.
    pub file: u8,
    /// The place in the file's list of features, from 0.
    pub index: u32,
    /// The property, and the item's place in its list; 0 is the feature itself.
    pub member: u32,
}

/// A place that is worth a note. Notes are ordered by note, file, index and member.
#[derive(Clone, Copy, Debug, PartialEq, Eq, PartialOrd, Ord)]
pub struct Note {
    /// The number of the note, from 1.
    pub note: u8,
    /// The number of the file, from 0.
    pub file: u8,
    /// The place in the file's list of features, from 0.
    pub index: u32,
    /// The property, and the item's place in its list; 0 is the feature itself.
    pub member: u32,
}

/// The first findings of a report, and how many it has.
#[derive(Drop)]
pub struct Report {
    pub first: List<Finding>,
    pub total: u64,
}
