//! How the links out of a node lie.

use venue_types::Kind;

/// By what the links of a stretch go.
#[derive(Clone, Copy, Debug, PartialEq, Eq)]
pub enum Way {
    /// Across a unit: its number among what can be closed, how it is passed, and whether it is restricted.
    Inside {
        via: u32,
        kind: Kind,
        restricted: bool,
    },
    /// By relationships.
    Between,
}

/// Some of the links out of a node, one behind the other.
#[derive(Clone, Copy, Debug, PartialEq, Eq)]
pub struct Stretch {
    pub way: Way,
    /// The place of the first, from 0.
    pub first: u32,
    /// How many there are.
    pub count: u32,
}
