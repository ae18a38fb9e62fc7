//! Where one may go.

use link_graph::{Graph, Marks};
use venue_types::Profile;

/// The links of a graph that somebody with the profile of this number may pass where some features are marked as closed for it.
#[derive(Clone, Copy)]
pub(crate) struct Ways<'a> {
    pub graph: &'a Graph,
    pub marks: &'a Marks,
    pub profile: &'a Profile,
    pub number: u8,
}
