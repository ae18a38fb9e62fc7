//! The graph of a venue.

ghost use Rattle.link_graph.specs.Cores.{IsSoundCore};

use crate::parts::Core;

/// The nodes of a venue, what can be closed in it, and for each node its links, each computed when it is asked for. Contracts see
/// it as a network: one list of all links, whatever is kept of them.
#[derive(Drop)]
pub struct Graph {
    pub(crate) core: Core,
    pub(crate) ghost sound: { IsSoundCore core },
}
