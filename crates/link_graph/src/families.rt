//! The links that can be passed, and potentials, as the laws of walks have them.

ghost use Rattle.std.specs.Prelude.{List};
ghost use Rattle.venue_types.specs.declared.feature_id.FeatureId.{FeatureId};
ghost use Rattle.venue_types.specs.declared.link.Link.{Link};
ghost use Rattle.venue_types.specs.declared.link.Potential.{Potential};
ghost use Rattle.venue_types.specs.declared.settings.Profile.{Profile};
ghost use Rattle.link_graph.specs.Networks.{Network, IsPassable};
ghost use Rattle.link_graph.specs.Views.{link_view, potential_view};

use walk_laws::{LinkFamily, PotentialKind};

/// The links of a network that a profile allows where some features are closed.
pub struct PassableLinks;

impl LinkFamily for PassableLinks {
    ghost Link = { Link };

    ghost Ground = { Network × List FeatureId × Profile };

    ghost view = { link_view };

    ghost has = { λ whole. IsPassable whole.0 whole.1 whole.2 };
}

/// The potentials of nodes, as answers list them.
pub struct NodePotentials;

impl PotentialKind for NodePotentials {
    ghost Potential = { Potential };

    ghost view = { potential_view };
}
