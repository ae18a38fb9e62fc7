//! A venue whose rows every phase of rules accepts.

ghost use Rattle.std.specs.Prelude.{◌≡◌};
ghost use Rattle.link_graph.specs.Graphs.{network};
ghost use Rattle.link_graph.specs.Networks.{IsNetworkOf};
ghost use Rattle.venue_build.specs.Kept.{IsKept};
ghost use Rattle.venue_build.specs.Placing.{ArePlaces};
ghost use Rattle.venue_build.specs.Report.{AreValid};

use crate::place_table::Places;
use link_graph::Graph;
use std::marker::Model;
use venue_types::{Features, List, Note, Settings};

/// The rows of a folder that is published, the settings under which it was judged, and what is worth a note in it; beside them the
/// graph of the rows and what is kept of their places, which contracts see by them alone.
#[derive(Drop)]
pub struct Venue {
    features: Features,
    settings: Settings,
    notes: List<Note>,
    graph: Graph,
    places: Places,
}

impl Model for Venue {
    ghost use Rattle.std.proofs.Props.{props};
    ghost use Rattle.link_graph.specs.Graphs.{network};
    ghost use Rattle.venue_build.specs.Kept.{IsKept};
    ghost use Rattle.venue_build.specs.Venues.{SeenVenue};

    ghost Value = { SeenVenue };

    ghost view = { λ a. record { features = a.features; settings = a.settings; notes = a.notes } };

    ghost invariant = { λ a. IsKept a.features a.settings (network a.graph) a.places };
}

impl Venue {
    pub(crate) fn new(
        features: Features,
        settings: Settings,
        notes: List<Note>,
        graph: Graph,
        places: Places,
    ) -> Venue
        requires { IsKept features settings (network graph) places }
        ensures features { result.features ≡ features }
        ensures settings { result.settings ≡ settings }
        ensures notes { result.notes ≡ notes }
    {
        Venue {
            features,
            settings,
            notes,
            graph,
            places,
        }
    }

    /// Every phase accepts its rows.
    pub(crate) fn valid_law(&self)
        ensures { AreValid self.now.features self.now.settings }
    {
        let _ = &self.graph;
    }

    /// What it keeps of its places.
    pub(crate) fn kept_places(&self) -> &Places
        ensures { ArePlaces self.now.features result.now }
    {
        &self.places
    }

    /// The rows of its folder.
    pub fn features(&self) -> &Features
        ensures { result.now ≡ self.now.features }
    {
        &self.features
    }

    /// The settings under which it was judged.
    pub fn settings(&self) -> &Settings
        ensures { result.now ≡ self.now.settings }
    {
        &self.settings
    }

    /// What is worth a note, in order.
    pub fn notes(&self) -> &List<Note>
        ensures { result.now ≡ self.now.notes }
    {
        &self.notes
    }

    /// The graph of its rows.
    pub fn graph(&self) -> &Graph
        ensures { IsNetworkOf self.now.features self.now.settings (network result.now) }
    {
        &self.graph
    }
}
