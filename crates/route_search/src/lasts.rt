//! How known walks end, node by node.

ghost use Rattle.std.specs.Prelude.{◌≡◌, ◌<◌, ◌≤◌, IfOk, OnOk, length, replicate, slice_set};
ghost use Rattle.route_search.specs.Labels.{last_at, no_last};

use crate::labels::Last;
use std::alloc::{AllocError, Global};
use std::marker::Model;

/// Of each node how the walk to it ends that is known; nothing where none is known. Only what is known takes more room than a number.
#[derive(Drop)]
pub(crate) struct Lasts {
    /// Of each node its place among those that are found; 0 at the start, and where no walk is known.
    places: Vec<u32>,
    /// Nothing, and then how the walks end that are known, each of one node.
    found: Vec<Last>,
}

impl Model for Lasts {
    ghost use Rattle.std.specs.Prelude.{List};
    ghost use Rattle.route_search.specs.declared.labels.Last.{Last as ALast};
    ghost use Rattle.route_search.specs.Lasts.{AreApart, lasts_of};

    ghost Value = { List ALast };

    ghost view = { λ l. lasts_of l.found.items l.places.items };

    ghost invariant = { λ l. AreApart l.found.items l.places.items };
}

impl Lasts {
    /// Of so many nodes nothing is known.
    pub(crate) fn none(alloc: Global, nodes: u32) -> Result<Lasts, AllocError>
        requires { nodes ≤ 400000 }
        ensures { IfOk result (λ l. l ≡ replicate nodes no_last) }
    {
        let places = vec![in alloc; 0u32; nodes as usize]?;
        // Room for all at once: memory that isn't written to costs next to nothing, and a search that finds all never moves what it found.
        let mut found = Vec::with_capacity(alloc, nodes as usize + 1)?;
        found.push(Last { by: None, depth: 0 })?;
        Ok(Lasts { places, found })
    }

    /// What is known of a node.
    pub(crate) fn get(&self, node: u32) -> Last
        requires { node < length self.now }
        ensures { result ≡ last_at self.now node }
    {
        let place = self.places[node as usize];
        self.found[place as usize]
    }

    /// This is known of a node from now on.
    pub(crate) fn set(&mut self, node: u32, last: Last) -> Result<(), AllocError>
        requires { node < length self.old }
        ensures { OnOk result (self.new ≡ slice_set self.old node last) }
    {
        let place = self.places[node as usize];
        if place == 0 {
            let next = self.found.len() as u32;
            self.found.push(last)?;
            self.places[node as usize] = next;
        } else {
            self.found[place as usize] = last;
        }
        Ok(())
    }
}
