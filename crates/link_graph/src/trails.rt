//! The links by relationships.

ghost use Rattle.std.specs.Prelude.{◌≡◌, ◌<◌, ◌≤◌, ◌++◌, ◌+◌, IfOk, OnOk, All, length};
ghost use Rattle.std.specs.Option.{option_to_list};
ghost use Rattle.venue_nodes.specs.Nodes.{nodes as nodes_of};
ghost use Rattle.venue_nodes.specs.Unplaced.{one_or_none};
ghost use Rattle.venue_nodes.specs.Views.{find_place};
ghost use Rattle.link_graph.specs.Links.{passage_link, pair_links, chain_links, whole_chain_links, relationship_links, chain as chain_of, extra_of};
ghost use Rattle.link_graph.specs.Making.{IsGround, places_on, passages_from};

use crate::laws::length_between_law;
use plane_exact::{length_cm, length_law};
use std::alloc::Global;
use venue_nodes::Nodes;
use venue_types::{Extras, Features, Kind, Link, OutOfMemory, Ref, RelationshipRow, Settings};

/// What passages are made of.
#[derive(Clone, Copy)]
pub(crate) struct Ground<'a> {
    pub features: &'a Features,
    pub nodes: &'a Nodes,
    pub settings: &'a Settings,
}

// How a relationship is passed: its number among what can be closed, its kind, and whether it leads forward alone.
#[derive(Clone, Copy, Debug, PartialEq, Eq)]
struct Trail {
    via: u32,
    kind: Kind,
    directed: bool,
}

// What a passage of the kind costs beside its way.
fn extra(extras: &Extras, kind: Kind) -> u32
    ensures value { result ≡ extra_of extras.now kind }
    ensures bound { result ≤ 1000000 }
{
    match kind {
        Kind::Floor => 0,
        Kind::Elevator => extras.elevator,
        Kind::Escalator => extras.escalator,
        Kind::Movingwalkway => extras.movingwalkway,
        Kind::Ramp => extras.ramp,
        Kind::Stairs => extras.stairs,
        Kind::Traversal => extras.traversal,
    }
}

// Adds the place of the feature, if it is one.
fn add_place(chain: &mut Vec<u32>, nodes: &Nodes, reference: &Ref) -> Result<(), OutOfMemory>
    ensures { OnOk result (chain.new.items ≡ chain.old.items ++ option_to_list (find_place nodes.now reference.now.id)) }
{
    if let Some(place) = nodes.node_of(reference.id) {
        chain.push(place)?;
    }
    Ok(())
}

// Adds the places that these references name.
fn add_places(chain: &mut Vec<u32>, nodes: &Nodes, references: &[Ref]) -> Result<(), OutOfMemory>
    ensures { OnOk result (chain.new.items ≡ chain.old.items ++ places_on (find_place nodes.now) references.now) }
{
    for reference in references {
        add_place(chain, nodes, reference)?;
    }
    Ok(())
}

// Adds the place that the reference names, if there is one.
fn add_end(chain: &mut Vec<u32>, nodes: &Nodes, reference: Option<Ref>) -> Result<(), OutOfMemory>
    ensures { OnOk result (chain.new.items ≡ chain.old.items ++ places_on (find_place nodes.now) (one_or_none reference)) }
{
    match reference {
        None => add_places(chain, nodes, &[]),
        Some(reference) => add_places(chain, nodes, &[reference]),
    }
}

impl Ground<'_> {
    // The link by a passage.
    fn passage(&self, trail: Trail, a: u32, b: u32) -> Link
        requires ground { IsGround self.now }
        requires from { a < length (nodes_of self.now.features.now self.now.settings.now) }
        requires to { b < length (nodes_of self.now.features.now self.now.settings.now) }
        ensures { result ≡ passage_link self.now.features.now self.now.settings.now trail.via trail.kind a b }
    {
        length_between_law();
        length_law();
        let start = self.nodes.node(a).spot;
        let finish = self.nodes.node(b).spot;
        let way = length_cm(start, finish, self.settings.kx, self.settings.ky);
        Link {
            from: a,
            to: b,
            via: trail.via,
            cost: way + extra(&self.settings.extras, trail.kind),
            kind: trail.kind,
        }
    }

    // Adds the links between two neighbours of a chain: forward, then backward. None leads from a node to itself.
    fn add_pair(
        &self,
        links: &mut Vec<Link>,
        trail: Trail,
        a: u32,
        b: u32,
    ) -> Result<(), OutOfMemory>
        requires ground { IsGround self.now }
        requires from { a < length (nodes_of self.now.features.now self.now.settings.now) }
        requires to { b < length (nodes_of self.now.features.now self.now.settings.now) }
        ensures { OnOk result (links.new.items ≡ links.old.items ++ pair_links self.now.features.now self.now.settings.now trail.via trail.kind trail.directed a b) }
    {
        if a == b {
            return Ok(());
        }
        links.push(self.passage(trail, a, b))?;
        if !trail.directed {
            links.push(self.passage(trail, b, a))?;
        }
        Ok(())
    }

    // Adds the links from a node along what follows it in a chain, pair by pair.
    fn add_rest(
        &self,
        links: &mut Vec<Link>,
        trail: Trail,
        first: u32,
        rest: &[u32],
    ) -> Result<(), OutOfMemory>
        requires ground { IsGround self.now }
        requires from { first < length (nodes_of self.now.features.now self.now.settings.now) }
        requires within { All (λ n. n < length (nodes_of self.now.features.now self.now.settings.now)) rest.now }
        ensures { OnOk result (links.new.items ≡ links.old.items ++ chain_links self.now.features.now self.now.settings.now trail.via trail.kind trail.directed first rest.now) }
    {
        let mut last = first;
        for next in rest {
            self.add_pair(links, trail, last, *next)?;
            last = *next;
        }
        Ok(())
    }

    // Adds the links along a chain.
    fn add_chain(
        &self,
        links: &mut Vec<Link>,
        trail: Trail,
        chain: &[u32],
    ) -> Result<(), OutOfMemory>
        requires ground { IsGround self.now }
        requires within { All (λ n. n < length (nodes_of self.now.features.now self.now.settings.now)) chain.now }
        ensures { OnOk result (links.new.items ≡ links.old.items ++ whole_chain_links self.now.features.now self.now.settings.now trail.via trail.kind trail.directed chain.now) }
    {
        match chain {
            [] => Ok(()),
            [first, rest @ ..] => self.add_rest(links, trail, *first, rest),
        }
    }

    // The nodes of a relationship's elements, in their order.
    fn chain(&self, alloc: Global, row: &RelationshipRow) -> Result<Vec<u32>, OutOfMemory>
        requires { IsGround self.now }
        ensures chain { IfOk result (λ chain. chain.items ≡ chain_of self.now.features.now row.now) }
        ensures within { IfOk result (λ chain. All (λ n. n < length (nodes_of self.now.features.now self.now.settings.now)) chain.items) }
    {
        let mut chain = Vec::new(alloc);
        add_end(&mut chain, self.nodes, row.origin)?;
        add_places(&mut chain, self.nodes, row.between.as_slice())?;
        add_end(&mut chain, self.nodes, row.destination)?;
        Ok(chain)
    }

    // Adds the links by a relationship of this number, if it makes a passage.
    fn add_passages(
        &self,
        alloc: Global,
        links: &mut Vec<Link>,
        via: u32,
        row: &RelationshipRow,
    ) -> Result<(), OutOfMemory>
        requires { IsGround self.now }
        ensures { OnOk result (links.new.items ≡ links.old.items ++ relationship_links self.now.features.now self.now.settings.now (via, row.now)) }
    {
        let kind = match row.kind {
            None => return Ok(()),
            Some(kind) => kind,
        };
        let chain = self.chain(alloc, row)?;
        let trail = Trail {
            via,
            kind,
            directed: row.directed,
        };
        self.add_chain(links, trail, &chain)
    }

    /// The links by all relationships, in their order. Takes log n time an element, for its place.
    pub(crate) fn passages(&self, alloc: Global) -> Result<Vec<Link>, OutOfMemory>
        requires ground { IsGround self.now }
        requires few { length self.now.features.now.openings + length self.now.features.now.relationships ≤ 400000 }
        ensures { IfOk result (λ links. links.items ≡ passages_from self.now.features.now self.now.settings.now (length self.now.features.now.openings)) }
    {
        let mut links = Vec::new(alloc);
        let mut via = self.features.openings.len() as u32;
        for row in self.features.relationships.as_slice() {
            self.add_passages(alloc, &mut links, via, row)?;
            via += 1;
        }
        Ok(links)
    }
}
