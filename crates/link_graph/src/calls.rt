//! What a graph is asked.

ghost use Rattle.std.specs.Prelude.{◌≡◌, ◌↔◌, ◌+◌, ◌<◌, ◌≤◌, ◌^◌, None, length, IsTrue, Contains};
ghost use Rattle.venue_nodes.specs.Figures.{judged_positions};
ghost use Rattle.venue_nodes.specs.FeatureRows.{HaveOwnIds};
ghost use Rattle.venue_nodes.specs.Sound.{AreSound};
ghost use Rattle.plane_exact.specs.Figure.{AllClose};
ghost use Rattle.venue_nodes.specs.Crowds.{Crowds};
ghost use Rattle.venue_nodes.specs.Nodes.{nodes as nodes_of};
ghost use Rattle.venue_nodes.specs.Numbering.{number_among};
ghost use Rattle.venue_nodes.specs.Rows.{AreRowsOf};
ghost use Rattle.venue_nodes.specs.Views.{AreNodes, HaveCorners};
ghost use Rattle.link_graph.specs.Facts.{IsNodeClosed};
ghost use Rattle.link_graph.specs.Graphs.{network};
ghost use Rattle.link_graph.specs.Lower.{lower_of};
ghost use Rattle.link_graph.specs.Marking.{AreMarksOf, marked};

use crate::graph::Graph;
use crate::graph_core::core_of;
use crate::marks::Marks;
use crate::new_links::NewLink;
use crate::stretches::Stretch;
use crate::{link_facts, link_list, new_links, out_links, outlook};
use imdf_access::EndFacts;
use std::alloc::Global;
use std::sync::ledger::Ledger;
use venue_nodes::{Nodes, Rows};
use venue_types::{FeatureId, Features, Link, LinkFacts, List, Node, OutOfMemory, Settings};
use walk_laws::Steps;

impl Graph {
    ghost use Rattle.std.specs.Prelude.{IfOk, IfSome, Some, slice_get};
    ghost use Rattle.venue_types.specs.declared.features.Features.{Features as AFeatures};
    ghost use Rattle.venue_types.specs.declared.link.Link.{Link as ALink};
    ghost use Rattle.venue_types.specs.declared.settings.Settings.{Settings as ASettings};
    ghost use Rattle.link_graph.specs.declared.stretches.Stretch.{Stretch as AStretch};
    ghost use Rattle.link_graph.specs.Detours.{AreKnown, HasLinkAcross, IsNewIn};
    ghost use Rattle.link_graph.specs.Networks.{IsFree, IsNetworkOf, link_facts, links_out};

    /// The graph of the features of a folder, over the nodes and the rows of members that were made of them, where units are roomy.
    /// Takes n log n time, and memory in proportion to them and to the passages, whatever the number of links.
    #[tactic(auto, unfolding(crate::specs::Graphs::network))]
    pub(crate) fn of(
        alloc: Global,
        features: &Features,
        nodes: Nodes,
        rows: Rows,
        settings: &Settings,
    ) -> Result<Graph, OutOfMemory>
        requires sound { AreSound features.now }
        requires own_ids { HaveOwnIds features.now }
        requires close { AllClose (judged_positions features.now) }
        requires nodes { AreNodes features.now settings.now nodes }
        requires corners { HaveCorners features.now settings.now nodes }
        requires rows { AreRowsOf features.now settings.now rows }
        requires roomy { Crowds features.now settings.now None }
        requires few { length (nodes_of features.now settings.now) ≤ 400000 }
        ensures { IfOk result (λ graph. IsNetworkOf features.now settings.now (network graph)) }
    {
        let core = core_of(alloc, features, nodes, rows, settings)?;
        Ok(Graph { core })
    }

    /// How many nodes there are.
    #[tactic(auto, unfolding(crate::specs::Graphs::network, crate::specs::Cores::network_in))]
    pub fn nodes(&self) -> u32
        ensures number { result ≡ length (network self.now).nodes }
        ensures few { result ≤ 400000 }
    {
        self.core.nodes.len()
    }

    /// The node of this number.
    #[tactic(auto, unfolding(crate::specs::Graphs::network, crate::specs::Cores::network_in))]
    pub fn node(&self, n: u32) -> Node
        requires { n < length (network self.now).nodes }
        ensures { slice_get (network self.now).nodes n ≡ Some result }
    {
        self.core.nodes.node(n)
    }

    /// The number of the node at which a feature is, if it is a place: an occupant is at its anchor. Takes log n time.
    #[tactic(auto, unfolding(crate::specs::Graphs::network, crate::specs::Cores::network_in))]
    pub fn node_of(&self, id: FeatureId) -> Option<u32>
        ensures { result ≡ (network self.now).place id }
    {
        self.core.nodes.node_of(id)
    }

    /// The table of its nodes and of what can be closed.
    #[tactic(auto, unfolding(crate::specs::Graphs::network, crate::specs::Cores::network_in))]
    pub fn node_table(&self) -> &Nodes
        ensures { (features : AFeatures) (settings : ASettings) → IsNetworkOf features settings (network self.now) → AreNodes features settings result.now }
    {
        &self.core.nodes
    }

    /// How many features can be closed.
    #[tactic(auto, unfolding(crate::specs::Graphs::network, crate::specs::Cores::network_in))]
    pub fn closables(&self) -> u32
        ensures number { result ≡ length (network self.now).closables }
        ensures few { result ≤ 400000 }
    {
        self.core.nodes.closables()
    }

    /// The number of a feature among those that can be closed, if it can be. Takes log n time.
    #[tactic(auto, unfolding(crate::specs::Graphs::network, crate::specs::Cores::network_in))]
    pub fn closable(&self, id: FeatureId) -> Option<u32>
        ensures { result ≡ number_among (network self.now).closables id }
    {
        self.core.nodes.closable(id)
    }

    /// The feature of this number among those that can be closed.
    #[tactic(auto, unfolding(crate::specs::Graphs::network, crate::specs::Cores::network_in))]
    pub fn closable_id(&self, k: u32) -> FeatureId
        requires { k < length (network self.now).closables }
        ensures { slice_get (network self.now).closables k ≡ Some result }
    {
        self.core.nodes.closable_id(k)
    }

    /// How many links start at a node.
    #[tactic(auto, unfolding(crate::specs::Graphs::network))]
    pub fn out_count(&self, n: u32) -> u32
        requires { n < length (network self.now).nodes }
        ensures { result ≡ length (links_out (network self.now) n) }
    {
        out_links::out_count(&self.core, n)
    }

    /// The link at a place among those that start at a node. Takes time logarithmic in the number of units of the node, and counts a step.
    #[tactic(auto, unfolding(crate::specs::Graphs::network))]
    pub fn out_link<L: Ledger>(&self, n: u32, place: u32, steps: &mut Steps<L>) -> Link
        requires node { n < length (network self.now).nodes }
        requires place { place < length (links_out (network self.now) n) }
        ensures link { slice_get (links_out (network self.now) n) place ≡ Some result }
        ensures step { steps.new ≡ steps.old + 1 }
    {
        steps.tick();
        out_links::out_link(&self.core, n, place)
    }

    /// All links, in their order. Takes 20 bytes a link.
    #[tactic(auto, unfolding(crate::specs::Graphs::network, crate::specs::Cores::network_in))]
    pub fn listed(&self, alloc: Global) -> Result<List<Link>, OutOfMemory>
        ensures { IfOk result (λ links. links ≡ (network self.now).links) }
    {
        link_list::listed(alloc, &self.core)
    }

    /// How many links there are. Computes no lengths, and looks at each unit once.
    #[tactic(auto, unfolding(crate::specs::Graphs::network, crate::specs::Cores::network_in))]
    pub fn link_count(&self) -> usize
        ensures { result ≡ length (network self.now).links }
    {
        link_list::link_count(&self.core)
    }

    /// Into how many stretches the links out of a node fall: one for each unit across which it has links, in file order, then one for
    /// those by relationships, which may be empty.
    #[tactic(auto, unfolding(crate::specs::Graphs::network, crate::specs::Cores::network_in))]
    pub fn stretches(&self, n: u32) -> u32
        requires { n < length (network self.now).nodes }
        ensures { result ≡ length ((network self.now).stretches n) }
    {
        outlook::stretch_count(&self.core, n)
    }

    /// One of the stretches of a node, from 0.
    #[tactic(auto, unfolding(crate::specs::Graphs::network, crate::specs::Cores::network_in))]
    pub fn stretch(&self, n: u32, k: u32) -> Stretch
        requires node { n < length (network self.now).nodes }
        requires stretch { k < length ((network self.now).stretches n) }
        ensures { slice_get ((network self.now).stretches n) k ≡ Some result }
    {
        outlook::stretch_at(&self.core, n, k)
    }

    /// The first of the links of a stretch of a node, from a place on, that isn't known from another node that has a link across the stretch's unit:
    /// that doesn't lead there, and to whose end no link leads from there by that unit. Where no other node is given nothing is known.
    /// Nothing where all are known. Takes the time of one look where any two members of the unit are joined.
    #[tactic(auto, unfolding(crate::specs::Graphs::network))]
    pub fn next_new(&self, n: u32, k: u32, known: Option<u32>, place: u32) -> Option<NewLink>
        requires node { n < length (network self.now).nodes }
        requires stretch { k < length ((network self.now).stretches n) }
        requires known { (stretch : AStretch) → slice_get ((network self.now).stretches n) k ≡ Some stretch → HasLinkAcross (network self.now) stretch.way known }
        ensures told { (stretch : AStretch) → slice_get ((network self.now).stretches n) k ≡ Some stretch → IfSome result (IsNewIn (network self.now) n stretch place) }
        ensures passed { (stretch : AStretch) → slice_get ((network self.now).stretches n) k ≡ Some stretch → AreKnown (network self.now) n stretch known place result }
    {
        new_links::next_new(&self.core, n, k, known, place)
    }

    /// A link that was found in a stretch of a node, where from a node that costs `base` it leads to its end at less than is listed there, else
    /// nothing. Its length is computed only where it is told, and its place isn't looked for. Counts a step.
    #[tactic(auto, unfolding(crate::specs::Graphs::network))]
    pub fn lower_new<L: Ledger>(
        &self,
        n: u32,
        k: u32,
        found: NewLink,
        base: u64,
        least: &[u64],
        steps: &mut Steps<L>,
    ) -> Option<Link>
        requires node { n < length (network self.now).nodes }
        requires stretch { k < length ((network self.now).stretches n) }
        requires found { (stretch : AStretch) → slice_get ((network self.now).stretches n) k ≡ Some stretch → IsNewIn (network self.now) n stretch 0 found }
        requires entries { length least.now ≡ length (network self.now).nodes }
        requires base { base < 2 ^ 42 }
        ensures link { (link : ALink) → slice_get (links_out (network self.now) n) found.place ≡ Some link → result ≡ lower_of least.now base link }
        ensures step { steps.new ≡ steps.old + 1 }
    {
        steps.tick();
        new_links::lower_new(&self.core, n, k, found, base, least)
    }

    /// What a node asks of who passes it.
    #[tactic(auto, unfolding(crate::specs::Graphs::network))]
    pub fn ends(&self, n: u32) -> EndFacts
        requires { n < length (network self.now).nodes }
        ensures { result ≡ (network self.now).ends n }
    {
        link_facts::ends(&self.core, n)
    }

    /// What a link of this graph asks of who uses it.
    #[tactic(auto, unfolding(crate::specs::Graphs::network))]
    pub fn facts(&self, link: &Link) -> LinkFacts
        requires { Contains (network self.now).links link.now }
        ensures { result ≡ link_facts (network self.now) link.now }
    {
        link_facts::facts(&self.core, link)
    }

    /// Whether the feature of a node is open for the profile of this number.
    #[tactic(auto, unfolding(crate::specs::Graphs::network))]
    pub fn is_node_free(&self, n: u32, marks: &Marks, profile: u8) -> bool
        requires node { n < length (network self.now).nodes }
        requires marks { AreMarksOf (network self.now) marks.now }
        requires profile { profile < 16 }
        ensures { IsTrue result ↔ ¬ IsNodeClosed (network self.now).nodes (marked (network self.now) marks.now profile) n }
    {
        link_facts::is_node_free(&self.core, n, marks, profile)
    }

    /// Whether nothing at a link of this graph is closed for the profile of this number: neither its way nor the feature at either end.
    #[tactic(auto, unfolding(crate::specs::Graphs::network))]
    pub fn is_free(&self, link: &Link, marks: &Marks, profile: u8) -> bool
        requires there { Contains (network self.now).links link.now }
        requires marks { AreMarksOf (network self.now) marks.now }
        requires profile { profile < 16 }
        ensures { IsTrue result ↔ IsFree (network self.now) (marked (network self.now) marks.now profile) link.now }
    {
        link_facts::is_free(&self.core, link, marks, profile)
    }
}
