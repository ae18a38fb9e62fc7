//! Numbers of the graph, as replies name them.

ghost use Rattle.std.specs.Prelude.{◌≡◌, IfOk, map};
ghost use Rattle.venue_history.specs.Ways.{node_name, name_of, way_name, step_of, mark_of};

use crate::board::Board;
use std::alloc::Global;
use venue_types::{
    Class, FeatureId, Link, List, Mark, Node, NodeName, OutOfMemory, Potential, StepRow,
};

// It stands for no feature.
const NO_NAME: FeatureId = FeatureId(0);

// How a reply names a node: a corner with its number.
fn node_name(node: Node) -> NodeName
    ensures { result ≡ node_name node }
{
    let corner = match node.class {
        Class::Corner => Some(node.corner),
        _ => None,
    };
    NodeName {
        id: node.id,
        corner,
    }
}

impl Board {
    /// The name of a node.
    pub(crate) fn name(&self, n: u32) -> NodeName
        ensures { result ≡ name_of self.now n }
    {
        let graph = self.graph();
        if n < graph.nodes() {
            node_name(graph.node(n))
        } else {
            NodeName {
                id: NO_NAME,
                corner: None,
            }
        }
    }

    /// The identifier of a node.
    pub(crate) fn id(&self, n: u32) -> FeatureId
        ensures { result ≡ (name_of self.now n).id }
    {
        self.name(n).id
    }

    // The identifier of what a link goes by.
    fn way_name(&self, k: u32) -> FeatureId
        ensures { result ≡ way_name self.now k }
    {
        let graph = self.graph();
        if k < graph.closables() {
            graph.closable_id(k)
        } else {
            NO_NAME
        }
    }

    fn step(&self, link: &Link) -> StepRow
        ensures { result ≡ step_of self.now link.now }
    {
        let NodeName { id, corner } = self.name(link.to);
        StepRow {
            corner,
            to: id,
            via: self.way_name(link.via),
            cost: link.cost,
            kind: link.kind,
        }
    }

    /// The links of a walk as steps.
    pub(crate) fn steps(&self, alloc: Global, walk: &[Link]) -> Result<List<StepRow>, OutOfMemory>
        ensures { IfOk result (λ steps. steps ≡ map (step_of self.now) walk.now) }
    {
        let mut steps = Vec::with_capacity(alloc, walk.len())?;
        for link in walk {
            steps.push(self.step(link))?;
        }
        Ok(List::from_vec(steps))
    }

    fn mark(&self, p: &Potential) -> Mark
        ensures { result ≡ mark_of self.now p.now }
    {
        let NodeName { id, corner } = self.name(p.node);
        Mark {
            corner,
            node: id,
            value: p.value,
        }
    }

    /// Potentials as marks.
    pub(crate) fn potentials(
        &self,
        alloc: Global,
        listed: &[Potential],
    ) -> Result<List<Mark>, OutOfMemory>
        ensures { IfOk result (λ marks. marks ≡ map (mark_of self.now) listed.now) }
    {
        let mut marks = Vec::with_capacity(alloc, listed.len())?;
        for p in listed {
            marks.push(self.mark(p))?;
        }
        Ok(List::from_vec(marks))
    }

    /// Nodes by their names.
    pub(crate) fn names(&self, alloc: Global, nodes: &[u32]) -> Result<List<NodeName>, OutOfMemory>
        ensures { IfOk result (λ names. names ≡ map (name_of self.now) nodes.now) }
    {
        let mut names = Vec::with_capacity(alloc, nodes.len())?;
        for n in nodes {
            names.push(self.name(*n))?;
        }
        Ok(List::from_vec(names))
    }
}
