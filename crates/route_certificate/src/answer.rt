//! Answers: claims on the walks between two nodes of a table, each with what proves it.

use venue_types::{List, Potential};

/// What is claimed of the walks from a node to a node.
#[derive(Drop)]
pub enum Claim {
    /// A walk of least cost, in whole centimetres.
    Route {
        cost: u64,
        /// The places of its links in the table.
        steps: List<u32>,
        /// Nodes, each once and in ascending order, with their potentials in whole centimetres. A node that isn't listed has
        /// the cost as its potential.
        at: List<Potential>,
    },
    /// There is no walk.
    Nothing {
        /// The nodes that walks from the start reach.
        reached: List<u32>,
    },
}

/// A claim, and the nodes that it is on, by their places in the table.
#[derive(Drop)]
pub struct AnswerIn {
    pub from: u32,
    pub to: u32,
    pub claim: Claim,
}

/// A clause that an answer does not keep.
#[derive(Clone, Copy, PartialEq, Eq)]
pub enum FailedClause {
    /// This step, from 1, is no link of the table or does not start where the walk stands.
    Step(u64),
    /// The walk ends elsewhere.
    End,
    /// The walk has another cost.
    Sum,
    /// The potential at the start is not 0, or the start is not reached.
    Start,
    /// The potential at the end is not the cost, or the end is reached.
    Finish,
    /// Along the link of this number, from 0, the potential rises by more than its cost, or the link leaves what is reached.
    Link(u32),
}

/// Whether an answer proves its claim.
#[derive(Clone, Copy, PartialEq, Eq)]
pub enum Verdict {
    Proved,
    /// The first clause that it does not keep.
    Fails(FailedClause),
}
