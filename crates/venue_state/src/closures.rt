//! What is closed at a version, and for whom.

ghost use Rattle.std.specs.Prelude.{◌≡◌, ◌≢◌, IfOk, IfSome, IfNone, AllPairs, Contains, map};
ghost use Rattle.route_search.specs.Graphs.{network};
ghost use Rattle.route_search.specs.Marking.{AreMarksOf};
ghost use Rattle.route_search.specs.Nodes.{closables};
ghost use Rattle.venue_history.specs.Closed.{feature_of, set_in, closed_ids, closed_set, closed_row, closed_rows};
ghost use Rattle.venue_history.specs.Versions.{closings};
ghost use Rattle.venue_state.specs.Boards.{IsStand, closed_by, version_of};
ghost use Rattle.venue_state.specs.Tallies.{IsTally, gone_from};

use crate::board::Board;
use crate::profile_names::named;
use crate::stand::Stand;
use crate::tally::{Tally, mark};
use route_search::{Graph, Marks};
use std::alloc::Global;
use venue_history::Closing;
use venue_types::{ClosedRow, FeatureId, List, OutOfMemory, ProfileSet, Settings};

impl Stand {
    /// For whom a feature is closed, if it can be closed.
    pub(crate) fn state(&self, id: FeatureId) -> Option<ProfileSet>
        requires { IsStand self.now }
        ensures none { IfNone result (¬ Contains (closables (version_of self.now).features) id) }
        ensures some { IfSome result (λ set. Contains (closables (version_of self.now).features) id × (set ≡ closed_set (version_of self.now) id)) }
    {
        self.order_law();
        match self.graph().closable(id) {
            Some(k) => Some(self.marks().profiles(k)),
            None => None,
        }
    }

    /// For whom a feature is closed: what can't be closed is so for nobody.
    pub(crate) fn closed_set(&self, id: FeatureId) -> ProfileSet
        requires { IsStand self.now }
        ensures { result ≡ closed_set (version_of self.now) id }
    {
        self.order_law();
        match self.state(id) {
            Some(set) => set,
            None => ProfileSet::nobody(),
        }
    }

    /// What can be closed stands once, and so does what is closed, in the order of it.
    pub(crate) fn order_law(&self)
        requires { IsStand self.now }
        ensures once { AllPairs (λ a b. a ≢ b) (closables (version_of self.now).features) }
        ensures order { (version_of self.now).closed ≡ closings (closed_set (version_of self.now)) (closables (version_of self.now).features) }
        ensures closed_once { AllPairs (λ a b. a ≢ b) (closed_ids (version_of self.now)) }
    {
        self.graph().range_law();
        let _marks = self.marks();
    }

    /// What is closed and for whom, in order.
    pub(crate) fn closed_list(&self, alloc: Global) -> Result<List<Closing>, OutOfMemory>
        requires { IsStand self.now }
        ensures { IfOk result (λ closed. closed ≡ (version_of self.now).closed) }
    {
        let marks = self.marks();
        marked_list(alloc, self.graph(), marks)
    }
}

impl Board {
    /// For whom a feature is closed, if it can be closed.
    pub(crate) fn state(&self, id: FeatureId) -> Option<ProfileSet>
        ensures none { IfNone result (¬ Contains (closables self.now.features) id) }
        ensures some { IfSome result (λ set. Contains (closables self.now.features) id × (set ≡ closed_set self.now id)) }
    {
        self.stand().state(id)
    }

    /// For whom a feature is closed: what can't be closed is so for nobody.
    pub(crate) fn closed_set(&self, id: FeatureId) -> ProfileSet
        ensures { result ≡ closed_set self.now id }
    {
        self.stand().closed_set(id)
    }

    /// What is closed, as a reply lists it.
    pub(crate) fn closed_rows(&self, alloc: Global) -> Result<List<ClosedRow>, OutOfMemory>
        ensures { IfOk result (λ rows. rows ≡ closed_rows self.now) }
    {
        let closed = self.stand().closed_list(alloc)?;
        rows_of(alloc, self.settings(), closed.as_slice())
    }
}

// What is closed as a reply lists it.
fn rows_of(
    alloc: Global,
    settings: &Settings,
    closed: &[Closing],
) -> Result<List<ClosedRow>, OutOfMemory>
    ensures { IfOk result (λ rows. rows ≡ map (closed_row settings.now) closed.now) }
{
    let mut rows = Vec::with_capacity(alloc, closed.len())?;
    for it in closed {
        let profiles = named(alloc, settings, it.profiles)?;
        rows.push(ClosedRow {
            id: it.feature,
            profiles,
        })?;
    }
    Ok(List::from_vec(rows))
}

// What is marked for anybody, in order.
fn marked_list(alloc: Global, graph: &Graph, marks: &Marks) -> Result<List<Closing>, OutOfMemory>
    requires { AreMarksOf (network graph.now) marks.now }
    ensures { IfOk result (λ closed. closed ≡ closed_by marks.now (network graph.now).closables) }
{
    let mut closed = List::new(alloc);
    for k in 0..graph.closables() {
        let profiles = marks.profiles(k);
        if !profiles.is_empty() {
            let feature = graph.closable_id(k);
            closed.push(Closing { feature, profiles })?;
        }
    }
    Ok(closed)
}

/// What is closed, carried over to the numbers of another graph, and what can't be closed there.
#[derive(Drop)]
pub(crate) struct Carried {
    pub tally: Tally,
    pub dropped: List<FeatureId>,
}

/// Carries what is closed over to a graph, each feature with those for whom it is.
pub(crate) fn carry_over(
    alloc: Global,
    graph: &Graph,
    closed: &[Closing],
) -> Result<Carried, OutOfMemory>
    requires { AllPairs (λ a b. a ≢ b) (map feature_of closed.now) }
    ensures tallied { IfOk result (λ c. IsTally (network graph.now).closables c.tally) }
    ensures marked { IfOk result (λ c. closed_by c.tally.marks (network graph.now).closables ≡ closings (set_in closed.now) (network graph.now).closables) }
    ensures dropped { IfOk result (λ c. c.dropped ≡ gone_from (network graph.now).closables (map feature_of closed.now)) }
{
    let mut tally = Tally {
        marks: Marks::none(alloc, graph)?,
        closed: 0,
    };
    let mut dropped = List::new(alloc);
    for it in closed {
        if !mark(&mut tally, graph, it.feature, it.profiles) {
            dropped.push(it.feature)?;
        }
    }
    Ok(Carried { tally, dropped })
}
