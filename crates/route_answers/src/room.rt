//! A unit some of whose members aren't joined, as a profile passes it.

ghost use Rattle.std.specs.Prelude.{◌≡◌, ◌≤◌, ◌<◌, ◌&&◌, ℕ, Some, length, slice_get};
ghost use Rattle.std.specs.List.{flat_map};
ghost use Rattle.link_graph.specs.Areas.{joined_across};
ghost use Rattle.link_graph.specs.Graphs.{network};
ghost use Rattle.route_answers.specs.Adding.{joined_passing};
ghost use Rattle.route_answers.specs.Passing.{passes_node};

use link_graph::Graph;
use unit_sight::{Mask, Sights};
use venue_types::Profile;

/// A unit some of whose members aren't joined, as a profile passes it.
#[derive(Clone, Copy)]
pub(crate) struct Room<'a> {
    pub graph: &'a Graph,
    pub profile: &'a Profile,
    pub members: &'a [u32],
    pub sights: &'a Sights,
    /// The places of the members that pass.
    pub mask: &'a Mask,
}

impl Room<'_> {
    ghost use Rattle.std.specs.Prelude.{filter, take};
    ghost use Rattle.route_answers.specs.Adding.{IsRoom};

    /// How many links lead from those of the first so many of the members that pass to those that pass and with which they are joined.
    pub(crate) fn joined_count(&self, first: u32) -> usize
        requires room { IsRoom self.now }
        requires first { first ≤ length self.now.members.now }
        ensures number { result ≡ length (flat_map (joined_passing self.now.graph.now self.now.profile.now self.now.members.now self.now.sights.now) (filter (passes_node (network self.now.graph.now) self.now.profile.now) (take first self.now.members.now))) }
        ensures few { result ≤ 16777216 }
    {
        let mut count = 0;
        for i in 0..first {
            if self.mask.has(i) {
                count += self.sights.both(i, self.mask) as usize;
            }
        }
        count
    }

    /// How many of the first so many of the members pass and are joined with the one at a place.
    pub(crate) fn joined_below(&self, i: u32, end: u32) -> usize
        requires room { IsRoom self.now }
        requires place { i < length self.now.members.now }
        requires end { end ≤ length self.now.members.now }
        ensures number { (a : ℕ) → slice_get self.now.members.now i ≡ Some a → result ≡ length (filter (λ b. joined_across self.now.sights.now self.now.members.now a b && passes_node (network self.now.graph.now) self.now.profile.now b) (take end self.now.members.now)) }
        ensures few { result ≤ 4096 }
    {
        let mut count = 0;
        for j in 0..end {
            if self.sights.joins(i, j) && self.mask.has(j) {
                count += 1;
            }
        }
        count
    }
}
