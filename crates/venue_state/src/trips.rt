//! Questions for a way.

ghost use Rattle.std.specs.Prelude.{◌≡◌, ◌<◌, ℕ, Some, None, IfOk, IfSome, IfNone, map, length};
ghost use Rattle.venue_types.specs.declared.link.Link.{Link};
ghost use Rattle.venue_types.specs.declared.query.Ask.TheVariants as ask;
ghost use Rattle.venue_types.specs.declared.settings.Profile.{Profile as AProfile};
ghost use Rattle.route_search.specs.Nodes.{nodes, place_of};
ghost use Rattle.route_search.specs.Answers.{IsAnswer, IsSmall};
ghost use Rattle.venue_history.specs.Answers.{AnswersAsk, IfAsked, IsTrip};
ghost use Rattle.venue_history.specs.Ways.{Usable, profile_number, profile_of, name_of, mark_of};

use crate::board::Board;
use crate::profile_names::profile_number;
use route_search::{Found, least, passable_law};
use std::alloc::Global;
use std::marker::Brand;
use std::sync::ledger::{Blank, Ledger};
use venue_types::{
    FeatureId, List, Mark, NodeName, OutOfMemory, Potential, Profile, Reply, Text, Which,
};
use walk_laws::Steps;

// Between which places a way is asked for, and for whom, as the reply repeats it.
#[derive(Drop)]
struct Trip {
    from: FeatureId,
    to: FeatureId,
    profile: Text,
}

/// A profile of the settings, and its number there.
#[derive(Clone, Copy)]
pub(crate) struct Numbered<'a> {
    pub number: u8,
    pub profile: &'a Profile,
}

impl Board {
    /// The profile of a name with its number, the first if there are several.
    #[tactic(auto, unfolding(venue_history::specs::Ways::profile_of))]
    pub(crate) fn profile(&self, name: &Text) -> Option<Numbered<'_>>
        ensures number { IfSome result (λ it. profile_number self.now.settings name.now ≡ Some it.number) }
        ensures profile { IfSome result (λ it. profile_of self.now.settings name.now ≡ Some it.profile.now) }
        ensures few { IfSome result (λ it. it.number < 16) }
        ensures none { IfNone result (profile_of self.now.settings name.now ≡ None) }
    {
        let number = profile_number(self.settings(), name)?;
        let profile = self.settings().profiles.get(number)?;
        Some(Numbered {
            number: number as u8,
            profile,
        })
    }

    /// The node at which a place is.
    pub(crate) fn node_of(&self, id: FeatureId) -> Option<u32>
        ensures node { result ≡ place_of self.now.features id }
        ensures within { IfSome result (λ n. n < length (nodes self.now.features self.now.settings)) }
    {
        self.graph().node_of(id)
    }

    /// Answers a question for a way.
    pub(crate) fn route(
        &self,
        alloc: Global,
        from: FeatureId,
        to: FeatureId,
        profile: &Text,
        certificate: bool,
    ) -> Result<Reply, OutOfMemory>
        ensures { IfOk result (AnswersAsk self.now (ask.Route from to profile.now certificate)) }
    {
        match self.profile(profile) {
            None => Ok(Reply::NoProfile),
            Some(traveller) => match self.node_of(from) {
                None => Ok(Reply::NoPlace(Which::From)),
                Some(a) => match self.node_of(to) {
                    None => Ok(Reply::NoPlace(Which::To)),
                    Some(b) => {
                        let found = self.found(alloc, &traveller, a, b)?;
                        let trip = Trip {
                            from,
                            to,
                            profile: profile.copy(alloc)?,
                        };
                        self.told(alloc, trip, certificate, a, found)
                    }
                },
            },
        }
    }

    // The answer of the search from node to node, for somebody of a profile.
    fn found(
        &self,
        alloc: Global,
        traveller: &Numbered<'_>,
        a: u32,
        b: u32,
    ) -> Result<Found, OutOfMemory>
        requires a_node { a < length (nodes self.now.features self.now.settings) }
        requires b_node { b < length (nodes self.now.features self.now.settings) }
        requires number { traveller.now.number < 16 }
        ensures answer { IfOk result (IsAnswer (Usable self.now traveller.now.number traveller.now.profile.now) a b) }
        ensures small { IfOk result (IsSmall (length (nodes self.now.features self.now.settings))) }
    {
        searched::<Brand>(alloc, Blank::new(1), self, traveller, a, b)
    }

    // What was found as a reply.
    fn told(
        &self,
        alloc: Global,
        trip: Trip,
        certificate: bool,
        a: u32,
        found: Found,
    ) -> Result<Reply, OutOfMemory>
        ensures { IfOk result (λ reply. (number : ℕ) (profile : AProfile) (b : ℕ) → IsTrip self.now trip.from trip.to trip.profile number profile a b
            → IsAnswer (Usable self.now number profile) a b found → IsSmall (length (nodes self.now.features self.now.settings)) found → AnswersAsk self.now (ask.Route trip.from trip.to trip.profile certificate) reply) }
    {
        let Trip { from, to, profile } = trip;
        match found {
            Found::Route {
                walk,
                cost,
                potentials,
            } => Ok(Reply::Route {
                number: self.number(),
                from,
                to,
                profile,
                start: self.id(a),
                cost,
                steps: self.steps(alloc, walk.as_slice())?,
                potentials: self.shown(alloc, certificate, potentials.as_slice())?,
            }),
            Found::Cut { reached } => Ok(Reply::NoRoute {
                number: self.number(),
                from,
                to,
                profile,
                reached: self.reached(alloc, certificate, reached.as_slice())?,
            }),
        }
    }

    /// Potentials as marks, where they were asked for.
    pub(crate) fn shown(
        &self,
        alloc: Global,
        certificate: bool,
        listed: &[Potential],
    ) -> Result<Option<List<Mark>>, OutOfMemory>
        ensures { IfOk result (IfAsked certificate (λ marks. marks ≡ map (mark_of self.now) listed.now)) }
    {
        if certificate {
            let marks = self.potentials(alloc, listed)?;
            Ok(Some(marks))
        } else {
            Ok(None)
        }
    }

    /// The names of nodes, where they were asked for.
    pub(crate) fn reached(
        &self,
        alloc: Global,
        certificate: bool,
        nodes: &[u32],
    ) -> Result<Option<List<NodeName>>, OutOfMemory>
        ensures { IfOk result (IfAsked certificate (λ names. names ≡ map (name_of self.now) nodes.now)) }
    {
        if certificate {
            let names = self.names(alloc, nodes)?;
            Ok(Some(names))
        } else {
            Ok(None)
        }
    }
}

// The search over the board's graph and marks, with a counter that nobody reads.
fn searched<L: Ledger>(
    alloc: Global,
    blank: Blank,
    board: &Board,
    traveller: &Numbered<'_>,
    a: u32,
    b: u32,
) -> Result<Found, OutOfMemory>
    requires name { blank.name ≡ L.name }
    requires parts { blank.parts ≡ L.parts }
    requires some { 0 < L.parts }
    requires a_node { a < length (nodes board.now.features board.now.settings) }
    requires b_node { b < length (nodes board.now.features board.now.settings) }
    requires number { traveller.now.number < 16 }
    ensures answer { IfOk result (IsAnswer (Usable board.now traveller.now.number traveller.now.profile.now) a b) }
    ensures small { IfOk result (IsSmall (length (nodes board.now.features board.now.settings))) }
{
    passable_law();
    let mut steps = Steps::<L>::begin(blank);
    least(
        alloc,
        board.graph(),
        board.marks(),
        traveller.profile,
        traveller.number,
        a,
        b,
        &mut steps,
    )
}
