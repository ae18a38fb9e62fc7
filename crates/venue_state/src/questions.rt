//! Questions answered.

ghost use Rattle.std.specs.Prelude.{◌≡◌, ◌<◌, IfOk, IfSome, IfNone, Some};
ghost use Rattle.venue_types.specs.declared.query.Ask.TheVariants as ask;
ghost use Rattle.venue_history.specs.Places.{places};
ghost use Rattle.venue_history.specs.Answers.{Answers, AnswersAsk, IsTooEarly};
ghost use Rattle.venue_history.specs.Closed.{is_closed_for_all, shut_out};

use crate::board::Board;
use crate::profile_names::{is_everybody, named};
use std::alloc::Global;
use venue_history::{Venue, every_name};
use venue_types::{
    Ask, ClosuresTold, FeatureId, List, OutOfMemory, PlaceRow, PlaceTold, Query, Reply, Text, Which,
};

impl Board {
    /// Answers a question at this version. The version is told in no time, a place by its number in an index, what is closed and all
    /// places in one pass, a way by a search over the links and a pass over what it finds, a tour by a search from its start and from
    /// each stop, and the nearest of a category by a pass over the amenities and one search. Takes memory for the answer, and for a way, a
    /// tour or the nearest besides that of a search.
    pub fn ask(&self, alloc: Global, query: &Query) -> Reply
        ensures { Answers self.now query.now result }
    {
        match self.too_late(query.since) {
            Some(since) => Reply::Ahead {
                since,
                number: self.number(),
            },
            None => match self.answer(alloc, &query.what) {
                Ok(reply) => reply,
                Err(_) => Reply::OutOfMemory,
            },
        }
    }

    // The version that is asked for, if it isn't there yet.
    fn too_late(&self, since: Option<u32>) -> Option<u32>
        ensures some { IfSome result (λ number. (since ≡ Some number) × (self.now.number < number)) }
        ensures none { IfNone result (¬ IsTooEarly self.now since) }
    {
        match since {
            Some(number) => {
                if self.number() < number {
                    Some(number)
                } else {
                    None
                }
            }
            None => None,
        }
    }

    // Answers what is asked.
    fn answer(&self, alloc: Global, what: &Ask) -> Result<Reply, OutOfMemory>
        ensures { IfOk result (AnswersAsk self.now what.now) }
    {
        match what {
            Ask::Version => Ok(Reply::Version {
                number: self.number(),
                closed: self.closed_count(),
                places: self.venue().place_count(),
            }),
            Ask::Places => Ok(Reply::Places {
                number: self.number(),
                rows: place_rows(alloc, self.venue())?,
            }),
            Ask::Place(id) => self.place(alloc, *id),
            Ask::Closures => Ok(Reply::Closures(ClosuresTold {
                number: self.number(),
                closed: self.closed_rows(alloc)?,
            })),
            Ask::Route {
                from,
                to,
                profile,
                certificate,
            } => self.route(alloc, *from, *to, profile, *certificate),
            Ask::Tour(asked) => self.tour(alloc, asked),
            Ask::Nearest(asked) => self.nearest(alloc, asked),
        }
    }

    // Answers a question for a place.
    fn place(&self, alloc: Global, id: FeatureId) -> Result<Reply, OutOfMemory>
        ensures { IfOk result (AnswersAsk self.now (ask.Place id)) }
    {
        let venue = self.venue();
        every_name(venue);
        match venue.place_of(id) {
            Some(n) => {
                let row = venue.place(alloc, n)?;
                let profiles = self.shut_out(alloc, id)?;
                Ok(Reply::Place(PlaceTold {
                    number: self.number(),
                    row,
                    closed: self.is_closed_for_all(id),
                    profiles,
                }))
            }
            None => Ok(Reply::NoPlace(Which::Id)),
        }
    }

    // Whether a feature is closed for everybody; what can't be closed never is.
    fn is_closed_for_all(&self, id: FeatureId) -> bool
        ensures { result ≡ is_closed_for_all self.now id }
    {
        let set = self.closed_set(id);
        is_everybody(self.settings(), set) && !set.is_empty()
    }

    // The names of the profiles for which a feature is closed, where there are some and not all.
    fn shut_out(&self, alloc: Global, id: FeatureId) -> Result<Option<List<Text>>, OutOfMemory>
        ensures { IfOk result (λ names. names ≡ shut_out self.now id) }
    {
        let set = self.closed_set(id);
        if set.is_empty() {
            Ok(None)
        } else {
            named(alloc, self.settings(), set)
        }
    }
}

// All places of a venue.
fn place_rows(alloc: Global, venue: &Venue) -> Result<List<PlaceRow>, OutOfMemory>
    ensures { IfOk result (λ rows. rows ≡ places venue.now.features) }
{
    let count = venue.place_count();
    let mut rows = Vec::with_capacity(alloc, count as usize)?;
    for n in 0..count {
        let row = venue.place(alloc, n)?;
        rows.push(row)?;
    }
    Ok(List::from_vec(rows))
}
