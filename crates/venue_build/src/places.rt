//! The places of a venue.

ghost use Rattle.std.specs.Prelude.{◌≡◌, ◌<◌, length, IfOk, Some, slice_get};
ghost use Rattle.venue_build.specs.PlaceNumbers.{place_number};
ghost use Rattle.venue_build.specs.Places.{places};

use crate::place_table::feature_at;
use crate::venue::Venue;
use std::alloc::Global;
use venue_types::{FeatureId, OutOfMemory, PlaceRow};

impl Venue {
    /// How many places there are, which takes no time.
    pub fn place_count(&self) -> u32
        ensures { result ≡ length (places self.now.features) }
    {
        self.kept_places().ordinals.len() as u32
    }

    /// The place of this number, from 0, in the order of the places. Takes memory for its names alone, and no search.
    pub fn place(&self, alloc: Global, n: u32) -> Result<PlaceRow, OutOfMemory>
        requires { n < length (places self.now.features) }
        ensures { IfOk result (λ row. slice_get (places self.now.features) n ≡ Some row) }
    {
        let kept = self.kept_places();
        let n = n as usize;
        let feature = feature_at(self.features(), &kept.units, n);
        feature.place(alloc, kept.ordinals[n])
    }

    /// The number of the place of this identifier, if it is one: an occupant is a place of its own. Takes log n time, and no memory.
    pub fn place_of(&self, id: FeatureId) -> Option<u32>
        ensures { result ≡ place_number self.now.features id }
    {
        let n = self.kept_places().index.place_of(id)?;
        Some(n as u32)
    }
}
