//! What holds of every venue, and that a folder has one outcome.

ghost use Rattle.std.specs.Prelude.{◌≡◌, ℕ, ◌^◌, ◌<◌, ◌≤◌, List, length, slice_get, Some};
ghost use Rattle.venue_types.specs.declared.files.Files.{Files};
ghost use Rattle.venue_types.specs.declared.files.Slot.TheVariants.{Held};
ghost use Rattle.venue_types.specs.declared.settings.Settings.{Settings};
ghost use Rattle.venue_types.specs.declared.finding.Finding.{Finding};
ghost use Rattle.venue_types.specs.declared.finding.Report.{Report};
ghost use Rattle.plane_exact.specs.Figure.{AllClose};
ghost use Rattle.imdf_read.specs.Figures.{judged_positions};
ghost use Rattle.imdf_read.specs.Sound.{AreSound};
ghost use Rattle.imdf_refs.specs.Laws.{OpeningsHaveLevels, UnitsHaveLevels, AnchorsHaveUnits, AmenitiesHaveUnits, OccupantsHaveAnchors};
ghost use Rattle.imdf_refs.specs.Rules.{IsMisnamed};
ghost use Rattle.ring_rules.specs.Rules.{BreaksSpread};
ghost use Rattle.link_graph.specs.Limits.{BreaksLimit};
ghost use Rattle.venue_build.specs.Phases.{IsMisplaced};
ghost use Rattle.venue_build.specs.Venues.{SeenVenue as TheVenue};
ghost use Rattle.venue_build.specs.Built.{IsRejected, IsVenueOf};
ghost use Rattle.venue_build.specs.Report.{IsLaterBroken};

use crate::Venue;
use imdf_read::one_reading_law;
use imdf_refs::{
    amenity_unit_law, anchor_unit_law, occupant_anchor_law, opening_level_law, unit_level_law,
};
use ring_rules::no_spread_law;

/// The rows of a venue are sound, and under its settings no phase finds anything in them: each identifier stands for one
/// feature and each reference names one of its type, all positions lie close, each figure and place is where it has to be, and
/// the members of units are within their limits.
pub fn every_venue(venue: &Venue)
    ensures sound { AreSound venue.now.features }
    ensures silent { (x : Finding) → ¬ IsLaterBroken venue.now.features venue.now.settings x }
    ensures named { (x : Finding) → ¬ IsMisnamed venue.now.features x }
    ensures close { (x : Finding) → ¬ BreaksSpread venue.now.features x }
    ensures placed { (x : Finding) → ¬ IsMisplaced venue.now.features venue.now.settings.contain_tol x }
    ensures roomy { (x : Finding) → ¬ BreaksLimit venue.now.features venue.now.settings x }
{
    venue.valid_law();
}

/// What the features of a venue name is there: the level of each opening and unit, the unit of each anchor, the units of each
/// amenity and the anchor of each occupant, each the only one of its identifier. And any two of its positions are close.
pub fn every_name(venue: &Venue)
    ensures openings { OpeningsHaveLevels venue.now.features }
    ensures units { UnitsHaveLevels venue.now.features }
    ensures anchors { AnchorsHaveUnits venue.now.features }
    ensures amenities { AmenitiesHaveUnits venue.now.features }
    ensures occupants { OccupantsHaveAnchors venue.now.features }
    ensures close { AllClose (judged_positions venue.now.features) }
{
    every_venue(venue);
    opening_level_law();
    unit_level_law();
    anchor_unit_law();
    amenity_unit_law();
    occupant_anchor_law();
    no_spread_law();
}

/// Under the same settings no folder is both rejected and a venue, it is rejected with one report, and it makes one venue.
pub fn one_outcome()
    ensures not_both { (files : Files) (settings : Settings) (report : Report) (venue : TheVenue) → length files.slots ≡ 17
        → IsRejected files settings report → IsVenueOf files settings venue → ⊥ }
    ensures one_report { (files : Files) (settings : Settings) (one other : Report) → length files.slots ≡ 17
        → IsRejected files settings one → IsRejected files settings other → one ≡ other }
    ensures one_venue { (files : Files) (settings : Settings) (one other : TheVenue) → length files.slots ≡ 17
        → IsVenueOf files settings one → IsVenueOf files settings other → one ≡ other }
{
    one_reading_law();
}

/// No file of a venue has more than 33,554,432 bytes.
pub fn sizes_law()
    ensures { (files : Files) (settings : Settings) (venue : TheVenue) (number : ℕ) (bytes : List ℕ) → IsVenueOf files settings venue → number < 17
        → slice_get files.slots number ≡ Some (Held bytes) → length bytes ≤ 2 ^ 25 }
{}
