//! What the moments of every disk keep.

ghost use Rattle.std.specs.Prelude.{◌≡◌, ℕ, ◌<◌, ◌≤◌, List, [], length, slice_index};
ghost use Rattle.venue_ports.specs.Disks.{IsOpened};
ghost use Rattle.venue_ports.specs.Moments.{Moment, GoesOrEnds, IsOutside, IsStep, Leaves, Now, ReadIsLeft, greatest_end};

/// What a read gives is among what a stop may leave: when a disk is handed out, and then after each outcome of each call.
pub fn read_is_left_law()
    ensures opened { (bytes : List ℕ) (moments : List Moment) → IsOpened bytes moments → Now ReadIsLeft moments }
    ensures goes { (old new : List Moment) → Now ReadIsLeft old → GoesOrEnds IsStep old new → Now ReadIsLeft new }
{}

/// What a stop leaves has the bytes of the last sync outside the ranges that were written since, is no shorter than then, and
/// ends where one of the ranges ends, or before.
pub fn left_law()
    ensures kept { (m : Moment) (image : List ℕ) (place : ℕ) → Leaves m image → place < length m.synced → IsOutside m.loose place
        → slice_index image place ≡ slice_index m.synced place }
    ensures no_shorter { (m : Moment) (image : List ℕ) → Leaves m image → length m.synced ≤ length image }
    ensures no_longer { (m : Moment) (image : List ℕ) → Leaves m image → length image ≤ greatest_end m.synced m.loose }
    ensures synced { (m : Moment) (image : List ℕ) → m.loose ≡ [] → Leaves m image → image ≡ m.synced }
{}
