//! Which of the sorted entries can be those of openings that touch a unit.

ghost use Rattle.std.specs.Prelude.{◌≡◌};
ghost use Rattle.opening_match.specs.Entries.{AreRising, AreApart};
ghost use Rattle.opening_match.specs.Stretches.{is_before, IsFront, IsStretch};

use crate::entries::Entry;
use crate::frame::Frame;
use venue_types::FeatureId;

// Whether the entry is of a lesser level, or of this one and to the west of the bound.
fn is_before(entry: &Entry, level: FeatureId, bound: i128) -> bool
    ensures { result ≡ is_before level bound entry.now }
{
    entry.level.0 < level.0 || entry.level.0 == level.0 && (entry.x as i128) < bound
}

// How many of the entries are before the bound: those in front. Takes log n time.
fn front_count(entries: &[Entry], level: FeatureId, bound: i128) -> usize
    requires { AreRising entries.now }
    ensures { IsFront entries.now level bound result }
{
    entries.partition_point(|entry| is_before(entry, level, bound))
}

/// The entries of a level from a frame's west to its east, and beyond them by no more than the tolerance.
///
/// The sums are made in 128 bits, so that any coordinates of 64 bits have one.
pub(crate) fn stretch_of<'a>(
    entries: &'a [Entry],
    level: FeatureId,
    frame: Frame,
    tolerance: u32,
) -> &'a [Entry]
    requires rising { AreRising entries.now }
    requires apart { AreApart entries.now }
    ensures { IsStretch entries.now level frame tolerance result.now }
{
    let from = frame.west as i128 - tolerance as i128;
    let to = frame.east as i128 + tolerance as i128;
    let (_, rest) = entries.split_at(front_count(entries, level, from));
    let (stretch, _) = rest.split_at(front_count(rest, level, to + 1));
    stretch
}
