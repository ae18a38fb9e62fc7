//! The least and the greatest coordinates of positions.

ghost use Rattle.std.specs.Prelude.{◌≡◌, ℤ, ◌↔◌, IsTrue, false, List, [], ◌∷◌, ◌++◌};
ghost use Rattle.plane_exact.specs.Figure.{AllClose};
ghost use Rattle.venue_types.specs.declared.point.Point.{Point};
ghost use Rattle.ring_rules.specs.Bounds.{IsExtent, AreBounds, IsWide, HaveFarPair};

use venue_types::Point;

const FAR: i128 = 200_000_000;

/// The least and the greatest of some numbers; of none, `i64::MAX` and `i64::MIN`.
#[derive(Clone, Copy, Debug, PartialEq, Eq)]
pub(crate) struct Extent {
    least: i64,
    greatest: i64,
}

impl Extent {
    // Of both.
    fn join(self, other: Extent) -> Extent
        ensures { (axis : Point → ℤ) (xs ys : List Point) → IsExtent axis xs self → IsExtent axis ys other → IsExtent axis (xs ++ ys) result }
    {
        Extent {
            least: i64::min(self.least, other.least),
            greatest: i64::max(self.greatest, other.greatest),
        }
    }

    // Whether the numbers lie far apart.
    fn is_wide(self) -> bool
        ensures { IsTrue result ↔ IsWide self }
    {
        self.greatest as i128 - self.least as i128 > FAR
    }
}

/// The extents of positions on both axes.
#[derive(Clone, Copy, Debug, PartialEq, Eq)]
pub(crate) struct Bounds {
    x: Extent,
    y: Extent,
}

impl Bounds {
    /// Of no positions.
    pub(crate) fn none() -> Bounds
        ensures { AreBounds [] result }
    {
        let nothing = Extent {
            least: i64::MAX,
            greatest: i64::MIN,
        };
        Bounds {
            x: nothing,
            y: nothing,
        }
    }

    /// Of one position.
    pub(crate) fn of(p: Point) -> Bounds
        ensures { AreBounds (p ∷ []) result }
    {
        Bounds {
            x: Extent {
                least: p.x,
                greatest: p.x,
            },
            y: Extent {
                least: p.y,
                greatest: p.y,
            },
        }
    }

    /// Of these positions and those.
    pub(crate) fn join(self, other: Bounds) -> Bounds
        ensures { (xs ys : List Point) → AreBounds xs self → AreBounds ys other → AreBounds (xs ++ ys) result }
    {
        Bounds {
            x: self.x.join(other.x),
            y: self.y.join(other.y),
        }
    }

    /// Whether two of the positions lie far apart on an axis.
    pub(crate) fn are_wide(self) -> bool
        ensures spread { (xs : List Point) → AreBounds xs self → IsTrue result ↔ HaveFarPair xs }
        ensures close { (xs : List Point) → AreBounds xs self → result ≡ false → AllClose xs }
    {
        self.x.is_wide() || self.y.is_wide()
    }
}
