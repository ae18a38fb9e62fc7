//! Octagons round positions: the least and the greatest of x, y, x + y and x - y, all counted from an origin.

ghost use Rattle.std.specs.Prelude.{◌≡◌, ℕ, ◌*◌, ◌≤◌, ℤ, pos, ◌↔◌, IsTrue, ◌∷◌};
ghost use Rattle.venue_types.specs.declared.point.Point.{Point};
ghost use Rattle.plane_exact.specs.Plane.{IsWithin, IsNearby};
ghost use Rattle.plane_exact.specs.Figure.{AllNearby};
ghost use Rattle.plane_trees.specs.Line.{Direction, stretch};
ghost use Rattle.plane_trees.specs.Octagons.{IsOffset, kept, band, IsInBand, IsAtBand, AreApart, IsRound, IsSeen};

use venue_types::Point;

/// The four coordinates of a position.
#[derive(Clone, Copy)]
pub(crate) struct Offset {
    pub x: i64,
    pub y: i64,
    pub sum: i64,
    pub difference: i64,
}

/// The least and the greatest value of one coordinate.
#[derive(Clone, Copy)]
pub(crate) struct Band {
    pub least: i64,
    pub greatest: i64,
}

/// The bands of the four coordinates.
#[derive(Clone, Copy)]
pub(crate) struct Octagon {
    pub x: Band,
    pub y: Band,
    pub sum: Band,
    pub difference: Band,
}

/// The octagon round no position.
pub(crate) const NOTHING: Octagon = Octagon {
    x: NO_NUMBER,
    y: NO_NUMBER,
    sum: NO_NUMBER,
    difference: NO_NUMBER,
};

const NO_NUMBER: Band = Band {
    least: 9_223_372_036_854_775_807,
    greatest: -9_223_372_036_854_775_808,
};

/// Where an octagon lies as seen from a place, toward greater longitude.
pub(crate) enum Sight {
    /// The ray meets nothing in it.
    Missed,
    /// All of it lies to the east.
    Before,
    /// It has to be looked at.
    Among,
}

/// The place of `q`, counted from the origin.
pub(crate) fn offset_of(origin: Point, q: Point) -> Offset
    requires { IsNearby origin q }
    ensures value { IsOffset result origin q }
    ensures range { (way : Direction) → IsWithin 1600000000 (kept way result) (pos 0) }
{
    let x = q.x - origin.x;
    let y = q.y - origin.y;
    Offset {
        x,
        y,
        sum: x + y,
        difference: x - y,
    }
}

impl Band {
    // The band of one number.
    fn at(n: i64) -> Band
        ensures { IsInBand result n }
    {
        Band {
            least: n,
            greatest: n,
        }
    }

    // The band round both.
    fn with(self, other: Band) -> Band
        ensures first { (m : ℤ) → IsInBand self m → IsInBand result m }
        ensures second { (m : ℤ) → IsInBand other m → IsInBand result m }
    {
        Band {
            least: self.least.min(other.least),
            greatest: self.greatest.max(other.greatest),
        }
    }

    // Whether the band comes within `t` of `n`.
    fn is_at(self, n: i64, t: u32) -> bool
        requires number { IsWithin 1600000000 n (pos 0) }
        requires tolerance { t ≤ 8000000 }
        ensures { IsTrue result ↔ IsAtBand self n t }
    {
        let t = t as i64;
        self.least <= n + t && n - t <= self.greatest
    }

    // Whether the two bands have no number in common.
    fn is_apart(self, other: Band) -> bool
        ensures { IsTrue result ↔ AreApart self other }
    {
        self.greatest < other.least || other.greatest < self.least
    }
}

impl Octagon {
    /// The octagon of one place.
    pub fn at(place: Offset) -> Octagon
        ensures { (way : Direction) → IsInBand (band way result) (kept way place) }
    {
        Octagon {
            x: Band::at(place.x),
            y: Band::at(place.y),
            sum: Band::at(place.sum),
            difference: Band::at(place.difference),
        }
    }

    /// The octagon round both.
    pub fn with(self, other: Octagon) -> Octagon
        ensures first { (way : Direction) (m : ℤ) → IsInBand (band way self) m → IsInBand (band way result) m }
        ensures second { (way : Direction) (m : ℤ) → IsInBand (band way other) m → IsInBand (band way result) m }
    {
        Octagon {
            x: self.x.with(other.x),
            y: self.y.with(other.y),
            sum: self.sum.with(other.sum),
            difference: self.difference.with(other.difference),
        }
    }

    /// Where the octagon lies as seen from the place.
    pub fn sight(&self, place: &Offset) -> Sight
        ensures { IsSeen self.now place.now result }
    {
        if place.y < self.y.least {
            return Sight::Missed;
        }
        if self.y.greatest <= place.y {
            return Sight::Missed;
        }
        if self.x.greatest < place.x {
            return Sight::Missed;
        }
        if self.sum.greatest < place.sum {
            return Sight::Missed;
        }
        if self.difference.greatest < place.difference {
            return Sight::Missed;
        }
        if place.x < self.x.least {
            return Sight::Before;
        }
        if place.sum < self.sum.least {
            return Sight::Before;
        }
        if place.difference < self.difference.least {
            return Sight::Before;
        }
        Sight::Among
    }

    /// Whether a position in the octagon may be within `t` of the place.
    pub fn is_at(&self, place: &Offset, t: u32) -> bool
        requires place { (way : Direction) → IsWithin 1600000000 (kept way place.now) (pos 0) }
        requires tolerance { t ≤ 4000000 }
        ensures { ((way : Direction) → IsAtBand (band way self.now) (kept way place.now) (stretch way * t)) → IsTrue result }
    {
        if !self.x.is_at(place.x, t) {
            return false;
        }
        if !self.y.is_at(place.y, t) {
            return false;
        }
        if !self.sum.is_at(place.sum, 2 * t) {
            return false;
        }
        self.difference.is_at(place.difference, 2 * t)
    }

    /// Whether the two octagons lie apart in some direction.
    pub fn is_apart(&self, other: &Octagon) -> bool
        ensures { IsTrue result → (way : Direction) × AreApart (band way self.now) (band way other.now) }
    {
        self.x.is_apart(other.x)
            || self.y.is_apart(other.y)
            || self.sum.is_apart(other.sum)
            || self.difference.is_apart(other.difference)
    }
}

/// The octagon round the line from `start` through `rest`.
pub(crate) fn octagon_of(origin: Point, start: Point, rest: &[Point]) -> Octagon
    requires { AllNearby (origin ∷ start ∷ rest.now) }
    ensures { IsRound result origin (start ∷ rest.now) }
{
    let mut octagon = Octagon::at(offset_of(origin, start));
    for q in rest {
        octagon = octagon.with(Octagon::at(offset_of(origin, *q)));
    }
    octagon
}
