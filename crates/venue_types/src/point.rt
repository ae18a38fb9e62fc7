//! Places on the ground, and the figures made of them.

use crate::List;

/// A position: longitude and latitude in whole nanodegrees (10^-9 degree).
#[derive(Clone, Copy, Debug, PartialEq, Eq)]
pub struct Point {
    pub x: i64,
    pub y: i64,
}

/// A place at twice its position, so that the middle of two positions is whole too.
#[derive(Clone, Copy, Debug, PartialEq, Eq)]
pub struct Spot {
    pub x: i64,
    pub y: i64,
}

/// A border, which by RFC 7946, section 3.1.6, is a closed line. That its last point equals its first is kept by the
/// reader of geometries, and `feature_rows` says it of the rows of a folder (`IsSoundRing`).
#[derive(Drop)]
pub struct Ring {
    pub points: List<Point>,
}

/// A polygon: its border, and the borders of its holes.
#[derive(Drop)]
pub struct Part {
    pub outer: Ring,
    pub holes: List<Ring>,
}

/// One or more polygons (RFC 7946, sections 3.1.6 and 3.1.7).
#[derive(Drop)]
pub struct Shape {
    pub parts: List<Part>,
}

/// A line from point to point (RFC 7946, section 3.1.4).
#[derive(Drop)]
pub struct Line {
    pub points: List<Point>,
}
