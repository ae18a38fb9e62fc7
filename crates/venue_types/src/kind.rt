//! Kinds of passage, and classes of nodes.

/// How a link is passed.
#[derive(Clone, Copy, Debug, PartialEq, Eq)]
pub enum Kind {
    Floor,
    Elevator,
    Escalator,
    Movingwalkway,
    Ramp,
    Stairs,
    Traversal,
}

/// What a node is: a place of a class, or a corner of a unit, which is no place.
#[derive(Clone, Copy, Debug, PartialEq, Eq)]
pub enum Class {
    Amenity,
    Anchor,
    Occupant,
    Opening,
    Unit,
    Corner,
}
