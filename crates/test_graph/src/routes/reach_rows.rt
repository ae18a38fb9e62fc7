//! What a wheelchair is looked for from the anchor on the lower level, and what the search knows then.

use super::search_rows::BOTH;

/// An end: its feature, what it costs, and to which nodes the links of the walk there lead.
pub type FoundEnd = (u128, u64, &'static [u128]);

/// What is left when the search ends.
#[derive(Clone, Copy)]
pub enum Left {
    /// More, which costs more than each end that was found.
    Bound,
    /// Nothing: these are the nodes that are reached.
    Reached(&'static [u128]),
}

/// A question with several ends, while some features are closed.
#[derive(Clone, Copy)]
pub struct ReachRow {
    pub closed: &'static [u128],
    pub ends: &'static [u128],
    pub count: u32,
    pub found: &'static [FoundEnd],
    pub left: Left,
}

const RESTROOM: FoundEnd = (0x0031, 2_436, &[0x0105, 0x0031]);

const UPSTAIRS: FoundEnd = (
    0x0042,
    9_040,
    &[0x0105, 0x0101, 0x0301, 0x0401, 0x0201, 0x0042],
);

pub static REACH_ROWS: [ReachRow; 6] = [
    // The first of one.
    ReachRow {
        closed: &[],
        ends: &[0x0031],
        count: 1,
        found: &[RESTROOM],
        left: Left::Bound,
    },
    // Both of two.
    ReachRow {
        closed: &[],
        ends: &[0x0031, 0x0042],
        count: 2,
        found: &[RESTROOM, UPSTAIRS],
        left: Left::Bound,
    },
    // Three of two.
    ReachRow {
        closed: &[],
        ends: &[0x0031, 0x0042],
        count: 3,
        found: &[RESTROOM, UPSTAIRS],
        left: Left::Reached(BOTH),
    },
    // The start itself.
    ReachRow {
        closed: &[],
        ends: &[0x0041],
        count: 1,
        found: &[(0x0041, 0, &[])],
        left: Left::Bound,
    },
    // A closed door before it.
    ReachRow {
        closed: &[0x0105],
        ends: &[0x0031],
        count: 1,
        found: &[],
        left: Left::Reached(&[0x0041, 0x0305]),
    },
    // No end at all.
    ReachRow {
        closed: &[],
        ends: &[],
        count: 1,
        found: &[],
        left: Left::Reached(BOTH),
    },
];
