//! Ways through the station that are looked for, and what is found.

/// What is found: the cost and what the links go by; or what is reached.
#[derive(Clone, Copy)]
pub enum Wanted {
    Route(u64, &'static [u128]),
    Cut(&'static [u128]),
}

/// A way that is looked for while some features are closed.
#[derive(Clone, Copy)]
pub struct Row {
    pub closed: &'static [u128],
    /// The place of the profile in the settings: `walk` is the first, `wheelchair` the second.
    pub profile: usize,
    pub from: u128,
    pub to: u128,
    pub found: Wanted,
}

const WALK: usize = 0;

pub(super) const WHEELCHAIR: usize = 1;

/// What can be reached on the lower level without stairs, escalator, lift and ramp.
const LOWER: &[u128] = &[
    0x0031, 0x0041, 0x0101, 0x0102, 0x0103, 0x0104, 0x0105, 0x0106, 0x0108, 0x0109, 0x0110, 0x0111,
    0x0300, 0x0304, 0x0305, 0x0306,
];

/// What a wheelchair reaches from the lower level.
pub(super) const BOTH: &[u128] = &[
    0x0031, 0x0041, 0x0042, 0x0101, 0x0102, 0x0103, 0x0104, 0x0105, 0x0106, 0x0108, 0x0109, 0x0110,
    0x0111, 0x0201, 0x0202, 0x0203, 0x0204, 0x0300, 0x0301, 0x0304, 0x0305, 0x0306, 0x0400, 0x0401,
    0x0404,
];

pub static ROWS: [Row; 13] = [
    // By the lift.
    Row {
        closed: &[],
        profile: WHEELCHAIR,
        from: 0x0041,
        to: 0x0042,
        found: Wanted::Route(9_040, &[0x0305, 0x0300, 0x0301, 0x0021, 0x0401, 0x0400]),
    },
    // By the stairs.
    Row {
        closed: &[],
        profile: WALK,
        from: 0x0041,
        to: 0x0042,
        found: Wanted::Route(8_683, &[0x0305, 0x0300, 0x0022, 0x0400]),
    },
    // By the ramp.
    Row {
        closed: &[0x0301],
        profile: WHEELCHAIR,
        from: 0x0041,
        to: 0x0042,
        found: Wanted::Route(14_023, &[0x0305, 0x0300, 0x0024, 0x0400]),
    },
    // No way up.
    Row {
        closed: &[0x0301, 0x0024],
        profile: WHEELCHAIR,
        from: 0x0041,
        to: 0x0042,
        found: Wanted::Cut(LOWER),
    },
    // The stairs stay.
    Row {
        closed: &[0x0301, 0x0024],
        profile: WALK,
        from: 0x0041,
        to: 0x0042,
        found: Wanted::Route(8_683, &[0x0305, 0x0300, 0x0022, 0x0400]),
    },
    // Nowhere from a closed room.
    Row {
        closed: &[0x0305],
        profile: WALK,
        from: 0x0041,
        to: 0x0041,
        found: Wanted::Route(0, &[]),
    },
    // Out of a closed room.
    Row {
        closed: &[0x0305],
        profile: WALK,
        from: 0x0041,
        to: 0x0105,
        found: Wanted::Cut(&[0x0041]),
    },
    // Down the escalator.
    Row {
        closed: &[],
        profile: WALK,
        from: 0x0103,
        to: 0x0203,
        found: Wanted::Route(800, &[0x0023]),
    },
    // Not up it.
    Row {
        closed: &[],
        profile: WALK,
        from: 0x0203,
        to: 0x0103,
        found: Wanted::Route(3_500, &[0x0400, 0x0022, 0x0300]),
    },
    // Out of what a wheelchair can't pass.
    Row {
        closed: &[],
        profile: WHEELCHAIR,
        from: 0x0107,
        to: 0x0031,
        found: Wanted::Cut(&[0x0107]),
    },
    // To where a wheelchair can't go.
    Row {
        closed: &[],
        profile: WHEELCHAIR,
        from: 0x0041,
        to: 0x0302,
        found: Wanted::Cut(BOTH),
    },
    // From an occupant.
    Row {
        closed: &[],
        profile: WHEELCHAIR,
        from: 0x0051,
        to: 0x0052,
        found: Wanted::Route(9_040, &[0x0305, 0x0300, 0x0301, 0x0021, 0x0401, 0x0400]),
    },
    // To a closed place.
    Row {
        closed: &[0x0201],
        profile: WHEELCHAIR,
        from: 0x0041,
        to: 0x0042,
        found: Wanted::Route(14_023, &[0x0305, 0x0300, 0x0024, 0x0400]),
    },
];
