//! What is changed in the station, and what its graph then is.

use test_station::{AMENITY, Edit, OPENING, RELATIONSHIP, UNIT};
use venue_types::Kind;

/// A link by a relationship: where it starts and ends, what it goes by, its cost and its kind.
pub type Passage = (u128, u128, u128, u32, Kind);

/// A changed station, and its links.
pub struct Row {
    pub edits: &'static [Edit],
    /// How many links there are.
    pub listed: usize,
    /// The cost of the first, from node 0 to node 3.
    pub first: u32,
    /// For some places how many links start there.
    pub out: &'static [(u128, u32)],
    /// For some features how many links go by them.
    pub by: &'static [(u128, usize)],
    /// The last links of all.
    pub passages: &'static [Passage],
}

const PASSAGES: [Passage; 7] = [
    (0x0301, 0x0401, 0x0021, 3_000, Kind::Elevator),
    (0x0401, 0x0301, 0x0021, 3_000, Kind::Elevator),
    (0x0102, 0x0202, 0x0022, 1_500, Kind::Stairs),
    (0x0202, 0x0102, 0x0022, 1_500, Kind::Stairs),
    (0x0103, 0x0203, 0x0023, 800, Kind::Escalator),
    (0x0104, 0x0204, 0x0024, 2_000, Kind::Ramp),
    (0x0204, 0x0104, 0x0024, 2_000, Kind::Ramp),
];

pub static ROWS: [Row; 5] = [
    // The station.
    Row {
        edits: &[],
        listed: 243,
        first: 1_700,
        out: &[
            (0x0031, 13),
            (0x0041, 2),
            (0x0042, 5),
            (0x0101, 14),
            (0x0102, 15),
            (0x0103, 15),
            (0x0105, 15),
            (0x0106, 14),
            (0x0203, 6),
            (0x0202, 7),
            (0x0300, 13),
            (0x0301, 2),
            (0x0302, 1),
            (0x0401, 2),
        ],
        by: &[
            (0x0300, 182),
            (0x0301, 2),
            (0x0302, 2),
            (0x0303, 2),
            (0x0304, 2),
            (0x0305, 6),
            (0x0306, 2),
            (0x0307, 0),
            (0x0400, 30),
            (0x0401, 2),
            (0x0402, 2),
            (0x0403, 2),
            (0x0404, 2),
            (0x0101, 0),
        ],
        passages: &PASSAGES,
    },
    // An opening of three units.
    Row {
        edits: &[
            (
                UNIT,
                "@0306",
                "(40,0),(60,0),(60,10),(40,10),(40,0)",
                "(30,0),(60,0),(60,10),(30,10),(30,0)",
            ),
            (
                OPENING,
                "@0106",
                "(49,10),(51,10)",
                "[10.0002995,50.0001],[10.0003005,50.0001]",
            ),
        ],
        listed: 249,
        first: 1_700,
        out: &[(0x0106, 17), (0x0105, 16), (0x0306, 1)],
        by: &[(0x0300, 182), (0x0305, 12), (0x0306, 2)],
        passages: &PASSAGES,
    },
    // A chain with a level in it, to an occupant.
    Row {
        edits: &[(
            RELATIONSHIP,
            "@0102",
            "'destination':{'id':'@0202','feature_type':'opening'}",
            "'intermediary':[{'id':'@0010','feature_type':'level'},{'id':'@0202','feature_type':'opening'}],'destination':{'id':'@0051','feature_type':'occupant'}",
        )],
        listed: 245,
        first: 1_700,
        out: &[(0x0102, 15), (0x0202, 8), (0x0041, 3), (0x0051, 3)],
        by: &[(0x0022, 4)],
        passages: &[
            (0x0102, 0x0202, 0x0022, 1_500, Kind::Stairs),
            (0x0202, 0x0102, 0x0022, 1_500, Kind::Stairs),
            (0x0202, 0x0041, 0x0022, 5_619, Kind::Stairs),
            (0x0041, 0x0202, 0x0022, 5_619, Kind::Stairs),
            (0x0103, 0x0203, 0x0023, 800, Kind::Escalator),
            (0x0104, 0x0204, 0x0024, 2_000, Kind::Ramp),
            (0x0204, 0x0104, 0x0024, 2_000, Kind::Ramp),
        ],
    },
    // An amenity of two units.
    Row {
        edits: &[
            (AMENITY, "@0031", "(30,25)", "(25,10)"),
            (AMENITY, "@0031", "'@0300'", "'@0300','@0305'"),
        ],
        listed: 249,
        first: 3_015,
        out: &[(0x0031, 16), (0x0105, 16)],
        by: &[(0x0300, 182), (0x0305, 12)],
        passages: &PASSAGES,
    },
    // An amenity that names its unit twice.
    Row {
        edits: &[(AMENITY, "@0031", "'@0300'", "'@0300','@0300'")],
        listed: 243,
        first: 1_700,
        out: &[(0x0031, 13)],
        by: &[(0x0300, 182)],
        passages: &PASSAGES,
    },
];
