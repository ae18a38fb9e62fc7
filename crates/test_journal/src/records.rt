//! The records of the tables, and their texts, each byte as the format of a journal has it.

use venue_hall::Record;
use venue_types::FeatureId;

/// The lift of the station.
pub(crate) const LIFT: FeatureId = FeatureId(0x4000_8000_0000_0000_0301);

/// The text of `closing`.
pub(crate) const CLOSING: [u8; 21] = [
    1, 2, 1, 0, 0, 0, 0, 0, 0, 0x40, 0, 0x80, 0, 0, 0, 0, 0, 3, 1, 0, 3,
];

/// The text of `reopening`.
pub(crate) const REOPENING: [u8; 21] = [
    1, 3, 2, 0, 0, 0, 0, 0, 0, 0x40, 0, 0x80, 0, 0, 0, 0, 0, 3, 1, 0, 2,
];

/// A record, and its text with the open gate in front of it.
#[derive(Clone, Copy)]
pub(crate) struct Entry<'a> {
    pub(crate) record: Record<'a>,
    pub(crate) text: &'a [u8],
}

/// Worker 1 closes the lift for both profiles.
pub(crate) fn closing() -> Entry<'static> {
    Entry {
        record: Record::Closed {
            worker: 1,
            feature: LIFT,
            profiles: 3,
        },
        text: &CLOSING,
    }
}

/// Worker 2 opens it again for profile 1.
pub(crate) fn reopening() -> Entry<'static> {
    Entry {
        record: Record::Reopened {
            worker: 2,
            feature: LIFT,
            profiles: 2,
        },
        text: &REOPENING,
    }
}
