//! What a reader knows, in proofs alone.

use venue_state::Entry;

/// The entries that were seen; and, where it is `bound`, which book the copies' lists are in, by the three numbers of its name. No value
/// of it is made.
pub struct View {
    pub seen: [Entry; 0],
    pub bound: bool,
    pub number: u64,
    pub log_name: u64,
    pub cells_name: u64,
}
