//! What may go to another thread, each type by a function that only compiles where it may.

use crate::counter::{Counting, Tried};
use crate::held::Held;
use crate::keeper::Keeper;
use crate::roll::Roll;
use crate::rule::SideReader;
use crate::stamp::Stamp;
use logbook::{Seen, Word};

fn sent<T: Send>(_x: &T) {}

fn shared<T: Sync>(_x: &T) {}

pub(crate) fn sent_seen(one: &Seen<Tried, u64, Counting>) {
    sent(one);
    shared(one);
}

pub(crate) fn sent_word(one: &Word<Tried, u64, Counting>) {
    sent(one);
}

pub(crate) fn sent_stamp(one: &Stamp) {
    sent(one);
    shared(one);
}

pub(crate) fn sent_roll(one: &Roll) {
    sent(one);
}

pub(crate) fn sent_held(one: &Held) {
    sent(one);
    shared(one);
}

pub(crate) fn sent_reader(one: &SideReader) {
    sent(one);
}

pub(crate) fn sent_keeper(one: &Keeper) {
    sent(one);
}
