//! Stamps: each stands for one list of entries, which no code keeps.

ghost use Rattle.std.specs.Prelude.{◌≡◌, ◌<◌, ◌↔◌, length, IsTrue};

use crate::counter::{Counting, Tried};
use logbook::Seen;

/// The number of a list in the book, with what was seen of the book. No other list has the number.
#[derive(Drop)]
pub struct Stamp {
    pub number: u64,
    pub seen: Seen<Tried, u64, Counting>,
    ghost within: { number < length seen.log },
}

impl Stamp {
    ghost use Rattle.board_copies.specs.Stamps.{entries_of};

    /// A stamp for the list with this number.
    pub(crate) fn new(number: u64, seen: Seen<Tried, u64, Counting>) -> Stamp
        requires { number < length seen.log }
        ensures number { result.number ≡ number }
        ensures seen { result.seen ≡ seen }
    {
        Stamp { number, seen }
    }

    /// A second stamp for the same list. Takes no memory.
    pub fn again(&self) -> Stamp
        ensures { result ≡ self.now }
    {
        Stamp {
            number: self.number,
            seen: self.seen.again(),
        }
    }

    /// Whether both have one number, and so stand for one list. With two numbers the lists may still be equal: a list has a number for
    /// each time that somebody meant to publish it.
    pub fn is_same(&self, other: &Stamp) -> bool
        requires { other.now.seen.book ≡ self.now.seen.book }
        ensures same { IsTrue result → entries_of self.now ≡ entries_of other.now }
        ensures number { IsTrue result ↔ (self.now.number ≡ other.now.number) }
    {
        let mut both = self.seen.again();
        both.learn(&other.seen);
        self.number == other.number
    }
}
