//! The book of the lists that somebody means to publish, as one thread has it.

ghost use Rattle.std.specs.Prelude.{◌≡◌, ◌≢◌, ◌≤◌, ◌^◌, ◌⊎◌, length, IfNone, IfSome};
ghost use Rattle.board_copies.specs.Lists.{head_of};

use crate::counter::{Adding, Counting, Nothing, Tried};
use crate::stamp::Stamp;
use logbook::{Offer, Plain, Seen, Start, Word};
use venue_state::Entry;

/// The book, with all that was written into it. It has room for 2^62 lists, and keeps none of them.
#[derive(Drop)]
pub struct Roll {
    head: Word<Tried, u64, Counting>,
    pub seen: Seen<Tried, u64, Counting>,
    count: u64,
    ghost head_is: { head ≡ head_of seen.book },
    ghost counted: { count ≡ length seen.log },
}

/// The list that is to be added: that of an earlier stamp, or none, and one entry more.
#[derive(Drop)]
pub(crate) struct Longer {
    pub after: Option<Stamp>,
    pub entry: Entry,
}

impl Plain<Longer, Tried, u64> for Adding {
    ghost use Rattle.std.specs.Prelude.{None, [], ◌∷◌, ◌++◌};
    ghost use Rattle.board_copies.specs.Stamps.{entries_before};

    ghost ask = { λ l. record { list = entries_before l.after ++ l.entry ∷ [] } };

    ghost state = { λ l. None };
}

impl Roll {
    ghost use Rattle.std.specs.Prelude.{[], ◌∷◌, ◌++◌};
    ghost use Rattle.board_copies.specs.Stamps.{entries_of, entries_before};

    /// A new book, which is empty. Takes no memory.
    pub fn new() -> Roll {
        let (seen, mut first, _second) = Seen::open(Start::alone(), 0, 0);
        Roll {
            head: Word::tracked(0, &mut first),
            seen,
            count: 0,
        }
    }

    /// A stamp for the list of `after`, or none, with this entry more: the list is written into the book by one exchange, without memory.
    /// None once 2^62 lists are in the book, which callers answer as want of memory. An attempt whose list is never published has used
    /// up its number.
    #[tactic(auto, using(crate::proofs::Fronts::listed_last))]
    pub fn stamp(&mut self, after: Option<Stamp>, entry: Entry) -> Option<Stamp>
        ensures book { self.new.seen.book ≡ self.old.seen.book }
        ensures stamp { IfSome result (λ stamp. entries_of stamp ≡ entries_before after ++ entry ∷ []) }
        ensures known { IfSome result (λ stamp. stamp.seen.book ≡ self.old.seen.book) }
        ensures none { IfNone result ((2 ^ 62 ≤ length self.old.seen.log) ⊎ (length self.new.seen.log ≢ length self.old.seen.log)) }
    {
        let count = self.count;
        if count >= 1 << 62 {
            return None;
        }
        let longer = Longer { after, entry };
        let mut offer: Offer<Tried, u64, Counting, Nothing> = self
            .seen
            .plain::<Nothing, Longer, Adding>(&longer);
        let mut pen = self.seen.no_pen();
        let found = self
            .head
            .compare_exchange::<Adding, Nothing>(
                count,
                count + 1,
                &mut self.seen,
                &mut offer,
                &mut pen,
            );
        if found != count {
            self.count = found;
            return None;
        }
        self.count = count + 1;
        Some(Stamp::new(count, self.seen.again()))
    }
}
