//! A kept history replayed: a version in the making, beside the stamp of its entries.

ghost use Rattle.std.specs.Prelude.{◌≡◌, [], ◌∷◌, IfOk, OnErr};
ghost use Rattle.std.specs.Arc.{arc_value};
ghost use Rattle.venue_state.specs.Act.TheVariants.{Published};
ghost use Rattle.venue_state.specs.Histories.{Replays};
ghost use Rattle.venue_state.specs.Replaying.{IsClosureAct};
ghost use Rattle.board_copies.specs.Leading.{LeadsTo};
ghost use Rattle.board_copies.specs.Stamps.{entries_of};

use crate::held::Held;
use crate::roll::Roll;
use crate::stamp::Stamp;
use std::alloc::Global;
use std::sync::Arc;
use venue_state::{Act, Entry, Outgoing, Replaying, Venue, entry_law, every_venue, following_law};
use venue_types::{OutOfMemory, Settings};

/// A history that is being replayed: the version to which its entries lead, their stamp, and the book in which they have their number.
#[derive(Drop)]
pub struct Resuming {
    pub version: Replaying,
    pub stamp: Stamp,
    pub roll: Roll,
    ghost stands: { Replays (entries_of stamp) version },
    ghost book: { stamp.seen.book ≡ roll.seen.book },
}

/// The same of which the last version's venue is let go: only a publication goes on from here.
#[derive(Drop)]
pub struct Awaiting {
    pub left: Outgoing,
    pub stamp: Stamp,
    pub roll: Roll,
    ghost stands: { ∥ LeadsTo (entries_of stamp) left ∥₁ },
    ghost book: { stamp.seen.book ≡ roll.seen.book },
}

/// The board to which a kept history leads, with the stamp of its entries, and the book in which they have their number.
#[derive(Drop)]
pub struct Resumed {
    pub held: Held,
    pub roll: Roll,
    ghost book: { held.stamp.seen.book ≡ roll.seen.book },
}

// The same act once more: it holds no more than an identifier and a set.
fn copied(act: &Act) -> Act
    requires { IsClosureAct act.now }
    ensures { result ≡ act.now }
{
    match act {
        Act::Published(_) => unreachable!(),
        Act::Closed(it) => Act::Closed(*it),
        Act::Reopened(it) => Act::Reopened(*it),
    }
}

impl Resuming {
    ghost use Rattle.board_copies.specs.Resumes.{Enters};

    /// The history that a venue opens, in a book of its own.
    pub fn first(
        alloc: Global,
        settings: Arc<Settings>,
        venue: Arc<Venue>,
    ) -> Result<Resuming, OutOfMemory>
        requires { (arc_value venue).settings ≡ arc_value settings }
        ensures entries { IfOk result (λ r. entries_of r.stamp ≡ record { worker = 0; act = Published venue } ∷ []) }
        ensures settings { IfOk result (λ r. r.version.settings ≡ arc_value settings) }
    {
        every_venue(&venue);
        let version = Replaying::first(alloc, Arc::try_clone(&venue)?, settings)?;
        let act = Act::Published(venue);
        let mut roll = Roll::new();
        let stamp = roll
            .stamp(None, Entry { worker: 0, act })
            .ok_or(OutOfMemory)?;
        Ok(Resuming {
            version,
            stamp,
            roll,
        })
    }

    /// Makes a closure or a reopening by a worker where it may follow, in place, and tells whether it does. Takes no memory but a number of the book.
    pub fn step(&mut self, act: Act, worker: u8) -> Result<bool, OutOfMemory>
        requires { IsClosureAct act }
        ensures entered { IfOk result (λ is_made. Enters self.old (record { worker = worker; act = act }) is_made self.new) }
        ensures kept { OnErr result (entries_of self.new.stamp ≡ entries_of self.old.stamp) }
        ensures settings { self.new.version.settings ≡ self.old.version.settings }
    {
        entry_law();
        following_law();
        // The stamp comes first: once the entry is made, nothing may fail.
        let entry = Entry {
            worker,
            act: copied(&act),
        };
        let stamp = self
            .roll
            .stamp(Some(self.stamp.again()), entry)
            .ok_or(OutOfMemory)?;
        if !self.version.step(&act, worker) {
            return Ok(false);
        }
        self.stamp = stamp;
        Ok(true)
    }

    /// Lets the last version's venue go, so that only a publication goes on. Takes memory in proportion to what is closed.
    pub fn let_go(self, alloc: Global) -> Result<Awaiting, OutOfMemory>
        ensures entries { IfOk result (λ a. entries_of a.stamp ≡ entries_of self.stamp) }
        ensures settings { IfOk result (λ a. arc_value a.left.settings ≡ self.version.settings) }
    {
        let Resuming {
            version,
            stamp,
            roll,
        } = self;
        let left = version.let_go(alloc)?;
        Ok(Awaiting { left, stamp, roll })
    }

    /// The board to which the entries lead.
    pub fn finish(self, alloc: Global) -> Result<Resumed, OutOfMemory>
        ensures entries { IfOk result (λ resumed. entries_of resumed.held.stamp ≡ entries_of self.stamp) }
        ensures settings { IfOk result (λ resumed. resumed.held.board.settings ≡ self.version.settings) }
    {
        let Resuming {
            version,
            stamp,
            roll,
        } = self;
        let board = version.finish(alloc)?;
        Ok(Resumed {
            held: Held::new(board, stamp),
            roll,
        })
    }
}

impl Awaiting {
    ghost use Rattle.board_copies.specs.Resumes.{EntersBehind};

    /// Publishes a venue of the history's settings by a worker, where that may follow; else there is no longer history.
    pub fn publish(
        self,
        alloc: Global,
        venue: Arc<Venue>,
        worker: u8,
    ) -> Result<Option<Resuming>, OutOfMemory>
        requires { (arc_value venue).settings ≡ arc_value self.left.settings }
        ensures { IfOk result (EntersBehind (entries_of self.stamp) (arc_value self.left.settings) (record { worker = worker; act = Published venue })) }
    {
        entry_law();
        following_law();
        let Awaiting {
            left,
            stamp,
            mut roll,
        } = self;
        let copy = Arc::try_clone(&venue)?;
        let act = Act::Published(venue);
        let stamp = roll
            .stamp(Some(stamp), Entry { worker, act })
            .ok_or(OutOfMemory)?;
        let Some(version) = left.publish(alloc, copy, worker)? else {
            return Ok(None);
        };
        Ok(Some(Resuming {
            version,
            stamp,
            roll,
        }))
    }
}
