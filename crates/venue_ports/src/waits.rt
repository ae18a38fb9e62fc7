//! How long a link may wait for the other side.

ghost use Rattle.std.specs.Prelude.{◌≡◌, ◌≤◌, ◌↔◌, IsTrue};
ghost use Rattle.std.specs.Duration.{as_nanos, max_nanos};
ghost use Rattle.venue_ports.specs.Waits.{Waits, after_read, after_write, no_waits};

use std::marker::Model;
use std::time::Duration;

/// The two clocks of a link. They add up what was waited inside the calls, so that the time which is spent between two calls
/// is not laid to the other side. A call is judged when it is over: the one that goes past a limit still counts, and the next
/// one is past. So of reads of 9, 9, 9 and 9 seconds under a patience of 30 it is with the fourth that the limit is passed.
#[derive(Drop)]
pub(crate) struct Waiting {
    reading: Duration,
    writing: Duration,
    patience: Duration,
    delivery: Duration,
}

impl Model for Waiting {
    ghost Value = { Waits };

    ghost view = { λ w. record { reading = as_nanos w.reading; writing = as_nanos w.writing; patience = as_nanos w.patience; delivery = as_nanos w.delivery } };

    ghost invariant = { λ w. (as_nanos w.reading ≤ max_nanos) × (as_nanos w.writing ≤ max_nanos) };
}

impl Waiting {
    /// Nothing was waited. `patience` is the most for all reads since the last write, `delivery` the most for all writes since
    /// the last read that gave bytes.
    pub(crate) fn new(patience: Duration, delivery: Duration) -> Waiting
        ensures { result ≡ no_waits (as_nanos patience) (as_nanos delivery) }
    {
        Waiting {
            reading: Duration::ZERO,
            writing: Duration::ZERO,
            patience,
            delivery,
        }
    }

    /// Whether the reads are within their limit.
    pub(crate) fn may_read(&self) -> bool
        ensures { IsTrue result ↔ (self.now.reading ≤ self.now.patience) }
    {
        self.reading.as_nanos() <= self.patience.as_nanos()
    }

    /// Whether the writes are within their limit.
    pub(crate) fn may_write(&self) -> bool
        ensures { IsTrue result ↔ (self.now.writing ≤ self.now.delivery) }
    {
        self.writing.as_nanos() <= self.delivery.as_nanos()
    }

    /// A read that has waited so long, and whether it gave bytes.
    pub(crate) fn was_read(&mut self, waited: Duration, gave: bool)
        ensures waits { self.new ≡ after_read self.old (as_nanos waited) gave }
        ensures later { self.old.reading ≤ self.new.reading }
    {
        self.reading = self.reading.saturating_add(waited);
        if gave {
            self.writing = Duration::ZERO;
        }
    }

    /// A write that has waited so long, and whether it took bytes.
    pub(crate) fn was_written(&mut self, waited: Duration, took: bool)
        ensures waits { self.new ≡ after_write self.old (as_nanos waited) took }
        ensures later { self.old.writing ≤ self.new.writing }
    {
        self.writing = self.writing.saturating_add(waited);
        if took {
            self.reading = Duration::ZERO;
        }
    }
}
