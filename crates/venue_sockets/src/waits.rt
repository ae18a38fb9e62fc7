//! How long a link has waited for the other side.

ghost use Rattle.std.specs.Prelude.{◌≡◌, ◌≤◌, ◌↔◌, IsTrue};
ghost use Rattle.std.specs.Duration.{as_nanos, max_nanos};
ghost use Rattle.venue_ports.specs.Waits.{Waits, after_read, after_write, no_waits};
ghost use Rattle.venue_sockets.specs.declared.limits.Awaited.TheVariants.{Bytes, Room};
ghost use Rattle.venue_sockets.specs.declared.limits.Behind.TheVariants.{Nobody};
ghost use Rattle.venue_sockets.specs.Limits.{most_nanos};

use crate::limits::{Awaited, Behind, most};
use std::marker::Model;
use std::time::Duration;

/// The two clocks of a link, which add up what was waited inside the calls. Where nobody waits behind, their limits are those of
/// any link.
#[derive(Drop)]
pub(crate) struct Waiting {
    reading: Duration,
    writing: Duration,
}

impl Model for Waiting {
    ghost Value = { Waits };

    ghost view = { λ w. record { reading = as_nanos w.reading; writing = as_nanos w.writing; patience = most_nanos Bytes Nobody; delivery = most_nanos Room Nobody } };

    ghost invariant = { λ w. (as_nanos w.reading ≤ max_nanos) × (as_nanos w.writing ≤ max_nanos) };
}

impl Waiting {
    /// Nothing was waited.
    pub(crate) fn new() -> Waiting
        ensures { result ≡ no_waits (most_nanos Bytes Nobody) (most_nanos Room Nobody) }
    {
        Waiting {
            reading: Duration::ZERO,
            writing: Duration::ZERO,
        }
    }

    /// What was waited in reads since the accept or the last write.
    pub(crate) fn reading(&self) -> Duration
        ensures { as_nanos result ≡ self.now.reading }
    {
        self.reading
    }

    /// What was waited in writes since the last read that gave bytes.
    pub(crate) fn writing(&self) -> Duration
        ensures { as_nanos result ≡ self.now.writing }
    {
        self.writing
    }

    /// Whether the reads are within their limit.
    pub(crate) fn may_read(&self) -> bool
        ensures { IsTrue result ↔ (self.now.reading ≤ self.now.patience) }
    {
        self.reading.as_nanos() <= most(Awaited::Bytes, Behind::Nobody).as_nanos()
    }

    /// Whether the writes are within their limit.
    pub(crate) fn may_write(&self) -> bool
        ensures { IsTrue result ↔ (self.now.writing ≤ self.now.delivery) }
    {
        self.writing.as_nanos() <= most(Awaited::Room, Behind::Nobody).as_nanos()
    }

    /// A read that has waited so long, and whether it gave bytes.
    pub(crate) fn was_read(&mut self, waited: Duration, gave: bool)
        ensures waits { self.new ≡ after_read self.old (as_nanos waited) gave }
        ensures later { self.old.reading ≤ self.new.reading }
    {
        self.reading = self.reading.saturating_add(waited);
        if gave {
            self.writing = Duration::ZERO;
        }
    }

    /// A write that has waited so long, and whether it took bytes.
    pub(crate) fn was_written(&mut self, waited: Duration, took: bool)
        ensures waits { self.new ≡ after_write self.old (as_nanos waited) took }
        ensures later { self.old.writing ≤ self.new.writing }
    {
        self.writing = self.writing.saturating_add(waited);
        if took {
            self.reading = Duration::ZERO;
        }
    }
}
