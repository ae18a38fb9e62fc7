//! What keeps accepted changes beyond the program's end.

ghost use Rattle.std.specs.Prelude.{◌≡◌, ℕ, ◌+◌, ◌^◌, ◌<◌, List, [], ◌∷◌, ◌++◌, Option, OnOk, OnErr};
ghost use Rattle.std.specs.Option.{option_map};
ghost use Rattle.venue_ports.specs.Causes.{HasExactCause};
ghost use Rattle.venue_hall.specs.Logging.{logged};
ghost use Rattle.venue_hall.specs.Records.{Logged, IsLoggable, AreCounted, AreKept};

use venue_ports::Failed;
use venue_types::{FeatureId, Files};

/// An accepted change, as a log keeps it. In a set of profiles bit k stands for profile number k.
#[derive(Clone, Copy)]
pub enum Record<'a> {
    /// A folder was published: its seventeen files, of at most 33,554,432 bytes each.
    Published {
        worker: u8,
        files: &'a Files,
    },
    /// A feature was closed for some profiles.
    Closed {
        worker: u8,
        feature: FeatureId,
        profiles: u16,
    },
    /// A feature was opened again for some profiles.
    Reopened {
        worker: u8,
        feature: FeatureId,
        profiles: u16,
    },
}

/// Keeps accepted changes, in order.
pub trait Log {
    /// How many records there are.
    ghost length: { Self → ℕ };

    /// The records, where they are told. A log may cease to tell them at an append that failed.
    ghost records: { Self → Option (List Logged) };

    /// How often an append has failed.
    ghost faults: { Self → ℕ };

    /// The count of failures, which never falls and stands still at the type's end.
    fn fault_count(&self) -> u64
        ensures faults { result ≡ faults self.now }
        ensures counted { AreCounted (records self.now) (length self.now) };

    /// Keeps a record behind all others, or none at an error. Takes no memory.
    fn append(&mut self, entry: &Record<'_>) -> Result<(), Failed>
        requires room { length self.old < 2 ^ 32 }
        requires loggable { IsLoggable (logged entry.now) }
        ensures one_more { OnOk result (length self.new ≡ length self.old + 1) }
        ensures appended { OnOk result (records self.new ≡ option_map (λ front. front ++ logged entry.now ∷ []) (records self.old)) }
        ensures as_many { OnErr result (length self.new ≡ length self.old) }
        ensures kept { OnErr result (AreKept (records self.old) (records self.new)) }
        ensures counted { AreCounted (records self.new) (length self.new) }
        ensures cause { HasExactCause (faults self.old) (faults self.new) result };
}
