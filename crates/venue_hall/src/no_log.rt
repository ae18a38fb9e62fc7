//! A hall whose changes are kept nowhere.

ghost use Rattle.std.specs.Prelude.{◌≡◌, ◌+◌, ◌^◌, ◌<◌, None, IsOk};

use crate::records::{Log, Record};
use venue_ports::Failed;

/// A log that only counts.
#[derive(Drop)]
pub struct NoLog {
    pub count: u64,
}

impl Log for NoLog {
    ghost length = { λ log. log.count };

    ghost records = { λ _. None };

    ghost faults = { λ _. 0 };

    fn fault_count(&self) -> u64 {
        0
    }

    fn append(&mut self, _entry: &Record<'_>) -> Result<(), Failed>
        requires room { self.old.count < 2 ^ 32 }
        ensures ok { IsOk result }
        ensures one_more { self.new.count ≡ self.old.count + 1 }
    {
        self.count += 1;
        Ok(())
    }
}
