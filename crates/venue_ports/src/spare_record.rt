//! The record that no disk in memory has yet.

ghost use Rattle.std.specs.Prelude.{◌≡◌, ◌↔◌, [], ◌∷◌, Some, None, IfOk, IfSome, IsNone, OnSome};
ghost use Rattle.venue_ports.specs.DiskCalls.{LacksRoom, first_moment, opened_record, record_moments, unused};

use crate::disk_calls::CallRecord;
use crate::memory::OutOfMemory;
use std::alloc::Global;
use std::marker::Model;

/// A record without content and without calls, until a disk takes it.
#[derive(Drop)]
pub(crate) struct SpareRecord {
    calls: Option<CallRecord>,
}

impl Model for SpareRecord {
    ghost use Rattle.std.specs.Prelude.{Option};
    ghost use Rattle.venue_ports.specs.DiskCalls.{DiskRecord, IsUnused};

    ghost Value = { Option DiskRecord };

    ghost view = { λ s. s.calls };

    ghost invariant = { λ s. IsUnused s.calls };
}

impl SpareRecord {
    /// A record with room for so many bytes and calls.
    pub(crate) fn new(alloc: Global, room: usize, most: usize) -> Result<SpareRecord, OutOfMemory>
        ensures { IfOk result (λ s. s ≡ Some (unused room most)) }
    {
        let calls = CallRecord::new(alloc, room, most)?;
        Ok(SpareRecord { calls: Some(calls) })
    }

    /// Hands the record to a disk over these bytes, where it is still there and has room for them.
    pub(crate) fn take(&mut self, first: &[u8]) -> Option<CallRecord>
        ensures none { IsNone result ↔ LacksRoom self.old (Some first.now) }
        ensures some { OnSome result (result ≡ opened_record self.old (Some first.now)) }
        ensures taken { OnSome result (self.new ≡ None) }
        ensures kept { IsNone result → self.new ≡ self.old }
        ensures told { IfSome result (λ r. record_moments r ≡ first_moment first.now ∷ []) }
    {
        let mut calls = self.calls.take()?;
        if calls.left() < first.len() {
            self.calls = Some(calls);
            return None;
        }
        calls.begin(first);
        Some(calls)
    }
}
