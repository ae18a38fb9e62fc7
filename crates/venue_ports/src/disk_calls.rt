//! The record of the calls on a disk in memory.

ghost use Rattle.std.specs.Prelude.{◌≡◌, ◌≢◌, ◌+◌, ◌≤◌, [], IfOk, IsOk, take, drop, length, vec_len, true, false};
ghost use Rattle.std.specs.Vec.{vec_capacity};
ghost use Rattle.venue_ports.specs.declared.disk_calls.DiskCallKind.TheVariants.{Write};

use crate::memory::OutOfMemory;
use crate::room::Room;
use std::alloc::Global;
use std::marker::Model;

/// What a call on a disk was.
#[derive(Clone, Copy, PartialEq, Eq)]
pub enum DiskCallKind {
    Len,
    Read,
    Write,
    Sync,
}

/// A call on a disk, and how it ended.
#[derive(Clone, Copy)]
pub struct DiskCall {
    pub kind: DiskCallKind,
    /// The place of the first byte of a read or a write, else 0.
    pub at: u64,
    /// How many bytes a read or a write was to move, else 0.
    pub count: usize,
    /// How many bytes a write put, also one that failed.
    pub put: usize,
    pub failed: bool,
}

/// The calls since a disk was opened, and its bytes. The memory is taken at once, so that no later call can lack it.
#[derive(Drop)]
pub(crate) struct CallRecord {
    bytes: Room,
    first: usize,
    reads: Room,
    calls: Vec<DiskCall>,
    most: usize,
    ended: bool,
}

impl Model for CallRecord {
    ghost use Rattle.std.specs.Prelude.{◌≡◌, ◌≤◌, length};
    ghost use Rattle.std.specs.Vec.{vec_capacity};
    ghost use Rattle.venue_ports.specs.DiskCalls.{DiskRecord, IsKept, record_of};

    ghost Value = { DiskRecord };

    ghost view = { λ r. record_of r.first r.bytes r.calls.items r.most r.ended };

    ghost invariant = { λ r. (r.first ≤ length r.bytes.bytes) × (r.reads.room ≡ r.bytes.room) × (r.most ≤ vec_capacity r.calls)
        × IsKept (record_of r.first r.bytes r.calls.items r.most r.ended) r.reads.bytes };
}

impl CallRecord {
    ghost use Rattle.venue_ports.specs.DiskCalls.{noted, noted_moments, record_moments, content_of, is_full, bytes_left, unused};
    ghost use Rattle.venue_ports.specs.Moments.{Now};

    /// The record of a disk without content, with room for so many bytes and calls.
    pub(crate) fn new(alloc: Global, room: usize, most: usize) -> Result<CallRecord, OutOfMemory>
        ensures { IfOk result (λ r. r ≡ unused room most) }
    {
        Ok(CallRecord {
            bytes: Room::new(alloc, room)?,
            first: 0,
            reads: Room::new(alloc, room)?,
            calls: Vec::with_capacity(alloc, most)?,
            most,
            ended: false,
        })
    }

    /// The same with this content, which has to fit.
    pub(crate) fn begin(&mut self, first: &[u8])
        requires empty { (self.old.first ≡ []) × (self.old.put ≡ []) × (self.old.calls ≡ []) }
        requires fits { length first.now ≤ self.old.room }
        ensures { self.new ≡ record self.old { first = first.now } }
    {
        self.bytes.append(first);
        self.reads.append(first);
        self.first = first.len();
    }

    /// The content that the disk had at first.
    pub(crate) fn first(&self) -> &[u8]
        ensures { result.now ≡ self.now.first }
    {
        &self.bytes.bytes()[..self.first]
    }

    /// The calls, the first one first.
    pub(crate) fn calls(&self) -> &[DiskCall]
        ensures { result.now ≡ self.now.calls }
    {
        &self.calls
    }

    /// The bytes that the calls put, one call after the other.
    pub(crate) fn put(&self) -> &[u8]
        ensures { result.now ≡ self.now.put }
    {
        &self.bytes.bytes()[self.first..]
    }

    /// What a read gives.
    pub(crate) fn content(&self) -> &[u8]
        ensures { result.now ≡ content_of self.now }
    {
        self.reads.bytes()
    }

    /// Whether there is no room for a call more.
    pub(crate) fn is_full(&self) -> bool
        ensures exact { result ≡ is_full self.now }
        ensures told { result ≡ false → self.now.ended ≡ false }
    {
        self.most <= self.calls.len()
    }

    /// How many bytes more may be put.
    pub(crate) fn left(&self) -> usize
        ensures { result ≡ bytes_left self.now }
    {
        self.bytes.left()
    }

    /// Records a call that puts nothing, or ends where there is no room for it.
    pub(crate) fn note(&mut self, call: DiskCall)
        requires nothing { (call.put ≡ 0) × (call.kind ≢ Write) }
        ensures noted { self.new ≡ noted call [] self.old }
        ensures moments { record_moments self.new ≡ noted_moments call [] self.old }
        ensures content { content_of self.new ≡ content_of self.old }
    {
        if self.is_full() {
            self.ended = true;
        } else {
            let _ = self.calls.push(call);
        }
    }

    /// Records a write that puts so many bytes of a piece, or ends where there is no room for the call.
    pub(crate) fn write(&mut self, call: DiskCall, piece: &[u8])
        requires write { call.kind ≡ Write }
        requires put { call.put ≤ length piece.now }
        requires fits { call.put ≤ bytes_left self.old }
        requires within { Now (λ m. call.at ≤ length m.reads) (record_moments self.old) }
        ensures noted { self.new ≡ noted call (take call.put piece.now) self.old }
        ensures moments { record_moments self.new ≡ noted_moments call (take call.put piece.now) self.old }
    {
        if self.is_full() {
            self.ended = true;
            return;
        }
        let put = &piece[..call.put];
        self.bytes.append(put);
        self.reads.put(call.at as usize, put);
        let _ = self.calls.push(call);
    }
}
