//! A journal read from the front: nothing is written.

ghost use Rattle.std.specs.Prelude.{◌≡◌, ◌<◌, ◌≤◌, ◌+◌, ◌^◌, [], length, IfOk, IfErr, OnOk, OnErr};
ghost use Rattle.venue_ports.specs.Causes.{HasExactCause};
ghost use Rattle.venue_ports.specs.Files.{HasReadCause};
ghost use Rattle.venue_ports.specs.Moments.{Now};
ghost use Rattle.change_journal.specs.Forms.{AreKeptSlots, IsEndWithin};
ghost use Rattle.change_journal.specs.Looks.{Gives, Looks, Spans, given};
ghost use Rattle.change_journal.specs.Places.{IsRecordAt};
ghost use Rattle.change_journal.specs.Readers.{CountsRead, HasOnlyRead, IsFoundAt, IsRecordWithin, IsSettled, IsSkippedAt, IsSkippedWithin};

use crate::found::{Found, Skipped};
use crate::heads::{Lead, lead_at, skipped_of};
use crate::records::{published_at, skipped_at};
use crate::window::Window;
use std::alloc::Global;
use std::marker::Model;
use venue_ports::{Disk, Failed, ReadFault};

/// A disk that isn't read, since memory ran out or it failed. It comes back.
#[derive(Drop)]
pub struct Unread<K: Disk> {
    pub disk: K,
    pub fault: ReadFault,
}

/// A disk, how many bytes it has, and the part of them that was read last, of 64 KiB at most.
#[derive(Drop)]
pub struct Reader<K: Disk> {
    disk: K,
    length: u64,
    window: Window,
}

impl<K: Disk> Model for Reader<K> {
    ghost use Rattle.change_journal.specs.Looks.{IsOpened};
    ghost use Rattle.change_journal.specs.Readers.{Opened};

    ghost Value = { Opened K };

    ghost view = { λ r. record { disk = r.disk; length = r.length } };

    ghost invariant = { λ r. IsOpened (K.moments r.disk) r.length r.window.start r.window.held r.window.bytes.items };
}

// Keeps what a read gives, and learns how many bytes that is.
fn settle<K: Disk>(disk: &mut K) -> Result<u64, Failed>
    ensures settled { OnOk result (Now IsSettled (K.moments disk.new)) }
    ensures length { IfOk result (λ n. Now (λ m. n ≡ length m.reads) (K.moments disk.new)) }
    ensures only { HasOnlyRead (K.moments disk.old) (K.moments disk.new) }
    ensures told { OnOk result (K.moments disk.new ≡ [] → K.moments disk.old ≡ []) }
    ensures cause { HasExactCause (K.faults disk.old) (K.faults disk.new) result }
{
    disk.sync()?;
    disk.len()
}

impl<K: Disk> Reader<K> {
    /// Keeps what a read of the disk gives by a sync, since that may not be on the disk yet, and learns how many bytes there are.
    pub fn open(alloc: Global, mut disk: K) -> Result<Reader<K>, Unread<K>>
        ensures settled { IfOk result (λ r. Now IsSettled (K.moments r.disk)) }
        ensures length { IfOk result (λ r. Now (λ m. r.length ≡ length m.reads) (K.moments r.disk)) }
        ensures ok { IfOk result (λ r. HasOnlyRead (K.moments disk) (K.moments r.disk)) }
        ensures told { IfOk result (λ r. K.moments r.disk ≡ [] → K.moments disk ≡ []) }
        ensures kept { IfOk result (λ r. K.faults r.disk ≡ K.faults disk) }
        ensures err { IfErr result (λ u. HasOnlyRead (K.moments disk) (K.moments u.disk)) }
        ensures cause { IfErr result (λ u. CountsRead (K.faults disk) (K.faults u.disk) u.fault) }
    {
        let Ok(window) = Window::new(alloc) else {
            return Err(Unread {
                disk,
                fault: ReadFault::OutOfMemory,
            });
        };
        let Ok(length) = settle(&mut disk) else {
            return Err(Unread {
                disk,
                fault: ReadFault::Failed,
            });
        };
        Ok(Reader {
            disk,
            length,
            window,
        })
    }

    /// How many bytes the disk has.
    pub fn len(&self) -> u64
        ensures { result ≡ self.now.length }
    {
        self.length
    }

    /// What stands at a place, with all that a record has: of a publication its files.
    pub fn read_at(&mut self, alloc: Global, place: u64) -> Result<Found, ReadFault>
        requires within { place < self.old.length }
        ensures found { IfOk result (λ found. Now (λ m. IsFoundAt place found m.reads) (K.moments self.old.disk)) }
        ensures next { IfOk result (λ found. IsRecordWithin place self.old.length found) }
        ensures only { HasOnlyRead (K.moments self.old.disk) (K.moments self.new.disk) }
        ensures told { OnOk result (K.moments self.new.disk ≡ [] → K.moments self.old.disk ≡ []) }
        ensures settled { Now IsSettled (K.moments self.new.disk) }
        ensures same { self.new.length ≡ self.old.length }
        ensures cause { HasReadCause (K.faults self.old.disk) (K.faults self.new.disk) result }
    {
        let Ok(lead) = lead_at(self, place) else {
            return Err(ReadFault::Failed);
        };
        match lead {
            Lead::Found(found) => Ok(found),
            Lead::Published(worker) => published_at(alloc, self, place, worker),
        }
    }

    /// What stands at a place, without the content of a record. Takes no memory.
    pub fn skip_at(&mut self, place: u64) -> Result<Skipped, Failed>
        requires within { place < self.old.length }
        ensures skipped { IfOk result (λ skipped. Now (λ m. IsSkippedAt place skipped m.reads) (K.moments self.old.disk)) }
        ensures next { IfOk result (λ skipped. IsSkippedWithin place self.old.length skipped) }
        ensures only { HasOnlyRead (K.moments self.old.disk) (K.moments self.new.disk) }
        ensures told { OnOk result (K.moments self.new.disk ≡ [] → K.moments self.old.disk ≡ []) }
        ensures settled { Now IsSettled (K.moments self.new.disk) }
        ensures same { self.new.length ≡ self.old.length }
        ensures cause { HasExactCause (K.faults self.old.disk) (K.faults self.new.disk) result }
    {
        match lead_at(self, place)? {
            Lead::Found(found) => Ok(skipped_of(&found)),
            Lead::Published(worker) => skipped_at(self, place, worker),
        }
    }

    /// How many bytes the disk has, and reads.
    pub(crate) fn end(&self) -> u64
        ensures end { result ≡ self.now.length }
        ensures told { Gives (K.moments self.now.disk) (λ bytes. result ≡ length bytes) }
        ensures settled { Now IsSettled (K.moments self.now.disk) }
    {
        self.length
    }

    /// Fills a buffer of at most 64 KiB with the bytes from a place on, through the window.
    pub(crate) fn fetch(&mut self, place: u64, buf: &mut [u8]) -> Result<(), Failed>
        requires few { length buf.old ≤ 65536 }
        requires within { place + length buf.old ≤ self.old.length }
        ensures most { self.old.length < 2 ^ 64 }
        ensures size { length buf.new ≡ length buf.old }
        ensures bytes { OnOk result (Gives (K.moments self.old.disk) (Spans place (place + length buf.old) buf.new)) }
        ensures kept { Now IsSettled (K.moments self.old.disk) }
        ensures looks { Looks (K.moments self.old.disk) (K.moments self.new.disk) }
        ensures told { OnOk result (given (K.moments self.new.disk) ≡ given (K.moments self.old.disk)) }
        ensures same { self.new.length ≡ self.old.length }
        ensures cause { HasExactCause (K.faults self.old.disk) (K.faults self.new.disk) result }
    {
        self.window
            .reach(&mut self.disk, self.length, place, buf.len())?;
        self.window.copy(place, buf);
        Ok(())
    }

    /// Fills a buffer with the bytes from a place on, straight from the disk.
    pub(crate) fn fill(&mut self, place: u64, buf: &mut [u8]) -> Result<(), Failed>
        requires within { place + length buf.old ≤ self.old.length }
        ensures size { length buf.new ≡ length buf.old }
        ensures bytes { OnOk result (Gives (K.moments self.old.disk) (Spans place (place + length buf.old) buf.new)) }
        ensures looks { Looks (K.moments self.old.disk) (K.moments self.new.disk) }
        ensures told { OnOk result (given (K.moments self.new.disk) ≡ given (K.moments self.old.disk)) }
        ensures same { self.new.length ≡ self.old.length }
        ensures cause { HasExactCause (K.faults self.old.disk) (K.faults self.new.disk) result }
    {
        self.disk.read(place, buf)
    }

    /// The disk.
    pub fn into_disk(self) -> K
        ensures { result ≡ self.disk }
    {
        let Self { disk, .. } = self;
        disk
    }
}
