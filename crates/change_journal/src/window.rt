//! The part of a disk that was read last.

ghost use Rattle.std.specs.Prelude.{◌≡◌, ℕ, ◌+◌, ◌-◌, ◌≤◌, ◌<◌, ◌^◌, length, take, drop, IfOk, IsTrue, OnOk, OnErr};
ghost use Rattle.venue_ports.specs.Causes.{HasExactCause};
ghost use Rattle.venue_ports.specs.Moments.{Goes, GoesOrEnds, HasStayed, Now};
ghost use Rattle.change_journal.specs.Looks.{Gives, IsHere, IsOpened, Looks, given};

use std::alloc::{AllocError, Global};
use venue_ports::{Disk, Failed};

/// Room for 64 KiB, of which the first so many are a disk's bytes from a place on.
#[derive(Drop)]
pub(crate) struct Window {
    pub(crate) bytes: Vec<u8>,
    pub(crate) start: u64,
    pub(crate) held: usize,
}

// Reads the first so many bytes of a buffer.
fn read_front<K: Disk>(
    disk: &mut K,
    place: u64,
    bytes: &mut [u8],
    count: usize,
) -> Result<(), Failed>
    requires fits { count ≤ length bytes.old }
    requires within { Now (λ m. place + count ≤ length m.reads) (K.moments disk.old) }
    ensures size { length bytes.new ≡ length bytes.old }
    ensures front { OnOk result (Now (λ m. take count bytes.new ≡ take count (drop place m.reads)) (K.moments disk.old)) }
    ensures ok { OnOk result (Goes HasStayed (K.moments disk.old) (K.moments disk.new)) }
    ensures err { OnErr result (GoesOrEnds HasStayed (K.moments disk.old) (K.moments disk.new)) }
    ensures cause { HasExactCause (K.faults disk.old) (K.faults disk.new) result }
{
    disk.read(place, &mut bytes[..count])
}

impl Window {
    /// The window without a byte.
    pub(crate) fn new(alloc: Global) -> Result<Window, AllocError>
        ensures none { IfOk result (λ w. w.held ≡ 0) }
        ensures front { IfOk result (λ w. w.start ≡ 0) }
        ensures size { IfOk result (λ w. length w.bytes.items ≡ 65536) }
    {
        let bytes = vec![in alloc; 0_u8; 65_536]?;
        Ok(Window {
            bytes,
            start: 0,
            held: 0,
        })
    }

    // Whether so many bytes from a place on are here.
    fn has(&self, place: u64, count: usize) -> bool
        requires few { place + count < 2 ^ 64 }
        requires fits { self.now.start + self.now.held < 2 ^ 64 }
        ensures { IsTrue result → IsHere self.now.start self.now.held place count }
    {
        self.start <= place && place + count as u64 <= self.start + self.held as u64
    }

    // Reads as much from a place on as the window holds.
    fn refill<K: Disk>(&mut self, disk: &mut K, end: u64, place: u64) -> Result<(), Failed>
        requires within { place ≤ end }
        requires opened { IsOpened (K.moments disk.old) end self.old.start self.old.held self.old.bytes.items }
        ensures opened { IsOpened (K.moments disk.new) end self.new.start self.new.held self.new.bytes.items }
        ensures here { OnOk result ((count : ℕ) → count ≤ 65536 → place + count ≤ end → IsHere self.new.start self.new.held place count) }
        ensures looks { Looks (K.moments disk.old) (K.moments disk.new) }
        ensures told { OnOk result (given (K.moments disk.new) ≡ given (K.moments disk.old)) }
        ensures cause { HasExactCause (K.faults disk.old) (K.faults disk.new) result }
    {
        let count = (end - place).min(65_536) as usize;
        self.held = 0; // since a read that fails leaves any bytes
        read_front(disk, place, &mut self.bytes, count)?;
        self.start = place;
        self.held = count;
        Ok(())
    }

    /// Makes sure that so many bytes from a place on are here.
    pub(crate) fn reach<K: Disk>(
        &mut self,
        disk: &mut K,
        end: u64,
        place: u64,
        count: usize,
    ) -> Result<(), Failed>
        requires few { count ≤ 65536 }
        requires within { place + count ≤ end }
        requires opened { IsOpened (K.moments disk.old) end self.old.start self.old.held self.old.bytes.items }
        ensures opened { IsOpened (K.moments disk.new) end self.new.start self.new.held self.new.bytes.items }
        ensures here { OnOk result (IsHere self.new.start self.new.held place count) }
        ensures looks { Looks (K.moments disk.old) (K.moments disk.new) }
        ensures told { OnOk result (given (K.moments disk.new) ≡ given (K.moments disk.old)) }
        ensures cause { HasExactCause (K.faults disk.old) (K.faults disk.new) result }
    {
        if self.has(place, count) {
            return Ok(());
        }
        self.refill(disk, end, place)
    }

    /// Fills a buffer with bytes that are here.
    pub(crate) fn copy(&self, place: u64, buf: &mut [u8])
        requires here { IsHere self.now.start self.now.held place (length buf.old) }
        requires most { self.now.held ≤ length self.now.bytes.items }
        ensures { buf.new ≡ take (length buf.old) (drop (place - self.now.start) self.now.bytes.items) }
    {
        let from = (place - self.start) as usize;
        let rest = &self.bytes.as_slice()[from..];
        buf.copy_from_slice(&rest[..buf.len()]);
    }
}
