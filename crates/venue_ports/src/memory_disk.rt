//! A disk in memory.

ghost use Rattle.std.specs.Prelude.{◌≡◌, ◌≢◌, ℕ, ◌+◌, ◌^◌, ◌<◌, ◌≤◌, ◌↔◌, List, [], IfOk, IsErr, IsTrue, OnOk, OnErr, is_err, length, take, drop, true, false};
ghost use Rattle.venue_ports.specs.Causes.{one_more, HasExactCause};
ghost use Rattle.venue_ports.specs.DiskCalls.{noted, noted_moments, record_moments, content_of, is_full, bytes_left};
ghost use Rattle.venue_ports.specs.Moments.{Moment, Goes, GoesOrEnds, Now, HasStayed, HasWritten, MayHaveWritten, HasSynced};
ghost use Rattle.venue_ports.specs.Plans.{called, fresh};
ghost use Rattle.venue_ports.specs.declared.disk_calls.DiskCallKind.TheVariants.{Len, Read, Write, Sync};

use crate::disk::Disk;
use crate::disk_calls::{CallRecord, DiskCall, DiskCallKind};
use crate::plan::CallPlan;
use crate::stream::Failed;

/// A disk in memory that records its calls, of which some are to fail. A call for which there is no room fails; where the
/// record itself has none, the disk tells nothing from then on.
#[derive(Drop)]
pub struct MemoryDisk {
    calls: CallRecord,
    plan: CallPlan,
    puts: Vec<usize>,
    failed_writes: usize,
    faults: u64,
}

// Fills a buffer with the bytes of a content from a place on.
fn fill(buf: &mut [u8], content: &[u8], at: u64)
    requires within { at + length buf.old ≤ length content.now }
    ensures { buf.new ≡ take (length buf.old) (drop at content.now) }
{
    let rest = &content[at as usize..];
    buf.copy_from_slice(&rest[..buf.len()]);
}

impl MemoryDisk {
    ghost use Rattle.venue_ports.specs.MemoryDisks.{disk_record, disk_plan, disk_puts, disk_failed_writes, disk_faults, FailsCall, next_torn};

    /// A disk over what a record begins with. The calls with these numbers, from 1, fail.
    pub(crate) fn new(calls: CallRecord, failing: Vec<u64>, puts: Vec<usize>) -> MemoryDisk
        ensures calls { disk_record result ≡ calls }
        ensures plan { disk_plan result ≡ fresh failing.items }
        ensures puts { disk_puts result ≡ puts.items }
        ensures failed_writes { disk_failed_writes result ≡ 0 }
        ensures faults { disk_faults result ≡ 0 }
    {
        MemoryDisk {
            calls,
            plan: CallPlan::new(failing),
            puts,
            failed_writes: 0,
            faults: 0,
        }
    }

    /// The content that the disk had when it was opened.
    pub fn first(&self) -> &[u8]
        ensures { result.now ≡ (disk_record self.now).first }
    {
        self.calls.first()
    }

    /// The calls since, the first one first.
    pub fn calls(&self) -> &[DiskCall]
        ensures { result.now ≡ (disk_record self.now).calls }
    {
        self.calls.calls()
    }

    /// The bytes that the calls put, one call after the other.
    pub fn put(&self) -> &[u8]
        ensures { result.now ≡ (disk_record self.now).put }
    {
        self.calls.put()
    }

    // Counts a failure.
    fn failed(&mut self) -> Failed
        ensures counted { self.new ≡ record self.old { faults = one_more self.old.faults } }
        ensures later { self.old.faults ≤ self.new.faults }
    {
        self.faults = self.faults.saturating_add(1);
        Failed
    }

    // How many bytes of so many the next write puts that fails.
    fn next_torn(&self, count: usize) -> usize
        ensures { result ≡ next_torn self.now count }
    {
        match self.puts.get(self.failed_writes) {
            None => 0,
            Some(put) => (*put).min(count.min(self.calls.left())),
        }
    }

    // Counts a call that is to put so many bytes, and answers whether it fails.
    fn fails(&mut self, put: usize) -> bool
        ensures fails { IsTrue result ↔ FailsCall self.old put }
        ensures room { result ≡ false → is_full (disk_record self.old) ≡ false }
        ensures told { result ≡ false → (disk_record self.old).ended ≡ false }
        ensures left { result ≡ false → put ≤ bytes_left (disk_record self.old) }
        ensures called { self.new ≡ record self.old { plan = called self.old.plan } }
    {
        let planned = self.plan.fails();
        planned || self.calls.is_full() || self.calls.left() < put
    }

    // Counts and records a call that puts nothing.
    fn call(&mut self, kind: DiskCallKind, at: u64, count: usize) -> Result<(), Failed>
        requires { kind ≢ Write }
        ensures fails { IsErr result ↔ FailsCall self.old 0 }
        ensures told { OnOk result ((disk_record self.old).ended ≡ false) }
        ensures noted { disk_record self.new ≡ noted (record { kind = kind; at = at; count = count; put = 0; failed = is_err result }) [] (disk_record self.old) }
        ensures moments { record_moments (disk_record self.new) ≡ noted_moments (record { kind = kind; at = at; count = count; put = 0; failed = is_err result }) [] (disk_record self.old) }
        ensures content { content_of (disk_record self.new) ≡ content_of (disk_record self.old) }
        ensures cause { HasExactCause (disk_faults self.old) (disk_faults self.new) result }
        ensures counted { OnErr result (disk_faults self.new ≡ one_more (disk_faults self.old)) }
        ensures called { disk_plan self.new ≡ called (disk_plan self.old) }
        ensures puts { disk_puts self.new ≡ disk_puts self.old }
        ensures failed_writes { disk_failed_writes self.new ≡ disk_failed_writes self.old }
    {
        let failed = self.fails(0);
        self.calls.note(DiskCall {
            kind,
            at,
            count,
            put: 0,
            failed,
        });
        if failed {
            return Err(self.failed());
        }
        Ok(())
    }
}

impl Disk for MemoryDisk {
    ghost use Rattle.venue_ports.specs.MemoryDisks.{disk_record, disk_moments, disk_plan, disk_puts, disk_failed_writes, disk_faults, FailsCall, next_torn};

    ghost moments = { disk_moments };

    ghost faults = { disk_faults };

    fn fault_count(&self) -> u64 {
        self.faults
    }

    fn len(&mut self) -> Result<u64, Failed>
        ensures length { IfOk result (λ n. Now (λ m. n ≡ length m.reads) (disk_moments self.old)) }
        ensures ok { OnOk result (Goes HasStayed (disk_moments self.old) (disk_moments self.new)) }
        ensures err { OnErr result (GoesOrEnds HasStayed (disk_moments self.old) (disk_moments self.new)) }
        ensures cause { HasExactCause (disk_faults self.old) (disk_faults self.new) result }

        ensures fails { IsErr result ↔ FailsCall self.old 0 }
        ensures noted { disk_record self.new ≡ noted (record { kind = Len; at = 0; count = 0; put = 0; failed = is_err result }) [] (disk_record self.old) }
        ensures counted { OnErr result (disk_faults self.new ≡ one_more (disk_faults self.old)) }
        ensures called { disk_plan self.new ≡ called (disk_plan self.old) }
        ensures puts { disk_puts self.new ≡ disk_puts self.old }
        ensures failed_writes { disk_failed_writes self.new ≡ disk_failed_writes self.old }
    {
        self.call(DiskCallKind::Len, 0, 0)?;
        Ok(self.calls.content().len() as u64)
    }

    fn read(&mut self, at: u64, buf: &mut [u8]) -> Result<(), Failed>
        requires within { Now (λ m. at + length buf.old ≤ length m.reads) (disk_moments self.old) }
        ensures bytes { OnOk result (Now (λ m. buf.new ≡ take (length buf.old) (drop at m.reads)) (disk_moments self.old)) }
        ensures ok { OnOk result (Goes HasStayed (disk_moments self.old) (disk_moments self.new)) }
        ensures err { OnErr result (GoesOrEnds HasStayed (disk_moments self.old) (disk_moments self.new)) }
        ensures cause { HasExactCause (disk_faults self.old) (disk_faults self.new) result }

        ensures fails { IsErr result ↔ FailsCall self.old 0 }
        ensures noted { disk_record self.new ≡ noted (record { kind = Read; at = at; count = length buf.old; put = 0; failed = is_err result }) [] (disk_record self.old) }
        ensures counted { OnErr result (disk_faults self.new ≡ one_more (disk_faults self.old)) }
        ensures called { disk_plan self.new ≡ called (disk_plan self.old) }
        ensures puts { disk_puts self.new ≡ disk_puts self.old }
        ensures failed_writes { disk_failed_writes self.new ≡ disk_failed_writes self.old }
    {
        self.call(DiskCallKind::Read, at, buf.len())?;
        fill(buf, self.calls.content(), at);
        Ok(())
    }

    fn write(&mut self, at: u64, piece: &[u8]) -> Result<(), Failed>
        requires some { 0 < length piece.now }
        requires within { Now (λ m. at ≤ length m.reads) (disk_moments self.old) }
        requires end { at + length piece.now < 2 ^ 63 }
        ensures ok { OnOk result (Goes (HasWritten at piece.now) (disk_moments self.old) (disk_moments self.new)) }
        ensures err { OnErr result (GoesOrEnds (MayHaveWritten at piece.now) (disk_moments self.old) (disk_moments self.new)) }
        ensures cause { HasExactCause (disk_faults self.old) (disk_faults self.new) result }

        ensures fails { IsErr result ↔ FailsCall self.old (length piece.now) }
        ensures noted_ok { OnOk result (disk_record self.new ≡ noted (record { kind = Write; at = at; count = length piece.now; put = length piece.now; failed = false }) piece.now (disk_record self.old)) }
        ensures noted_err { OnErr result (disk_record self.new ≡ noted (record { kind = Write; at = at; count = length piece.now; put = next_torn self.old (length piece.now); failed = true }) (take (next_torn self.old (length piece.now)) piece.now) (disk_record self.old)) }
        ensures counted { OnErr result (disk_faults self.new ≡ one_more (disk_faults self.old)) }
        ensures called { disk_plan self.new ≡ called (disk_plan self.old) }
        ensures puts { disk_puts self.new ≡ disk_puts self.old }
        ensures failed_writes_ok { OnOk result (disk_failed_writes self.new ≡ disk_failed_writes self.old) }
        ensures failed_writes_err { OnErr result (disk_failed_writes self.new ≡ one_more (disk_failed_writes self.old)) }
    {
        let failed = self.fails(piece.len());
        let put = if failed {
            self.next_torn(piece.len())
        } else {
            piece.len()
        };
        let call = DiskCall {
            kind: DiskCallKind::Write,
            at,
            count: piece.len(),
            put,
            failed,
        };
        self.calls.write(call, piece);
        if failed {
            self.failed_writes = self.failed_writes.saturating_add(1);
            return Err(self.failed());
        }
        Ok(())
    }

    fn sync(&mut self) -> Result<(), Failed>
        ensures ok { OnOk result (Goes HasSynced (disk_moments self.old) (disk_moments self.new)) }
        ensures err { OnErr result (GoesOrEnds HasStayed (disk_moments self.old) (disk_moments self.new)) }
        ensures cause { HasExactCause (disk_faults self.old) (disk_faults self.new) result }

        ensures fails { IsErr result ↔ FailsCall self.old 0 }
        ensures noted { disk_record self.new ≡ noted (record { kind = Sync; at = 0; count = 0; put = 0; failed = is_err result }) [] (disk_record self.old) }
        ensures counted { OnErr result (disk_faults self.new ≡ one_more (disk_faults self.old)) }
        ensures called { disk_plan self.new ≡ called (disk_plan self.old) }
        ensures puts { disk_puts self.new ≡ disk_puts self.old }
        ensures failed_writes { disk_failed_writes self.new ≡ disk_failed_writes self.old }
    {
        self.call(DiskCallKind::Sync, 0, 0)
    }
}
