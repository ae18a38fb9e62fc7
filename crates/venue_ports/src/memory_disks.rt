//! Disks in memory.

ghost use Rattle.std.specs.Prelude.{◌≡◌, ◌⊎◌, ℕ, ◌<◌, ◌≤◌, ◌↔◌, List, [], Option, Some, None, IfOk, IfSome, IsErr, IsNone, IsTrue, OnOk, OnErr, OnSome, Contains, length, true, false};
ghost use Rattle.std.specs.Option.{option_map};
ghost use Rattle.venue_ports.specs.Causes.{one_more, HasExactCause};
ghost use Rattle.venue_ports.specs.DiskCalls.{LacksRoom, opened_record, unused};
ghost use Rattle.venue_ports.specs.Disks.{OpensDisk};
ghost use Rattle.venue_ports.specs.Files.{StoredFile, file_at};
ghost use Rattle.venue_ports.specs.Plans.{fresh};
ghost use Rattle.venue_ports.specs.Stored.{stored_files};

use crate::disk::Disks;
use crate::memory::OutOfMemory;
use crate::memory_disk::MemoryDisk;
use crate::memory_folders::{MemoryFile, last_bytes};
use crate::spare_record::SpareRecord;
use crate::stream::Failed;
use std::alloc::Global;
use std::mem;

/// Disks over a list of files, with room for one disk: the first one that is opened has it.
#[derive(Drop)]
pub struct MemoryDisks {
    alloc: Global,
    files: Vec<MemoryFile>,
    spare: SpareRecord,
    failing: Vec<u64>,
    never_open: bool,
    puts: Vec<usize>,
    opens: u64,
    base: [u8; 1024],
    base_len: usize,
    name: [u8; 64],
    name_len: usize,
    faults: u64,
}

impl MemoryDisks {
    ghost use Rattle.venue_ports.specs.MemoryDisks.{disks_files, disks_opens, disks_opened, disks_spare, disks_failing, disks_never_open, disks_puts, disks_faults};

    /// The last of two files with equal names counts. Room for so many bytes of a disk, those that it begins with among them,
    /// and for a record of so many calls is taken at once. In `failing` 0 stands for `open_disk`; the calls on the disk are
    /// numbered from 1.
    pub fn new(
        alloc: Global,
        files: Vec<MemoryFile>,
        room: usize,
        calls: usize,
        failing: Vec<u64>,
    ) -> Result<MemoryDisks, OutOfMemory>
        ensures files { IfOk result (λ d. disks_files d ≡ Some (stored_files files.items)) }
        ensures spare { IfOk result (λ d. disks_spare d ≡ Some (unused room calls)) }
        ensures failing { IfOk result (λ d. disks_failing d ≡ failing.items) }
        ensures never_open { IfOk result (λ d. IsTrue (disks_never_open d) ↔ Contains failing.items 0) }
        ensures puts { IfOk result (λ d. disks_puts d ≡ []) }
        ensures opens { IfOk result (λ d. disks_opens d ≡ Some 0) }
        ensures opened { IfOk result (λ d. disks_opened d ≡ Some ([], [])) }
        ensures faults { IfOk result (λ d. disks_faults d ≡ 0) }
    {
        let spare = SpareRecord::new(alloc, room, calls)?;
        let never_open = failing.contains(&0);
        Ok(MemoryDisks {
            alloc,
            files,
            spare,
            failing,
            never_open,
            puts: Vec::new(alloc),
            opens: 0,
            base: [0; 1024],
            base_len: 0,
            name: [0; 64],
            name_len: 0,
            faults: 0,
        })
    }

    /// The same, but that each write that fails puts so many bytes all the same, by its number among them, as far as there is
    /// room; past the last number none.
    pub fn tearing(mut self, puts: Vec<usize>) -> MemoryDisks
        ensures puts { disks_puts result ≡ puts.items }
        ensures same { result ≡ record self { puts = puts } }
    {
        self.puts = puts;
        self
    }

    // Counts a failure.
    fn failed(&mut self) -> Failed
        ensures counted { self.new ≡ record self.old { faults = one_more self.old.faults } }
        ensures later { self.old.faults ≤ self.new.faults }
    {
        self.faults = self.faults.saturating_add(1);
        Failed
    }

    // Counts an open and keeps its names.
    fn called(&mut self, base: &str, name: &str)
        requires base_short { length base.now ≤ 1024 }
        requires name_short { length name.now ≤ 64 }
        ensures opens { disks_opens self.new ≡ option_map one_more (disks_opens self.old) }
        ensures opened { disks_opened self.new ≡ Some (base.now, name.now) }
        ensures same { self.new ≡ record self.old { opens = self.new.opens; base = self.new.base; base_len = self.new.base_len; name = self.new.name; name_len = self.new.name_len } }
    {
        let bytes = base.as_bytes();
        self.base[..bytes.len()].copy_from_slice(bytes);
        self.base_len = bytes.len();
        let bytes = name.as_bytes();
        self.name[..bytes.len()].copy_from_slice(bytes);
        self.name_len = bytes.len();
        self.opens = self.opens.saturating_add(1);
    }
}

impl Disks for MemoryDisks {
    type Disk = MemoryDisk;

    ghost use Rattle.venue_ports.specs.MemoryDisks.{disk_record, disk_moments, disk_plan, disk_puts, disk_failed_writes, disk_faults, disks_files, disks_opens, disks_opened, disks_spare, disks_failing, disks_never_open, disks_puts, disks_faults};

    ghost files = { disks_files };

    ghost opens = { disks_opens };

    ghost opened = { disks_opened };

    ghost faults = { disks_faults };

    fn fault_count(&self) -> u64 {
        self.faults
    }

    fn open_disk(&mut self, base: &str, name: &str) -> Result<MemoryDisk, Failed>
        requires base_short { length base.now ≤ 1024 }
        requires name_short { length name.now ≤ 64 }
        ensures disk { IfOk result (λ d. OpensDisk (disks_files self.old) base.now name.now (disk_moments d)) }
        ensures no_faults { IfOk result (λ d. disk_faults d ≡ 0) }
        ensures same { disks_files self.new ≡ disks_files self.old }
        ensures opens { disks_opens self.new ≡ option_map one_more (disks_opens self.old) }
        ensures opened { disks_opened self.new ≡ option_map (λ _. (base.now, name.now)) (disks_opened self.old) }
        ensures cause { HasExactCause (disks_faults self.old) (disks_faults self.new) result }

        ensures fails { IsErr result ↔ (IsTrue (disks_never_open self.old) ⊎ LacksRoom (disks_spare self.old) (file_at (stored_files self.old.files.items) base.now name.now)) }
        ensures counted { OnErr result (disks_faults self.new ≡ one_more (disks_faults self.old)) }
        ensures gives { IfOk result (λ d. Some (disk_record d) ≡ opened_record (disks_spare self.old) (file_at (stored_files self.old.files.items) base.now name.now)) }
        ensures plan { IfOk result (λ d. disk_plan d ≡ fresh (disks_failing self.old)) }
        ensures puts { IfOk result (λ d. disk_puts d ≡ disks_puts self.old) }
        ensures failed_writes { IfOk result (λ d. disk_failed_writes d ≡ 0) }
        ensures taken { OnOk result (disks_spare self.new ≡ None) }
        ensures kept { OnErr result (self.new ≡ record self.old { opens = self.new.opens; base = self.new.base; base_len = self.new.base_len; name = self.new.name; name_len = self.new.name_len; faults = self.new.faults }) }
    {
        self.called(base, name);
        let found = match last_bytes(&self.files, base, name) {
            Some(first) if !self.never_open => self.spare.take(first),
            _ => None,
        };
        match found {
            Some(calls) => {
                let failing = mem::replace(&mut self.failing, Vec::new(self.alloc));
                let puts = mem::replace(&mut self.puts, Vec::new(self.alloc));
                Ok(MemoryDisk::new(calls, failing, puts))
            }
            None => Err(self.failed()),
        }
    }
}
