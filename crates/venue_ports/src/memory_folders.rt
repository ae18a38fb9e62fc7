//! Folders in memory.

ghost use Rattle.std.specs.Prelude.{◌≡◌, ℕ, ◌+◌, ◌^◌, ◌<◌, ◌↔◌, List, [], ◌∷◌, Some, IfOk, IsErr, IsOk, IsErrOf, IsSome};
ghost use Rattle.std.specs.Option.{option_map};
ghost use Rattle.venue_ports.specs.Asked.{HaveAsked, has_failed};
ghost use Rattle.venue_ports.specs.Causes.{one_more};
ghost use Rattle.venue_ports.specs.Files.{file_at, has_names, ReadsFile, HasReadCause};
ghost use Rattle.venue_ports.specs.Plans.{FailsNext, called, fresh};
ghost use Rattle.venue_ports.specs.Stored.{stored_file, stored_files};

use crate::folders::{Folders, ReadFault};
use crate::memory::OutOfMemory;
use crate::plan::CallPlan;
use crate::read_log::ReadLog;
use std::alloc::Global;

/// A file with its names.
#[derive(Drop)]
pub struct MemoryFile {
    pub folder: String,
    pub file: String,
    pub bytes: Vec<u8>,
}

/// Folders over a list, of which some reads are to fail.
#[derive(Drop)]
pub struct MemoryFolders {
    files: Vec<MemoryFile>,
    reads: CallPlan,
    asked: ReadLog,
    faults: u64,
}

impl MemoryFolders {
    ghost use Rattle.venue_ports.specs.InMemory.{memory_files, memory_asked, memory_reads, memory_faults};

    /// The last of two files with equal names counts. The reads with these numbers, from 1, fail. Takes no memory.
    pub fn new(files: Vec<MemoryFile>, failing: Vec<u64>) -> Result<MemoryFolders, OutOfMemory>
        ensures succeeds { IsOk result }
        ensures files { IfOk result (λ f. memory_files f ≡ Some (stored_files files.items)) }
        ensures reads { IfOk result (λ f. memory_reads f ≡ fresh failing.items) }
        ensures asked { IfOk result (λ f. memory_asked f ≡ Some []) }
        ensures faults { IfOk result (λ f. memory_faults f ≡ 0) }
    {
        let asked = ReadLog::new(*files.allocator());
        Ok(MemoryFolders {
            files,
            reads: CallPlan::new(failing),
            asked,
            faults: 0,
        })
    }
}

// Whether a file has these names.
fn has_names(stored: &MemoryFile, folder: &str, file: &str) -> bool
    ensures { result ≡ has_names folder.now file.now (stored_file stored.now) }
{
    stored.folder.as_str() == folder && stored.file.as_str() == file
}

/// The bytes of the last file with these names.
pub(crate) fn last_bytes<'a>(files: &'a [MemoryFile], folder: &str, file: &str) -> Option<&'a [u8]>
    ensures { option_map (λ x. x.now) result ≡ file_at (stored_files files.now) folder.now file.now }
{
    let mut found = None;
    for stored in files {
        if has_names(stored, folder, file) {
            found = Some(stored.bytes.as_slice());
        }
    }
    found
}

/// What a read of these files gives.
pub(crate) fn read_memory(
    alloc: Global,
    files: &[MemoryFile],
    folder: &str,
    file: &str,
    most: u64,
) -> Result<Option<Vec<u8>>, ReadFault>
    requires { most < 2 ^ 32 }
    ensures bytes { ReadsFile (Some (stored_files files.now)) folder.now file.now most result }
    ensures never_failed { IsErrOf result ReadFault.Failed → ⊥ }
    ensures memory { IsErr result → IsSome (file_at (stored_files files.now) folder.now file.now) }
{
    match last_bytes(files, folder, file) {
        None => Ok(None),
        Some(bytes) => {
            let len = bytes.len().min(most as usize + 1);
            Ok(Some(Vec::from_slice(alloc, &bytes[..len])?))
        }
    }
}

impl Folders for MemoryFolders {
    ghost use Rattle.venue_ports.specs.InMemory.{memory_files, memory_asked, memory_reads, memory_faults};

    ghost files = { memory_files };

    ghost asked = { memory_asked };

    ghost faults = { memory_faults };

    fn fault_count(&self) -> u64 {
        self.faults
    }

    fn read(
        &mut self,
        alloc: Global,
        folder: &str,
        file: &str,
        most: u64,
    ) -> Result<Option<Vec<u8>>, ReadFault>
        requires { most < 2 ^ 32 }
        ensures bytes { ReadsFile (memory_files self.old) folder.now file.now most result }
        ensures same { memory_files self.new ≡ memory_files self.old }
        ensures asked { HaveAsked (record { folder = folder.now; file = file.now; failed = has_failed result } ∷ []) (memory_asked self.old) (memory_asked self.new) }
        ensures cause { HasReadCause (memory_faults self.old) (memory_faults self.new) result }

        ensures fails { IsErrOf result ReadFault.Failed ↔ FailsNext (memory_reads self.old) }
        ensures counted { IsErrOf result ReadFault.Failed → memory_faults self.new ≡ one_more (memory_faults self.old) }
        ensures called { memory_reads self.new ≡ called (memory_reads self.old) }
        ensures memory { IsErrOf result ReadFault.OutOfMemory → IsSome (file_at (stored_files self.old.files.items) folder.now file.now) }
    {
        let fails = self.reads.fails();
        self.asked.note(alloc, folder, file, fails);
        if fails {
            self.faults = self.faults.saturating_add(1);
            return Err(ReadFault::Failed);
        }
        read_memory(alloc, &self.files, folder, file, most)
    }
}
