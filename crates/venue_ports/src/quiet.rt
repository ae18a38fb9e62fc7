//! Folders and doors in memory that never fail.

ghost use Rattle.std.specs.Prelude.{◌≡◌, ℕ, ◌^◌, ◌<◌, ◌≤◌, List, [], Some, None, IfOk, IsOk, IsOkAnd, IsErr, IsErrOf, IsSome, OnOk, OnErr, Bool, length, true, false};
ghost use Rattle.std.specs.Option.{option_map};
ghost use Rattle.venue_ports.specs.Causes.{one_more, HasExactCause};
ghost use Rattle.venue_ports.specs.Files.{file_at, ReadsFile, HasReadCause};
ghost use Rattle.venue_ports.specs.Stored.{stored_files};

use crate::doors::Doors;
use crate::folders::{Folders, ReadFault};
use crate::memory::OutOfMemory;
use crate::memory_folders::{MemoryFile, read_memory};
use crate::memory_stream::MemoryStream;
use crate::stream::Failed;
use std::alloc::Global;
use std::collections::VecDeque;

/// Folders over a list.
#[derive(Drop)]
pub struct QuietFolders {
    files: Vec<MemoryFile>,
}

impl QuietFolders {
    ghost use Rattle.venue_ports.specs.InMemory.{quiet_files};

    /// The last of two files with equal names counts. Takes no memory.
    pub fn new(files: Vec<MemoryFile>) -> Result<QuietFolders, OutOfMemory>
        ensures succeeds { IsOk result }
        ensures files { IfOk result (λ f. quiet_files f ≡ Some (stored_files files.items)) }
    {
        Ok(QuietFolders { files })
    }
}

impl Folders for QuietFolders {
    ghost use Rattle.venue_ports.specs.InMemory.{quiet_files};

    ghost files = { quiet_files };

    ghost asked = { λ _. None };

    ghost faults = { λ _. 0 };

    fn fault_count(&self) -> u64 {
        0
    }

    fn read(
        &mut self,
        alloc: Global,
        folder: &str,
        file: &str,
        most: u64,
    ) -> Result<Option<Vec<u8>>, ReadFault>
        requires { most < 2 ^ 32 }
        ensures bytes { ReadsFile (quiet_files self.old) folder.now file.now most result }
        ensures same { quiet_files self.new ≡ quiet_files self.old }
        ensures cause { HasReadCause 0 0 result }

        ensures never_failed { IsErrOf result ReadFault.Failed → ⊥ }
        ensures memory { IsErr result → IsSome (file_at (stored_files self.old.files.items) folder.now file.now) }
    {
        read_memory(alloc, &self.files, folder, file, most)
    }
}

/// Doors over a list of streams.
#[derive(Drop)]
pub struct QuietDoors {
    alloc: Global,
    streams: VecDeque<MemoryStream>,
    ready: bool,
    accepted: u64,
    binds: u64,
    bound: [u8; 256],
    bound_len: usize,
}

impl QuietDoors {
    ghost use Rattle.venue_ports.specs.Quiet.{quiet_ready, quiet_accepted, quiet_binds, quiet_bound, quiet_streams};

    /// Doors that are not ready, with the connections that are to come, the next one first.
    pub fn new(alloc: Global, streams: Vec<MemoryStream>) -> Result<QuietDoors, OutOfMemory>
        ensures succeeds { IsOk result }
        ensures ready { IfOk result (λ d. quiet_ready d ≡ false) }
        ensures accepted { IfOk result (λ d. quiet_accepted d ≡ 0) }
        ensures binds { IfOk result (λ d. quiet_binds d ≡ Some 0) }
        ensures bound { IfOk result (λ d. quiet_bound d ≡ Some []) }
        ensures streams { IfOk result (λ d. quiet_streams d ≡ streams.items) }
    {
        Ok(QuietDoors {
            alloc,
            streams: VecDeque::from(streams),
            ready: false,
            accepted: 0,
            binds: 0,
            bound: [0; 256],
            bound_len: 0,
        })
    }
}

impl Doors for QuietDoors {
    type Conn = MemoryStream;

    ghost use Rattle.venue_ports.specs.Quiet.{quiet_ready, quiet_accepted, quiet_binds, quiet_bound, quiet_streams, HandsOut};

    ghost ready = { quiet_ready };

    ghost accepted = { quiet_accepted };

    ghost binds = { quiet_binds };

    ghost bound = { quiet_bound };

    ghost faults = { λ _. 0 };

    fn fault_count(&self) -> u64 {
        0
    }

    fn bind(&mut self, address: &str) -> Result<(), Failed>
        requires not_ready { quiet_ready self.old ≡ false }
        requires short { length address.now ≤ 256 }
        ensures ok { OnOk result (quiet_ready self.new ≡ true) }
        ensures err { OnErr result (quiet_ready self.new ≡ false) }
        ensures accepted { quiet_accepted self.new ≡ quiet_accepted self.old }
        ensures binds { quiet_binds self.new ≡ option_map one_more (quiet_binds self.old) }
        ensures bound { quiet_bound self.new ≡ option_map (λ _. address.now) (quiet_bound self.old) }
        ensures cause { HasExactCause 0 0 result }

        ensures succeeds { IsOk result }
        ensures streams { quiet_streams self.new ≡ quiet_streams self.old }
    {
        let bytes = address.as_bytes();
        self.bound[..bytes.len()].copy_from_slice(bytes);
        self.bound_len = bytes.len();
        self.binds = self.binds.saturating_add(1);
        self.ready = true;
        Ok(())
    }

    fn accept(&mut self) -> Result<MemoryStream, Failed>
        requires { quiet_ready self.old ≡ true }
        ensures ok { OnOk result (quiet_accepted self.new ≡ one_more (quiet_accepted self.old)) }
        ensures err { OnErr result (quiet_accepted self.new ≡ quiet_accepted self.old) }
        ensures ready { quiet_ready self.new ≡ true }
        ensures binds { quiet_binds self.new ≡ quiet_binds self.old }
        ensures bound { quiet_bound self.new ≡ quiet_bound self.old }
        ensures cause { HasExactCause 0 0 result }

        ensures gives { IsOkAnd result (λ s. HandsOut (quiet_streams self.old) (quiet_streams self.new) s) }
    {
        self.accepted = self.accepted.saturating_add(1);
        match self.streams.pop_front() {
            Some(stream) => Ok(stream),
            None => Ok(MemoryStream::empty(self.alloc)),
        }
    }
}
