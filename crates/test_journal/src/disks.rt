//! Disks in memory: one over given bytes, and what a read of it gives.

use std::alloc::Global;
use std::test::Fail;
use venue_ports::{Disk, Disks, MemoryDisk, MemoryDisks, MemoryFile};

/// What a disk begins with, and what becomes of its calls.
#[derive(Clone, Copy)]
pub(crate) struct Plan<'a> {
    pub(crate) first: &'a [u8],
    /// The numbers of the calls that fail, from 1.
    pub(crate) failing: &'a [u64],
    /// How many bytes each write that fails puts all the same.
    pub(crate) puts: &'a [usize],
}

/// A disk as planned, with room for 65,536 bytes and 1,024 calls.
pub(crate) fn disk_of(alloc: Global, plan: &Plan<'_>) -> Result<MemoryDisk, Fail> {
    disk_for(alloc, plan, 1_024)
}

/// A disk as planned, with room for 65,536 bytes and so many calls.
pub(crate) fn disk_for(alloc: Global, plan: &Plan<'_>, calls: usize) -> Result<MemoryDisk, Fail> {
    let mut files = Vec::new(alloc);
    files.push(MemoryFile {
        folder: String::from_str(alloc, "base")?,
        file: String::from_str(alloc, "log")?,
        bytes: Vec::from_slice(alloc, plan.first)?,
    })?;
    let failing = Vec::from_slice(alloc, plan.failing)?;
    let puts = Vec::from_slice(alloc, plan.puts)?;
    let mut disks = MemoryDisks::new(alloc, files, 65_536, calls, failing)?.tearing(puts);
    Ok(disks.open_disk("base", "log")?)
}

/// What a read gives.
pub(crate) fn content(alloc: Global, disk: &mut MemoryDisk) -> Result<Vec<u8>, Fail> {
    let len = usize::try_from(disk.len()?)?;
    let mut bytes = vec![in alloc; 0; len]?;
    disk.read(0, &mut bytes)?;
    Ok(bytes)
}
