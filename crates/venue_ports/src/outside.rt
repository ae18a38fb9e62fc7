//! The real directory and the standard streams. They tell no content.

ghost use Rattle.std.specs.Prelude.{◌≡◌, ◌+◌, ◌^◌, ◌<◌, ◌≤◌, IfOk, IsErrOf, OnErr, None, length};
ghost use Rattle.venue_ports.specs.Causes.{one_more, HasExactCause};
ghost use Rattle.venue_ports.specs.Files.{HasReadCause};

use crate::folders::{Folders, ReadFault};
use crate::reports::{file_path, read_count, read_fault, regular_len, write_count};
use crate::stream::{Failed, Stream};
use std::alloc::Global;
use std::io::{Read, Write};
use std::rt::Files;
use std::{fs, io};

/// The real directory: a file's path is its folder, `/` and its name.
#[derive(Drop)]
pub struct DirFolders<R> {
    rt: R,
    faults: u64,
}

impl<R> DirFolders<R> {
    /// The directory that the program runs in.
    pub fn new(rt: R) -> DirFolders<R>
        ensures faults { result.faults ≡ 0 }
    {
        DirFolders { rt, faults: 0 }
    }
}

// The bytes of a regular file, cut after most + 1, where a link may lead to it. Anything else is a failure and isn't opened: a pipe would wait for who
// writes it, and a device may have no end. Room for the bytes is taken at once, so that they are never copied.
fn read_cut<R: Files>(rt: &R, alloc: Global, path: &str, most: u64) -> io::Result<Vec<u8>>
    requires { most < 2 ^ 32 }
{
    let expected = regular_len(&fs::metadata(rt, path)?)?.min(most);
    let file = fs::open(rt, path)?;
    let mut bytes = Vec::new(alloc);
    bytes.reserve_exact(expected as usize + 1)?;
    file.take(most + 1).read_to_end(&mut bytes)?;
    Ok(bytes)
}

impl<R: Files> Folders for DirFolders<R> {
    ghost files = { λ _. None };

    ghost asked = { λ _. None };

    ghost faults = { λ d. d.faults };

    fn fault_count(&self) -> u64 {
        self.faults
    }

    fn read(
        &mut self,
        alloc: Global,
        folder: &str,
        file: &str,
        most: u64,
    ) -> Result<Option<Vec<u8>>, ReadFault>
        requires { most < 2 ^ 32 }
        ensures cause { HasReadCause self.old.faults self.new.faults result }

        ensures counted { IsErrOf result ReadFault.Failed → self.new.faults ≡ one_more self.old.faults }
    {
        let path = file_path(alloc, folder, file)?;
        match read_cut(&self.rt, alloc, path.as_str(), most) {
            Ok(bytes) => Ok(Some(bytes)),
            Err(error) => match read_fault(error.kind()) {
                None => Ok(None),
                Some(ReadFault::OutOfMemory) => Err(ReadFault::OutOfMemory),
                Some(ReadFault::Failed) => {
                    self.faults = self.faults.saturating_add(1);
                    Err(ReadFault::Failed)
                }
            },
        }
    }
}

/// Standard input and output. A write that takes nothing is a failure.
#[derive(Drop)]
pub struct Console<R> {
    rt: R,
    faults: u64,
}

impl<R> Console<R> {
    /// The program's own input and output.
    pub fn new(rt: R) -> Console<R>
        ensures faults { result.faults ≡ 0 }
    {
        Console { rt, faults: 0 }
    }
}

impl<R: Input + Print> Stream for Console<R> {
    ghost left = { λ _. None };

    ghost written = { λ _. None };

    ghost starts = { λ _. None };

    ghost faults = { λ c. c.faults };

    fn fault_count(&self) -> u64 {
        self.faults
    }

    fn read(&mut self, buf: &mut [u8]) -> Result<usize, Failed>
        requires { 0 < length buf.old }
        ensures bound { IfOk result (λ n. n ≤ length buf.old) }
        ensures cause { HasExactCause self.old.faults self.new.faults result }

        ensures counted { OnErr result (self.new.faults ≡ one_more self.old.faults) }
    {
        match read_count(self.rt.reader().read(buf)) {
            Ok(count) => Ok(count),
            Err(_) => {
                self.faults = self.faults.saturating_add(1);
                Err(Failed)
            }
        }
    }

    fn write(&mut self, piece: &[u8]) -> Result<usize, Failed>
        requires { 0 < length piece.now }
        ensures bound { IfOk result (λ n. (0 < n) × (n ≤ length piece.now)) }
        ensures cause { HasExactCause self.old.faults self.new.faults result }

        ensures counted { OnErr result (self.new.faults ≡ one_more self.old.faults) }
    {
        match write_count(io::writer(&self.rt).write(piece)) {
            Ok(count) => Ok(count),
            Err(_) => {
                self.faults = self.faults.saturating_add(1);
                Err(Failed)
            }
        }
    }
}
