//! Real files as disks, by the names of their folder and their journal.

ghost use Rattle.std.specs.Prelude.{◌≡◌, ◌+◌, ◌++◌, ◌≤◌, IfOk, OnErr, None, length, take};
ghost use Rattle.venue_ports.specs.Causes.{one_more, HasExactCause};
ghost use Rattle.venue_ports.specs.Disks.{journal_path};

use crate::disk::Disks;
use crate::file_disk::FileDisk;
use crate::stream::Failed;
use std::fs::{File, OpenOptions};
use std::rt::Files;
use std::{io, str};

// How many bytes the longest path has: a folder, a slash, a name, and what all journals end with.
const LONGEST: usize = 1024 + 1 + 64 + 8;

/// The files of the journals: the path is the folder, `/`, the name and `.journal`. None is made. A file that another open
/// holds, in this process or in another, fails.
#[derive(Drop)]
pub struct FileDisks<R> {
    rt: R,
    faults: u64,
}

impl<R> FileDisks<R> {
    /// The directory that the program runs in.
    pub fn new(rt: R) -> FileDisks<R>
        ensures faults { result.faults ≡ 0 }
    {
        FileDisks { rt, faults: 0 }
    }
}

// Appends a part to the first bytes of a buffer, and answers how many there are then.
fn append(buf: &mut [u8; LONGEST], len: usize, part: &str) -> usize
    requires fits { len + length part.now ≤ 1097 }
    ensures len { result ≡ len + length part.now }
    ensures bytes { take result buf.new ≡ take len buf.old ++ part.now }
{
    let end = len + part.len();
    buf[len..end].copy_from_slice(part.as_bytes());
    end
}

// The path of a journal, written into a buffer.
fn journal_path<'a>(buf: &'a mut [u8; LONGEST], base: &str, name: &str) -> Result<&'a str, Failed>
    requires base_short { length base.now ≤ 1024 }
    requires name_short { length name.now ≤ 64 }
    ensures { IfOk result (λ path. path.now ≡ journal_path base.now name.now) }
{
    let len = append(buf, 0, base);
    let len = append(buf, len, "/");
    let len = append(buf, len, name);
    let len = append(buf, len, ".journal");
    match str::from_utf8(&buf[..len]) {
        Ok(path) => Ok(path),
        Err(_) => Err(Failed),
    }
}

// Opens a file that is there and takes its lock. Its folder is synced, so that a file made a moment ago keeps its name.
fn open_locked<R: Files<File = File>>(rt: &R, base: &str, path: &str) -> io::Result<File> {
    let file = OpenOptions::new().read(true).write(true).open(rt, path)?;
    file.try_lock()?;
    File::open(rt, base)?.sync_all()?;
    Ok(file)
}

impl<R: Files<File = File>> Disks for FileDisks<R> {
    type Disk = FileDisk;

    ghost files = { λ _. None };

    ghost opens = { λ _. None };

    ghost opened = { λ _. None };

    ghost faults = { λ d. d.faults };

    fn fault_count(&self) -> u64 {
        self.faults
    }

    fn open_disk(&mut self, base: &str, name: &str) -> Result<FileDisk, Failed>
        requires base_short { length base.now ≤ 1024 }
        requires name_short { length name.now ≤ 64 }
        ensures no_faults { IfOk result (λ d. d.faults ≡ 0) }
        ensures cause { HasExactCause self.old.faults self.new.faults result }

        ensures counted { OnErr result (self.new.faults ≡ one_more self.old.faults) }
    {
        let mut buf = [0; LONGEST];
        if let Ok(path) = journal_path(&mut buf, base, name) {
            if let Ok(file) = open_locked(&self.rt, base, path) {
                return Ok(FileDisk::new(file));
            }
        }
        self.faults = self.faults.saturating_add(1);
        Err(Failed)
    }
}
