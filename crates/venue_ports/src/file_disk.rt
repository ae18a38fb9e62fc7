//! A real file as a disk. It tells no content.

ghost use Rattle.std.specs.Prelude.{◌≡◌, ◌+◌, ◌^◌, ◌<◌, ◌≤◌, [], IfOk, IsOk, IsErr, OnErr, OnOk, length};
ghost use Rattle.venue_ports.specs.Causes.{one_more, HasExactCause};

use crate::disk::Disk;
use crate::stream::Failed;
use std::fs::File;
use std::io;
use std::os::unix::fs::FileExt;

/// A file that is locked as a whole for as long as the disk is there.
#[derive(Drop)]
pub struct FileDisk {
    file: File,
    faults: u64,
}

impl FileDisk {
    /// A disk over a file that is open for reading and writing, and locked.
    pub(crate) fn new(file: File) -> FileDisk
        ensures faults { result.faults ≡ 0 }
    {
        FileDisk { file, faults: 0 }
    }

    // What the system reported, where an error counts as a failure.
    fn told<T: Drop>(&mut self, reported: io::Result<T>) -> Result<T, Failed>
        ensures ok { OnOk reported (IsOk result) }
        ensures err { OnErr reported (IsErr result) }
        ensures cause { HasExactCause self.old.faults self.new.faults result }
        ensures counted { OnErr result (self.new.faults ≡ one_more self.old.faults) }
    {
        match reported {
            Ok(value) => Ok(value),
            Err(_) => {
                self.faults = self.faults.saturating_add(1);
                Err(Failed)
            }
        }
    }
}

// How long a file is.
fn length(file: &File) -> io::Result<u64> {
    Ok(file.metadata()?.len())
}

impl Disk for FileDisk {
    ghost moments = { λ _. [] };

    ghost faults = { λ d. d.faults };

    fn fault_count(&self) -> u64 {
        self.faults
    }

    fn len(&mut self) -> Result<u64, Failed>
        ensures cause { HasExactCause self.old.faults self.new.faults result }

        ensures counted { OnErr result (self.new.faults ≡ one_more self.old.faults) }
    {
        let reported = length(&self.file);
        self.told(reported)
    }

    fn read(&mut self, at: u64, buf: &mut [u8]) -> Result<(), Failed>
        ensures cause { HasExactCause self.old.faults self.new.faults result }

        ensures counted { OnErr result (self.new.faults ≡ one_more self.old.faults) }
    {
        let reported = self.file.read_exact_at(buf, at);
        self.told(reported)
    }

    fn write(&mut self, at: u64, piece: &[u8]) -> Result<(), Failed>
        requires some { 0 < length piece.now }
        requires end { at + length piece.now < 2 ^ 63 }
        ensures cause { HasExactCause self.old.faults self.new.faults result }

        ensures counted { OnErr result (self.new.faults ≡ one_more self.old.faults) }
    {
        let reported = self.file.write_all_at(piece, at);
        self.told(reported)
    }

    fn sync(&mut self) -> Result<(), Failed>
        ensures cause { HasExactCause self.old.faults self.new.faults result }

        ensures counted { OnErr result (self.new.faults ≡ one_more self.old.faults) }
    {
        let reported = self.file.sync_data();
        self.told(reported)
    }
}
