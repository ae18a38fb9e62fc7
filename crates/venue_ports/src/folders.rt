//! Folders of files.

ghost use Rattle.std.specs.Prelude.{◌≡◌, ℕ, ◌^◌, ◌<◌, List, [], ◌∷◌, Option};
ghost use Rattle.venue_ports.specs.Asked.{AskedFile, HaveAsked, has_failed};
ghost use Rattle.venue_ports.specs.Files.{StoredFile, ReadsFile, HasReadCause};
ghost use Rattle.venue_ports.specs.declared.folders.ReadFault.TheVariants.{OutOfMemory};

use std::alloc::{AllocError, AllocFailed, Global};

/// Why a file was not read.
#[derive(Clone, Copy, Debug, PartialEq, Eq)]
pub enum ReadFault {
    /// The folders failed, and counted it.
    Failed,
    /// Memory ran out.
    OutOfMemory,
}

impl From<AllocError> for ReadFault {
    ghost from_gives = { λ _ e. e ≡ OutOfMemory };

    fn from(_error: AllocError) -> ReadFault {
        ReadFault::OutOfMemory
    }
}

impl<T: Drop> From<AllocFailed<T>> for ReadFault {
    ghost from_gives = { λ _ e. e ≡ OutOfMemory };

    fn from(_error: AllocFailed<T>) -> ReadFault {
        ReadFault::OutOfMemory
    }
}

/// Folders that hold files by name. Whether the files are told never changes, and neither do the files.
pub trait Folders {
    /// The files, where they are told.
    ghost files: { Self → Option (List StoredFile) };

    /// The reads that were asked for so far, in order, where they are told.
    ghost asked: { Self → Option (List AskedFile) };

    /// How often a read has failed.
    ghost faults: { Self → ℕ };

    /// The count of failures, which never falls and stands still at the type's end.
    fn fault_count(&self) -> u64
        ensures { result ≡ faults self.now };

    /// The bytes of a file, cut after `most + 1`; `None` where there is no such file.
    fn read(
        &mut self,
        alloc: Global,
        folder: &str,
        file: &str,
        most: u64,
    ) -> Result<Option<Vec<u8>>, ReadFault>
        requires { most < 2 ^ 32 }
        ensures bytes { ReadsFile (files self.old) folder.now file.now most result }
        ensures same { files self.new ≡ files self.old }
        ensures asked { HaveAsked (record { folder = folder.now; file = file.now; failed = has_failed result } ∷ []) (asked self.old) (asked self.new) }
        ensures cause { HasReadCause (faults self.old) (faults self.new) result };
}
