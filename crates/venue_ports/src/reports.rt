//! What is made of what the system reports.

ghost use Rattle.std.specs.Prelude.{◌≡◌, ◌<◌, ◌↔◌, IfErr, IfOk, IsErr, IsNone, IsOk, OnErr, Ok, Some, string_bytes};
ghost use Rattle.std.specs.Fs.{IsFile, file_type, metadata_len};
ghost use Rattle.venue_ports.specs.Reports.{file_path};

use crate::folders::ReadFault;
use crate::stream::Failed;
use std::alloc::{AllocError, Global};
use std::fs::Metadata;
use std::io;
use std::io::ErrorKind;

/// The path of a file: its folder, `/` and its name.
pub(crate) fn file_path(alloc: Global, folder: &str, file: &str) -> Result<String, AllocError>
    ensures { IfOk result (λ path. string_bytes path ≡ file_path folder.now file.now) }
{
    format!(in alloc; "{folder}/{file}")
}

/// What an error of this kind at a file means: `None` that there is no such file.
pub(crate) fn read_fault(kind: ErrorKind) -> Option<ReadFault>
    ensures missing { IsNone result ↔ (kind ≡ ErrorKind.NotFound) }
    ensures memory { (result ≡ Some ReadFault.OutOfMemory) ↔ (kind ≡ ErrorKind.OutOfMemory) }
{
    match kind {
        ErrorKind::NotFound => None,
        ErrorKind::OutOfMemory => Some(ReadFault::OutOfMemory),
        _ => Some(ReadFault::Failed),
    }
}

/// How many bytes a regular file has. Anything else is a failure, and not a file that isn't there.
pub(crate) fn regular_len(metadata: &Metadata) -> Result<u64, ErrorKind>
    ensures regular { IsOk result ↔ IsFile (file_type metadata.now) }
    ensures len { IfOk result (λ len. len ≡ metadata_len metadata.now) }
    ensures kind { IfErr result (λ kind. kind ≡ ErrorKind.InvalidInput) }
{
    if metadata.is_file() {
        Ok(metadata.len())
    } else {
        Err(ErrorKind::InvalidInput)
    }
}

/// How many bytes a read moved, of which 0 is the end.
pub(crate) fn read_count(reported: io::Result<usize>) -> Result<usize, Failed>
    ensures moved { IfOk reported (λ count. result ≡ Ok count) }
    ensures err { OnErr reported (IsErr result) }
{
    match reported {
        Ok(count) => Ok(count),
        Err(_) => Err(Failed),
    }
}

/// How many bytes a write took, where taking none is a failure.
pub(crate) fn write_count(reported: io::Result<usize>) -> Result<usize, Failed>
    ensures moved { IfOk reported (λ count. 0 < count → result ≡ Ok count) }
    ensures nothing { IfOk reported (λ count. count ≡ 0 → IsErr result) }
    ensures err { OnErr reported (IsErr result) }
{
    match reported {
        Ok(count) if count > 0 => Ok(count),
        _ => Err(Failed),
    }
}
