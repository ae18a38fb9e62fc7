//! Files of the base, read against their limits.

ghost use Rattle.std.specs.Prelude.{◌≡◌, ◌^◌, ◌<◌, IfOk, IfSome, [], ◌∷◌, true, false, OnOk, IsErrOf};
ghost use Rattle.venue_ports.specs.Files.{file_at, HasReadCause};
ghost use Rattle.venue_ports.specs.Asked.{HaveAsked};
ghost use Rattle.venue_commands.specs.FaultOrder.{read_at};
ghost use Rattle.venue_commands.specs.Steps.{IsLoaded, IsSmall};

use std::alloc::Global;
use venue_ports::{Folders, ReadFault};

/// A file, against its limit.
#[derive(Drop)]
pub(crate) enum Loaded {
    Missing,
    Large,
    Whole(Vec<u8>),
}

/// Why a file of the base stops the command.
#[derive(Clone, Copy, Debug, PartialEq, Eq)]
pub enum Cause {
    /// It is not there.
    Missing,
    /// It is over its limit.
    Large,
    /// It is not of its form, and this is its faulty line, from 1.
    Malformed(u64),
}

/// Reads a file of the base.
pub(crate) fn load<F: Folders>(
    alloc: Global,
    folders: &mut F,
    base: &str,
    file: &str,
    limit: u32,
) -> Result<Loaded, ReadFault>
    ensures told { IfOk result (λ loaded. IfSome (F.files folders.old) (λ files. IsLoaded limit (file_at files base.now file.now) loaded)) }
    ensures small { IfOk result (IsSmall limit) }
    ensures same { F.files folders.new ≡ F.files folders.old }
    ensures asked { OnOk result (HaveAsked (read_at base.now file.now false ∷ []) (F.asked folders.old) (F.asked folders.new)) }
    ensures failed { IsErrOf result ReadFault.Failed → HaveAsked (read_at base.now file.now true ∷ []) (F.asked folders.old) (F.asked folders.new) }
    ensures cause { HasReadCause (F.faults folders.old) (F.faults folders.new) result }
{
    match folders.read(alloc, base, file, limit as u64)? {
        None => Ok(Loaded::Missing),
        Some(bytes) if bytes.len() > limit as usize => Ok(Loaded::Large),
        Some(bytes) => Ok(Loaded::Whole(bytes)),
    }
}
