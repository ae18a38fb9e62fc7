//! The settings of a base.

ghost use Rattle.std.specs.Prelude.{◌≡◌, ◌++◌, codes, string_bytes, IfOk, IfErr, IfSome, [], ◌∷◌, true, false, OnOk, IsErrOf};
ghost use Rattle.line_forms.specs.Lines.{line};
ghost use Rattle.venue_ports.specs.Files.{file_at, HasReadCause};
ghost use Rattle.venue_ports.specs.declared.folders.ReadFault.TheVariants.{OutOfMemory as NoMemory};
ghost use Rattle.venue_ports.specs.Asked.{HaveAsked};
ghost use Rattle.venue_commands.specs.FaultOrder.{read_at};
ghost use Rattle.venue_commands.specs.Checked.{IsFaultText, settings_name};
ghost use Rattle.venue_commands.specs.Steps.{IsJudgedText, IsSettled};

use crate::load::{Loaded, load};
use std::alloc::{AllocError, Global};
use venue_ports::{Folders, ReadFault};
use venue_settings::{SettingsFault, read_settings};
use venue_types::{Settings, Text};

const SETTINGS_LIMIT: u32 = 1_048_576;

// The line of a fault that names a key or a profile.
fn keyed(alloc: Global, front: &str, key: &Text) -> Result<String, AllocError>
    ensures { IfOk result (λ text. string_bytes text ≡ line (front.now ++ (codes " " ++ key.now))) }
{
    let key = key.as_str();
    format!(in alloc; "{front} {key}\n")
}

// The line of a fault.
fn fault_text(alloc: Global, fault: SettingsFault) -> Result<String, ReadFault>
    ensures text { IfOk result (λ text. IsFaultText fault (string_bytes text)) }
    ensures memory { IfErr result (λ why. why ≡ NoMemory) }
{
    match fault {
        SettingsFault::NotToml => Ok(String::from_str(alloc, "settings 1\n")?),
        SettingsFault::Missing(key) => Ok(keyed(alloc, "settings 2", &key)?),
        SettingsFault::WrongKind(key) => Ok(keyed(alloc, "settings 3", &key)?),
        SettingsFault::Range(key) => Ok(keyed(alloc, "settings 4", &key)?),
        SettingsFault::Unknown(key) => Ok(keyed(alloc, "settings 5", &key)?),
        SettingsFault::Twice(name) => Ok(keyed(alloc, "settings 6", &name)?),
        SettingsFault::OutOfMemory => Err(ReadFault::OutOfMemory),
    }
}

// The settings of a text, or the line of its fault.
fn settled(alloc: Global, text: &[u8]) -> Result<Result<Settings, String>, ReadFault>
    ensures told { IfOk result (IsJudgedText text.now) }
    ensures memory { IfErr result (λ why. why ≡ NoMemory) }
{
    match read_settings(alloc, text) {
        Ok(settings) => Ok(Ok(settings)),
        Err(fault) => Ok(Err(fault_text(alloc, fault)?)),
    }
}

/// The settings of the base, or the line that says why there are none.
///
/// # Errors
///
/// The folders failed, or memory ran out.
pub fn settings_of<F: Folders>(
    alloc: Global,
    base: &str,
    folders: &mut F,
) -> Result<Result<Settings, String>, ReadFault>
    ensures told { IfOk result (λ settled. IfSome (F.files folders.old) (λ files. IsSettled (file_at files base.now settings_name) settled)) }
    ensures same { F.files folders.new ≡ F.files folders.old }
    ensures asked { OnOk result (HaveAsked (read_at base.now settings_name false ∷ []) (F.asked folders.old) (F.asked folders.new)) }
    ensures failed { IsErrOf result ReadFault.Failed → HaveAsked (read_at base.now settings_name true ∷ []) (F.asked folders.old) (F.asked folders.new) }
    ensures cause { HasReadCause (F.faults folders.old) (F.faults folders.new) result }
{
    match load(alloc, folders, base, "venue.toml", SETTINGS_LIMIT)? {
        Loaded::Missing => Ok(Err(String::from_str(alloc, "missing venue.toml\n")?)),
        Loaded::Large => Ok(Err(String::from_str(alloc, "large venue.toml\n")?)),
        Loaded::Whole(bytes) => settled(alloc, bytes.as_slice()),
    }
}
