//! Why a file holds no settings.

ghost use Rattle.std.specs.Prelude.{◌≡◌, IfOk};
ghost use Rattle.venue_settings.specs.declared.fault.SettingsFault.TheVariants.{OutOfMemory as NoMemory};

use std::alloc::Global;
use venue_types::{OutOfMemory, Text};

/// The first fault of the text of settings. A key within a table is the key alone.
#[derive(Drop)]
pub enum SettingsFault {
    /// The bytes are no document of TOML 1.1, or no UTF-8.
    NotToml,
    /// A key that is needed is missing.
    Missing(Text),
    /// The value at the key is of another kind, or an item of its list is.
    WrongKind(Text),
    /// The value at the key is out of its range.
    Range(Text),
    /// There is no such key.
    Unknown(Text),
    /// The profile's name is that of an earlier one.
    Twice(Text),
    /// Memory ran out.
    OutOfMemory,
}

impl From<OutOfMemory> for SettingsFault {
    ghost from_gives = { λ _ fault. fault ≡ NoMemory };

    fn from(_error: OutOfMemory) -> SettingsFault {
        SettingsFault::OutOfMemory
    }
}

/// A text that owns its bytes.
pub(crate) fn owned(alloc: Global, text: &str) -> Result<Text, OutOfMemory>
    ensures { IfOk result (λ owned. owned ≡ text.now) }
{
    Ok(Text::from_string(String::from_str(alloc, text)?))
}
