//! Why a change isn't ready.

use venue_types::OutOfMemory;

/// Why no change was made ready.
#[derive(Clone, Copy, Debug, PartialEq, Eq)]
pub enum Unready {
    /// The identifier names nothing that can be closed.
    NoFeature,
    /// The feature stands so already.
    Unchanged,
    /// The version is the last that the settings allow.
    Full,
    OutOfMemory,
}

impl From<OutOfMemory> for Unready {
    ghost use Rattle.std.specs.Prelude.{◌≡◌};
    ghost use Rattle.venue_state.specs.declared.unready.Unready.TheVariants.{OutOfMemory};

    ghost from_gives = { λ _ e. e ≡ OutOfMemory };

    fn from(_error: OutOfMemory) -> Unready {
        Unready::OutOfMemory
    }
}
