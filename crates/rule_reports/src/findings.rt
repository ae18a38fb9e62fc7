//! Gathering what tests find.

ghost use Rattle.std.specs.Prelude.{◌≡◌, ◌++◌, OnOk, OnErr, IsOk, false};
ghost use Rattle.rule_reports.specs.Passes.{found};

use venue_types::OutOfMemory;

/// Adds a place where a test holds.
pub fn add<T: Drop>(places: &mut Vec<T>, holds: bool, place: T) -> Result<(), OutOfMemory>
    ensures ok { OnOk result (places.new.items ≡ places.old.items ++ found holds place) }
    ensures err { OnErr result (places.new.items ≡ places.old.items) }
    ensures idle { holds ≡ false → IsOk result }
{
    if holds {
        places.push(place)?;
    }
    Ok(())
}
