//! The part of a feature that a finding names.

ghost use Rattle.std.specs.Prelude.{◌≡◌, ◌+◌, ◌*◌, ◌<◌, ◌^◌, IfOk, IsOk};
ghost use Rattle.imdf_schema.specs.Properties.{property_number};

use imdf_schema::Property;
use venue_types::OutOfMemory;

const MOST_ITEMS: usize = 0x400_0000;

/// The number of an item of a property's list.
///
/// From the place 2^26 on it doesn't fit a finding. A list that long takes more than a gigabyte, and counts as want of
/// memory.
pub(crate) fn member_of(property: Property, place: usize) -> Result<u32, OutOfMemory>
    ensures is { IfOk result (λ member. member ≡ property_number property + 64 * place) }
    ensures fits { place < 2 ^ 26 → IsOk result }
{
    if place >= MOST_ITEMS {
        return Err(OutOfMemory);
    }
    Ok(property.number() as u32 + 64 * place as u32)
}
