//! Small pieces at a place: a byte, and numbers with the most significant byte first.

ghost use Rattle.std.specs.Prelude.{◌≡◌, ◌<◌, ◌≤◌, ◌+◌, ◌*◌, ◌^◌, ◌++◌, ◌∷◌, [], IfOk, OnOk};
ghost use Rattle.std.specs.Int.{bytes_high_first};
ghost use Rattle.venue_ports.specs.Causes.{HasExactCause};
ghost use Rattle.venue_ports.specs.Moments.{Now};
ghost use Rattle.change_journal.specs.Looks.{Gives, Looks, Spans, given};
ghost use Rattle.change_journal.specs.Readers.{IsSettled};

use crate::reader::Reader;
use venue_ports::{Disk, Failed};

/// The byte at a place.
pub(crate) fn byte_at<K: Disk>(reader: &mut Reader<K>, place: u64) -> Result<u8, Failed>
    requires within { place < reader.old.length }
    ensures most { reader.old.length < 2 ^ 64 }
    ensures byte { IfOk result (λ byte. Gives (K.moments reader.old.disk) (Spans place (place + 1) (byte ∷ []))) }
    ensures kept { Now IsSettled (K.moments reader.old.disk) }
    ensures looks { Looks (K.moments reader.old.disk) (K.moments reader.new.disk) }
    ensures told { OnOk result (given (K.moments reader.new.disk) ≡ given (K.moments reader.old.disk)) }
    ensures same { reader.new.length ≡ reader.old.length }
    ensures cause { HasExactCause (K.faults reader.old.disk) (K.faults reader.new.disk) result }
{
    let mut bytes = [0_u8];
    reader.fetch(place, &mut bytes)?;
    Ok(bytes[0])
}

// The number in two bytes.
fn short_of(bytes: &[u8; 2]) -> u16
    ensures { bytes_high_first 2 result ≡ bytes.now }
{
    u16::from_be_bytes(*bytes)
}

/// The number in two bytes at a place.
pub(crate) fn short_at<K: Disk>(reader: &mut Reader<K>, place: u64) -> Result<u16, Failed>
    requires within { place + 2 ≤ reader.old.length }
    ensures number { IfOk result (λ n. Gives (K.moments reader.old.disk) (Spans place (place + 2) (bytes_high_first 2 n))) }
    ensures looks { Looks (K.moments reader.old.disk) (K.moments reader.new.disk) }
    ensures told { OnOk result (given (K.moments reader.new.disk) ≡ given (K.moments reader.old.disk)) }
    ensures same { reader.new.length ≡ reader.old.length }
    ensures cause { HasExactCause (K.faults reader.old.disk) (K.faults reader.new.disk) result }
{
    let mut bytes = [0_u8; 2];
    reader.fetch(place, &mut bytes)?;
    Ok(short_of(&bytes))
}

// The number in eight bytes.
fn long_of(bytes: &[u8; 8]) -> u64
    ensures { bytes_high_first 8 result ≡ bytes.now }
{
    u64::from_be_bytes(*bytes)
}

/// The number in eight bytes at a place.
pub(crate) fn long_at<K: Disk>(reader: &mut Reader<K>, place: u64) -> Result<u64, Failed>
    requires within { place + 8 ≤ reader.old.length }
    ensures number { IfOk result (λ n. Gives (K.moments reader.old.disk) (Spans place (place + 8) (bytes_high_first 8 n))) }
    ensures most { reader.old.length < 2 ^ 64 }
    ensures looks { Looks (K.moments reader.old.disk) (K.moments reader.new.disk) }
    ensures told { OnOk result (given (K.moments reader.new.disk) ≡ given (K.moments reader.old.disk)) }
    ensures same { reader.new.length ≡ reader.old.length }
    ensures cause { HasExactCause (K.faults reader.old.disk) (K.faults reader.new.disk) result }
{
    let mut bytes = [0_u8; 8];
    reader.fetch(place, &mut bytes)?;
    Ok(long_of(&bytes))
}

// The number of two halves.
fn joined(high: u64, low: u64) -> u128
    ensures { bytes_high_first 16 result ≡ bytes_high_first 8 high ++ bytes_high_first 8 low }
{
    high as u128 * 18_446_744_073_709_551_616 + low as u128
}

/// The number in sixteen bytes at a place.
pub(crate) fn wide_at<K: Disk>(reader: &mut Reader<K>, place: u64) -> Result<u128, Failed>
    requires within { place + 16 ≤ reader.old.length }
    ensures number { IfOk result (λ n. Gives (K.moments reader.old.disk) (Spans place (place + 16) (bytes_high_first 16 n))) }
    ensures looks { Looks (K.moments reader.old.disk) (K.moments reader.new.disk) }
    ensures told { OnOk result (given (K.moments reader.new.disk) ≡ given (K.moments reader.old.disk)) }
    ensures same { reader.new.length ≡ reader.old.length }
    ensures cause { HasExactCause (K.faults reader.old.disk) (K.faults reader.new.disk) result }
{
    let high = long_at(reader, place)?;
    let low = long_at(reader, place + 8)?;
    Ok(joined(high, low))
}
