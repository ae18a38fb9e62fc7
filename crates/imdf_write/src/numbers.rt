//! Numbers in decimal.

ghost use Rattle.std.specs.Prelude.{◌≡◌, ◌+◌, ◌^◌, ◌<◌, ◌≤◌, ◌∷◌, ◌++◌, length, drop};
ghost use Rattle.geo_decimal.specs.Text.{nine_digits, size_text, degrees_text};
ghost use Rattle.json_text.specs.Drafts.{onto};
ghost use Rattle.json_text.specs.Compact.{compact};
ghost use Rattle.imdf_write.specs.Values.{ordinal_value, position_value};

use itoa::{Buffer, write_digits};
use json_text::Draft;
use venue_types::Point;

// Nanodegrees in a degree.
const DEGREE: u64 = 1_000_000_000;

// More bytes than a position has: two numbers of at most 21 bytes, and three marks.
const POSITION_ROOM: usize = 48;

// Writes a point and nine digits so that they end at `end`, and returns where they start.
#[inline]
fn write_billionths(billionths: u64, room: &mut [u8], end: usize) -> usize
    requires few { billionths < 1000000000 }
    requires room { (10 ≤ end) × (end ≤ length room.old) }
    ensures start { result + 10 ≡ end }
    ensures written { drop result room.new ≡ (46 ∷ nine_digits billionths) ++ drop end room.old }
{
    // Behind a 1, in whose place the point is put, they have nine digits.
    let point = write_digits(DEGREE + billionths, room, end);
    room[point] = b'.';
    point
}

// Writes degrees without a sign so that they end at `end`, and returns where they start.
#[inline]
fn write_size(size: u64, room: &mut [u8], end: usize) -> usize
    requires room { (20 ≤ end) × (end ≤ length room.old) }
    requires few { size ≤ 2 ^ 63 }
    ensures start { result + length (size_text size) ≡ end }
    ensures short { length (size_text size) ≤ 20 }
    ensures written { drop result room.new ≡ size_text size ++ drop end room.old }
{
    let point = write_billionths(size % DEGREE, room, end);
    write_digits(size / DEGREE, room, point)
}

// Writes degrees so that they end at `end`, and returns where they start.
#[inline]
fn write_degrees(nano: i64, room: &mut [u8], end: usize) -> usize
    requires { (21 ≤ end) × (end ≤ length room.old) }
    ensures start { result + length (degrees_text nano) ≡ end }
    ensures short { length (degrees_text nano) ≤ 21 }
    ensures written { drop result room.new ≡ degrees_text nano ++ drop end room.old }
{
    let start = write_size(nano.unsigned_abs(), room, end);
    if nano < 0 {
        room[start - 1] = b'-';
        return start - 1;
    }
    start
}

/// Adds a position: longitude and latitude.
pub(crate) fn append_position(point: &Point, out: &mut Draft)
    ensures { out.new ≡ onto out.old (compact (position_value point.now)) }
{
    let mut room = [0u8; POSITION_ROOM];
    room[POSITION_ROOM - 1] = b']';
    let latitude = write_degrees(point.y, &mut room, POSITION_ROOM - 1);
    room[latitude - 1] = b',';
    let longitude = write_degrees(point.x, &mut room, latitude - 1);
    room[longitude - 1] = b'[';
    out.append(&room[longitude - 1..]);
}

/// Adds an ordinal.
pub(crate) fn append_ordinal(ordinal: &i16, out: &mut Draft)
    ensures { out.new ≡ onto out.old (compact (ordinal_value ordinal.now)) }
{
    let mut buffer = Buffer::new();
    out.append(buffer.format(*ordinal).as_bytes());
}
