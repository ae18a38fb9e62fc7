//! A session at a seat, over a stream in memory.

ghost use Rattle.std.specs.Prelude.{◌≡◌};

use std::alloc::Global;
use std::test::Fail;
use test_station::station_settings;
use venue_hall::Hall;
use venue_ports::MemoryStream;
use venue_session::serve_session;
use venue_wire::Front;

// A stream of these bytes, which come a hundred at a time.
fn stream(alloc: Global, sent: &str) -> Result<MemoryStream, Fail> {
    let input = Vec::from_slice(alloc, sent.as_bytes())?;
    let pieces = vec![in alloc; 100; input.len() / 100 + 1]?;
    let none = Vec::new(alloc);
    Ok(MemoryStream::new(alloc, input, pieces, 4_000, none, Vec::new(alloc))?)
}

/// What is written in a session that sends these bytes, to the staff of the station.
pub(crate) fn served<H: Hall>(alloc: Global, seat: &mut H, sent: &str) -> Result<Vec<u8>, Fail>
    ensures { (H.facts seat.new).parts ≡ (H.facts seat.old).parts }
{
    let settings = station_settings(alloc)?;
    let front = Front::new(alloc, &settings.staff_keys)?;
    let mut link = stream(alloc, sent)?;
    let _end = serve_session(alloc, seat, &front, &mut link);
    Ok(Vec::from_slice(alloc, link.written())?)
}
