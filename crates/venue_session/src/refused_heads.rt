//! The end of a session by a head that is refused.

ghost use Rattle.std.specs.Prelude.{◌≡◌, ℕ, List};
ghost use Rattle.venue_hall.specs.Facts.{Facts};
ghost use Rattle.wire_frames.specs.Frames.{IsRefused};
ghost use Rattle.wire_replies.specs.Heads.{refusal_status};
ghost use Rattle.venue_session.specs.Going.{Moment, moment, IsGoing, HasEnded};

use crate::ends::End;
use crate::writer::write_all;
use venue_ports::Stream;
use wire_frames::Refusal;
use wire_replies::refusal_bytes;

// The status of a refusal.
fn status_of(refusal: Refusal) -> u16
    ensures { result ≡ refusal_status refusal }
{
    match refusal {
        Refusal::HeadTooLarge => 431,
        Refusal::BadHead => 400,
        Refusal::TransferCoding => 501,
        Refusal::BodyTooLarge => 413,
        Refusal::NoPath => 404,
        Refusal::Method(_) => 405,
        Refusal::NotStaff => 403,
        Refusal::BadBody => 400,
        Refusal::BadQuery => 400,
    }
}

/// Writes why the head that waits is refused, and tells how the session ends by it.
pub(crate) fn refuse<L: Stream>(connection: &mut L, refusal: Refusal) -> End
    ensures { (keys : List (List ℕ)) (first : Moment) (facts : Facts) (taken : ℕ) (waiting : List ℕ)
        → IsGoing keys first (moment facts (L.left connection.old) (L.written connection.old) (L.starts connection.old) (L.faults connection.old)) taken waiting
        → IsRefused waiting refusal
        → HasEnded keys first (moment facts (L.left connection.new) (L.written connection.new) (L.starts connection.new) (L.faults connection.new)) result }
{
    match write_all(connection, refusal_bytes(refusal, true)) {
        Ok(()) => End::Refused(status_of(refusal)),
        Err(_failed) => End::LinkFault,
    }
}
