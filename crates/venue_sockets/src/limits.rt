//! How long a link keeps a worker, by who waits behind.

ghost use Rattle.std.specs.Prelude.{◌≡◌, ◌+◌, ◌≤◌, ◌↔◌};
ghost use Rattle.std.specs.Duration.{as_nanos};
ghost use Rattle.venue_sockets.specs.Limits.{most_nanos};

use std::time::Duration;

/// The longest that a call waits before it asks who waits behind, in milliseconds.
pub(crate) const SLICE_MILLIS: u64 = 10;

/// The longest that one call waits, in seconds.
pub(crate) const ONE_CALL_SECS: u64 = 10;

// How many make a crowd.
const CROWD: usize = 8;

/// What a worker waits for.
#[derive(Clone, Copy, PartialEq, Eq)]
pub(crate) enum Awaited {
    /// Bytes of the client.
    Bytes,
    /// Room for bytes to the client.
    Room,
    /// What the client still sends, and its end.
    End,
}

/// Who has something to do for a worker, beside those that workers are on their way to.
#[derive(Clone, Copy, PartialEq, Eq)]
pub(crate) enum Behind {
    Nobody,
    /// Fewer than eight.
    Others,
    /// Eight or more.
    Crowd,
}

/// Who waits behind, where so many are ready and so many workers are on their way.
pub(crate) fn behind_of(ready: usize, coming: usize) -> Behind
    ensures nobody { (result ≡ Behind.Nobody) ↔ (ready ≤ coming) }
    ensures crowd { (result ≡ Behind.Crowd) ↔ (coming + 8 ≤ ready) }
{
    match ready.saturating_sub(coming) {
        0 => Behind::Nobody,
        waiting if waiting < CROWD => Behind::Others,
        _ => Behind::Crowd,
    }
}

/// How many that are ready tell a worker all that it asks, where so many workers are on their way: at its end one more, and else a crowd more.
pub(crate) fn enough(awaited: Awaited, coming: usize) -> usize {
    match awaited {
        Awaited::Bytes | Awaited::Room => coming.saturating_add(CROWD),
        Awaited::End => coming.saturating_add(1),
    }
}

/// The most that a worker waits in all.
pub(crate) fn most(awaited: Awaited, behind: Behind) -> Duration
    ensures { as_nanos result ≡ most_nanos awaited behind }
{
    match (awaited, behind) {
        (Awaited::Bytes, Behind::Nobody) => Duration::from_secs(30),
        (Awaited::Bytes, Behind::Others) => Duration::from_millis(50),
        (Awaited::Bytes, Behind::Crowd) => Duration::ZERO,
        (Awaited::Room, Behind::Nobody) => Duration::from_secs(60),
        (Awaited::Room, Behind::Others) => Duration::from_secs(2),
        (Awaited::Room, Behind::Crowd) => Duration::from_millis(200),
        (Awaited::End, Behind::Nobody) => Duration::from_secs(2),
        (Awaited::End, Behind::Others | Behind::Crowd) => Duration::ZERO,
    }
}
