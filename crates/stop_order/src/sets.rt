//! Sets of stops, a bit a stop.

ghost use Rattle.std.specs.Prelude.{◌≡◌, ◌↔◌, ◌+◌, ◌-◌, ◌^◌, ◌<◌, ◌≤◌, IsTrue};
ghost use Rattle.std.specs.Int.{bit_at};

/// The set of this stop alone, which is one more than the set of all stops below it.
pub fn only(stop: usize) -> usize
    requires { stop ≤ 8 }
    ensures is { result ≡ 2 ^ stop }
    ensures few { result ≤ 256 }
{
    1 << stop
}

/// Whether a stop is in the set.
pub fn has(set: usize, stop: usize) -> bool
    requires { stop < 8 }
    ensures { IsTrue result ↔ bit_at set stop ≡ 1 }
{
    (set >> stop) & 1 == 1
}

/// A stop of the set.
pub fn one_of(set: usize) -> usize
    requires some { 0 < set }
    requires few { set < 256 }
    ensures has { bit_at set result ≡ 1 }
    ensures few { result < 8 }
{
    set.trailing_zeros() as usize
}

/// The set less a stop of it.
pub fn without(set: usize, stop: usize) -> usize
    requires few { stop < 8 }
    requires has { bit_at set stop ≡ 1 }
    ensures { result ≡ set - 2 ^ stop }
{
    set - only(stop)
}
