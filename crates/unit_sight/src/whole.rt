//! A room in which any two places are joined: what is asked of it is told by arithmetic.

ghost use Rattle.std.specs.Prelude.{◌≡◌, ℕ, ◌<◌, ◌≤◌, ◌↔◌, ◌==◌, not, length, slice_get, None, IsTrue, false, get_or};
ghost use Rattle.unit_sight.specs.Tables.{joins, neighbours, new_neighbours, IsWhole};
ghost use Rattle.unit_sight.specs.Words.{count_to, is_both, whole_of};

use crate::bits::{Bits, row_words};
use crate::mask::Mask;
use crate::words::ones_of;

/// Whether any two places of a table are joined, and none to itself.
pub(crate) fn is_whole(bits: &Bits) -> bool
    ensures { IsTrue result ↔ IsWhole bits.now }
{
    for i in 0..bits.size() {
        if !is_row_whole(bits, i) {
            return false;
        }
    }
    true
}

// Whether i is joined to all others.
fn is_row_whole(bits: &Bits, i: u32) -> bool
    requires { i < length bits.now }
    ensures { IsTrue result ↔ ((j : ℕ) → j < length bits.now → joins bits.now i j ≡ not (i == j)) }
{
    for j in 0..bits.size() {
        if bits.joins(i, j) == (i == j) {
            return false;
        }
    }
    true
}

/// How many places in front of j are not i.
pub(crate) fn whole_rank(size: u32, i: u32, j: u32) -> u32
    requires row { i < size }
    requires column { j ≤ size }
    ensures { result ≡ count_to (joins (whole_of size) i) j }
{
    if i < j { j - 1 } else { j }
}

/// The k-th place that is not i.
pub(crate) fn whole_nth(size: u32, i: u32, k: u32) -> Option<u32>
    requires { i < size }
    ensures { result ≡ slice_get (neighbours (whole_of size) i) k }
{
    if k < i {
        Some(k)
    } else if k < size - 1 {
        Some(k + 1)
    } else {
        None
    }
}

/// The first place at `from` or behind that is not i.
pub(crate) fn whole_next(size: u32, i: u32, from: u32) -> Option<u32>
    requires { i < size }
    ensures { result ≡ slice_get (new_neighbours (whole_of size) i None from) 0 }
{
    let place = if from == i { from + 1 } else { from };
    if place < size { Some(place) } else { None }
}

/// How many places of a set are not i.
pub(crate) fn whole_both(size: u32, i: u32, mask: &Mask) -> u32
    requires row { i < size }
    requires same { length mask.now ≡ size }
    ensures { result ≡ count_to (is_both (whole_of size) i mask.now) size }
{
    let all = count_of(mask);
    if mask.has(i) { all - 1 } else { all }
}

// How many places a set has.
fn count_of(mask: &Mask) -> u32
    ensures { result ≡ count_to (λ j. get_or mask.now j false) (length mask.now) }
{
    let mut count = 0;
    for w in 0..row_words(mask.size()) {
        count += ones_of(mask.word(w));
    }
    count
}
