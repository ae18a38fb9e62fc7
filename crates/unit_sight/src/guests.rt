//! Guests: places that see no other, each joined to its host.

ghost use Rattle.std.specs.Prelude.{◌≡◌, ℕ, ◌<◌, ◌||◌, Bool, List, length, map, IfOk};
ghost use Rattle.std.specs.List.{list_all};
ghost use Rattle.unit_sight.specs.Joined.{is_blind};
ghost use Rattle.unit_sight.specs.Tables.{joins, places, table_of};
ghost use Rattle.unit_sight.specs.Rooms.{AreLengths};
ghost use Rattle.unit_sight.specs.Finding.{FitsLengths, is_empty_row, are_tied, are_tied_at};

use crate::bits::Bits;
use crate::hosts::{Lengths, host_of, sees_some};
use std::alloc::Global;
use venue_types::OutOfMemory;

/// Which places are joined to no other.
pub(crate) fn blind_places(alloc: Global, bits: &Bits) -> Result<Vec<bool>, OutOfMemory>
    ensures { IfOk result (λ list. list.items ≡ map (is_empty_row bits.now) (places (length bits.now))) }
{
    let mut list = Vec::new(alloc);
    for i in 0..bits.size() {
        list.push(joins_none(bits, i))?;
    }
    Ok(list)
}

// Whether a place is joined to no other.
fn joins_none(bits: &Bits, i: u32) -> bool
    requires { i < length bits.now }
    ensures { result ≡ is_empty_row bits.now i }
{
    for j in 0..bits.size() {
        if bits.joins(i, j) {
            return false;
        }
    }
    true
}

/// Whether all the places are blind.
pub(crate) fn are_all(blind: &[bool]) -> bool
    ensures { result ≡ list_all (λ each. each) blind.now }
{
    for each in blind {
        if !*each {
            return false;
        }
    }
    true
}

/// Joins each blind place to its host, both ways.
pub(crate) fn join_guests(lengths: &Lengths, blind: &[bool], bits: &mut Bits)
    requires fits { FitsLengths lengths.now.spots.now lengths.now.kx lengths.now.ky }
    requires blind { length blind.now ≡ length lengths.now.spots.now }
    requires size { length bits.old ≡ length lengths.now.spots.now }
    ensures { (sees test : ℕ → ℕ → Bool) → (far : ℕ → ℕ → ℕ) → AreLengths lengths.now.spots.now lengths.now.kx lengths.now.ky far → blind.now ≡ map (is_blind sees (places (length lengths.now.spots.now))) (places (length lengths.now.spots.now)) → bits.old ≡ table_of (length lengths.now.spots.now) test → bits.new ≡ table_of (length lengths.now.spots.now) (λ i j. test i j || are_tied sees far (length lengths.now.spots.now) (length lengths.now.spots.now) i j) }
{
    for a in 0..bits.size() {
        join_guest(lengths, blind, a, bits);
    }
}

// Joins a place to its host if it is blind.
fn join_guest(lengths: &Lengths, blind: &[bool], a: u32, bits: &mut Bits)
    requires fits { FitsLengths lengths.now.spots.now lengths.now.kx lengths.now.ky }
    requires blind { length blind.now ≡ length lengths.now.spots.now }
    requires size { length bits.old ≡ length lengths.now.spots.now }
    requires place { a < length lengths.now.spots.now }
    ensures size { length bits.new ≡ length lengths.now.spots.now }
    ensures told { (sees test : ℕ → ℕ → Bool) → (far : ℕ → ℕ → ℕ) → AreLengths lengths.now.spots.now lengths.now.kx lengths.now.ky far → blind.now ≡ map (is_blind sees (places (length lengths.now.spots.now))) (places (length lengths.now.spots.now)) → bits.old ≡ table_of (length lengths.now.spots.now) test → bits.new ≡ table_of (length lengths.now.spots.now) (λ i j. test i j || are_tied_at sees far (length lengths.now.spots.now) a i j) }
{
    if sees_some(blind, a) {
        return;
    }
    match host_of(lengths, blind, a) {
        None => {}
        Some(host) => bits.join(a, host),
    }
}
