//! The order of entries along a curve on which neighbours mostly follow each other.

ghost use Rattle.std.specs.Prelude.{◌≡◌, IfOk, IsPermutation, map};
ghost use Rattle.opening_match.specs.Morton.{entry_of};

use crate::entries::Entry;
use std::alloc::Global;
use venue_types::{FeatureId, OutOfMemory};

/// An entry behind what it is sorted by: its level, and its place on the curve.
#[derive(Clone, Copy, Debug, PartialEq, Eq, PartialOrd, Ord)]
pub(crate) struct Coded {
    level: FeatureId,
    code: u64,
    pub entry: Entry,
}

// The lower 32 bits, with a 0 in front of each.
fn spread(n: u64) -> u64 {
    let n = n & 0xffff_ffff;
    let n = (n | n << 16) & 0x0000_ffff_0000_ffff;
    let n = (n | n << 8) & 0x00ff_00ff_00ff_00ff;
    let n = (n | n << 4) & 0x0f0f_0f0f_0f0f_0f0f;
    let n = (n | n << 2) & 0x3333_3333_3333_3333;
    (n | n << 1) & 0x5555_5555_5555_5555
}

// The number, counted from the least.
fn from_least(n: i64) -> u64 {
    (n as i128 - i64::MIN as i128) as u64
}

// The place of an entry in Morton's order: the bits of both its coordinates by turns.
fn morton_code(entry: &Entry) -> u64 {
    spread(from_least(entry.x)) | spread(from_least(entry.y)) << 1
}

// The entries with their codes.
fn coded_of(alloc: Global, entries: &[Entry]) -> Result<Vec<Coded>, OutOfMemory>
    ensures { IfOk result (λ list. map entry_of list.items ≡ entries.now) }
{
    let mut list = Vec::with_capacity(alloc, entries.len())?;
    for entry in entries {
        list.push(Coded {
            level: entry.level,
            code: morton_code(entry),
            entry: *entry,
        })?;
    }
    Ok(list)
}

// The same entries without them.
fn plain_of(alloc: Global, coded: &[Coded]) -> Result<Vec<Entry>, OutOfMemory>
    ensures { IfOk result (λ list. list.items ≡ map entry_of coded.now) }
{
    let mut list = Vec::with_capacity(alloc, coded.len())?;
    for one in coded {
        list.push(one.entry)?;
    }
    Ok(list)
}

/// The entries level by level, and on each in Morton's order. It decides how fast a tree over them answers, never what.
pub(crate) fn in_morton_order(alloc: Global, entries: &[Entry]) -> Result<Vec<Entry>, OutOfMemory>
    ensures { IfOk result (λ list. IsPermutation entries.now list.items) }
{
    let mut coded = coded_of(alloc, entries)?;
    coded.sort_unstable();
    plain_of(alloc, coded.as_slice())
}
