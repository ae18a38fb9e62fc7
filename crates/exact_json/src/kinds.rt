//! The brackets that are open while a value is passed over.

ghost use Rattle.std.specs.Prelude.{◌≡◌, ◌≤◌, ◌<◌, ◌^◌, [], ◌∷◌, OnOk, Some, drop, slice_get};
ghost use Rattle.exact_json.specs.Kinds.{closing};
ghost use Rattle.exact_json.specs.Bits.{kind_of_bit, word};

use std::alloc::{AllocError, Global};
use std::marker::Model;

// A word from here on has no bit left.
const FULL: u64 = 1 << 63;

/// Which bracket opened it.
#[derive(Clone, Copy, Debug, PartialEq, Eq)]
pub(crate) enum Kind {
    List,
    Object,
}

impl Kind {
    pub(crate) fn closing(self) -> u8
        ensures { result ≡ closing self }
    {
        match self {
            Kind::List => b']',
            Kind::Object => b'}',
        }
    }
}

fn bit(kind: Kind) -> u64
    ensures value { kind_of_bit result ≡ kind }
    ensures small { result < 2 }
{
    match kind {
        Kind::List => 0,
        Kind::Object => 1,
    }
}

fn kind_of_bit(bit: u64) -> Kind
    ensures { result ≡ kind_of_bit bit }
{
    if bit == 0 { Kind::List } else { Kind::Object }
}

// A word with one more kind.
fn added(kinds: u64, kind: Kind) -> u64
    requires { (1 ≤ kinds) × (kinds < 2 ^ 63) }
    ensures value { word result ≡ kind ∷ word kinds }
    ensures above { 1 < result }
{
    kinds * 2 + bit(kind)
}

// A word without its newest kind.
fn removed(kinds: u64) -> u64
    requires { 1 < kinds }
    ensures value { word result ≡ drop 1 (word kinds) }
    ensures leading { 1 ≤ result }
{
    kinds / 2
}

fn newest_of(kinds: u64) -> Kind
    requires { 1 < kinds }
    ensures { Some result ≡ slice_get (word kinds) 0 }
{
    kind_of_bit(kinds % 2)
}

/// Kinds, of which contracts see the one first that was opened last. Each takes one bit.
#[derive(Drop)]
pub(crate) struct Kinds {
    // Each full word has 63 kinds below its leading one, and the last one is the newest.
    full: Vec<u64>,
    newest: u64,
}

impl Model for Kinds {
    ghost use Rattle.std.specs.Prelude.{List, ◌++◌};
    ghost use Rattle.exact_json.specs.declared.kinds.Kind.{Kind};
    ghost use Rattle.exact_json.specs.Bits.{word, words, IsStack};

    ghost Value = { List Kind };

    ghost view = { λ a. word a.newest ++ words a.full.items };

    ghost invariant = { λ a. IsStack a.newest a.full.items };
}

impl Kinds {
    pub(crate) fn new(alloc: Global) -> Kinds
        ensures { result ≡ [] }
    {
        Kinds {
            full: Vec::new(alloc),
            newest: 1,
        }
    }

    pub(crate) fn open(&mut self, kind: Kind) -> Result<(), AllocError>
        ensures { OnOk result (self.new ≡ kind ∷ self.old) }
    {
        if self.newest < FULL {
            self.newest = added(self.newest, kind);
            return Ok(());
        }
        match self.full.push(self.newest) {
            Ok(()) => {
                self.newest = added(1, kind);
                Ok(())
            }
            Err(_) => Err(AllocError),
        }
    }

    pub(crate) fn innermost(&self) -> Option<Kind>
        ensures { result ≡ slice_get self.now 0 }
    {
        if self.newest > 1 {
            Some(newest_of(self.newest))
        } else {
            None
        }
    }

    pub(crate) fn close(&mut self)
        ensures { self.new ≡ drop 1 self.old }
    {
        if self.newest <= 1 {
            return;
        }
        let rest = removed(self.newest);
        if rest > 1 {
            self.newest = rest;
            return;
        }
        match self.full.pop() {
            Some(kinds) => self.newest = kinds,
            None => self.newest = 1,
        }
    }
}
