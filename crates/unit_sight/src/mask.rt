//! A set of places.

ghost use Rattle.std.specs.Prelude.{◌≡◌, ℕ, ◌+◌, ◌*◌, ◌<◌, ◌≤◌, ◌||◌, ◌==◌, false, length, get_or, map, IfOk};
ghost use Rattle.unit_sight.specs.Tables.{places};
ghost use Rattle.unit_sight.specs.Words.{bits_in, words_in};

use crate::bits::{has_bit, row_words, with_bit};
use std::alloc::Global;
use std::marker::Model;
use venue_types::OutOfMemory;

/// A set of the places of a room, a bit each. The bits behind the last place are 0.
#[derive(Drop)]
pub struct Mask {
    size: u32,
    words: Vec<u64>,
}

impl Model for Mask {
    ghost use Rattle.std.specs.Prelude.{ℕ, Bool, List};
    ghost use Rattle.unit_sight.specs.Words.{mask_of, AreMaskBits};

    ghost Value = { List Bool };

    ghost view = { λ a. mask_of a.size a.words.items };

    ghost invariant = { λ a. AreMaskBits a.size a.words.items };
}

impl Mask {
    /// A set without places.
    pub fn new(alloc: Global, size: u32) -> Result<Mask, OutOfMemory>
        requires { size ≤ 4096 }
        ensures { IfOk result (λ mask. mask ≡ map (λ j. false) (places size)) }
    {
        let words = vec![in alloc; 0_u64; row_words(size) as usize]?;
        Ok(Mask { size, words })
    }

    /// How many places the room has.
    pub fn size(&self) -> u32
        ensures size { result ≡ length self.now }
        ensures range { result ≤ 4096 }
    {
        self.size
    }

    /// Whether a place is in the set.
    pub fn has(&self, place: u32) -> bool
        requires { place < length self.now }
        ensures { result ≡ get_or self.now place false }
    {
        has_bit(self.words[(place / 64) as usize], place % 64)
    }

    /// Puts a place into the set.
    pub fn put(&mut self, place: u32)
        requires { place < length self.old }
        ensures { self.new ≡ map (λ j. get_or self.old j false || (j == place)) (places (length self.old)) }
    {
        let w = (place / 64) as usize;
        self.words[w] = with_bit(self.words[w], place % 64);
    }

    /// A word of the set: of 64 places one after the other.
    pub(crate) fn word(&self, w: u32) -> u64
        requires { w < words_in (length self.now) }
        ensures { (k : ℕ) → k < 64 → get_or self.now (64 * w + k) false ≡ bits_in result k }
    {
        self.words[w as usize]
    }
}
