//! A table of truth values in which neighbours are counted, told by their number, and looked for.

ghost use Rattle.std.specs.Prelude.{◌≡◌, ℕ, ◌+◌, ◌*◌, ◌<◌, ◌≤◌, ◌&&◌, ◌==◌, not, length, slice_get, Some, IfOk, IfSome};
ghost use Rattle.unit_sight.specs.Tables.{is_new, joins, neighbours, new_neighbours, table_of};
ghost use Rattle.unit_sight.specs.Words.{bits_in, count_to, is_both, words_in, AreFronts};

use crate::bits::{Bits, row_words, table_words};
use crate::mask::Mask;
use crate::words::{first_bit, less, nth_bit, ones_below, ones_of, shared, without_bit};
use std::alloc::Global;
use std::marker::Model;
use venue_types::OutOfMemory;

/// A table, and beside each of its words how many places of the row in front of it are joined.
#[derive(Drop)]
pub(crate) struct Ranked {
    bits: Bits,
    fronts: Vec<u16>,
}

impl Model for Ranked {
    ghost use Rattle.std.specs.Prelude.{ℕ, ◌*◌, Bool, List, length};
    ghost use Rattle.unit_sight.specs.Words.{words_in, AreFronts};

    ghost Value = { List (List Bool) };

    ghost view = { λ a. a.bits };

    ghost invariant = { λ a. AreFronts a.bits a.fronts.items (length a.bits * words_in (length a.bits)) };
}

impl Ranked {
    /// The table with its counts.
    pub(crate) fn of(alloc: Global, bits: Bits) -> Result<Ranked, OutOfMemory>
        ensures { IfOk result (λ ranked. ranked ≡ bits) }
    {
        let fronts = fronts_of(alloc, &bits)?;
        Ok(Ranked { bits, fronts })
    }

    /// How many rows it has, which are as wide.
    pub(crate) fn size(&self) -> u32
        ensures size { result ≡ length self.now }
        ensures range { result ≤ 4096 }
        ensures square { self.now ≡ table_of (length self.now) (joins self.now) }
    {
        self.bits.size()
    }

    /// Whether i and j are joined.
    pub(crate) fn joins(&self, i: u32, j: u32) -> bool
        requires row { i < length self.now }
        requires column { j < length self.now }
        ensures { result ≡ joins self.now i j }
    {
        self.bits.joins(i, j)
    }

    // A word of row i.
    fn word(&self, i: u32, w: u32) -> u64
        requires row { i < length self.now }
        requires within { w < words_in (length self.now) }
        ensures { (k : ℕ) → k < 64 → joins self.now i (64 * w + k) ≡ bits_in result k }
    {
        self.bits.word(i, w)
    }

    // How many places in front of a word of row i are joined to i.
    fn front(&self, i: u32, w: u32) -> u32
        requires row { i < length self.now }
        requires within { w < words_in (length self.now) }
        ensures is { result ≡ count_to (joins self.now i) (64 * w) }
        ensures few { result ≤ 65535 }
    {
        self.fronts[i as usize * row_words(self.bits.size()) as usize + w as usize] as u32
    }

    /// How many places in front of j are joined to i.
    pub(crate) fn rank(&self, i: u32, j: u32) -> u32
        requires row { i < length self.now }
        requires column { j < length self.now }
        ensures { result ≡ count_to (joins self.now i) j }
    {
        self.front(i, j / 64) + ones_below(self.word(i, j / 64), j % 64)
    }

    /// How many places are joined to i.
    pub(crate) fn count(&self, i: u32) -> u32
        requires { i < length self.now }
        ensures { result ≡ count_to (joins self.now i) (length self.now) }
    {
        let last = row_words(self.size()) - 1;
        self.front(i, last) + ones_of(self.word(i, last))
    }
}

impl Ranked {
    /// The k-th place that is joined to i, rising.
    pub(crate) fn nth(&self, i: u32, k: u32) -> Option<u32>
        requires { i < length self.now }
        ensures { result ≡ slice_get (neighbours self.now i) k }
    {
        if k < self.count(i) {
            Some(self.nth_joined(i, k))
        } else {
            None
        }
    }

    // The k-th place that is joined to i, which has more than k.
    fn nth_joined(&self, i: u32, k: u32) -> u32
        requires row { i < length self.now }
        requires more { k < count_to (joins self.now i) (length self.now) }
        ensures { slice_get (neighbours self.now i) k ≡ Some result }
    {
        // Its clause says that the table is as wide as it is high: so a bit that is set is one of a place.
        let _square = self.size();
        let w = self.word_of(i, k);
        let word = self.word(i, w);
        let front = self.front(i, w);
        64 * w + nth_bit(word, k - front)
    }

    // The word of row i in which its k-th neighbour is. No word in front of k / 64 has it, and where most places are joined it isn't far
    // behind.
    fn word_of(&self, i: u32, k: u32) -> u32
        requires row { i < length self.now }
        requires more { k < count_to (joins self.now i) (length self.now) }
        ensures within { result < words_in (length self.now) }
        ensures front { count_to (joins self.now i) (64 * result) ≤ k }
        ensures behind { k < count_to (joins self.now i) (64 * result + 64) }
    {
        let last = row_words(self.size()) - 1;
        let mut w = k / 64;
        while w < last {
            if k < self.front(i, w + 1) {
                return w;
            }
            w += 1;
        }
        w
    }

    /// The first place at `from` or behind that is joined to i, and neither is the place that is known nor joined to it.
    pub(crate) fn next(&self, i: u32, known: Option<u32>, from: u32) -> Option<u32>
        requires row { i < length self.now }
        requires known { IfSome known (λ a. a < length self.now) }
        ensures { result ≡ slice_get (new_neighbours self.now i known from) 0 }
    {
        let mut low = from % 64;
        for w in from / 64..row_words(self.size()) {
            let at = first_bit(self.new_word(i, known, w), low);
            if at < 64 {
                return Some(64 * w + at);
            }
            low = 0;
        }
        None
    }

    /// How many places that are joined to i are in a set.
    pub(crate) fn both(&self, i: u32, mask: &Mask) -> u32
        requires row { i < length self.now }
        requires same { length mask.now ≡ length self.now }
        ensures { result ≡ count_to (is_both self.now i mask.now) (length self.now) }
    {
        let mut both = 0;
        for w in 0..row_words(self.size()) {
            both += ones_of(shared(self.word(i, w), mask.word(w)));
        }
        both
    }

    // A word of row i less the place that is known and all that are joined to it.
    fn new_word(&self, i: u32, known: Option<u32>, w: u32) -> u64
        requires row { i < length self.now }
        requires known { IfSome known (λ a. a < length self.now) }
        requires within { w < words_in (length self.now) }
        ensures { (k : ℕ) → k < 64 → bits_in result k ≡ (joins self.now i (64 * w + k) && is_new self.now known (64 * w + k)) }
    {
        match known {
            None => self.word(i, w),
            Some(a) => self.unshared_word(i, a, w),
        }
    }

    // A word of row i less a and all that are joined to a.
    fn unshared_word(&self, i: u32, a: u32, w: u32) -> u64
        requires row { i < length self.now }
        requires known { a < length self.now }
        requires within { w < words_in (length self.now) }
        ensures { (k : ℕ) → k < 64 → bits_in result k ≡ (joins self.now i (64 * w + k) && (not (a == 64 * w + k) && not (joins self.now a (64 * w + k)))) }
    {
        without_place(less(self.word(i, w), self.word(a, w)), w, a)
    }
}

// A word of places less a place, where that is one of them.
fn without_place(word: u64, w: u32, a: u32) -> u64
    ensures { (k : ℕ) → k < 64 → bits_in result k ≡ (bits_in word k && not (a == 64 * w + k)) }
{
    if a / 64 == w {
        without_bit(word, a % 64)
    } else {
        word
    }
}

// Beside each word of a table how many places of its row in front of it are joined.
fn fronts_of(alloc: Global, bits: &Bits) -> Result<Vec<u16>, OutOfMemory>
    ensures { IfOk result (λ fronts. AreFronts bits.now fronts.items (length bits.now * words_in (length bits.now))) }
{
    let mut fronts = vec![in alloc; 0_u16; table_words(bits.size())]?;
    for i in 0..bits.size() {
        fill_row(bits, fronts.as_mut_slice(), i);
    }
    Ok(fronts)
}

// Tells the counts of one row, behind those of the rows in front of it.
fn fill_row(bits: &Bits, fronts: &mut [u16], i: u32)
    requires row { i < length bits.now }
    requires before { AreFronts bits.now fronts.old (i * words_in (length bits.now)) }
    ensures { AreFronts bits.now fronts.new ((i + 1) * words_in (length bits.now)) }
{
    let words = row_words(bits.size());
    let mut front = 0;
    for w in 0..words {
        fronts[i as usize * words as usize + w as usize] = front as u16;
        front += ones_of(bits.word(i, w));
    }
}
