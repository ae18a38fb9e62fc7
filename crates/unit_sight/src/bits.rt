//! A table of truth values, a bit each.

ghost use Rattle.std.specs.Prelude.{◌≡◌, ◌≢◌, ℕ, ◌+◌, ◌*◌, ◌/◌, ◌<◌, ◌≤◌, ◌&&◌, ◌||◌, ◌==◌, false, length, IfOk};
ghost use Rattle.std.specs.Int.{bit_at};
ghost use Rattle.unit_sight.specs.Tables.{joins, table_of};
ghost use Rattle.unit_sight.specs.Words.{bits_in, words_in};

use std::alloc::Global;
use std::marker::Model;
use venue_types::OutOfMemory;

/// A table of so many rows of as many truth values. Each row stands in whole words of 64 bits, of which those behind the last place are 0.
#[derive(Drop)]
pub(crate) struct Bits {
    size: u32,
    words: Vec<u64>,
}

impl Model for Bits {
    ghost use Rattle.std.specs.Prelude.{ℕ, Bool, List};
    ghost use Rattle.unit_sight.specs.Words.{bits_of, AreBits};

    ghost Value = { List (List Bool) };

    ghost view = { λ a. bits_of a.size a.words.items };

    ghost invariant = { λ a. AreBits a.size a.words.items };
}

impl Bits {
    /// A table of nothing but false.
    pub(crate) fn new(alloc: Global, size: u32) -> Result<Bits, OutOfMemory>
        requires { size ≤ 4096 }
        ensures { IfOk result (λ bits. bits ≡ table_of size (λ i j. false)) }
    {
        let words = vec![in alloc; 0_u64; table_words(size)]?;
        Ok(Bits { size, words })
    }

    /// How many rows it has, which are as wide.
    pub(crate) fn size(&self) -> u32
        ensures size { result ≡ length self.now }
        ensures range { result ≤ 4096 }
        ensures square { self.now ≡ table_of (length self.now) (joins self.now) }
    {
        self.size
    }

    /// A word of row i: of 64 places one after the other, which are joined to i.
    pub(crate) fn word(&self, i: u32, w: u32) -> u64
        requires row { i < length self.now }
        requires within { w < words_in (length self.now) }
        ensures { (k : ℕ) → k < 64 → joins self.now i (64 * w + k) ≡ bits_in result k }
    {
        self.words[i as usize * row_words(self.size) as usize + w as usize]
    }

    /// Whether i and j are joined.
    pub(crate) fn joins(&self, i: u32, j: u32) -> bool
        requires row { i < length self.now }
        requires column { j < length self.now }
        ensures { result ≡ joins self.now i j }
    {
        let word = self.words[word_place(self.size, i, j)];
        has_bit(word, j % 64)
    }

    /// Joins i and j, both ways.
    pub(crate) fn join(&mut self, i: u32, j: u32)
        requires row { i < length self.old }
        requires column { j < length self.old }
        ensures { self.new ≡ table_of (length self.old) (λ a b. joins self.old a b || (((a == i) && (b == j)) || ((a == j) && (b == i)))) }
    {
        self.put(i, j);
        self.put(j, i);
    }

    // Sets the bit of column j in row i.
    fn put(&mut self, i: u32, j: u32)
        requires row { i < length self.old }
        requires column { j < length self.old }
        ensures { self.new ≡ table_of (length self.old) (λ a b. joins self.old a b || ((a == i) && (b == j))) }
    {
        let place = word_place(self.size, i, j);
        self.words[place] = with_bit(self.words[place], j % 64);
    }
}

/// How many words a row has.
pub(crate) fn row_words(size: u32) -> u32
    requires { size ≤ 4096 }
    ensures is { result ≡ words_in size }
    ensures few { result ≤ 64 }
{
    (size + 63) / 64
}

/// How many words a table has.
pub(crate) fn table_words(size: u32) -> usize
    requires { size ≤ 4096 }
    ensures { result ≡ size * words_in size }
{
    size as usize * row_words(size) as usize
}

// Where the word stands that has the bit of column j in row i.
fn word_place(size: u32, i: u32, j: u32) -> usize
    requires range { size ≤ 4096 }
    requires row { i < size }
    requires column { j < size }
    ensures is { result ≡ i * words_in size + j / 64 }
    ensures within { result < size * words_in size }
{
    i as usize * row_words(size) as usize + (j / 64) as usize
}

/// The word with a bit set.
pub(crate) fn with_bit(word: u64, k: u32) -> u64
    requires { k < 64 }
    ensures set { bit_at result k ≡ 1 }
    ensures others { (i : ℕ) → i ≢ k → bit_at result i ≡ bit_at word i }
{
    word | (1 << k)
}

/// Whether the word has a bit.
pub(crate) fn has_bit(word: u64, k: u32) -> bool
    requires { k < 64 }
    ensures { result ≡ (bit_at word k == 1) }
{
    (word >> k) & 1 == 1
}
