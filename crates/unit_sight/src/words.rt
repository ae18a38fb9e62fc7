//! The bits of a word.

ghost use Rattle.std.specs.Prelude.{◌≡◌, ◌≢◌, ℕ, ◌<◌, ◌≤◌, ◌==◌, ◌&&◌, not};
ghost use Rattle.std.specs.Int.{bit_at};
ghost use Rattle.unit_sight.specs.Words.{bits_in, count_to};

/// The first bit of a word at `from` or behind; 64 where there is none.
pub(crate) fn first_bit(word: u64, from: u32) -> u32
    requires { from < 64 }
    ensures range { result ≤ 64 }
    ensures behind { from ≤ result }
    ensures bit { result < 64 → bit_at word result ≡ 1 }
    ensures none { (k : ℕ) → from ≤ k → k < result → bit_at word k ≡ 0 }
{
    let rest = word >> from;
    if rest == 0 {
        64
    } else {
        from + rest.trailing_zeros()
    }
}

/// How many bits of a word stand below one.
pub(crate) fn ones_below(word: u64, k: u32) -> u32
    requires { k < 64 }
    ensures { result ≡ count_to (bits_in word) k }
{
    (word & ((1 << k) - 1)).count_ones()
}

/// How many bits a word has.
pub(crate) fn ones_of(word: u64) -> u32
    ensures is { result ≡ count_to (bits_in word) 64 }
    ensures few { result ≤ 64 }
{
    word.count_ones()
}

/// The bits of a word that another hasn't.
pub(crate) fn less(word: u64, other: u64) -> u64
    ensures { (k : ℕ) → k < 64 → bits_in result k ≡ (bits_in word k && not (bits_in other k)) }
{
    word & !other
}

/// A word less one of its bits.
pub(crate) fn without_bit(word: u64, k: u32) -> u64
    requires { k < 64 }
    ensures { (i : ℕ) → i < 64 → bits_in result i ≡ (bits_in word i && not (i == k)) }
{
    word & !(1 << k)
}

/// The k-th bit of a word, which has more than k.
pub(crate) fn nth_bit(word: u64, k: u32) -> u32
    requires { k < count_to (bits_in word) 64 }
    ensures range { result < 64 }
    ensures bit { bit_at word result ≡ 1 }
    ensures count { count_to (bits_in word) result ≡ k }
{
    let mut at = first_bit(word, 0);
    for _before in 0..k {
        at = first_bit(word, at + 1);
    }
    at
}

/// The bits that two words share.
pub(crate) fn shared(word: u64, other: u64) -> u64
    ensures { (k : ℕ) → bits_in result k ≡ (bits_in word k && bits_in other k) }
{
    word & other
}
