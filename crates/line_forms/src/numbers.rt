//! Numbers in decimal without a sign and without leading zeros.

ghost use Rattle.std.specs.Prelude.{◌≡◌, ℕ, ◌^◌, ◌<◌, ◌≤◌, List, ◌++◌, IfSome, IfNone, OnOk, OnErr, length, take};
ghost use Rattle.std.specs.Char.{digit_value};
ghost use Rattle.std.specs.Fmt.{decimal};
ghost use Rattle.line_forms.specs.Lines.{word};
ghost use Rattle.line_forms.specs.Plain.{is_plain};

use std::alloc::AllocError;

// Whether a word has no leading zero and is not empty.
fn is_plain(word: &[u8]) -> bool
    ensures { result ≡ is_plain word.now }
{
    !word.is_empty() && (word[0] != b'0' || word.len() == 1)
}

// The value of a decimal digit.
fn digit(byte: u8) -> Option<u64>
    ensures found { IfSome result (λ d. (d ≡ digit_value byte) × (d < 10)) }
    ensures none { IfNone result (10 ≤ digit_value byte) }
{
    match byte {
        b'0'..=b'9' => Some((byte - b'0') as u64),
        _ => None,
    }
}

/// The number below 2^64 that a word spells in decimal, without a sign and without leading zeros.
pub fn number(word: &[u8]) -> Option<u64>
    ensures found { IfSome result (λ n. (word.now ≡ decimal n) × (n < 2 ^ 64)) }
    ensures none { IfNone result ((n : ℕ) → n < 2 ^ 64 → word.now ≡ decimal n → ⊥) }
{
    if !is_plain(word) {
        return None;
    }
    let mut value = 0u64;
    for byte in word {
        let next = digit(*byte)?;
        value = value.checked_mul(10)?.checked_add(next)?;
    }
    Some(value)
}

/// The number before the first space, and what follows the space.
pub fn number_word(text: &[u8]) -> Option<(u64, &[u8])>
    ensures found { IfSome result (λ x. (text.now ≡ word (decimal x.0) x.1.now) × (x.0 < 2 ^ 64)) }
    ensures none { IfNone result ((n : ℕ) (rest : List ℕ) → n < 2 ^ 64 → text.now ≡ word (decimal n) rest → ⊥) }
{
    let mut value = 0u64;
    for (place, byte) in text.iter().enumerate() {
        if *byte == b' ' {
            if !is_plain(&text[..place]) {
                return None;
            }
            return Some((value, &text[place + 1..]));
        }
        let next = digit(*byte)?;
        value = value.checked_mul(10)?.checked_add(next)?;
    }
    None
}

// Adds the decimal digits of a number at the end. Behind a refusal what was there before is still at the front.
fn push_digits(out: &mut Vec<u8>, n: u64) -> Result<(), AllocError>
    ensures ok { OnOk result (out.new.items ≡ out.old.items ++ decimal n) }
    ensures kept { OnErr result (take (length out.old.items) out.new.items ≡ out.old.items) }
{
    if n < 10 {
        out.push(b'0' + n as u8)?;
        return Ok(());
    }
    push_digits(out, n / 10)?;
    out.push(b'0' + (n % 10) as u8)?;
    Ok(())
}

/// Adds the decimal digits of a number at the end, all of them or, where memory runs out, none.
pub fn push_number(out: &mut Vec<u8>, n: u64) -> Result<(), AllocError>
    ensures ok { OnOk result (out.new.items ≡ out.old.items ++ decimal n) }
    ensures err { OnErr result (out.new.items ≡ out.old.items) }
{
    let before = out.len();
    let pushed = push_digits(out, n);
    if pushed.is_err() {
        out.truncate(before);
    }
    pushed
}
