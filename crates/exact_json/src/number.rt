//! The first bytes of a text, and number tokens (RFC 8259, section 6).

ghost use Rattle.std.specs.Prelude.{◌≡◌, ◌+◌, ◌≤◌, length, drop, get_or, option_map, IfSome};
ghost use Rattle.std.specs.List.{prefix_len};
ghost use Rattle.std.specs.Char.{is_ascii_digit};
ghost use Rattle.exact_json.specs.Number.{after_digits, after_minus, after_sign, after_whole, after_fraction, after_exponent, after_number};

/// What follows the first `count` bytes.
pub(crate) fn after(text: &[u8], count: usize) -> &[u8]
    requires { count ≤ length text.now }
    ensures value { result.now ≡ drop count text.now }
    ensures len { length result.now + count ≡ length text.now }
{
    text.split_at(count).1
}

/// The byte at i, or a space past the end.
pub(crate) fn byte_at(text: &[u8], i: usize) -> u8
    ensures { result ≡ get_or text.now i 32 }
{
    if i < text.len() { text[i] } else { b' ' }
}

// How many digits stand in front.
fn digits_len(text: &[u8]) -> usize
    ensures value { result ≡ prefix_len is_ascii_digit text.now }
    ensures within { result ≤ length text.now }
{
    let mut i = 0;
    while i < text.len() && text[i].is_ascii_digit() {
        i += 1;
    }
    i
}

fn after_digits(text: &[u8]) -> Option<&[u8]>
    ensures value { option_map (λ r. r.now) result ≡ after_digits text.now }
    ensures within { IfSome result (λ r. length r.now ≤ length text.now) }
{
    let count = digits_len(text);
    if count == 0 {
        None
    } else {
        Some(after(text, count))
    }
}

fn after_minus(text: &[u8]) -> &[u8]
    ensures value { result.now ≡ after_minus text.now }
    ensures within { length result.now ≤ length text.now }
{
    if byte_at(text, 0) == b'-' {
        after(text, 1)
    } else {
        text
    }
}

fn after_sign(text: &[u8]) -> &[u8]
    ensures value { result.now ≡ after_sign text.now }
    ensures within { length result.now ≤ length text.now }
{
    let sign = byte_at(text, 0);
    if (sign == b'-') | (sign == b'+') {
        after(text, 1)
    } else {
        text
    }
}

fn after_whole(text: &[u8]) -> Option<&[u8]>
    ensures value { option_map (λ r. r.now) result ≡ after_whole text.now }
    ensures within { IfSome result (λ r. length r.now ≤ length text.now) }
{
    if byte_at(text, 0) == b'0' {
        Some(after(text, 1))
    } else {
        after_digits(text)
    }
}

fn after_fraction(text: &[u8]) -> Option<&[u8]>
    ensures value { option_map (λ r. r.now) result ≡ after_fraction text.now }
    ensures within { IfSome result (λ r. length r.now ≤ length text.now) }
{
    if byte_at(text, 0) == b'.' {
        after_digits(after(text, 1))
    } else {
        Some(text)
    }
}

fn after_exponent(text: &[u8]) -> Option<&[u8]>
    ensures value { option_map (λ r. r.now) result ≡ after_exponent text.now }
    ensures within { IfSome result (λ r. length r.now ≤ length text.now) }
{
    let mark = byte_at(text, 0);
    if (mark == b'e') | (mark == b'E') {
        after_digits(after_sign(after(text, 1)))
    } else {
        Some(text)
    }
}

/// What follows the number in front.
#[tactic(auto, unfolding(crate::specs::Number::after_number))]
pub(crate) fn after_number(text: &[u8]) -> Option<&[u8]>
    ensures value { option_map (λ r. r.now) result ≡ after_number text.now }
    ensures within { IfSome result (λ r. length r.now ≤ length text.now) }
{
    let whole = after_whole(after_minus(text))?;
    let fraction = after_fraction(whole)?;
    after_exponent(fraction)
}
