//! The forms of values.

ghost use Rattle.std.specs.Prelude.{◌≡◌, ◌≤◌, IfSome};
ghost use Rattle.std.specs.List.{list_all};
ghost use Rattle.venue_wire.specs.Bodies.{is_folder_byte, is_folder_name};
ghost use Rattle.venue_wire.specs.Queries.{answer_read, is_category, limit_read, number_read};

use line_forms::number;

/// A number below 2^32 in decimal, without a sign and without a zero in front of others.
#[tactic(auto, unfolding(crate::specs::Queries::number_read))]
pub(crate) fn read_number(text: &[u8]) -> Option<u32>
    ensures { result ≡ number_read text.now }
{
    let number = number(text)?;
    if number < 0x1_0000_0000 {
        Some(number as u32)
    } else {
        None
    }
}

/// `yes` or `no`.
pub(crate) fn read_answer(text: &str) -> Option<bool>
    ensures { result ≡ answer_read text.now }
{
    if text == "yes" {
        Some(true)
    } else if text == "no" {
        Some(false)
    } else {
        None
    }
}

/// Whether a text is as long as a category may be, 1 to 64 bytes.
pub(crate) fn is_category(text: &str) -> bool
    ensures { result ≡ is_category text.now }
{
    !text.is_empty() && text.len() <= 64
}

/// How many of the nearest are asked for at most, 1 to 10, in decimal without a zero in front.
pub(crate) fn read_limit(text: &[u8]) -> Option<u8>
    ensures value { result ≡ limit_read text.now }
    ensures some { IfSome result (λ limit. 1 ≤ limit) }
    ensures few { IfSome result (λ limit. limit ≤ 10) }
{
    let limit = read_number(text)?;
    if 1 <= limit && limit <= 10 {
        Some(limit as u8)
    } else {
        None
    }
}

fn is_plain(name: &str) -> bool
    ensures { result ≡ list_all is_folder_byte name.now }
{
    name.as_bytes().iter().all(|byte| matches!(*byte, b'a'..=b'z' | b'0'..=b'9' | b'_' | b'-'))
}

/// Whether a text is the name of a folder.
pub(crate) fn is_folder_name(name: &str) -> bool
    ensures { result ≡ is_folder_name name.now }
{
    !name.is_empty() && name.len() <= 64 && is_plain(name)
}
