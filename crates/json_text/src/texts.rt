//! Texts between quotes.

ghost use Rattle.std.specs.Prelude.{◌≡◌, ◌+◌, ◌≤◌, ◌<◌, true, drop, length};
ghost use Rattle.std.specs.List.{prefix_len};
ghost use Rattle.json_text.specs.Compact.{hex_digit, escaped_byte, quoted};
ghost use Rattle.json_text.specs.Drafts.{onto};
ghost use Rattle.json_text.specs.Runs.{stands_as_it_is};

use crate::draft::Draft;

// The digit, in lower case.
#[inline(always)]
fn hex_digit(value: u8) -> u8
    requires { value < 16 }
    ensures { result ≡ hex_digit value }
{
    if value < 10 {
        b'0' + value
    } else {
        b'a' - 10 + value
    }
}

// Adds a byte as it stands between quotes.
fn append_escaped(out: &mut Draft, byte: u8)
    ensures { out.new ≡ onto out.old (escaped_byte byte) }
{
    if byte < 0x20 {
        out.append(&[
            b'\\',
            b'u',
            b'0',
            b'0',
            hex_digit(byte / 16),
            hex_digit(byte % 16),
        ]);
    } else if (byte == b'"') | (byte == b'\\') {
        out.append(&[b'\\', byte]);
    } else {
        out.push(byte);
    }
}

// A byte that needs no escape.
#[inline(always)]
fn stands_as_it_is(byte: u8) -> bool
    ensures { result ≡ stands_as_it_is byte }
{
    (byte >= 0x20) & (byte != b'"') & (byte != b'\\')
}

// Eight bytes stand in front, none of which needs an escape.
#[inline(always)]
fn are_eight(bytes: &[u8]) -> bool
    ensures { result ≡ true → (8 ≤ length bytes.now)
        × (prefix_len stands_as_it_is bytes.now ≡ 8 + prefix_len stands_as_it_is (drop 8 bytes.now)) }
{
    match bytes {
        [a, b, c, d, e, f, g, h, ..] => {
            let first = stands_as_it_is(*a)
                & stands_as_it_is(*b)
                & stands_as_it_is(*c)
                & stands_as_it_is(*d);
            first
                & stands_as_it_is(*e)
                & stands_as_it_is(*f)
                & stands_as_it_is(*g)
                & stands_as_it_is(*h)
        }
        _ => false,
    }
}

// The bytes from a place on.
#[inline(always)]
fn after(bytes: &[u8], place: usize) -> &[u8]
    requires { place ≤ length bytes.now }
    ensures value { result.now ≡ drop place bytes.now }
    ensures len { length result.now + place ≡ length bytes.now }
{
    bytes.split_at(place).1
}

// How many bytes in front need no escape.
fn run_len(bytes: &[u8]) -> usize
    ensures value { result ≡ prefix_len stands_as_it_is bytes.now }
    ensures within { result ≤ length bytes.now }
{
    let mut i = 0;
    while are_eight(after(bytes, i)) {
        i += 8;
    }
    while i < bytes.len() && stands_as_it_is(bytes[i]) {
        i += 1;
    }
    i
}

/// Adds a text between quotes, escaped where it has to be: what the compact form of such a text is.
pub fn append_quoted(out: &mut Draft, bytes: &[u8])
    ensures { out.new ≡ onto out.old (quoted bytes.now) }
{
    out.push(b'"');
    let mut rest = bytes;
    loop {
        let count = run_len(rest);
        out.append(rest.split_at(count).0);
        let behind = after(rest, count);
        if behind.is_empty() {
            break;
        }
        append_escaped(out, behind[0]);
        rest = after(behind, 1);
    }
    out.push(b'"');
}
