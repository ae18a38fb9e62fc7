//! The texts of refusals, which are always there.

ghost use Rattle.std.specs.Prelude.{◌≡◌, ◌+◌, length, true, false};
ghost use Rattle.serde_json.specs.Written.{compact_text};
ghost use Rattle.wire_replies.specs.Bodies.{refusal_body};
ghost use Rattle.wire_replies.specs.Replies.{reply_text};
ghost use Rattle.wire_frames.specs.declared.refusals.Refusal.TheVariants.{Method};
ghost use Rattle.wire_replies.specs.declared.response.Response.TheVariants.{No, Bare};

use wire_frames::{Methods, Refusal};

// The text of a refused method behind which the session ends.
fn closing_method(methods: Methods) -> &'static str
    ensures { result.now ≡ reply_text (No (Method methods)) true }
{
    match methods {
        Methods::Get =>
            "HTTP/1.1 405 Method Not Allowed\r\ncontent-type: application/json\r\ncontent-length: 18\r\nallow: GET\r\nconnection: close\r\n\r\n{\"error\":\"method\"}",
        Methods::Post =>
            "HTTP/1.1 405 Method Not Allowed\r\ncontent-type: application/json\r\ncontent-length: 18\r\nallow: POST\r\nconnection: close\r\n\r\n{\"error\":\"method\"}",
        Methods::Both =>
            "HTTP/1.1 405 Method Not Allowed\r\ncontent-type: application/json\r\ncontent-length: 18\r\nallow: GET, POST\r\nconnection: close\r\n\r\n{\"error\":\"method\"}",
    }
}

// The same where it goes on.
fn open_method(methods: Methods) -> &'static str
    ensures { result.now ≡ reply_text (No (Method methods)) false }
{
    match methods {
        Methods::Get =>
            "HTTP/1.1 405 Method Not Allowed\r\ncontent-type: application/json\r\ncontent-length: 18\r\nallow: GET\r\n\r\n{\"error\":\"method\"}",
        Methods::Post =>
            "HTTP/1.1 405 Method Not Allowed\r\ncontent-type: application/json\r\ncontent-length: 18\r\nallow: POST\r\n\r\n{\"error\":\"method\"}",
        Methods::Both =>
            "HTTP/1.1 405 Method Not Allowed\r\ncontent-type: application/json\r\ncontent-length: 18\r\nallow: GET, POST\r\n\r\n{\"error\":\"method\"}",
    }
}

// The text of a refusal behind which the session ends.
fn closing_text(refusal: Refusal) -> &'static str
    ensures { result.now ≡ reply_text (No refusal) true }
{
    match refusal {
        Refusal::HeadTooLarge =>
            "HTTP/1.1 431 Request Header Fields Too Large\r\ncontent-type: application/json\r\ncontent-length: 26\r\nconnection: close\r\n\r\n{\"error\":\"head_too_large\"}",
        Refusal::BadHead =>
            "HTTP/1.1 400 Bad Request\r\ncontent-type: application/json\r\ncontent-length: 20\r\nconnection: close\r\n\r\n{\"error\":\"bad_head\"}",
        Refusal::TransferCoding =>
            "HTTP/1.1 501 Not Implemented\r\ncontent-type: application/json\r\ncontent-length: 27\r\nconnection: close\r\n\r\n{\"error\":\"transfer_coding\"}",
        Refusal::BodyTooLarge =>
            "HTTP/1.1 413 Payload Too Large\r\ncontent-type: application/json\r\ncontent-length: 26\r\nconnection: close\r\n\r\n{\"error\":\"body_too_large\"}",
        Refusal::NoPath =>
            "HTTP/1.1 404 Not Found\r\ncontent-type: application/json\r\ncontent-length: 24\r\nconnection: close\r\n\r\n{\"error\":\"no_such_path\"}",
        Refusal::Method(methods) => closing_method(methods),
        Refusal::NotStaff =>
            "HTTP/1.1 403 Forbidden\r\ncontent-type: application/json\r\ncontent-length: 21\r\nconnection: close\r\n\r\n{\"error\":\"not_staff\"}",
        Refusal::BadBody =>
            "HTTP/1.1 400 Bad Request\r\ncontent-type: application/json\r\ncontent-length: 20\r\nconnection: close\r\n\r\n{\"error\":\"bad_body\"}",
        Refusal::BadQuery =>
            "HTTP/1.1 400 Bad Request\r\ncontent-type: application/json\r\ncontent-length: 21\r\nconnection: close\r\n\r\n{\"error\":\"bad_query\"}",
    }
}

// The same where it goes on, but for a head's refusal, which ends it.
fn open_text(refusal: Refusal) -> &'static str
    ensures { result.now ≡ reply_text (No refusal) false }
{
    match refusal {
        Refusal::HeadTooLarge => closing_text(refusal),
        Refusal::BadHead => closing_text(refusal),
        Refusal::TransferCoding => closing_text(refusal),
        Refusal::BodyTooLarge => closing_text(refusal),
        Refusal::NoPath =>
            "HTTP/1.1 404 Not Found\r\ncontent-type: application/json\r\ncontent-length: 24\r\n\r\n{\"error\":\"no_such_path\"}",
        Refusal::Method(methods) => open_method(methods),
        Refusal::NotStaff =>
            "HTTP/1.1 403 Forbidden\r\ncontent-type: application/json\r\ncontent-length: 21\r\n\r\n{\"error\":\"not_staff\"}",
        Refusal::BadBody =>
            "HTTP/1.1 400 Bad Request\r\ncontent-type: application/json\r\ncontent-length: 20\r\n\r\n{\"error\":\"bad_body\"}",
        Refusal::BadQuery =>
            "HTTP/1.1 400 Bad Request\r\ncontent-type: application/json\r\ncontent-length: 21\r\n\r\n{\"error\":\"bad_query\"}",
    }
}

// The length of a refusal's body.
fn body_size(refusal: Refusal) -> usize
    ensures { result ≡ length (compact_text (refusal_body refusal)) }
{
    match refusal {
        Refusal::HeadTooLarge => 26,
        Refusal::BadHead => 20,
        Refusal::TransferCoding => 27,
        Refusal::BodyTooLarge => 26,
        Refusal::NoPath => 24,
        Refusal::Method(_) => 18,
        Refusal::NotStaff => 21,
        Refusal::BadBody => 20,
        Refusal::BadQuery => 21,
    }
}

fn refusal_text(refusal: Refusal, close: bool) -> &'static str
    ensures { result.now ≡ reply_text (No refusal) close }
{
    if close {
        closing_text(refusal)
    } else {
        open_text(refusal)
    }
}

/// The bytes of a refusal, where the session goes on or ends. They take no memory.
pub fn refusal_bytes(refusal: Refusal, close: bool) -> &'static [u8]
    ensures { result.now ≡ reply_text (No refusal) close }
{
    refusal_text(refusal, close).as_bytes()
}

/// The same without the body, for a HEAD.
pub fn bare_bytes(refusal: Refusal, close: bool) -> &'static [u8]
    ensures { result.now ≡ reply_text (Bare refusal) close }
{
    let text = refusal_bytes(refusal, close);
    &text[..text.len().saturating_sub(body_size(refusal))]
}
