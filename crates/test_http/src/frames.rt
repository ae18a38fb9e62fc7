//! Fronts and what they come to, worked out by hand.

use std::alloc::{AllocError, Allocator};
use std::test::Fail;
use wire_frames::{
    Extent, Framing, Named, Refusal, find_head, frame, front_more_law, head_extent_law,
    one_front_law, short_law,
};

/// What a front comes to: the least length that is waited for, the refusal, or the length and whether it closes.
#[derive(Clone, Copy, PartialEq, Eq)]
enum Outcome {
    More(usize),
    Fault(Refusal),
    Framed(usize, bool),
}

fn come_to(bytes: &[u8]) -> Outcome {
    match frame(bytes) {
        Framing::More { least } => Outcome::More(least),
        Framing::Fault(refusal) => Outcome::Fault(refusal),
        Framing::Framed(framed) => Outcome::Framed(framed.length, framed.close),
    }
}

/// The front piece, the middle one so many times, the last one.
fn repeated<A: Allocator>(
    alloc: A,
    front: &[u8],
    middle: &[u8],
    times: usize,
    last: &[u8],
) -> Result<Vec<u8, A>, AllocError> {
    let mut text = Vec::new(alloc);
    text.extend_from_slice(front)?;
    for _ in 0..times {
        text.extend_from_slice(middle)?;
    }
    text.extend_from_slice(last)?;
    Ok(text)
}

const BAD: Outcome = Outcome::Fault(Refusal::BadHead);

const LARGE: Outcome = Outcome::Fault(Refusal::HeadTooLarge);

#[test]
fn frames(rt: HostRuntime) -> Result<(), Fail> {
    let line = b"GET /v1/version HTTP/1.1\r\n";
    let few = repeated(rt.alloc(), line, b"x: 1\r\n", 63, b"host: a\r\n\r\n")?;
    let many = repeated(rt.alloc(), line, b"x: 1\r\n", 64, b"host: a\r\n\r\n")?;
    let hopeless = repeated(rt.alloc(), b"\0\r\n", b":\r\n", 65, b"\r\n")?;
    let endless = repeated(rt.alloc(), b"", b"x", 16_383, b"")?;
    let full = repeated(rt.alloc(), b"", b"x", 16_384, b"")?;
    let greatest = repeated(rt.alloc(), b"", b"x", 16_382, b"\n\n")?;
    let late = repeated(rt.alloc(), b"", b"x", 16_383, b"\n\n")?;
    let table: &[(&[u8], Outcome)] = &[
        (b"", Outcome::More(1)),
        (
            b"GET /v1/version HTTP/1.1\r\nhost: a\r\n\r\n",
            Outcome::Framed(37, false),
        ),
        (
            b"GET /v1/version HTTP/1.1\nhost: a\n\n",
            Outcome::Framed(34, false),
        ),
        (
            b"\r\n\n\r\nGET /v1/version HTTP/1.1\r\nhost: a\r\n\r\n",
            Outcome::Framed(42, false),
        ),
        (b"\rGET /v1/version HTTP/1.1\r\nhost: a\r\n\r\n", BAD),
        (
            b"GET /v1/version HTTP/1.1\r\nhost: a\r\nhost: b\r\n\r\n",
            BAD,
        ),
        (
            b"GET /v1/version HTTP/1.0\r\nhost: a\r\nhost: b\r\n\r\n",
            Outcome::Framed(46, true),
        ),
        (
            b"GET /v1/version HTTP/1.0\r\n\r\n",
            Outcome::Framed(28, true),
        ),
        (b"GET /v1/version HTTP/2.0\r\nhost: a\r\n\r\n", BAD),
        (b"GET /v1/version HTTP/1.1\r\nhost: a\r\nx : 1\r\n\r\n", BAD),
        (
            b"GET /v1/version HTTP/1.1\r\nhost: a\r\nx: 1\r\n 2\r\n\r\n",
            BAD,
        ),
        (b"GET /v1/version HTTP/1.1\r\nhost: a\r\nx: \0\r\n\r\n", BAD),
        (
            b"GET /v1/version HTTP/1.1\r\nhost: a\r\ncontent-length: 0\r\ncontent-length: 0\r\n\r\n",
            BAD,
        ),
        (
            b"GET /v1/version HTTP/1.1\r\nhost: a\r\ncontent-length: 0, 0\r\n\r\n",
            BAD,
        ),
        (
            b"GET /v1/version HTTP/1.1\r\nhost: a\r\ncontent-length:\r\n\r\n",
            BAD,
        ),
        (
            b"GET /v1/version HTTP/1.1\r\nhost: a\r\ncontent-length: +0\r\n\r\n",
            BAD,
        ),
        (
            b"GET /v1/version HTTP/1.1\r\nhost: a\r\ncontent-length: 00000000000000000000\r\n\r\n",
            BAD,
        ),
        (
            b"GET /v1/version HTTP/1.1\r\nhost: a\r\ncontent-length: 0000000000000000000\r\n\r\n",
            Outcome::Framed(74, false),
        ),
        (
            b"GET /v1/version HTTP/1.1\r\nhost: a\r\ncontent-length: 65537\r\n\r\n",
            Outcome::Fault(Refusal::BodyTooLarge),
        ),
        (
            b"GET /v1/version HTTP/1.1\r\nhost: a\r\ncontent-length: 65536\r\n\r\n",
            Outcome::More(65_596),
        ),
        (
            b"GET /v1/version HTTP/1.1\r\nhost: a\r\ntransfer-encoding:\r\n\r\n",
            Outcome::Fault(Refusal::TransferCoding),
        ),
        (
            b"GET /v1/version HTTP/1.1\r\nhost: a\r\ntransfer-encoding: chunked\r\ncontent-length: x\r\n\r\n",
            BAD,
        ),
        (
            b"GET /v1/version HTTP/1.1\r\nhost: a\r\nconnection: keep-alive, CLOSE\r\n\r\n",
            Outcome::Framed(68, true),
        ),
        (
            b"GET /v1/version HTTP/1.1\r\nhost: a\r\nconnection: closed\r\n\r\n",
            Outcome::Framed(57, false),
        ),
        (
            b"GET /v1/version HTTP/1.1\r\nhost: a\r\nconnection: a\r\nconnection:  ,close ,\r\n\r\n",
            Outcome::Framed(75, true),
        ),
        (
            b"GET /v1/version HTTP/1.1\r\nhost: a\r\ncontent-length: 3\r\n\r\nab",
            Outcome::More(59),
        ),
        (
            b"GET /v1/version HTTP/1.1\r\nhost: a\r\ncontent-length: 3\r\n\r\nabc",
            Outcome::Framed(59, false),
        ),
        (few.as_slice(), Outcome::Framed(415, false)),
        (many.as_slice(), LARGE),
        (hopeless.as_slice(), LARGE),
        (endless.as_slice(), Outcome::More(16_384)),
        (full.as_slice(), LARGE),
        (greatest.as_slice(), BAD),
        (late.as_slice(), LARGE),
    ];
    for (bytes, want) in table {
        assert!(rt; come_to(bytes) == *want);
    }
    Ok(())
}

#[test]
fn shows_the_parts(rt: HostRuntime) {
    let bytes =
        b"POST /v1/publish?since=2 HTTP/1.1\r\nHost: a\r\nX-Staff-Key:  k \r\nContent-Length: 2\r\n\r\n{}GET";
    let Framing::Framed(framed) = frame(bytes) else {
        assert!(rt; false);
        return;
    };
    assert!(rt; framed.method == "POST");
    assert!(rt; framed.target == "/v1/publish?since=2");
    assert!(rt; framed.body == b"{}".as_slice());
    assert!(rt; matches!(framed.staff_key, Named::Once(b"k")));
    assert!(rt;
        find_head(bytes)
            == Some(Extent {
                length: 83,
                lines: 4
            })
    );
    one_front_law();
    front_more_law();
    short_law();
    head_extent_law();
}
