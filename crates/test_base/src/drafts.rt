//! Texts counted and written. The expected texts were worked out with a script of Python.

use json_text::{Draft, append_quoted};
use std::alloc::{AllocError, Global};
use std::test::Fail;

// A text between quotes, in as much room as was counted.
fn quoted(alloc: Global, text: &[u8]) -> Result<Vec<u8>, AllocError> {
    let mut count = Draft::counting(alloc);
    append_quoted(&mut count, text);
    let mut draft = Draft::with_room(alloc, count.len())?;
    append_quoted(&mut draft, text);
    draft.finish().ok_or(AllocError)
}

// A text, and what is written of it.
static TEXTS: [(&[u8], &[u8]); 11] = [
    (b"", b"\"\""),
    (b"plain", b"\"plain\""),
    (b"a\"b\\c/", b"\"a\\\"b\\\\c/\""),
    (
        b"\x01\x1f\x0a\x00d\x7f",
        b"\"\\u0001\\u001f\\u000a\\u0000d\x7f\"",
    ),
    (
        b"\xc3\xbc\xe2\x80\xa8\xf0\x9f\x98\x80",
        b"\"\xc3\xbc\xe2\x80\xa8\xf0\x9f\x98\x80\"",
    ),
    (b"12345678\"", b"\"12345678\\\"\""),
    (b"1234567\\123456789", b"\"1234567\\\\123456789\""),
    (b"sixteen bytes ok\x0a", b"\"sixteen bytes ok\\u000a\""),
    (b"\"", b"\"\\\"\""),
    (b"\\\\", b"\"\\\\\\\\\""),
    (
        b"\x00\x01\x02\x03\x04\x05\x06\x07\x08\x09\x0a\x0b\x0c\x0d\x0e\x0f\x10\x11\x12\x13\x14\x15\x16\x17\x18\x19\x1a\x1b\x1c\x1d\x1e\x1f",
        b"\"\\u0000\\u0001\\u0002\\u0003\\u0004\\u0005\\u0006\\u0007\\u0008\\u0009\\u000a\\u000b\\u000c\\u000d\\u000e\\u000f\\u0010\\u0011\\u0012\\u0013\\u0014\\u0015\\u0016\\u0017\\u0018\\u0019\\u001a\\u001b\\u001c\\u001d\\u001e\\u001f\"",
    ),
];

#[test]
fn writes_texts_between_quotes(rt: HostRuntime) -> Result<(), Fail> {
    for (text, wanted) in &TEXTS {
        assert!(rt; quoted(rt.alloc(), text)?.as_slice() == *wanted);
    }
    Ok(())
}

#[test]
fn keeps_a_text_that_finds_room(rt: HostRuntime) -> Result<(), Fail> {
    let mut draft = Draft::with_room(rt.alloc(), 5)?;
    draft.append(b"ab");
    draft.append(b"");
    draft.push(b'c');
    draft.append(b"de");
    assert!(rt; draft.len() == 5);
    assert!(rt; draft.finish().ok_or(AllocError)?.as_slice() == b"abcde".as_slice());
    let empty = Draft::counting(rt.alloc()).finish().ok_or(AllocError)?;
    assert!(rt; empty.is_empty());
    Ok(())
}

#[test]
fn keeps_a_text_that_leaves_room(rt: HostRuntime) -> Result<(), Fail> {
    let mut draft = Draft::with_room(rt.alloc(), 9)?;
    draft.append(b"abc");
    draft.append(b"def");
    draft.push(b'g');
    assert!(rt; draft.len() == 7);
    assert!(rt; draft.finish().ok_or(AllocError)?.as_slice() == b"abcdefg".as_slice());
    assert!(rt; Draft::with_room(rt.alloc(), usize::MAX).is_err());
    Ok(())
}

// A piece may find room in part.
#[test]
fn counts_a_text_that_finds_none(rt: HostRuntime) -> Result<(), Fail> {
    for bytes in [0, 1, 4, 5, 6] {
        let mut draft = Draft::with_room(rt.alloc(), bytes)?;
        draft.append(b"abc");
        draft.append(b"def");
        draft.push(b'g');
        assert!(rt; draft.len() == 7);
        assert!(rt; draft.finish().is_none());
    }
    Ok(())
}
