//! Texts that RFC 8259 accepts and refuses, each kind of its grammar both ways.

mod table;

use exact_json::{Arena, JsonFault, Members, Tree, read};
use std::alloc::Global;
use std::process::Abort;
use std::test::Fail;
use table::{DEPTHS, LISTS, MARKS, NUMBERS, OBJECTS, STRINGS, TEXTS, WORDS};

#[derive(Clone, Copy, PartialEq, Eq)]
pub(crate) enum Answer {
    Fine,
    Text,
    Deep,
    Memory,
}

fn answer_to(alloc: Global, bytes: &[u8]) -> Answer {
    match read(&Arena::new(alloc), bytes) {
        Ok(_) => Answer::Fine,
        Err(JsonFault::Text) => Answer::Text,
        Err(JsonFault::Deep) => Answer::Deep,
        Err(JsonFault::OutOfMemory) => Answer::Memory,
    }
}

fn is_text(alloc: Global, bytes: &[u8], wanted: &[u8]) -> bool {
    match read(&Arena::new(alloc), bytes) {
        Ok(tree) => tree.as_text() == Some(wanted),
        Err(_) => false,
    }
}

fn judge_answers(rt: &impl Abort, alloc: Global, rows: &[(&[u8], Answer)]) {
    for (bytes, wanted) in rows {
        assert!(rt; answer_to(alloc, bytes) == *wanted);
    }
}

fn judge_texts(rt: &impl Abort, alloc: Global, rows: &[(&[u8], &[u8])]) {
    for (bytes, wanted) in rows {
        assert!(rt; is_text(alloc, bytes, wanted));
    }
}

fn judge_words_and_numbers(rt: &impl Abort, alloc: Global) {
    judge_answers(rt, alloc, &WORDS);
    judge_answers(rt, alloc, &NUMBERS);
}

fn judge_strings(rt: &impl Abort, alloc: Global) {
    judge_answers(rt, alloc, &TEXTS);
    judge_texts(rt, alloc, &STRINGS);
}

fn judge_lists_and_objects(rt: &impl Abort, alloc: Global) {
    judge_answers(rt, alloc, &LISTS);
    judge_answers(rt, alloc, &OBJECTS);
}

fn judge_marks_and_depths(rt: &impl Abort, alloc: Global) {
    judge_answers(rt, alloc, &MARKS);
    judge_answers(rt, alloc, &DEPTHS);
}

#[test]
fn texts(rt: HostRuntime) {
    judge_words_and_numbers(&rt, rt.alloc());
    judge_strings(&rt, rt.alloc());
    judge_lists_and_objects(&rt, rt.alloc());
    judge_marks_and_depths(&rt, rt.alloc());
}

// A list of two.
fn judge_list(rt: &impl Abort, list: &[Tree]) {
    assert!(rt; list.len() == 2);
    assert!(rt; list[0].as_bool() == Some(true));
    assert!(rt; matches!(&list[1], Tree::Null));
}

// The members of an object with one name twice.
fn judge_members(rt: &impl Abort, object: &Members) {
    assert!(rt; object.as_slice().len() == 3);
    assert!(rt; object.as_slice()[0].value.as_number() == Some(b"1e+2".as_slice()));
    assert!(rt; object.get(b"c").is_none());
}

// Of two members with that name the last counts.
fn judge_last(rt: &impl Abort, object: &Members) -> Result<(), Fail> {
    let last = object.get(b"a").ok_or("a")?;
    assert!(rt; last.as_text() == Some(b"x".as_slice()));
    Ok(())
}

fn judge_object(rt: &impl Abort, tree: &Tree) -> Result<(), Fail> {
    let object = tree.as_object().ok_or("object")?;
    judge_members(rt, object);
    judge_last(rt, object)?;
    judge_list(rt, object.get(b"b").ok_or("b")?.as_items().ok_or("list")?);
    Ok(())
}

#[test]
fn parts(rt: HostRuntime) -> Result<(), Fail> {
    let arena = Arena::new(rt.alloc());
    let tree = read(&arena, b"{\"a\":1e+2,\"b\":[true,null],\"a\":\"x\"}")
        .ok()
        .ok_or("read")?;
    judge_object(&rt, &tree)
}

// Brackets by the hundred thousand, which no recursion would survive.
#[test]
fn depths(rt: HostRuntime) -> Result<(), Fail> {
    let mut text: Vec<u8> = Vec::new(rt.alloc());
    for _ in 0..300000 {
        text.extend_from_slice(b"[{\"\":")?;
    }
    assert!(rt; answer_to(rt.alloc(), &text) == Answer::Text);
    text.extend_from_slice(b"1.5")?;
    for _ in 0..300000 {
        text.extend_from_slice(b"}]")?;
    }
    assert!(rt; answer_to(rt.alloc(), &text) == Answer::Deep);
    Ok(())
}
