//! A text that is written into room taken beforehand, or only counted.

ghost use Rattle.std.specs.Prelude.{◌≡◌, ℕ, ◌+◌, ◌-◌, ◌≤◌, ◌<◌, ◌^◌, ◌↔◌, ◌∷◌, [], ◌++◌, take, length, vec_len, vec_capacity, IfOk, OnOk, IfSome, IsSome};
ghost use Rattle.json_text.specs.Drafts.{fresh, onto};

use std::alloc::{AllocError, Global};
use std::marker::Model;

// Adds these bytes, for which there is memory.
#[inline(always)]
fn add(held: &mut Vec<u8>, bytes: &[u8])
    requires { vec_len held.old + length bytes.now ≤ vec_capacity held.old }
    ensures items { held.new.items ≡ held.old.items ++ bytes.now }
    ensures capacity { vec_capacity held.old ≤ vec_capacity held.new }
{
    let _added = held.extend_from_slice(bytes);
}

// Adds the bytes in front, as many as that.
fn add_front(held: &mut Vec<u8>, bytes: &[u8], count: usize)
    requires { (count ≤ length bytes.now) × (vec_len held.old + count ≤ vec_capacity held.old) }
    ensures items { held.new.items ≡ held.old.items ++ take count bytes.now }
    ensures capacity { vec_capacity held.old ≤ vec_capacity held.new }
{
    add(held, bytes.split_at(count).0);
}

// Adds of these bytes what finds room.
#[inline(always)]
fn add_within_room(held: &mut Vec<u8>, room: usize, bytes: &[u8])
    requires { (length held.old.items ≤ room) × (room ≤ vec_capacity held.old) }
    ensures items { held.new.items ≡ held.old.items ++ take (room - length held.old.items) bytes.now }
    ensures capacity { vec_capacity held.old ≤ vec_capacity held.new }
{
    let left = room - held.len();
    if bytes.len() <= left {
        add(held, bytes);
    } else if left > 0 {
        add_front(held, bytes, left);
    }
}

/// A text to which pieces are added at the end, in memory that was taken when it was begun. What finds no room there is counted alone: so the
/// code that writes a text also tells how long it is, and no piece can want memory.
///
/// Contracts see it as its room, the bytes that are held, and how many bytes the text has.
#[derive(Drop)]
pub struct Draft {
    room: usize,
    held: Vec<u8>,
    len: usize,
}

impl Model for Draft {
    ghost use Rattle.std.specs.Prelude.{◌≡◌, ◌≤◌, length, min, vec_capacity};
    ghost use Rattle.json_text.specs.Drafts.{Drafted};

    ghost Value = { Drafted };

    ghost view = { λ draft. record { room = draft.room; bytes = draft.held.items; len = draft.len } };

    ghost invariant = { λ draft. (length draft.held.items ≡ min draft.len draft.room) × (draft.room ≤ vec_capacity draft.held) };
}

impl Draft {
    /// A draft that counts alone, and takes no memory.
    pub fn counting(alloc: Global) -> Draft
        ensures { result ≡ fresh 0 }
    {
        Draft {
            room: 0,
            held: Vec::new(alloc),
            len: 0,
        }
    }

    /// An empty draft with room for so many bytes. For 2^64 - 1 bytes, at which a count stops, there is no room.
    pub fn with_room(alloc: Global, bytes: usize) -> Result<Draft, AllocError>
        ensures empty { IfOk result (λ draft. draft ≡ fresh bytes) }
        ensures counted { OnOk result (bytes < 2 ^ 64 - 1) }
    {
        Ok(Draft {
            room: bytes,
            held: Vec::with_capacity(alloc, bytes)?,
            len: 0,
        })
    }

    /// How many bytes the text has, at most 2^64 - 1.
    pub fn len(&self) -> usize
        ensures { result ≡ self.now.len }
    {
        self.len
    }

    /// Adds these bytes.
    #[inline(always)]
    pub fn append(&mut self, bytes: &[u8])
        ensures { self.new ≡ onto self.old bytes.now }
    {
        add_within_room(&mut self.held, self.room, bytes);
        self.len = self.len.saturating_add(bytes.len());
    }

    /// Adds one byte.
    #[inline(always)]
    pub fn push(&mut self, byte: u8)
        ensures { self.new ≡ onto self.old (byte ∷ []) }
    {
        self.append(&[byte]);
    }

    /// The text, where the room that was taken is enough for it.
    pub fn finish(self) -> Option<Vec<u8>>
        ensures given { IsSome result ↔ (self.len ≤ self.room) }
        ensures whole { IfSome result (λ bytes. bytes.items ≡ self.bytes) }
    {
        let Draft { room, held, len } = self;
        if len <= room { Some(held) } else { None }
    }
}
