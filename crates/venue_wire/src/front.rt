//! The routes and the staff keys.

ghost use Rattle.std.specs.Prelude.{◌≡◌, ℕ, List, IfOk, bytes_eq, slice_index_or};
ghost use Rattle.std.specs.List.{list_any};
ghost use Rattle.venue_wire.specs.Messages.{call_at, call_of, is_one_key};
ghost use Rattle.venue_wire.specs.Paths.{path_in, route_of, routes};
ghost use Rattle.wire_frames.specs.Frames.{PlainFrame};
ghost use Rattle.wire_frames.specs.Outcomes.{AreValues, ShowsFrame};

use crate::calls::Call;
use crate::paths::{Path, has_method, is_get, methods_of};
use matchit::{InsertError, Router};
use std::alloc::Global;
use std::marker::Model;
use venue_types::{List, OutOfMemory, Text};
use wire_frames::{Framed, Named, Refusal};

/// What judges the messages of all sessions: the routes and the staff keys, which contracts see as the keys.
#[derive(Drop)]
pub struct Front {
    router: Router<Path>,
    keys: List<Text>,
}

impl Model for Front {
    ghost use Rattle.std.specs.Prelude.{◌≡◌, ℕ, List};
    ghost use Rattle.venue_wire.specs.Paths.{routes};

    ghost Value = { List (List ℕ) };

    ghost view = { λ a. a.keys };

    ghost invariant = { λ a. a.router ≡ routes };
}

fn routes(alloc: Global) -> Result<Router<Path>, InsertError>
    ensures { IfOk result (λ router. router ≡ routes) }
{
    let mut router = Router::new(alloc);
    router.insert("/v1/version", Path::Version)?;
    router.insert("/v1/places", Path::Places)?;
    router.insert("/v1/closures", Path::Closures)?;
    router.insert("/v1/place/{id}", Path::Place)?;
    router.insert("/v1/route", Path::Route)?;
    router.insert("/v1/tour", Path::Tour)?;
    router.insert("/v1/nearest", Path::Nearest)?;
    router.insert("/v1/publish", Path::Publish)?;
    Ok(router)
}

fn copy_keys(alloc: Global, keys: &[Text]) -> Result<List<Text>, OutOfMemory>
    ensures { IfOk result (λ copies. copies ≡ keys.now) }
{
    let mut copies = List::new(alloc);
    for key in keys {
        let copy = key.copy(alloc)?;
        copies.push(copy)?;
    }
    Ok(copies)
}

// The byte that stands there, or 0 past the end.
fn byte_at(value: &[u8], place: usize) -> u8
    ensures { result ≡ slice_index_or value.now place 0 }
{
    value.get(place).copied().unwrap_or(0)
}

// Whether a value is this key. Every byte of the key is looked at, and none is branched on, so that the time that it takes tells nobody how far a guess
// is right. A clause can't say so.
fn are_equal(key: &[u8], value: &[u8]) -> bool
    ensures { result ≡ bytes_eq key.now value.now }
{
    let mut differences = 0;
    for (place, byte) in key.iter().enumerate() {
        differences |= *byte ^ byte_at(value, place);
    }
    let is_as_long = key.len() == value.len();
    (differences == 0) & is_as_long
}

impl Front {
    /// A front with these staff keys.
    pub fn new(alloc: Global, keys: &List<Text>) -> Result<Front, OutOfMemory>
        ensures { IfOk result (λ front. front ≡ keys.now) }
    {
        let Ok(router) = routes(alloc) else {
            return Err(OutOfMemory);
        };
        let keys = copy_keys(alloc, keys.as_slice())?;
        Ok(Front { router, keys })
    }

    #[tactic(auto, unfolding(crate::specs::Paths::route_of))]
    fn route_of(&self, text: &str) -> Option<Path>
        ensures { result ≡ route_of text.now }
    {
        match self.router.at(text) {
            Ok(found) => Some(*found.value),
            Err(_) => None,
        }
    }

    // Every key is compared, also behind one that is equal.
    fn has_key(&self, value: &[u8]) -> bool
        ensures { result ≡ list_any (λ key. bytes_eq key value.now) self.now }
    {
        let mut found = false;
        for key in self.keys.as_slice() {
            found |= are_equal(key.as_str().as_bytes(), value);
        }
        found
    }

    fn is_staff(&self, named: &Named<'_>) -> bool
        ensures { (values : List (List ℕ)) → AreValues named.now values → result ≡ is_one_key self.now values }
    {
        match named {
            Named::Once(value) => self.has_key(value),
            Named::Absent => false,
            Named::Several => false,
        }
    }

    fn call_at(&self, framed: &Framed<'_>, path: Path) -> Call
        ensures { (frame : PlainFrame) → ShowsFrame framed.now frame → result ≡ call_at self.now frame path }
    {
        let methods = methods_of(path);
        if !has_method(methods, framed.method) {
            return Call::Refused(Refusal::Method(methods));
        }
        if is_get(framed.method) {
            return Call::Get(path);
        }
        if self.is_staff(&framed.staff_key) {
            Call::Post(path)
        } else {
            Call::Refused(Refusal::NotStaff)
        }
    }

    /// What a message calls whose path has this text.
    pub(crate) fn call_of(&self, framed: &Framed<'_>, text: &str) -> Call
        ensures { (frame : PlainFrame) → ShowsFrame framed.now frame → text.now ≡ path_in frame.target
            → result ≡ call_of self.now frame }
    {
        match self.route_of(text) {
            Some(path) => self.call_at(framed, path),
            None => Call::Refused(Refusal::NoPath),
        }
    }
}
