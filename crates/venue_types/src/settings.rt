//! What an operator sets.

ghost use Rattle.std.specs.Prelude.{◌≡◌, ◌≤◌, length, IfOk};

use crate::{List, OutOfMemory, Text};
use std::alloc::Global;

/// Which links somebody may use.
#[derive(Drop)]
pub struct Profile {
    /// 1 to 32 of `a-z 0-9 _ -`, as `built_in` and the reader of settings make it, and no type keeps it.
    pub name: Text,
    pub elevator: bool,
    pub escalator: bool,
    pub movingwalkway: bool,
    pub ramp: bool,
    pub stairs: bool,
    pub revolving: bool,
    pub turnstile: bool,
    pub restricted: bool,
    /// Only openings that are marked for wheelchairs.
    pub marked: bool,
}

impl Profile {
    /// An equal profile of its own.
    pub fn copy(&self, alloc: Global) -> Result<Profile, OutOfMemory>
        ensures { IfOk result (λ copy. copy ≡ self.now) }
    {
        let name = self.name.copy(alloc)?;
        Ok(Profile {
            name,
            elevator: self.elevator,
            escalator: self.escalator,
            movingwalkway: self.movingwalkway,
            ramp: self.ramp,
            stairs: self.stairs,
            revolving: self.revolving,
            turnstile: self.turnstile,
            restricted: self.restricted,
            marked: self.marked,
        })
    }
}

/// What a passage of each kind costs beyond its length, in whole centimetres, at most 1,000,000.
#[derive(Clone, Copy, Debug, PartialEq, Eq)]
pub struct Extras {
    pub elevator: u32,
    pub escalator: u32,
    pub movingwalkway: u32,
    pub ramp: u32,
    pub stairs: u32,
    pub traversal: u32,
    pub ghost elevator_range: { elevator ≤ 1000000 },
    pub ghost escalator_range: { escalator ≤ 1000000 },
    pub ghost movingwalkway_range: { movingwalkway ≤ 1000000 },
    pub ghost ramp_range: { ramp ≤ 1000000 },
    pub ghost stairs_range: { stairs ≤ 1000000 },
    pub ghost traversal_range: { traversal ≤ 1000000 },
}

/// How a visitor crosses a room, which is one unit.
#[derive(Clone, Copy, Debug, PartialEq, Eq)]
pub enum Inside {
    /// Straight from place to place.
    Straight,
    /// Round the walls in it.
    Clear,
}

/// The settings of a venue.
#[derive(Drop)]
pub struct Settings {
    /// Centimetres per degree of longitude, 1 to 20,000,000.
    pub kx: u32,
    /// Centimetres per degree of latitude, 1 to 20,000,000.
    pub ky: u32,
    /// How far an opening's vertices may lie off a unit's border, in nanodegrees, at most 100,000.
    pub border_tol: u32,
    /// How far a place may lie outside what holds it, in nanodegrees, at most 1,000,000.
    pub contain_tol: u32,
    pub inside: Inside,
    pub extras: Extras,
    /// The greatest number of a version, at least 1.
    pub last_version: u32,
    /// At most 64. The reader of settings makes each of 8 to 128 bytes from 0x21 to 0x7E, which no type keeps.
    pub staff_keys: List<Text>,
    /// 1 to 16. That the two built-in ones come first is kept by the reader of settings.
    pub profiles: List<Profile>,
    pub ghost kx_some: { 1 ≤ kx },
    pub ghost kx_range: { kx ≤ 20000000 },
    pub ghost ky_some: { 1 ≤ ky },
    pub ghost ky_range: { ky ≤ 20000000 },
    pub ghost border_range: { border_tol ≤ 100000 },
    pub ghost contain_range: { contain_tol ≤ 1000000 },
    pub ghost version_some: { 1 ≤ last_version },
    pub ghost staff_range: { length staff_keys ≤ 64 },
    pub ghost profiles_some: { 1 ≤ length profiles },
    pub ghost profiles_range: { length profiles ≤ 16 },
}

impl Settings {
    /// Equal settings of their own.
    pub fn copy(&self, alloc: Global) -> Result<Settings, OutOfMemory>
        ensures { IfOk result (λ copy. copy ≡ self.now) }
    {
        let staff_keys = copied_texts(alloc, self.staff_keys.as_slice())?;
        let profiles = copied_profiles(alloc, self.profiles.as_slice())?;
        Ok(Settings {
            kx: self.kx,
            ky: self.ky,
            border_tol: self.border_tol,
            contain_tol: self.contain_tol,
            inside: self.inside,
            extras: self.extras,
            last_version: self.last_version,
            staff_keys,
            profiles,
        })
    }
}

fn copied_texts(alloc: Global, texts: &[Text]) -> Result<List<Text>, OutOfMemory>
    ensures { IfOk result (λ copies. copies ≡ texts.now) }
{
    let mut copies = List::new(alloc);
    for text in texts {
        let copy = text.copy(alloc)?;
        copies.push(copy)?;
    }
    Ok(copies)
}

fn copied_profiles(alloc: Global, profiles: &[Profile]) -> Result<List<Profile>, OutOfMemory>
    ensures { IfOk result (λ copies. copies ≡ profiles.now) }
{
    let mut copies = List::new(alloc);
    for profile in profiles {
        let copy = profile.copy(alloc)?;
        copies.push(copy)?;
    }
    Ok(copies)
}
