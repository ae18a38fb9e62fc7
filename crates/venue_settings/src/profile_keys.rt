//! The keys of a profile.

use crate::keys::{Form, Key};

pub(crate) const NAME: Key = Key {
    name: "name",
    needed: true,
    form: Form::Name,
    low: 1,
    high: 32,
};

pub(crate) const ELEVATOR: Key = Key {
    name: "elevator",
    needed: false,
    form: Form::Truth,
    low: 0,
    high: 0,
};

pub(crate) const ESCALATOR: Key = Key {
    name: "escalator",
    needed: false,
    form: Form::Truth,
    low: 0,
    high: 0,
};

pub(crate) const MOVINGWALKWAY: Key = Key {
    name: "movingwalkway",
    needed: false,
    form: Form::Truth,
    low: 0,
    high: 0,
};

pub(crate) const RAMP: Key = Key {
    name: "ramp",
    needed: false,
    form: Form::Truth,
    low: 0,
    high: 0,
};

pub(crate) const STAIRS: Key = Key {
    name: "stairs",
    needed: false,
    form: Form::Truth,
    low: 0,
    high: 0,
};

pub(crate) const REVOLVING: Key = Key {
    name: "revolving",
    needed: false,
    form: Form::Truth,
    low: 0,
    high: 0,
};

pub(crate) const TURNSTILE: Key = Key {
    name: "turnstile",
    needed: false,
    form: Form::Truth,
    low: 0,
    high: 0,
};

pub(crate) const RESTRICTED: Key = Key {
    name: "restricted",
    needed: false,
    form: Form::Truth,
    low: 0,
    high: 0,
};

pub(crate) const MARKED: Key = Key {
    name: "marked",
    needed: false,
    form: Form::Truth,
    low: 0,
    high: 0,
};

/// The keys of a profile, in the order in which they are judged.
pub(crate) static PROFILE_KEYS: [Key; 10] = [
    NAME,
    ELEVATOR,
    ESCALATOR,
    MOVINGWALKWAY,
    RAMP,
    STAIRS,
    REVOLVING,
    TURNSTILE,
    RESTRICTED,
    MARKED,
];
