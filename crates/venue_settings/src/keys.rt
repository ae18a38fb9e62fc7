//! The keys of the settings.

/// What stands at a key.
#[derive(Clone, Copy, Debug, PartialEq, Eq)]
pub(crate) enum Form {
    /// A whole number, with its range.
    Whole,
    /// A list of staff keys, with the range of their count.
    StaffKeys,
    /// A list of tables, with the range of their count.
    Profiles,
    /// The name of a profile, with the range of its length.
    Name,
    /// A truth value, which has no range.
    Truth,
    /// A word for how rooms are crossed, which has no range.
    Inside,
}

/// A key of a table.
#[derive(Clone, Copy, Debug)]
pub(crate) struct Key {
    pub name: &'static str,
    pub needed: bool,
    pub form: Form,
    /// The least number, count or length.
    pub low: u32,
    /// The greatest number, count or length.
    pub high: u32,
}

pub(crate) const KX: Key = Key {
    name: "kx",
    needed: true,
    form: Form::Whole,
    low: 1,
    high: 20_000_000,
};

pub(crate) const KY: Key = Key {
    name: "ky",
    needed: true,
    form: Form::Whole,
    low: 1,
    high: 20_000_000,
};

pub(crate) const BORDER_TOL: Key = Key {
    name: "border_tol",
    needed: false,
    form: Form::Whole,
    low: 0,
    high: 100_000,
};

pub(crate) const CONTAIN_TOL: Key = Key {
    name: "contain_tol",
    needed: false,
    form: Form::Whole,
    low: 0,
    high: 1_000_000,
};

pub(crate) const INSIDE: Key = Key {
    name: "inside",
    needed: false,
    form: Form::Inside,
    low: 0,
    high: 0,
};

pub(crate) const ELEVATOR_EXTRA: Key = Key {
    name: "elevator_extra",
    needed: false,
    form: Form::Whole,
    low: 0,
    high: 1_000_000,
};

pub(crate) const ESCALATOR_EXTRA: Key = Key {
    name: "escalator_extra",
    needed: false,
    form: Form::Whole,
    low: 0,
    high: 1_000_000,
};

pub(crate) const MOVINGWALKWAY_EXTRA: Key = Key {
    name: "movingwalkway_extra",
    needed: false,
    form: Form::Whole,
    low: 0,
    high: 1_000_000,
};

pub(crate) const RAMP_EXTRA: Key = Key {
    name: "ramp_extra",
    needed: false,
    form: Form::Whole,
    low: 0,
    high: 1_000_000,
};

pub(crate) const STAIRS_EXTRA: Key = Key {
    name: "stairs_extra",
    needed: false,
    form: Form::Whole,
    low: 0,
    high: 1_000_000,
};

pub(crate) const TRAVERSAL_EXTRA: Key = Key {
    name: "traversal_extra",
    needed: false,
    form: Form::Whole,
    low: 0,
    high: 1_000_000,
};

pub(crate) const LAST_VERSION: Key = Key {
    name: "last_version",
    needed: false,
    form: Form::Whole,
    low: 1,
    high: 4_294_967_295,
};

pub(crate) const STAFF_KEYS: Key = Key {
    name: "staff_keys",
    needed: false,
    form: Form::StaffKeys,
    low: 0,
    high: 64,
};

pub(crate) const PROFILE: Key = Key {
    name: "profile",
    needed: false,
    form: Form::Profiles,
    low: 0,
    high: 14,
};

/// The keys of the settings, in the order in which they are judged.
pub(crate) static SETTINGS_KEYS: [Key; 14] = [
    KX,
    KY,
    BORDER_TOL,
    CONTAIN_TOL,
    INSIDE,
    ELEVATOR_EXTRA,
    ESCALATOR_EXTRA,
    MOVINGWALKWAY_EXTRA,
    RAMP_EXTRA,
    STAIRS_EXTRA,
    TRAVERSAL_EXTRA,
    LAST_VERSION,
    STAFF_KEYS,
    PROFILE,
];
