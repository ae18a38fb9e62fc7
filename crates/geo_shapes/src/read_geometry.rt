//! What a geometry is read into.

ghost use Rattle.std.specs.Prelude.{◌≡◌, true, false};

/// A figure, the two rules that its geometry may break, and its counts.
#[derive(Drop)]
pub struct ReadGeometry<T> {
    /// There exactly where neither rule is broken.
    pub value: Option<T>,
    /// What stands in the place of a position is none: no list that begins with a longitude within 180 degrees and a
    /// latitude within 90.
    pub bad_position: bool,
    /// What stands in the place of a list is none, or a list is too short, or a ring isn't closed.
    pub bad_form: bool,
    /// How many values stand in the place of a position. It stands still at its type's end.
    pub positions: u64,
    /// How many of them the longest ring has, 0 where there is no ring.
    pub longest: u64,
}

impl<T> ReadGeometry<T> {
    /// What is read where a list was to stand and none does.
    pub(crate) fn no_list() -> ReadGeometry<T>
        ensures { result ≡ record { value = None; bad_position = false; bad_form = true; positions = 0; longest = 0 } }
    {
        ReadGeometry {
            value: None,
            bad_position: false,
            bad_form: true,
            positions: 0,
            longest: 0,
        }
    }
}
