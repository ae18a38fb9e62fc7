//! The text of an answer.

ghost use Rattle.std.specs.Prelude.{◌≡◌};
ghost use Rattle.venue_session.specs.Texts.{bytes_of};

use venue_types::Bytes;

/// A text that was made for an answer, or one that is always there.
#[derive(Drop)]
pub(crate) enum Text {
    Made(Bytes),
    Fixed(&'static [u8]),
}

impl Text {
    /// Its bytes.
    pub(crate) fn as_slice(&self) -> &[u8]
        ensures { result.now ≡ bytes_of self.now }
    {
        match self {
            Text::Made(bytes) => bytes.as_slice(),
            Text::Fixed(bytes) => bytes,
        }
    }
}
