//! The parts of a token.

/// An exponent: the byte of its `e`, that of its sign, and what follows.
#[derive(Clone, Copy)]
pub(crate) struct Exponent<'a> {
    pub mark: u8,
    pub sign: Option<u8>,
    pub digits: &'a [u8],
}

/// A token, cut at its signs, its first point and its first `e`.
#[derive(Clone, Copy)]
pub(crate) struct Parts<'a> {
    pub minus: bool,
    pub whole: &'a [u8],
    pub fraction: Option<&'a [u8]>,
    pub exponent: Option<Exponent<'a>>,
}
