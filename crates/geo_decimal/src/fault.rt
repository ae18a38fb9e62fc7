//! The refusals of a token.

/// Why a token gives no coordinate.
#[derive(Clone, Copy, Debug, PartialEq, Eq)]
pub enum NumberFault {
    /// The bytes are no number of RFC 8259, section 6.
    Form,
    /// The number, in billionths and rounded, is below -180,000,000,000 or above 180,000,000,000.
    Size,
}
