//! Why a message is refused by itself.

/// The methods that a path has.
#[derive(Clone, Copy, Debug, PartialEq, Eq)]
pub enum Methods {
    Get,
    Post,
    Both,
}

/// Why a message is refused by itself. Only the first four come from its head and its length.
#[derive(Clone, Copy, Debug, PartialEq, Eq)]
pub enum Refusal {
    /// No end within the first 16,384 bytes, or more than 64 lines behind the request line.
    HeadTooLarge,
    /// Not of the grammar, version 1.1 without exactly one `host`, or no single length of 1 to 19 digits.
    BadHead,
    /// A `transfer-encoding` field.
    TransferCoding,
    /// A body of more than 65,536 bytes.
    BodyTooLarge,
    NoPath,
    /// The path is there, and has these methods.
    Method(Methods),
    NotStaff,
    BadBody,
    BadQuery,
}
