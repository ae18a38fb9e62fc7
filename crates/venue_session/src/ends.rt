//! How a session ends.

/// How a session ended.
#[derive(Clone, Copy, Debug, PartialEq, Eq)]
pub enum End {
    /// The input ended with no byte left over, or a message behind which no other may follow was answered.
    Done,
    /// The input ended with so many bytes of an unfinished message.
    Cut(u64),
    /// A head was refused with this status, and that was written.
    Refused(u16),
    /// So many bytes were taken that the session ends by itself.
    Worn,
    /// The connection failed. What was written is a front of the replies.
    LinkFault,
    /// There wasn't enough memory to go on.
    OutOfMemory,
}
