//! What is sent and written, byte for byte.

/// The lift closed: a head of 84 bytes and a body of 64.
pub(crate) const CLOSURE: &str =
    "POST /v1/closures HTTP/1.1\r\nhost: a\r\nx-staff-key: desk-key-1\r\ncontent-length: 64\r\n\r\n{\"feature\":\"00000000-0000-4000-8000-000000000301\",\"closed\":true}";

/// The lift opened again: a body of 65 bytes.
pub(crate) const REOPENING: &str =
    "POST /v1/closures HTTP/1.1\r\nhost: a\r\nx-staff-key: desk-key-1\r\ncontent-length: 65\r\n\r\n{\"feature\":\"00000000-0000-4000-8000-000000000301\",\"closed\":false}";

/// The lift was opened again, as version 3.
pub(crate) const LIFT_REOPENED: &str =
    "HTTP/1.1 200 OK\r\ncontent-type: application/json\r\ncontent-length: 92\r\n\r\n{\"changed\":true,\"closed\":false,\"feature\":\"00000000-0000-4000-8000-000000000301\",\"version\":3}";

/// The station published.
pub(super) const PUBLICATION: &str =
    "POST /v1/publish HTTP/1.1\r\nhost: a\r\nx-staff-key: desk-key-1\r\ncontent-length: 20\r\n\r\n{\"folder\":\"station\"}";

/// Version 3, at which the lift is open again.
pub(crate) const REOPENED_LIFT: &str =
    "HTTP/1.1 200 OK\r\ncontent-type: application/json\r\ncontent-length: 36\r\n\r\n{\"closed\":0,\"places\":33,\"version\":3}";

/// Version 2, at which nothing is closed.
pub(super) const NEW_FOLDER: &str =
    "HTTP/1.1 200 OK\r\ncontent-type: application/json\r\ncontent-length: 36\r\n\r\n{\"closed\":0,\"places\":33,\"version\":2}";

/// The station is published as version 2.
pub(super) const PUBLISHED: &str =
    "HTTP/1.1 200 OK\r\ncontent-type: application/json\r\ncontent-length: 26\r\n\r\n{\"dropped\":[],\"version\":2}";

/// The folder can't be read.
pub(super) const FOLDER_FAULT: &str =
    "HTTP/1.1 502 Bad Gateway\r\ncontent-type: application/json\r\ncontent-length: 24\r\n\r\n{\"error\":\"folder_fault\"}";

/// The journal can't keep a change.
pub(crate) const JOURNAL_FAULT: &str =
    "HTTP/1.1 502 Bad Gateway\r\ncontent-type: application/json\r\ncontent-length: 25\r\n\r\n{\"error\":\"journal_fault\"}";
