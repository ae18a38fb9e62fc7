//! What is sent to a server that opened with the station, and what it answers, byte for byte.

/// The version asked for, 37 bytes.
pub const VERSION: &str = "GET /v1/version HTTP/1.1\r\nhost: a\r\n\r\n";

/// Version 1, at which nothing is closed.
pub const FIRST: &str =
    "HTTP/1.1 200 OK\r\ncontent-type: application/json\r\ncontent-length: 36\r\n\r\n{\"closed\":0,\"places\":33,\"version\":1}";

/// The lift was closed, as version 2.
pub const LIFT_CLOSED: &str =
    "HTTP/1.1 200 OK\r\ncontent-type: application/json\r\ncontent-length: 91\r\n\r\n{\"changed\":true,\"closed\":true,\"feature\":\"00000000-0000-4000-8000-000000000301\",\"version\":2}";

/// Version 2, at which the lift is closed.
pub const CLOSED_LIFT: &str =
    "HTTP/1.1 200 OK\r\ncontent-type: application/json\r\ncontent-length: 36\r\n\r\n{\"closed\":1,\"places\":33,\"version\":2}";

/// It stood so: the lift was closed already.
pub const AS_ASKED: &str =
    "HTTP/1.1 200 OK\r\ncontent-type: application/json\r\ncontent-length: 92\r\n\r\n{\"changed\":false,\"closed\":true,\"feature\":\"00000000-0000-4000-8000-000000000301\",\"version\":2}";
