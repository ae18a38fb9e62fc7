//! The heads of replies: their statuses, and the lines around the length.

ghost use Rattle.std.specs.Prelude.{◌≡◌, None};
ghost use Rattle.wire_replies.specs.Heads as heads;
ghost use Rattle.wire_replies.specs.Statuses.{status_code};

use venue_types::Reply;

/// The status of a reply (RFC 9110, section 15).
#[derive(Clone, Copy)]
pub(crate) enum HttpStatus {
    Ok,
    NotFound,
    Conflict,
    Unprocessable,
    BadGateway,
    Unavailable,
}

pub(crate) fn reply_status(reply: &Reply) -> HttpStatus
    ensures { status_code result ≡ heads.reply_status reply.now }
{
    match reply {
        Reply::Version { .. } => HttpStatus::Ok,
        Reply::Places { .. } => HttpStatus::Ok,
        Reply::Place(_) => HttpStatus::Ok,
        Reply::Closures(_) => HttpStatus::Ok,
        Reply::Route { .. } => HttpStatus::Ok,
        Reply::NoRoute { .. } => HttpStatus::Ok,
        Reply::Tour(_) => HttpStatus::Ok,
        Reply::NoTour(_) => HttpStatus::Ok,
        Reply::Nearest(_) => HttpStatus::Ok,
        Reply::ClosureDone(_) => HttpStatus::Ok,
        Reply::Published { .. } => HttpStatus::Ok,
        Reply::Ahead { .. } => HttpStatus::Conflict,
        Reply::NoProfile => HttpStatus::NotFound,
        Reply::NoPlace(_) => HttpStatus::NotFound,
        Reply::NoFeature => HttpStatus::NotFound,
        Reply::FolderFault { .. } => HttpStatus::BadGateway,
        Reply::Rejected(_) => HttpStatus::Unprocessable,
        Reply::HistoryFull { .. } => HttpStatus::Conflict,
        Reply::JournalFault { .. } => HttpStatus::BadGateway,
        Reply::OutOfMemory => HttpStatus::Unavailable,
    }
}

/// The first line of a head.
pub(crate) fn status_line(status: HttpStatus) -> &'static str
    ensures { result.now ≡ heads.status_line (status_code status) }
{
    match status {
        HttpStatus::Ok => "HTTP/1.1 200 OK\r\n",
        HttpStatus::NotFound => "HTTP/1.1 404 Not Found\r\n",
        HttpStatus::Conflict => "HTTP/1.1 409 Conflict\r\n",
        HttpStatus::Unprocessable => "HTTP/1.1 422 Unprocessable Entity\r\n",
        HttpStatus::BadGateway => "HTTP/1.1 502 Bad Gateway\r\n",
        HttpStatus::Unavailable => "HTTP/1.1 503 Service Unavailable\r\n",
    }
}

/// The form of the body, and the name of its length.
pub(crate) fn content_lines() -> &'static str
    ensures { result.now ≡ heads.content_lines }
{
    "content-type: application/json\r\ncontent-length: "
}

/// The rest of a head behind the length, where no methods are told.
pub(crate) fn last_lines(close: bool) -> &'static str
    ensures { result.now ≡ heads.last_lines None close }
{
    if close {
        "\r\nconnection: close\r\n\r\n"
    } else {
        "\r\n\r\n"
    }
}
