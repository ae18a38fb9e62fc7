//! What the program answers, before it is printed.

ghost use Rattle.std.specs.Prelude.{◌≡◌, IfOk, string_bytes};
ghost use Rattle.venue_commands.specs.Files.{stop_text};

use crate::load::Cause;
use crate::status::Status;
use std::alloc::{AllocError, Global};
use venue_types::Bytes;

/// A status, and the text that is printed with it.
#[derive(Drop)]
pub struct Printout {
    pub status: Status,
    pub text: Bytes,
}

/// The answer with this text.
pub fn printed(status: Status, text: String) -> Printout
    ensures status { result.status ≡ status }
    ensures text { result.text ≡ string_bytes text }
{
    Printout {
        status,
        text: Bytes::from_vec(text.into_bytes()),
    }
}

/// The answer where a file of the base stops the command.
pub(crate) fn stopped(alloc: Global, file: &str, cause: Cause) -> Result<Printout, AllocError>
    ensures text { IfOk result (λ answer. answer.text ≡ stop_text file.now cause) }
    ensures status { IfOk result (λ answer. answer.status ≡ Status.Wrong) }
{
    let text = match cause {
        Cause::Missing => format!(in alloc; "missing {file}\n")?,
        Cause::Large => format!(in alloc; "large {file}\n")?,
        Cause::Malformed(line) => format!(in alloc; "form {file} {line}\n")?,
    };
    Ok(printed(Status::Wrong, text))
}
