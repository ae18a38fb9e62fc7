//! The paths that there are, and their methods.

ghost use Rattle.std.specs.Prelude.{◌≡◌, drop};
ghost use Rattle.wire_frames.specs.Fields.{is_head};
ghost use Rattle.venue_wire.specs.Paths.{has_method, is_get, is_post, methods_of, path_in, query_in};

use wire_frames::Methods;

/// A path, each with its line in the tables of routes, methods and questions.
#[derive(Clone, Copy, Debug, PartialEq, Eq)]
pub enum Path {
    /// `/v1/version`
    Version,
    /// `/v1/places`
    Places,
    /// `/v1/closures`
    Closures,
    /// `/v1/place/{id}`
    Place,
    /// `/v1/route`
    Route,
    /// `/v1/tour`
    Tour,
    /// `/v1/nearest`
    Nearest,
    /// `/v1/publish`
    Publish,
}

pub(crate) fn methods_of(path: Path) -> Methods
    ensures { result ≡ methods_of path }
{
    match path {
        Path::Version | Path::Places | Path::Place | Path::Route | Path::Tour | Path::Nearest =>
            Methods::Get,
        Path::Closures => Methods::Both,
        Path::Publish => Methods::Post,
    }
}

pub(crate) fn is_get(method: &str) -> bool
    ensures { result ≡ is_get method.now }
{
    method == "GET"
}

/// Whether the method is HEAD, which no path has.
pub(crate) fn is_head(method: &str) -> bool
    ensures { result ≡ is_head method.now }
{
    method == "HEAD"
}

fn is_post(method: &str) -> bool
    ensures { result ≡ is_post method.now }
{
    method == "POST"
}

pub(crate) fn has_method(methods: Methods, method: &str) -> bool
    ensures { result ≡ has_method methods method.now }
{
    match methods {
        Methods::Get => is_get(method),
        Methods::Post => is_post(method),
        Methods::Both => is_get(method) || is_post(method),
    }
}

/// The path and the query of a target. No `?` and one with nothing behind it are the same.
pub(crate) fn cut_target(target: &str) -> (&str, &[u8])
    ensures path { result.0.now ≡ path_in target.now }
    ensures query { result.1.now ≡ query_in target.now }
{
    match target.split_once('?') {
        Some((path, query)) => (path, query.as_bytes()),
        None => (target, b""),
    }
}
