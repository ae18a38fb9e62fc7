//! Requests and what they ask for, worked out by hand.

use std::alloc::{AllocError, Global};
use std::process::Abort;
use std::test::Fail;
use venue_types::{Ask, Change, Closure, FeatureId, List, NearQuery, Query, Text, TourQuery};
use venue_wire::{
    Front, Message, Taken, message_length_law, message_more_law, more_is_short_law,
    one_message_law, path_law, take,
};
use wire_frames::{Methods, Refusal};

#[derive(Clone, Copy, PartialEq, Eq)]
enum What<'t> {
    Version,
    Places,
    Place(u128),
    Closures,
    Route(u128, u128, &'t str, bool),
    /// From where to where, how many stops there are, the first and the last of them, and the profile.
    Tour(u128, u128, usize, [u128; 2], &'t str),
    /// From where, the category, the profile, how many at most, and whether with the certificate.
    Nearest(u128, &'t str, &'t str, u8, bool),
}

/// What a front comes to, without its length.
#[derive(Clone, Copy, PartialEq, Eq)]
enum Outcome<'t> {
    More,
    Fault(Refusal),
    Ask(Option<u32>, What<'t>),
    /// The feature, how it is to stand, and how many names of profiles stand there, where some do.
    Closure(u128, bool, Option<usize>),
    Publish(&'t str),
    Refused(Refusal),
    Bare(Refusal),
    Unread,
}

fn stop_at(stops: &List<FeatureId>, index: usize) -> u128 {
    match stops.get(index) {
        Some(stop) => stop.0,
        None => 0,
    }
}

fn tour_of(asked: &TourQuery) -> What<'_> {
    let stops = asked.stops();
    let first = stop_at(stops, 0);
    let last = stop_at(stops, stops.len().saturating_sub(1));
    What::Tour(
        asked.from().0,
        asked.to().0,
        stops.len(),
        [first, last],
        asked.profile().as_str(),
    )
}

fn nearest_of(asked: &NearQuery) -> What<'_> {
    What::Nearest(
        asked.from().0,
        asked.category().as_str(),
        asked.profile().as_str(),
        asked.limit(),
        asked.certificate(),
    )
}

fn what_of(ask: &Ask) -> What<'_> {
    match ask {
        Ask::Version => What::Version,
        Ask::Places => What::Places,
        Ask::Place(place) => What::Place(place.0),
        Ask::Closures => What::Closures,
        Ask::Route {
            from,
            to,
            profile,
            certificate,
        } => What::Route(from.0, to.0, profile.as_str(), *certificate),
        Ask::Tour(asked) => tour_of(asked),
        Ask::Nearest(asked) => nearest_of(asked),
    }
}

fn asked(query: &Query) -> Outcome<'_> {
    Outcome::Ask(query.since, what_of(&query.what))
}

fn closure(asked: &Closure) -> Outcome<'_> {
    let count = asked.profiles.as_ref().map(|names| names.len());
    Outcome::Closure(asked.feature.0, asked.closed, count)
}

fn changed(change: &Change) -> Outcome<'_> {
    match change {
        Change::Closure(asked) => closure(asked),
        Change::Publish { folder } => Outcome::Publish(folder.as_str()),
    }
}

fn message_outcome(message: &Message) -> Outcome<'_> {
    match message {
        Message::Ask(query) => asked(query),
        Message::Do(change) => changed(change),
        Message::Refused(refusal) => Outcome::Refused(*refusal),
        Message::Bare(refusal) => Outcome::Bare(*refusal),
        Message::Unread => Outcome::Unread,
    }
}

fn come_of(taken: &Taken) -> Outcome<'_> {
    match taken {
        Taken::More { .. } => Outcome::More,
        Taken::Fault(refusal) => Outcome::Fault(*refusal),
        Taken::Message { message, .. } => message_outcome(message),
    }
}

fn length(taken: &Taken) -> usize {
    match taken {
        Taken::Message { length, .. } => *length,
        _ => 0,
    }
}

/// A request of these pieces: its method and target, the fields behind `host`, and its body.
fn request(alloc: Global, line: &str, fields: &str, body: &[u8]) -> Result<Vec<u8>, AllocError> {
    let mut bytes = Vec::new(alloc);
    bytes.extend_from_slice(line.as_bytes())?;
    bytes.extend_from_slice(b" HTTP/1.1\r\nhost: a\r\n")?;
    bytes.extend_from_slice(fields.as_bytes())?;
    let size = format!(in alloc; "content-length: {}\r\n\r\n", body.len())?;
    bytes.extend_from_slice(size.as_bytes())?;
    bytes.extend_from_slice(body)?;
    Ok(bytes)
}

/// The front piece, the middle one so many times, the last one.
fn repeated(
    alloc: Global,
    front: &[u8],
    middle: &[u8],
    times: usize,
    last: &[u8],
) -> Result<Vec<u8>, AllocError> {
    let mut text = Vec::new(alloc);
    text.extend_from_slice(front)?;
    for _ in 0..times {
        text.extend_from_slice(middle)?;
    }
    text.extend_from_slice(last)?;
    Ok(text)
}

/// A closing whose member `z` is so many nested lists.
fn nested(alloc: Global, times: usize) -> Result<Vec<u8>, AllocError> {
    let front = repeated(
        alloc,
        b"{\"feature\":\"00000000-0000-4000-8000-000000000301\",\"closed\":true,\"z\":",
        b"[",
        times,
        b"",
    )?;
    repeated(alloc, &front, b"]", times, b"}")
}

/// A closing with a further member.
fn closing_with(alloc: Global, member: &str) -> Result<Vec<u8>, AllocError> {
    let front = b"{\"feature\":\"00000000-0000-4000-8000-000000000301\",\"closed\":true,";
    repeated(alloc, front, member.as_bytes(), 1, b"}")
}

/// A closing for a profile that is named so many times.
fn closing_for(alloc: Global, times: usize) -> Result<Vec<u8>, AllocError> {
    repeated(
        alloc,
        b"{\"profiles\":[",
        b"\"walk\",",
        times.saturating_sub(1),
        b"\"walk\"],\"feature\":\"00000000-0000-4000-8000-000000000301\",\"closed\":true}",
    )
}

fn are_names(texts: &List<Text>, names: &[&str]) -> bool {
    texts.len() == names.len()
        && texts
            .iter()
            .zip(names)
            .all(|(text, name)| text.as_str() == *name)
}

/// Whether what was taken is a closure for these profiles.
fn is_for(taken: &Taken, names: &[&str]) -> bool {
    match taken {
        Taken::Message {
            message: Message::Do(Change::Closure(asked)),
            ..
        } => match &asked.profiles {
            Some(texts) => are_names(texts, names),
            None => false,
        },
        _ => false,
    }
}

/// The request comes to this, also with another behind it, and isn't there without its last byte.
fn check(
    rt: &impl Abort,
    alloc: Global,
    front: &Front,
    bytes: &[u8],
    want: Outcome<'_>,
) -> Result<(), AllocError> {
    let whole = take(alloc, front, bytes);
    assert!(rt; come_of(&whole) == want);
    assert!(rt; length(&whole) == bytes.len());
    let more = repeated(alloc, bytes, b"GET / HTTP/1.1\r\nhost: a\r\n\r\n", 1, b"")?;
    let followed = take(alloc, front, &more);
    assert!(rt; come_of(&followed) == want);
    assert!(rt; length(&followed) == bytes.len());
    let cut = take(alloc, front, &bytes[..bytes.len() - bytes.len().min(1)]);
    assert!(rt; matches!(come_of(&cut), Outcome::More));
    Ok(())
}

const SIXTY_FOUR: &str = "xxxxxxxxxxxxxxxxxxxxxxxxxxxxxxxxxxxxxxxxxxxxxxxxxxxxxxxxxxxxxxxx";

const UMLAUTS: &str = "ääääääääääääääääääääääääääääääää";

const KEY: &str = "x-staff-key: desk-key-1\r\n";

const CLOSING: &[u8] = b"{\"feature\":\"00000000-0000-4000-8000-000000000301\",\"closed\":true}";

const I_0301: u128 = 0x00000000_0000_4000_8000_000000000301;

const I_51: u128 = 0x00000000_0000_4000_8000_000000000051;

const I_52: u128 = 0x00000000_0000_4000_8000_000000000052;

const I_31: u128 = 0x00000000_0000_4000_8000_000000000031;

const I_109: u128 = 0x00000000_0000_4000_8000_000000000109;

const NO_PATH: Outcome<'static> = Outcome::Refused(Refusal::NoPath);

const NOT_STAFF: Outcome<'static> = Outcome::Refused(Refusal::NotStaff);

const BAD_BODY: Outcome<'static> = Outcome::Refused(Refusal::BadBody);

const BAD_QUERY: Outcome<'static> = Outcome::Refused(Refusal::BadQuery);

const CLOSED: Outcome<'static> = Outcome::Closure(I_0301, true, None);

const VERSION: Outcome<'static> = Outcome::Ask(None, What::Version);

fn only(methods: Methods) -> Outcome<'static> {
    Outcome::Refused(Refusal::Method(methods))
}

fn bare(methods: Methods) -> Outcome<'static> {
    Outcome::Bare(Refusal::Method(methods))
}

fn since(version: u32) -> Outcome<'static> {
    Outcome::Ask(Some(version), What::Version)
}

fn route(profile: &str, certificate: bool) -> Outcome<'_> {
    Outcome::Ask(None, What::Route(I_51, I_52, profile, certificate))
}

fn tour(count: usize, ends: [u128; 2], profile: &str) -> Outcome<'_> {
    Outcome::Ask(None, What::Tour(I_51, I_52, count, ends, profile))
}

fn nearest(category: &'static str, limit: u8, certificate: bool) -> Outcome<'static> {
    Outcome::Ask(
        None,
        What::Nearest(I_51, category, "walk", limit, certificate),
    )
}

fn desk(alloc: Global) -> Result<List<Text>, AllocError> {
    let mut keys = Vec::new(alloc);
    for key in ["gate-key-2", "desk-key-1"] {
        if keys
            .push(Text::from_string(String::from_str(alloc, key)?))
            .is_err()
        {
            return Err(AllocError);
        }
    }
    Ok(List::from_vec(keys))
}

/// Each request of the table, which has neither fields nor a body, comes to what stands beside it.
fn check_bare(
    rt: &impl Abort,
    alloc: Global,
    front: &Front,
    table: &[(&str, Outcome<'_>)],
) -> Result<(), AllocError> {
    for (line, want) in table {
        let bytes = request(alloc, line, "", b"")?;
        check(rt, alloc, front, &bytes, *want)?;
    }
    Ok(())
}

/// With each body of the table such a request by staff comes to what stands beside it.
fn check_posted(
    rt: &impl Abort,
    alloc: Global,
    front: &Front,
    line: &str,
    table: &[(&[u8], Outcome<'_>)],
) -> Result<(), AllocError> {
    for (body, want) in table {
        let bytes = request(alloc, line, KEY, body)?;
        check(rt, alloc, front, &bytes, *want)?;
    }
    Ok(())
}

/// Paths and methods.
fn check_paths(rt: &impl Abort, alloc: Global, front: &Front) -> Result<(), AllocError> {
    let table = [
        ("GET /v1/version", VERSION),
        ("GET /v1/version?", VERSION),
        ("GET /v1/places", Outcome::Ask(None, What::Places)),
        ("GET /v1/version/", NO_PATH),
        ("GET /V1/version", NO_PATH),
        ("GET /v2", NO_PATH),
        ("GET /v1/place/", NO_PATH),
        ("GET /v1/place/a/b", NO_PATH),
        ("GET http://a/v1/version", NO_PATH),
        ("OPTIONS *", NO_PATH),
        ("HEAD /v1/version", bare(Methods::Get)),
        ("HEAD /v1/publish", bare(Methods::Post)),
        ("HEAD /v1/closures", bare(Methods::Both)),
        ("HEAD /v2", Outcome::Bare(Refusal::NoPath)),
        ("head /v1/version", only(Methods::Get)),
        ("POST /v1/version", only(Methods::Get)),
        ("GET /v1/publish", only(Methods::Post)),
        ("PUT /v1/closures", only(Methods::Both)),
        (
            "GET /v1/place/00000000-0000-4000-8000-000000000052",
            Outcome::Ask(None, What::Place(I_52)),
        ),
        (
            "GET /v1/place/00000000000040008000000000000052",
            Outcome::Ask(None, What::Place(I_52)),
        ),
        (
            "GET /v1/place/URN:UUID:00000000-0000-4000-8000-000000000052",
            Outcome::Ask(None, What::Place(I_52)),
        ),
        ("GET /v1/place/x", BAD_QUERY),
        (
            "GET /v1/place/%300000000-0000-4000-8000-000000000052",
            BAD_QUERY,
        ),
    ];
    check_bare(rt, alloc, front, &table)
}

/// The version that is asked for at least, and what other paths' keys do.
fn check_queries(rt: &impl Abort, alloc: Global, front: &Front) -> Result<(), AllocError> {
    let table = [
        (
            "GET /v1/closures?since=7",
            Outcome::Ask(Some(7), What::Closures),
        ),
        ("GET /v1/version?since=0", since(0)),
        ("GET /v1/version?since=%31", since(1)),
        ("GET /v1/version?since=4294967295", since(4_294_967_295)),
        ("GET /v1/version?since=", BAD_QUERY),
        ("GET /v1/version?since=00", BAD_QUERY),
        ("GET /v1/version?since=01", BAD_QUERY),
        ("GET /v1/version?since=+1", BAD_QUERY),
        ("GET /v1/version?since=4294967296", BAD_QUERY),
        ("GET /v1/version?since=1&since=1", BAD_QUERY),
        ("GET /v1/version?sinc%65=1&since=1", BAD_QUERY),
        ("GET /v1/version?x=1&x=2", VERSION),
        ("GET /v1/version?from=1&from=2", VERSION),
    ];
    check_bare(rt, alloc, front, &table)
}

/// Routes.
fn check_routes(rt: &impl Abort, alloc: Global, front: &Front) -> Result<(), AllocError> {
    let table = [
        (
            "GET /v1/route?from=00000000-0000-4000-8000-000000000051",
            BAD_QUERY,
        ),
        (
            "GET /v1/route?from=00000000-0000-4000-8000-000000000051&to=00000000-0000-4000-8000-000000000052",
            BAD_QUERY,
        ),
        (
            "GET /v1/route?from=00000000-0000-4000-8000-000000000051&to=00000000-0000-4000-8000-000000000052&profile=&certificate=maybe",
            BAD_QUERY,
        ),
        (
            "GET /v1/route?from=00000000-0000-4000-8000-000000000051&to=00000000-0000-4000-8000-000000000052&profile=&certificate=1",
            BAD_QUERY,
        ),
        (
            "GET /v1/route?from=x&to=00000000-0000-4000-8000-000000000052&profile=",
            BAD_QUERY,
        ),
        (
            "GET /v1/route?from=00000000-0000-4000-8000-000000000051&to=00000000-0000-4000-8000-000000000052&profile=",
            route("", false),
        ),
        (
            "GET /v1/route?from=00000000-0000-4000-8000-000000000051&to=00000000-0000-4000-8000-000000000052&profile=a+b&certificate=yes",
            route("a b", true),
        ),
        (
            "GET /v1/route?from=00000000-0000-4000-8000-000000000051&to=00000000-0000-4000-8000-000000000052&profile=%77&certificate=no",
            route("w", false),
        ),
    ];
    check_bare(rt, alloc, front, &table)
}

/// Tours.
fn check_tours(rt: &impl Abort, alloc: Global, front: &Front) -> Result<(), AllocError> {
    let table = [
        (
            "GET /v1/tour?from=00000000-0000-4000-8000-000000000051&to=00000000-0000-4000-8000-000000000052&stops=00000000-0000-4000-8000-000000000109,00000000-0000-4000-8000-000000000031&profile=walk",
            tour(2, [I_109, I_31], "walk"),
        ),
        (
            "GET /v1/tour?from=00000000-0000-4000-8000-000000000051&to=00000000-0000-4000-8000-000000000052&sto%70s={00000000-0000-4000-8000-000000000031}%2Curn:uuid:00000000-0000-4000-8000-000000000109&profile=&certificate=1&certificate=2",
            tour(2, [I_31, I_109], ""),
        ),
        (
            "GET /v1/tour?from=00000000-0000-4000-8000-000000000051&to=00000000-0000-4000-8000-000000000052&stops=00000000000040008000000000000031&profile=a+b",
            tour(1, [I_31, I_31], "a b"),
        ),
        (
            "GET /v1/tour?from=00000000-0000-4000-8000-000000000051&to=00000000-0000-4000-8000-000000000052&stops=00000000-0000-4000-8000-000000000031,00000000-0000-4000-8000-000000000031,00000000-0000-4000-8000-000000000031,00000000-0000-4000-8000-000000000031,00000000-0000-4000-8000-000000000031,00000000-0000-4000-8000-000000000031,00000000-0000-4000-8000-000000000031,00000000-0000-4000-8000-000000000109&profile=walk",
            tour(8, [I_31, I_109], "walk"),
        ),
        (
            "GET /v1/tour?from=00000000-0000-4000-8000-000000000051&to=00000000-0000-4000-8000-000000000052&stops=00000000-0000-4000-8000-000000000031,00000000-0000-4000-8000-000000000031,00000000-0000-4000-8000-000000000031,00000000-0000-4000-8000-000000000031,00000000-0000-4000-8000-000000000031,00000000-0000-4000-8000-000000000031,00000000-0000-4000-8000-000000000031,00000000-0000-4000-8000-000000000031,00000000-0000-4000-8000-000000000109&profile=walk",
            BAD_QUERY,
        ),
        (
            "GET /v1/tour?from=00000000-0000-4000-8000-000000000051&to=00000000-0000-4000-8000-000000000052&stops=&profile=walk",
            BAD_QUERY,
        ),
        (
            "GET /v1/tour?from=00000000-0000-4000-8000-000000000051&to=00000000-0000-4000-8000-000000000052&stops=00000000-0000-4000-8000-000000000031,&profile=walk",
            BAD_QUERY,
        ),
        (
            "GET /v1/tour?from=00000000-0000-4000-8000-000000000051&to=00000000-0000-4000-8000-000000000052&stops=%2C&profile=walk",
            BAD_QUERY,
        ),
        (
            "GET /v1/tour?from=00000000-0000-4000-8000-000000000051&to=00000000-0000-4000-8000-000000000052&profile=walk",
            BAD_QUERY,
        ),
        (
            "GET /v1/tour?from=00000000-0000-4000-8000-000000000051&to=00000000-0000-4000-8000-000000000052&stops=00000000-0000-4000-8000-000000000031&stops=00000000-0000-4000-8000-000000000109&profile=walk",
            BAD_QUERY,
        ),
        (
            "GET /v1/tour?from=00000000-0000-4000-8000-000000000051&to=00000000-0000-4000-8000-000000000052&stops=00000000-0000-4000-8000-000000000031",
            BAD_QUERY,
        ),
        (
            "GET /v1/tour?from=00000000-0000-4000-8000-000000000051&to=00000000-0000-4000-8000-000000000052&stops=00000000-0000-4000-8000-000000000031&profile=walk&since=x",
            BAD_QUERY,
        ),
        ("POST /v1/tour", only(Methods::Get)),
        ("HEAD /v1/tour", bare(Methods::Get)),
    ];
    check_bare(rt, alloc, front, &table)
}

/// Questions for the nearest of a category.
fn check_good_nearest(rt: &impl Abort, alloc: Global, front: &Front) -> Result<(), AllocError> {
    let table = [
        (
            "GET /v1/nearest?from=00000000-0000-4000-8000-000000000051&category=restroom&profile=walk",
            nearest("restroom", 1, false),
        ),
        (
            "GET /v1/nearest?from=00000000-0000-4000-8000-000000000051&category=restroom.wheelchair&profile=walk&limit=1",
            nearest("restroom.wheelchair", 1, false),
        ),
        (
            "GET /v1/nearest?from=00000000-0000-4000-8000-000000000051&category=Restroom&profile=walk&limit=2&certificate=yes",
            nearest("Restroom", 2, true),
        ),
        (
            "GET /v1/nearest?from=00000000-0000-4000-8000-000000000051&profile=walk&category=atm&certificate=no&limit=10",
            nearest("atm", 10, false),
        ),
        (
            "GET /v1/nearest?from=urn:uuid:00000000-0000-4000-8000-000000000051&categor%79=a+b%2Fc%26&profile=%77alk&lim%69t=%39&certificate=y%65s",
            nearest("a b/c&", 9, true),
        ),
        (
            "GET /v1/nearest?from=00000000-0000-4000-8000-000000000051&category=atm&profile=walk&to=1&to=2&stops=x&Limit=0&x=1",
            nearest("atm", 1, false),
        ),
        (
            "GET /v1/nearest?from=00000000-0000-4000-8000-000000000051&category=xxxxxxxxxxxxxxxxxxxxxxxxxxxxxxxxxxxxxxxxxxxxxxxxxxxxxxxxxxxxxxxx&profile=walk",
            nearest(SIXTY_FOUR, 1, false),
        ),
        (
            "GET /v1/nearest?from=00000000-0000-4000-8000-000000000051&category=%78%78%78%78%78%78%78%78%78%78%78%78%78%78%78%78%78%78%78%78%78%78%78%78%78%78%78%78%78%78%78%78%78%78%78%78%78%78%78%78%78%78%78%78%78%78%78%78%78%78%78%78%78%78%78%78%78%78%78%78%78%78%78%78&profile=walk",
            nearest(SIXTY_FOUR, 1, false),
        ),
        (
            "GET /v1/nearest?from=00000000-0000-4000-8000-000000000051&category=%C3%A4%C3%A4%C3%A4%C3%A4%C3%A4%C3%A4%C3%A4%C3%A4%C3%A4%C3%A4%C3%A4%C3%A4%C3%A4%C3%A4%C3%A4%C3%A4%C3%A4%C3%A4%C3%A4%C3%A4%C3%A4%C3%A4%C3%A4%C3%A4%C3%A4%C3%A4%C3%A4%C3%A4%C3%A4%C3%A4%C3%A4%C3%A4&profile=walk",
            nearest(UMLAUTS, 1, false),
        ),
        (
            "GET /v1/nearest?from=00000000-0000-4000-8000-000000000051&category=atm&profile=a+b&since=7",
            Outcome::Ask(Some(7), What::Nearest(I_51, "atm", "a b", 1, false)),
        ),
        (
            "GET /v1/nearest?from=00000000-0000-4000-8000-000000000051&category=atm&profile=",
            Outcome::Ask(None, What::Nearest(I_51, "atm", "", 1, false)),
        ),
        ("POST /v1/nearest", only(Methods::Get)),
        ("HEAD /v1/nearest", bare(Methods::Get)),
        ("GET /v1/nearest/", NO_PATH),
        ("GET /v1/Nearest", NO_PATH),
    ];
    check_bare(rt, alloc, front, &table)
}

/// What isn't of the form of such a question.
const BAD_NEAREST: [&str; 20] = [
    "GET /v1/nearest",
    "GET /v1/nearest?from=00000000-0000-4000-8000-000000000051&profile=walk",
    "GET /v1/nearest?from=00000000-0000-4000-8000-000000000051&category=&profile=walk",
    "GET /v1/nearest?from=00000000-0000-4000-8000-000000000051&category=xxxxxxxxxxxxxxxxxxxxxxxxxxxxxxxxxxxxxxxxxxxxxxxxxxxxxxxxxxxxxxxxx&profile=walk",
    "GET /v1/nearest?from=00000000-0000-4000-8000-000000000051&category=%78%78%78%78%78%78%78%78%78%78%78%78%78%78%78%78%78%78%78%78%78%78%78%78%78%78%78%78%78%78%78%78%78%78%78%78%78%78%78%78%78%78%78%78%78%78%78%78%78%78%78%78%78%78%78%78%78%78%78%78%78%78%78%78%78&profile=walk",
    "GET /v1/nearest?from=00000000-0000-4000-8000-000000000051&category=%C3%A4%C3%A4%C3%A4%C3%A4%C3%A4%C3%A4%C3%A4%C3%A4%C3%A4%C3%A4%C3%A4%C3%A4%C3%A4%C3%A4%C3%A4%C3%A4%C3%A4%C3%A4%C3%A4%C3%A4%C3%A4%C3%A4%C3%A4%C3%A4%C3%A4%C3%A4%C3%A4%C3%A4%C3%A4%C3%A4%C3%A4%C3%A4%C3%A4&profile=walk",
    "GET /v1/nearest?from=00000000-0000-4000-8000-000000000051&category=restroom&category=restroom&profile=walk",
    "GET /v1/nearest?from=00000000-0000-4000-8000-000000000051&Category=restroom&profile=walk",
    "GET /v1/nearest?category=restroom&profile=walk",
    "GET /v1/nearest?from=x&category=restroom&profile=walk",
    "GET /v1/nearest?from=&category=restroom&profile=walk",
    "GET /v1/nearest?from=00000000-0000-4000-8000-000000000051&from=00000000-0000-4000-8000-000000000051&category=restroom&profile=walk",
    "GET /v1/nearest?from=00000000-0000-4000-8000-000000000051&category=restroom",
    "GET /v1/nearest?from=00000000-0000-4000-8000-000000000051&category=restroom&profile=walk&profile=walk",
    "GET /v1/nearest?from=00000000-0000-4000-8000-000000000051&category=restroom&profile=walk&certificate=",
    "GET /v1/nearest?from=00000000-0000-4000-8000-000000000051&category=restroom&profile=walk&certificate=1",
    "GET /v1/nearest?from=00000000-0000-4000-8000-000000000051&category=restroom&profile=walk&certificate=Yes",
    "GET /v1/nearest?from=00000000-0000-4000-8000-000000000051&category=restroom&profile=walk&certificate=no&certificate=no",
    "GET /v1/nearest?from=00000000-0000-4000-8000-000000000051&category=restroom&profile=walk&since=x",
    "GET /v1/nearest?from=00000000-0000-4000-8000-000000000051&category=restroom&profile=walk&since=01",
];

/// Limits that are no numbers from 1 to 10, or not of their form.
const BAD_LIMITS: [&str; 17] = [
    "GET /v1/nearest?from=00000000-0000-4000-8000-000000000051&category=restroom&profile=walk&limit=",
    "GET /v1/nearest?from=00000000-0000-4000-8000-000000000051&category=restroom&profile=walk&limit=0",
    "GET /v1/nearest?from=00000000-0000-4000-8000-000000000051&category=restroom&profile=walk&limit=00",
    "GET /v1/nearest?from=00000000-0000-4000-8000-000000000051&category=restroom&profile=walk&limit=01",
    "GET /v1/nearest?from=00000000-0000-4000-8000-000000000051&category=restroom&profile=walk&limit=010",
    "GET /v1/nearest?from=00000000-0000-4000-8000-000000000051&category=restroom&profile=walk&limit=11",
    "GET /v1/nearest?from=00000000-0000-4000-8000-000000000051&category=restroom&profile=walk&limit=12",
    "GET /v1/nearest?from=00000000-0000-4000-8000-000000000051&category=restroom&profile=walk&limit=+1",
    "GET /v1/nearest?from=00000000-0000-4000-8000-000000000051&category=restroom&profile=walk&limit=%2B1",
    "GET /v1/nearest?from=00000000-0000-4000-8000-000000000051&category=restroom&profile=walk&limit=-1",
    "GET /v1/nearest?from=00000000-0000-4000-8000-000000000051&category=restroom&profile=walk&limit=1.0",
    "GET /v1/nearest?from=00000000-0000-4000-8000-000000000051&category=restroom&profile=walk&limit=1+",
    "GET /v1/nearest?from=00000000-0000-4000-8000-000000000051&category=restroom&profile=walk&limit=x",
    "GET /v1/nearest?from=00000000-0000-4000-8000-000000000051&category=restroom&profile=walk&limit=257",
    "GET /v1/nearest?from=00000000-0000-4000-8000-000000000051&category=restroom&profile=walk&limit=266",
    "GET /v1/nearest?from=00000000-0000-4000-8000-000000000051&category=restroom&profile=walk&limit=4294967297",
    "GET /v1/nearest?from=00000000-0000-4000-8000-000000000051&category=restroom&profile=walk&limit=1&limit=1",
];

/// Each of these is refused as a query.
fn check_bad(
    rt: &impl Abort,
    alloc: Global,
    front: &Front,
    lines: &[&str],
) -> Result<(), AllocError> {
    for line in lines {
        let bytes = request(alloc, line, "", b"")?;
        check(rt, alloc, front, &bytes, BAD_QUERY)?;
    }
    Ok(())
}

/// The nearest of a category.
fn check_nearest(rt: &impl Abort, alloc: Global, front: &Front) -> Result<(), AllocError> {
    check_good_nearest(rt, alloc, front)?;
    check_bad(rt, alloc, front, &BAD_NEAREST)?;
    check_bad(rt, alloc, front, &BAD_LIMITS)
}

/// Staff keys.
fn check_staff(rt: &impl Abort, alloc: Global, front: &Front) -> Result<(), AllocError> {
    let table = [
        (KEY, CLOSED),
        ("X-Staff-Key: desk-key-1\r\n", CLOSED),
        ("x-staff-key: \t desk-key-1 \r\n", CLOSED),
        ("", NOT_STAFF),
        (
            "x-staff-key: desk-key-1\r\nx-staff-key: desk-key-1\r\n",
            NOT_STAFF,
        ),
        ("x-staff-key: desk-key-1\r\nx-staff-key: a\r\n", NOT_STAFF),
        ("x-staff-key: Desk-key-1\r\n", NOT_STAFF),
        ("x-staff-key: desk-key-12\r\n", NOT_STAFF),
    ];
    for (fields, want) in &table {
        let bytes = request(alloc, "POST /v1/closures", fields, CLOSING)?;
        check(rt, alloc, front, &bytes, *want)?;
    }
    let bytes = request(alloc, "POST /v1/closures", "", b"[]")?;
    check(rt, alloc, front, &bytes, NOT_STAFF)?;
    let bytes = request(alloc, "POST /v1/closures?since=x", KEY, CLOSING)?;
    check(rt, alloc, front, &bytes, CLOSED)
}

/// Bodies.
fn check_bodies(rt: &impl Abort, alloc: Global, front: &Front) -> Result<(), AllocError> {
    let table: &[(&[u8], Outcome<'_>)] = &[
        (
            b"\xef\xbb\xbf{\"feature\":\"00000000-0000-4000-8000-000000000301\",\"closed\":true}",
            BAD_BODY,
        ),
        (b"\"\"", BAD_BODY),
        (b"[]", BAD_BODY),
        (b"", BAD_BODY),
        (
            b"{\"feature\":\"00000000-0000-4000-8000-000000000301\",\"closed\":true,\"z\":\"\xff\"}",
            BAD_BODY,
        ),
        (
            b"{\"feature\":\"00000000-0000-4000-8000-000000000301\",\"closed\":null}",
            BAD_BODY,
        ),
        (
            b"{\"feature\":\"00000000-0000-4000-8000-000000000301\"}",
            BAD_BODY,
        ),
        (b"{\"feature\":301,\"closed\":true}", BAD_BODY),
        (
            b"{\"feature\":\"00000000-0000-4000-8000-000000000301\",\"closed\":true,\"z\":\"\\ud800\"}",
            BAD_BODY,
        ),
        (
            b"{\"feature\":\"00000000-0000-4000-8000-000000000301\",\"closed\":true,\"z\":1e400}",
            BAD_BODY,
        ),
        (
            b"{\"closed\":1,\"feature\":\"x\",\"feature\":\"00000000-0000-4000-8000-000000000301\",\"closed\":false}",
            Outcome::Closure(I_0301, false, None),
        ),
    ];
    check_posted(rt, alloc, front, "POST /v1/closures", table)
}

/// Bodies of closures by their profiles: names as they stand there, and nobody where none are named.
fn check_profiles(rt: &impl Abort, alloc: Global, front: &Front) -> Result<(), AllocError> {
    let table: [(&str, Option<&[&str]>); 14] = [
        ("\"profiles\":null", None),
        ("\"profile\":[\"walk\"]", None),
        ("\"Profiles\":[]", None),
        ("\"profiles\":[\"walk\"],\"profiles\":null", None),
        ("\"profiles\":[],\"profiles\":null", None),
        ("\"profiles\":[\"walk\"]", Some(&["walk"])),
        ("\"profiles\":null,\"profiles\":[\"walk\"]", Some(&["walk"])),
        (
            "\"profiles\":[\"bicycle\"],\"profiles\":[\"walk\"]",
            Some(&["walk"]),
        ),
        (
            "\"profiles\":[\"wheelchair\",\"walk\",\"walk\"]",
            Some(&["wheelchair", "walk", "walk"]),
        ),
        ("\"profiles\":[\"Walk\"]", Some(&["Walk"])),
        ("\"profiles\":[\"\"]", Some(&[""])),
        ("\"profiles\":[\"\\u0077alk\"]", Some(&["walk"])),
        ("\"profil\\u0065s\":[\"walk\"]", Some(&["walk"])),
        (
            "\"profiles\" : [ \"a b\" , \"\u{e4}\" ]",
            Some(&["a b", "\u{e4}"]),
        ),
    ];
    for (member, want) in &table {
        let body = closing_with(alloc, member)?;
        let bytes = request(alloc, "POST /v1/closures", KEY, &body)?;
        let count = want.map(|names| names.len());
        let outcome = Outcome::Closure(I_0301, true, count);
        check(rt, alloc, front, &bytes, outcome)?;
        if let Some(names) = want {
            assert!(rt; is_for(&take(alloc, front, &bytes), names));
        }
    }
    let sixteen = closing_for(alloc, 16)?;
    let seventeen = closing_for(alloc, 17)?;
    let table: &[(&[u8], Outcome<'_>)] = &[
        (&sixteen, Outcome::Closure(I_0301, true, Some(16))),
        (&seventeen, BAD_BODY),
    ];
    check_posted(rt, alloc, front, "POST /v1/closures", table)
}

/// Bodies of closures whose profiles are neither null nor a list of texts.
fn check_bad_profiles(rt: &impl Abort, alloc: Global, front: &Front) -> Result<(), AllocError> {
    let table = [
        "\"profiles\":[]",
        "\"profiles\":\"walk\"",
        "\"profiles\":\"\"",
        "\"profiles\":[null]",
        "\"profiles\":[1]",
        "\"profiles\":[[\"walk\"]]",
        "\"profiles\":[\"walk\",1]",
        "\"profiles\":[\"walk\",null]",
        "\"profiles\":{}",
        "\"profiles\":{\"0\":\"walk\"}",
        "\"profiles\":true",
        "\"profiles\":false",
        "\"profiles\":0",
        "\"profiles\":[\"walk\"],\"profiles\":[]",
        "\"profiles\":null,\"profiles\":0",
        "\"profiles\":[\"\\ud800\"]",
    ];
    for member in &table {
        let body = closing_with(alloc, member)?;
        let bytes = request(alloc, "POST /v1/closures", KEY, &body)?;
        check(rt, alloc, front, &bytes, BAD_BODY)?;
    }
    Ok(())
}

/// Bodies at the limits of depth and of a folder's name.
fn check_limits(rt: &impl Abort, alloc: Global, front: &Front) -> Result<(), AllocError> {
    let deep = nested(alloc, 126)?;
    let deeper = nested(alloc, 127)?;
    let long = repeated(alloc, b"{\"folder\":\"", b"a", 64, b"\"}")?;
    let longer = repeated(alloc, b"{\"folder\":\"", b"a", 65, b"\"}")?;
    let folder = "aaaaaaaaaaaaaaaaaaaaaaaaaaaaaaaaaaaaaaaaaaaaaaaaaaaaaaaaaaaaaaaa";
    let table: &[(&[u8], Outcome<'_>)] = &[(&deep, CLOSED), (&deeper, BAD_BODY)];
    check_posted(rt, alloc, front, "POST /v1/closures", table)?;
    let table: &[(&[u8], Outcome<'_>)] = &[
        (b"{\"folder\":\"tall\"}", Outcome::Publish("tall")),
        (&long, Outcome::Publish(folder)),
        (&longer, BAD_BODY),
        (b"{\"folder\":\"../tall\"}", BAD_BODY),
        (b"{\"folder\":\"Tall\"}", BAD_BODY),
        (b"{\"folder\":\"\"}", BAD_BODY),
    ];
    check_posted(rt, alloc, front, "POST /v1/publish", table)
}

#[test]
fn requests(rt: HostRuntime) -> Result<(), Fail> {
    let alloc = rt.alloc();
    let keys = desk(alloc)?;
    let front = Front::new(alloc, &keys).expect(&rt, "memory");
    check_paths(&rt, alloc, &front)?;
    check_queries(&rt, alloc, &front)?;
    check_routes(&rt, alloc, &front)?;
    check_tours(&rt, alloc, &front)?;
    check_nearest(&rt, alloc, &front)?;
    check_staff(&rt, alloc, &front)?;
    check_bodies(&rt, alloc, &front)?;
    check_profiles(&rt, alloc, &front)?;
    check_bad_profiles(&rt, alloc, &front)?;
    check_limits(&rt, alloc, &front)?;
    let refused = take(alloc, &front, b"GET /v1/version\r\n\r\n");
    assert!(&rt; come_of(&refused) == Outcome::Fault(Refusal::BadHead));
    one_message_law();
    message_more_law();
    more_is_short_law();
    message_length_law();
    path_law();
    Ok(())
}
