//! The bytes of answers, each as a client reads it.

use std::alloc::{AllocError, Global};
use std::process::Abort;
use std::test::Fail;
use venue_types::{
    Class, ClosedRow, ClosureDone, ClosuresTold, FeatureId, Finding, Kind, Label, Leg, List, Mark,
    NearRow, NearTold, NoTourTold, NodeName, PlaceRow, PlaceTold, Reply, Report, StepRow, Text,
    TourTold, Which,
};
use wire_frames::{Methods, Refusal};
use wire_replies::{bare_bytes, refusal_bytes, reply_bytes, want_of_memory};

// The identifier that ends with these digits.
fn id(last: u16) -> FeatureId {
    FeatureId(0x4000_8000_0000_0000_0000 | u128::from(last))
}

// The text in which `@` stands for all but the last four digits of an identifier.
fn whole(alloc: Global, text: &str) -> Result<String, AllocError> {
    let mut whole = String::new(alloc);
    for letter in text.chars() {
        if letter == '@' {
            whole.push_str("00000000-0000-4000-8000-00000000")?;
        } else {
            whole.push(letter)?;
        }
    }
    Ok(whole)
}

fn text(alloc: Global, text: &str) -> Result<Text, AllocError> {
    Ok(Text::from_string(String::from_str(alloc, text)?))
}

// Names of profiles.
fn names(alloc: Global, names: &[&str]) -> Result<List<Text>, AllocError> {
    let mut texts = Vec::new(alloc);
    for name in names {
        texts.push(text(alloc, name)?)?;
    }
    Ok(List::from_vec(texts))
}

fn label(alloc: Global, tag: &str, name: &str) -> Result<Label, AllocError> {
    let tag = text(alloc, tag)?;
    let text = text(alloc, name)?;
    Ok(Label { tag, text })
}

fn step(cost: u32, kind: Kind, to: u16, via: u16) -> StepRow {
    let to = id(to);
    let via = id(via);
    StepRow {
        corner: None,
        to,
        via,
        cost,
        kind,
    }
}

fn mark(node: u16, value: u64) -> Mark {
    let node = id(node);
    Mark {
        corner: None,
        node,
        value,
    }
}

fn node(last: u16) -> NodeName {
    NodeName {
        id: id(last),
        corner: None,
    }
}

fn corner(last: u16, corner: u32) -> NodeName {
    NodeName {
        corner: Some(corner),
        ..node(last)
    }
}

fn place(last: u16, class: Class, ordinal: i16, name: Vec<Label>) -> PlaceRow {
    let id = id(last);
    let name = List::from_vec(name);
    PlaceRow {
        id,
        class,
        ordinal,
        name,
    }
}

fn route(alloc: Global, potentials: Option<List<Mark>>) -> Result<Reply, AllocError> {
    let profile = text(alloc, "wheelchair")?;
    let steps = List::from_vec(vec![in alloc;
        step(633, Kind::Floor, 0x105, 0x305),
        step(3007, Kind::Floor, 0x101, 0x300),
        step(200, Kind::Elevator, 0x301, 0x301),
        step(3000, Kind::Elevator, 0x401, 0x21),
        step(200, Kind::Elevator, 0x201, 0x401),
        step(2000, Kind::Floor, 0x42, 0x400),
    ]?);
    Ok(Reply::Route {
        number: 1,
        from: id(0x51),
        to: id(0x52),
        profile,
        start: id(0x41),
        cost: 9040,
        steps,
        potentials,
    })
}

fn no_route(alloc: Global, reached: Option<List<NodeName>>) -> Result<Reply, AllocError> {
    let profile = text(alloc, "wheelchair")?;
    Ok(Reply::NoRoute {
        number: 3,
        from: id(0x51),
        to: id(0x52),
        profile,
        reached,
    })
}

fn leg(cost: u64, steps: Vec<StepRow>) -> Leg {
    let steps = List::from_vec(steps);
    Leg { cost, steps }
}

// By two stops, the second of those that were asked for first, and without a step from the last one.
fn tour(alloc: Global) -> Result<Reply, AllocError> {
    let profile = text(alloc, "wheelchair")?;
    let order = List::from_vec(vec![in alloc; id(0x105), id(0x31)]?);
    let legs = List::from_vec(vec![in alloc;
        leg(633, vec![in alloc; step(633, Kind::Floor, 0x105, 0x305)]?),
        leg(1803, vec![in alloc; step(1803, Kind::Floor, 0x31, 0x300)]?),
        leg(0, Vec::new(alloc)),
    ]?);
    Ok(Reply::Tour(TourTold {
        number: 1,
        from: id(0x41),
        to: id(0x31),
        profile,
        order,
        cost: 2436,
        legs,
    }))
}

fn no_tour(alloc: Global) -> Result<Reply, AllocError> {
    let profile = text(alloc, "wheelchair")?;
    let stops = List::from_vec(vec![in alloc; id(0x109), id(0x31)]?);
    Ok(Reply::NoTour(NoTourTold {
        number: 2,
        from: id(0x51),
        to: id(0x52),
        profile,
        stops,
    }))
}

fn near_row(last: u16, cost: u64, steps: Vec<StepRow>) -> NearRow {
    let id = id(last);
    let steps = List::from_vec(steps);
    NearRow { id, cost, steps }
}

// The nearest restroom for a wheelchair.
fn restroom(alloc: Global) -> Result<Vec<NearRow>, AllocError> {
    let steps = vec![in alloc;
        step(633, Kind::Floor, 0x105, 0x305),
        step(1803, Kind::Floor, 0x31, 0x300),
    ]?;
    Ok(vec![in alloc; near_row(0x31, 2436, steps)]?)
}

// Restrooms for a wheelchair, as they are told.
fn nearest(
    alloc: Global,
    number: u32,
    places: Vec<NearRow>,
    potentials: Option<List<Mark>>,
    reached: Option<List<NodeName>>,
) -> Result<Reply, AllocError> {
    let category = text(alloc, "restroom")?;
    let profile = text(alloc, "wheelchair")?;
    let places = List::from_vec(places);
    Ok(Reply::Nearest(NearTold {
        number,
        from: id(0x51),
        start: id(0x41),
        category,
        profile,
        places,
        potentials,
        reached,
    }))
}

// Two amenities, one of them at the start, of a category with what is escaped.
fn nearest_of_two(alloc: Global) -> Result<Reply, AllocError> {
    let category = text(alloc, "a\"\\\n\u{e4}")?;
    let profile = text(alloc, "walk")?;
    let places = List::from_vec(vec![in alloc;
        near_row(0x31, 0, Vec::new(alloc)),
        near_row(0x32, 4_398_046_511_103, Vec::new(alloc)),
    ]?);
    Ok(Reply::Nearest(NearTold {
        number: u32::MAX,
        from: id(0x31),
        start: id(0x31),
        category,
        profile,
        places,
        potentials: Some(List::new(alloc)),
        reached: None,
    }))
}

// What a client is told: the status, the bytes of the body, and further lines.
#[derive(Clone, Copy)]
struct Told<'t>(&'t str, usize, &'t str);

// The head of a reply.
fn head_of(alloc: Global, told: Told<'_>) -> Result<String, AllocError> {
    let Told(status, length, lines) = told;
    format!(in alloc;
        "HTTP/1.1 {status}\r\ncontent-type: application/json\r\ncontent-length: {length}\r\n{lines}\r\n"
    )
}

fn sees(
    rt: &impl Abort,
    alloc: Global,
    reply: &Reply,
    close: bool,
    told: Told<'_>,
    body: &str,
) -> Result<(), AllocError> {
    let mut text = head_of(alloc, told)?;
    text.push_str(whole(alloc, body)?.as_str())?;
    let bytes = reply_bytes(alloc, reply, close).expect(rt, "memory");
    assert!(rt; bytes.as_slice() == text.as_bytes());
    Ok(())
}

// A refusal, and its head alone, in a session that goes on.
fn sees_refusal(
    rt: &impl Abort,
    alloc: Global,
    refusal: Refusal,
    told: Told<'_>,
    body: &str,
) -> Result<(), AllocError> {
    let mut text = head_of(alloc, told)?;
    assert!(rt; bare_bytes(refusal, false) == text.as_bytes());
    text.push_str(body)?;
    assert!(rt; refusal_bytes(refusal, false) == text.as_bytes());
    Ok(())
}

// A reply of status 200, in a session that goes on.
fn reads(
    rt: &impl Abort,
    alloc: Global,
    reply: Reply,
    length: usize,
    body: &str,
) -> Result<(), AllocError> {
    let told = Told("200 OK", length, "");
    sees(rt, alloc, &reply, false, told, body)
}

// The lift, closed or opened again for these profiles, or for all.
fn lift(number: u32, closed: bool, changed: bool, profiles: Option<List<Text>>) -> Reply {
    Reply::ClosureDone(ClosureDone {
        number,
        feature: id(0x301),
        closed,
        changed,
        profiles,
    })
}

fn sees_changes(rt: &impl Abort, alloc: Global) -> Result<(), AllocError> {
    let body = r#"{"changed":true,"closed":true,"feature":"@0301","version":2}"#;
    reads(rt, alloc, lift(2, true, true, None), 91, body)?;
    let reply = lift(2, true, true, Some(names(alloc, &["wheelchair"])?));
    let body =
        r#"{"changed":true,"closed":true,"feature":"@0301","profiles":["wheelchair"],"version":2}"#;
    reads(rt, alloc, reply, 117, body)?;
    let reply = lift(4, true, false, Some(names(alloc, &["walk", "wheelchair"])?));
    let body =
        r#"{"changed":false,"closed":true,"feature":"@0301","profiles":["walk","wheelchair"],"version":4}"#;
    reads(rt, alloc, reply, 125, body)?;
    let reply = lift(5, false, false, Some(names(alloc, &["walk"])?));
    let body =
        r#"{"changed":false,"closed":false,"feature":"@0301","profiles":["walk"],"version":5}"#;
    reads(rt, alloc, reply, 113, body)?;
    let dropped = List::from_vec(vec![in alloc; id(0x301)]?);
    let reply = Reply::Published { number: 3, dropped };
    let body = r#"{"dropped":["@0301"],"version":3}"#;
    reads(rt, alloc, reply, 64, body)
}

fn closed_row(last: u16, profiles: Option<List<Text>>) -> ClosedRow {
    let id = id(last);
    ClosedRow { id, profiles }
}

fn closures(number: u32, closed: Vec<ClosedRow>) -> Reply {
    let closed = List::from_vec(closed);
    Reply::Closures(ClosuresTold { number, closed })
}

fn sees_closures(rt: &impl Abort, alloc: Global) -> Result<(), AllocError> {
    let reply = closures(3, Vec::new(alloc));
    reads(rt, alloc, reply, 27, r#"{"closures":[],"version":3}"#)?;
    let rows = vec![in alloc; closed_row(0x24, None), closed_row(0x301, None)]?;
    let body = r#"{"closures":["@0024","@0301"],"version":4}"#;
    reads(rt, alloc, closures(4, rows), 104, body)
}

// What is closed for some stands among what is closed for all.
fn sees_closures_for_some(rt: &impl Abort, alloc: Global) -> Result<(), AllocError> {
    let rows = vec![in alloc;
        closed_row(0x22, Some(names(alloc, &["walk"])?)),
        closed_row(0x301, Some(names(alloc, &["wheelchair"])?)),
    ]?;
    let body =
        r#"{"closures":[{"feature":"@0022","profiles":["walk"]},{"feature":"@0301","profiles":["wheelchair"]}],"version":3}"#;
    reads(rt, alloc, closures(3, rows), 174, body)?;
    let rows = vec![in alloc;
        closed_row(0x22, Some(names(alloc, &["walk"])?)),
        closed_row(0x301, None),
    ]?;
    let body = r#"{"closures":[{"feature":"@0022","profiles":["walk"]},"@0301"],"version":4}"#;
    reads(rt, alloc, closures(4, rows), 136, body)
}

fn sees_walks(rt: &impl Abort, alloc: Global) -> Result<(), AllocError> {
    let body =
        r#"{"cost":9040,"from":"@0051","profile":"wheelchair","result":"route","start":"@0041","steps":[{"cost":633,"kind":"floor","to":"@0105","via":"@0305"},{"cost":3007,"kind":"floor","to":"@0101","via":"@0300"},{"cost":200,"kind":"elevator","to":"@0301","via":"@0301"},{"cost":3000,"kind":"elevator","to":"@0401","via":"@0021"},{"cost":200,"kind":"elevator","to":"@0201","via":"@0401"},{"cost":2000,"kind":"floor","to":"@0042","via":"@0400"}],"to":"@0052","version":1}"#;
    reads(rt, alloc, route(alloc, None)?, 926, body)?;
    let marks = List::from_vec(vec![in alloc; mark(0x41, 0), mark(0x105, 633)]?);
    let body =
        r#"{"cost":9040,"from":"@0051","potentials":[{"node":"@0041","value":0},{"node":"@0105","value":633}],"profile":"wheelchair","result":"route","start":"@0041","steps":[{"cost":633,"kind":"floor","to":"@0105","via":"@0305"},{"cost":3007,"kind":"floor","to":"@0101","via":"@0300"},{"cost":200,"kind":"elevator","to":"@0301","via":"@0301"},{"cost":3000,"kind":"elevator","to":"@0401","via":"@0021"},{"cost":200,"kind":"elevator","to":"@0201","via":"@0401"},{"cost":2000,"kind":"floor","to":"@0042","via":"@0400"}],"to":"@0052","version":1}"#;
    reads(rt, alloc, route(alloc, Some(marks))?, 1059, body)
}

fn sees_that_none_is(rt: &impl Abort, alloc: Global) -> Result<(), AllocError> {
    let body =
        r#"{"from":"@0051","profile":"wheelchair","result":"none","to":"@0052","version":3}"#;
    reads(rt, alloc, no_route(alloc, None)?, 142, body)?;
    let reached = List::from_vec(vec![in alloc; node(0x31), node(0x41)]?);
    let body =
        r#"{"from":"@0051","profile":"wheelchair","reached":["@0031","@0041"],"result":"none","to":"@0052","version":3}"#;
    reads(rt, alloc, no_route(alloc, Some(reached))?, 232, body)
}

// Round the corner of a hall that is an L, with the potentials that show it.
fn round_the_corner(alloc: Global) -> Result<Reply, AllocError> {
    let at_corner = StepRow {
        corner: Some(1),
        ..step(2550, Kind::Floor, 0x300, 0x300)
    };
    let steps = vec![in alloc; at_corner, step(2550, Kind::Floor, 0x42, 0x300)]?;
    let corner = Mark {
        corner: Some(1),
        ..mark(0x300, 2550)
    };
    let marks = vec![in alloc; mark(0x41, 0), mark(0x300, 3965), corner]?;
    let profile = text(alloc, "wheelchair")?;
    Ok(Reply::Route {
        number: 1,
        from: id(0x41),
        to: id(0x42),
        profile,
        start: id(0x41),
        cost: 5100,
        steps: List::from_vec(steps),
        potentials: Some(List::from_vec(marks)),
    })
}

// A corner is told by its number and its unit; another node of the unit by its identifier alone.
fn sees_corners(rt: &impl Abort, alloc: Global) -> Result<(), AllocError> {
    let body =
        r#"{"cost":5100,"from":"@0041","potentials":[{"node":"@0041","value":0},{"node":"@0300","value":3965},{"corner":1,"node":"@0300","value":2550}],"profile":"wheelchair","result":"route","start":"@0041","steps":[{"corner":1,"cost":2550,"kind":"floor","to":"@0300","via":"@0300"},{"cost":2550,"kind":"floor","to":"@0042","via":"@0300"}],"to":"@0042","version":1}"#;
    reads(rt, alloc, round_the_corner(alloc)?, 665, body)?;
    let nodes = vec![in alloc; node(0x41), node(0x42), corner(0x300, 1)]?;
    let profile = text(alloc, "wheelchair")?;
    let reply = Reply::NoRoute {
        number: 2,
        from: id(0x42),
        to: id(0x43),
        profile,
        reached: Some(List::from_vec(nodes)),
    };
    let body =
        r#"{"from":"@0042","profile":"wheelchair","reached":["@0041","@0042",{"corner":1,"node":"@0300"}],"result":"none","to":"@0043","version":2}"#;
    reads(rt, alloc, reply, 291, body)?;
    let nodes = vec![in alloc; node(0x41), corner(0x305, u32::MAX)]?;
    let reached = Some(List::from_vec(nodes));
    let reply = nearest(alloc, 2, Vec::new(alloc), None, reached)?;
    let body =
        r#"{"category":"restroom","from":"@0051","places":[],"profile":"wheelchair","reached":["@0041",{"corner":4294967295,"node":"@0305"}],"start":"@0041","version":2}"#;
    reads(rt, alloc, reply, 282, body)
}

fn sees_tours(rt: &impl Abort, alloc: Global) -> Result<(), AllocError> {
    let body =
        r#"{"cost":2436,"from":"@0041","legs":[{"cost":633,"steps":[{"cost":633,"kind":"floor","to":"@0105","via":"@0305"}]},{"cost":1803,"steps":[{"cost":1803,"kind":"floor","to":"@0031","via":"@0300"}]},{"cost":0,"steps":[]}],"order":["@0105","@0031"],"profile":"wheelchair","result":"tour","to":"@0031","version":1}"#;
    reads(rt, alloc, tour(alloc)?, 555, body)?;
    let body =
        r#"{"from":"@0051","profile":"wheelchair","result":"none","stops":["@0109","@0031"],"to":"@0052","version":2}"#;
    reads(rt, alloc, no_tour(alloc)?, 230, body)
}

fn restroom_marks(alloc: Global) -> Result<Option<List<Mark>>, AllocError> {
    let marks = vec![in alloc; mark(0x41, 0), mark(0x105, 633), mark(0x305, 224)]?;
    Ok(Some(List::from_vec(marks)))
}

fn reached(alloc: Global, first: u16, second: u16) -> Result<Option<List<NodeName>>, AllocError> {
    let nodes = vec![in alloc; node(first), node(second)]?;
    Ok(Some(List::from_vec(nodes)))
}

fn sees_the_nearest(rt: &impl Abort, alloc: Global) -> Result<(), AllocError> {
    let body =
        r#"{"category":"restroom","from":"@0051","places":[{"amenity":"@0031","cost":2436,"steps":[{"cost":633,"kind":"floor","to":"@0105","via":"@0305"},{"cost":1803,"kind":"floor","to":"@0031","via":"@0300"}]}],"profile":"wheelchair","start":"@0041","version":1}"#;
    let reply = nearest(alloc, 1, restroom(alloc)?, None, None)?;
    reads(rt, alloc, reply, 470, body)?;
    let body =
        r#"{"category":"restroom","from":"@0051","places":[{"amenity":"@0031","cost":2436,"steps":[{"cost":633,"kind":"floor","to":"@0105","via":"@0305"},{"cost":1803,"kind":"floor","to":"@0031","via":"@0300"}]}],"potentials":[{"node":"@0041","value":0},{"node":"@0105","value":633},{"node":"@0305","value":224}],"profile":"wheelchair","start":"@0041","version":1}"#;
    let reply = nearest(alloc, 1, restroom(alloc)?, restroom_marks(alloc)?, None)?;
    reads(rt, alloc, reply, 663, body)?;
    let body =
        r#"{"category":"a\"\\\nä","from":"@0031","places":[{"amenity":"@0031","cost":0,"steps":[]},{"amenity":"@0032","cost":4398046511103,"steps":[]}],"potentials":[],"profile":"walk","start":"@0031","version":4294967295}"#;
    reads(rt, alloc, nearest_of_two(alloc)?, 336, body)
}

// Fewer than were asked for.
fn sees_what_is_reached(rt: &impl Abort, alloc: Global) -> Result<(), AllocError> {
    let body =
        r#"{"category":"restroom","from":"@0051","places":[{"amenity":"@0031","cost":2436,"steps":[{"cost":633,"kind":"floor","to":"@0105","via":"@0305"},{"cost":1803,"kind":"floor","to":"@0031","via":"@0300"}]}],"potentials":[{"node":"@0041","value":0},{"node":"@0105","value":633},{"node":"@0305","value":224}],"profile":"wheelchair","reached":["@0031","@0041"],"start":"@0041","version":1}"#;
    let marks = restroom_marks(alloc)?;
    let reply = nearest(
        alloc,
        1,
        restroom(alloc)?,
        marks,
        reached(alloc, 0x31, 0x41)?,
    )?;
    reads(rt, alloc, reply, 753, body)?;
    let body =
        r#"{"category":"restroom","from":"@0051","places":[],"potentials":[],"profile":"wheelchair","reached":["@0041","@0305"],"start":"@0041","version":2}"#;
    let none = Some(List::new(alloc));
    let reply = nearest(
        alloc,
        2,
        Vec::new(alloc),
        none,
        reached(alloc, 0x41, 0x305)?,
    )?;
    reads(rt, alloc, reply, 269, body)?;
    let body =
        r#"{"category":"restroom","from":"@0051","places":[],"profile":"wheelchair","start":"@0041","version":2}"#;
    let reply = nearest(alloc, 2, Vec::new(alloc), None, None)?;
    reads(rt, alloc, reply, 163, body)
}

fn sees_a_place(rt: &impl Abort, alloc: Global) -> Result<(), AllocError> {
    let name = vec![in alloc; label(alloc, "en", "Tickets")?]?;
    let reply = Reply::Place(PlaceTold {
        number: 1,
        row: place(0x52, Class::Occupant, 1, name),
        closed: false,
        profiles: None,
    });
    let body =
        r#"{"closed":false,"id":"@0052","kind":"occupant","name":{"en":"Tickets"},"ordinal":1,"version":1}"#;
    reads(rt, alloc, reply, 126, body)
}

// A place that is closed for some.
fn sees_a_place_for_some(rt: &impl Abort, alloc: Global) -> Result<(), AllocError> {
    let reply = Reply::Place(PlaceTold {
        number: 3,
        row: place(0x301, Class::Unit, 0, Vec::new(alloc)),
        closed: false,
        profiles: Some(names(alloc, &["wheelchair"])?),
    });
    let body =
        r#"{"closed":false,"id":"@0301","kind":"unit","name":null,"ordinal":0,"profiles":["wheelchair"],"version":3}"#;
    reads(rt, alloc, reply, 136, body)
}

// One tag comes twice, and the texts have what is escaped.
fn sees_names(rt: &impl Abort, alloc: Global) -> Result<(), AllocError> {
    let name = vec![in alloc;
        label(alloc, "en", "First")?,
        label(alloc, "de", "T\"\\\n\u{e4}")?,
        label(alloc, "en", "Last")?,
    ]?;
    let reply = Reply::Place(PlaceTold {
        number: 7,
        row: place(0x31, Class::Amenity, 0, name),
        closed: true,
        profiles: None,
    });
    let body =
        r#"{"closed":true,"id":"@0031","kind":"amenity","name":{"de":"T\"\\\nä","en":"Last"},"ordinal":0,"version":7}"#;
    reads(rt, alloc, reply, 138, body)
}

fn sees_places(rt: &impl Abort, alloc: Global) -> Result<(), AllocError> {
    let rows = List::from_vec(vec![in alloc;
        place(0x31, Class::Anchor, -3, Vec::new(alloc)),
        place(0x404, Class::Unit, 1, Vec::new(alloc)),
    ]?);
    let reply = Reply::Places { number: 1, rows };
    let body =
        r#"{"places":[{"id":"@0031","kind":"anchor","name":null,"ordinal":-3},{"id":"@0404","kind":"unit","name":null,"ordinal":1}],"version":1}"#;
    reads(rt, alloc, reply, 195, body)
}

fn sees_findings(rt: &impl Abort, alloc: Global) -> Result<(), AllocError> {
    let found = Finding {
        rule: 30,
        file: 15,
        index: 7,
        member: 0,
    };
    let report = Report {
        first: List::from_vec(vec![in alloc; found]?),
        total: 1,
    };
    let told = Told("422 Unprocessable Entity", 100, "");
    let body =
        r#"{"error":"rejected","findings":[{"file":"unit.geojson","index":7,"member":0,"rule":"K1"}],"total":1}"#;
    sees(rt, alloc, &Reply::Rejected(report), false, told, body)
}

// A reply of another status, without further lines, in a session that goes on.
fn tells(
    rt: &impl Abort,
    alloc: Global,
    reply: Reply,
    status: &str,
    body: &str,
) -> Result<(), AllocError> {
    sees(rt, alloc, &reply, false, Told(status, body.len(), ""), body)
}

fn sees_what_is_not_there(rt: &impl Abort, alloc: Global) -> Result<(), AllocError> {
    let status = "404 Not Found";
    tells(
        rt,
        alloc,
        Reply::NoProfile,
        status,
        r#"{"error":"no_such_profile"}"#,
    )?;
    tells(
        rt,
        alloc,
        Reply::NoFeature,
        status,
        r#"{"error":"no_such_feature"}"#,
    )?;
    for (which, body) in [
        (Which::From, r#"{"error":"no_such_place","which":"from"}"#),
        (Which::To, r#"{"error":"no_such_place","which":"to"}"#),
        (Which::Id, r#"{"error":"no_such_place","which":"id"}"#),
        (Which::Stop, r#"{"error":"no_such_place","which":"stop"}"#),
    ] {
        tells(rt, alloc, Reply::NoPlace(which), status, body)?;
    }
    Ok(())
}

fn sees_what_cannot_be(rt: &impl Abort, alloc: Global) -> Result<(), AllocError> {
    let reply = Reply::FolderFault {
        before: 1,
        after: 2,
    };
    tells(
        rt,
        alloc,
        reply,
        "502 Bad Gateway",
        r#"{"error":"folder_fault"}"#,
    )?;
    let reply = Reply::Ahead {
        since: 9,
        number: 3,
    };
    let body = r#"{"error":"version_ahead","since":9,"version":3}"#;
    tells(rt, alloc, reply, "409 Conflict", body)?;
    let body = r#"{"error":"history_full","version":2}"#;
    tells(
        rt,
        alloc,
        Reply::HistoryFull { number: 2 },
        "409 Conflict",
        body,
    )?;
    let body = r#"{"error":"want_of_memory"}"#;
    tells(
        rt,
        alloc,
        Reply::OutOfMemory,
        "503 Service Unavailable",
        body,
    )
}

fn sees_versions(rt: &impl Abort, alloc: Global) {
    let version = Reply::Version {
        number: 1,
        closed: 0,
        places: 33,
    };
    let bytes =
        b"HTTP/1.1 200 OK\r\ncontent-type: application/json\r\ncontent-length: 36\r\n\r\n{\"closed\":0,\"places\":33,\"version\":1}";
    let written = reply_bytes(alloc, &version, false).expect(rt, "memory");
    assert!(rt; written.as_slice() == bytes.as_slice());
    let bytes =
        b"HTTP/1.1 200 OK\r\ncontent-type: application/json\r\ncontent-length: 36\r\nconnection: close\r\n\r\n{\"closed\":0,\"places\":33,\"version\":1}";
    let written = reply_bytes(alloc, &version, true).expect(rt, "memory");
    assert!(rt; written.as_slice() == bytes.as_slice());
}

fn sees_want_of_memory(rt: &impl Abort) {
    let bytes =
        b"HTTP/1.1 503 Service Unavailable\r\ncontent-type: application/json\r\ncontent-length: 26\r\nconnection: close\r\n\r\n{\"error\":\"want_of_memory\"}";
    assert!(rt; want_of_memory(true) == bytes.as_slice());
    assert!(rt; want_of_memory(false).len() == 114);
}

const CLOSE: &str = "connection: close\r\n";

const REFUSALS: [(Refusal, &str, &str, &str); 11] = [
    (
        Refusal::HeadTooLarge,
        "431 Request Header Fields Too Large",
        CLOSE,
        r#"{"error":"head_too_large"}"#,
    ),
    (
        Refusal::BadHead,
        "400 Bad Request",
        CLOSE,
        r#"{"error":"bad_head"}"#,
    ),
    (
        Refusal::TransferCoding,
        "501 Not Implemented",
        CLOSE,
        r#"{"error":"transfer_coding"}"#,
    ),
    (
        Refusal::BodyTooLarge,
        "413 Payload Too Large",
        CLOSE,
        r#"{"error":"body_too_large"}"#,
    ),
    (
        Refusal::NoPath,
        "404 Not Found",
        "",
        r#"{"error":"no_such_path"}"#,
    ),
    (
        Refusal::Method(Methods::Get),
        "405 Method Not Allowed",
        "allow: GET\r\n",
        r#"{"error":"method"}"#,
    ),
    (
        Refusal::Method(Methods::Post),
        "405 Method Not Allowed",
        "allow: POST\r\n",
        r#"{"error":"method"}"#,
    ),
    (
        Refusal::Method(Methods::Both),
        "405 Method Not Allowed",
        "allow: GET, POST\r\n",
        r#"{"error":"method"}"#,
    ),
    (
        Refusal::NotStaff,
        "403 Forbidden",
        "",
        r#"{"error":"not_staff"}"#,
    ),
    (
        Refusal::BadBody,
        "400 Bad Request",
        "",
        r#"{"error":"bad_body"}"#,
    ),
    (
        Refusal::BadQuery,
        "400 Bad Request",
        "",
        r#"{"error":"bad_query"}"#,
    ),
];

#[test]
fn answers_have_their_bytes(rt: HostRuntime) -> Result<(), Fail> {
    let alloc = rt.alloc();
    sees_versions(&rt, alloc);
    sees_want_of_memory(&rt);
    sees_what_is_not_there(&rt, alloc)?;
    sees_what_cannot_be(&rt, alloc)?;
    sees_findings(&rt, alloc)?;
    for (refusal, status, lines, body) in &REFUSALS {
        sees_refusal(&rt, alloc, *refusal, Told(status, body.len(), lines), body)?;
    }
    Ok(())
}

#[test]
fn closures_have_their_bytes(rt: HostRuntime) -> Result<(), Fail> {
    let alloc = rt.alloc();
    sees_changes(&rt, alloc)?;
    sees_closures(&rt, alloc)?;
    sees_closures_for_some(&rt, alloc)?;
    Ok(())
}

#[test]
fn ways_have_their_bytes(rt: HostRuntime) -> Result<(), Fail> {
    let alloc = rt.alloc();
    sees_walks(&rt, alloc)?;
    sees_that_none_is(&rt, alloc)?;
    sees_tours(&rt, alloc)?;
    Ok(())
}

#[test]
fn the_nearest_have_their_bytes(rt: HostRuntime) -> Result<(), Fail> {
    let alloc = rt.alloc();
    sees_corners(&rt, alloc)?;
    sees_the_nearest(&rt, alloc)?;
    sees_what_is_reached(&rt, alloc)?;
    Ok(())
}

#[test]
fn places_have_their_bytes(rt: HostRuntime) -> Result<(), Fail> {
    let alloc = rt.alloc();
    sees_a_place(&rt, alloc)?;
    sees_a_place_for_some(&rt, alloc)?;
    sees_names(&rt, alloc)?;
    sees_places(&rt, alloc)?;
    Ok(())
}
