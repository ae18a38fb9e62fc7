//! Each word, each flag and each fact, against the tables of the profile.

use imdf_access::{
    EndFacts, allows, before_dot, built_in, known_unit, passage, passes_end, passes_way, unit_kind,
    walkable,
};
use std::alloc::{AllocError, Global};
use std::process::Abort;
use std::test::Fail;
use venue_types::{Kind, LinkFacts, OutOfMemory, Profile, Text};

/// A word; whether a unit of it can be walked and is known, its kind, its passage, where `Floor` is none.
type Word = (&'static str, bool, bool, Kind, Kind);

/// A kind; restricted, revolving, turnstile, unmarked, out; whether `walk`, `wheelchair` and a `walk`
/// that asks for marks may pass.
type Facts = (Kind, [bool; 5], [bool; 3]);

fn judge_word(rt: &impl Abort, category: &[u8], row: &Word) {
    let (_, walked, known, kind, makes) = *row;
    let makes = if makes == Kind::Floor {
        None
    } else {
        Some(makes)
    };
    assert!(rt; walkable(category) == walked);
    assert!(rt; known_unit(category) == known);
    assert!(rt; unit_kind(category) == kind);
    assert!(rt; passage(category) == makes);
}

fn judge_flags(rt: &impl Abort, profile: &Profile, name: &str, flags: [bool; 9]) {
    assert!(rt; profile.name.as_str() == name);
    let found = [
        profile.elevator,
        profile.escalator,
        profile.movingwalkway,
        profile.ramp,
        profile.stairs,
        profile.revolving,
        profile.turnstile,
        profile.restricted,
        profile.marked,
    ];
    assert!(rt; found == flags);
}

fn marked_walk(alloc: Global) -> Result<Profile, OutOfMemory> {
    Ok(Profile {
        name: Text::from_string(String::from_str(alloc, "marked")?),
        elevator: true,
        escalator: true,
        movingwalkway: true,
        ramp: true,
        stairs: true,
        revolving: true,
        turnstile: true,
        restricted: false,
        marked: true,
    })
}

fn judge_facts(rt: &impl Abort, profile: &Profile, kind: Kind, held: &[bool; 5], allowed: bool) {
    let facts = LinkFacts {
        kind,
        restricted: held[0],
        revolving: held[1],
        turnstile: held[2],
        unmarked: held[3],
        out: held[4],
    };
    assert!(rt; allows(profile, &facts) == allowed);
}

static WORDS: [Word; 29] = [
    ("elevator", true, true, Kind::Elevator, Kind::Elevator),
    ("escalator", true, true, Kind::Escalator, Kind::Escalator),
    ("stairs", true, true, Kind::Stairs, Kind::Stairs),
    ("steps", true, true, Kind::Stairs, Kind::Floor),
    ("ramp", true, true, Kind::Ramp, Kind::Ramp),
    (
        "movingwalkway",
        true,
        true,
        Kind::Movingwalkway,
        Kind::Movingwalkway,
    ),
    ("walkway", true, true, Kind::Floor, Kind::Floor),
    ("room", true, true, Kind::Floor, Kind::Floor),
    ("restroom", true, true, Kind::Floor, Kind::Floor),
    ("lobby", true, true, Kind::Floor, Kind::Floor),
    ("platform", true, true, Kind::Floor, Kind::Floor),
    ("nonpublic", true, true, Kind::Floor, Kind::Floor),
    ("opentobelow", false, true, Kind::Floor, Kind::Floor),
    ("column", false, true, Kind::Floor, Kind::Floor),
    ("brick", false, true, Kind::Floor, Kind::Floor),
    ("concrete", false, true, Kind::Floor, Kind::Floor),
    ("drywall", false, true, Kind::Floor, Kind::Floor),
    ("glass", false, true, Kind::Floor, Kind::Floor),
    ("wood", false, true, Kind::Floor, Kind::Floor),
    ("structure", false, true, Kind::Floor, Kind::Floor),
    ("vegetation", false, true, Kind::Floor, Kind::Floor),
    ("traversal", true, false, Kind::Floor, Kind::Traversal),
    ("rampart", true, false, Kind::Floor, Kind::Floor),
    ("stairsx", true, false, Kind::Floor, Kind::Floor),
    ("stair", true, false, Kind::Floor, Kind::Floor),
    ("Room", true, false, Kind::Floor, Kind::Floor),
    (" room", true, false, Kind::Floor, Kind::Floor),
    ("", true, false, Kind::Floor, Kind::Floor),
    ("parking", true, false, Kind::Floor, Kind::Floor),
];

static FACTS: [Facts; 13] = [
    (
        Kind::Floor,
        [false, false, false, false, false],
        [true, true, true],
    ),
    (
        Kind::Elevator,
        [false, false, false, false, false],
        [true, true, true],
    ),
    (
        Kind::Escalator,
        [false, false, false, false, false],
        [true, false, true],
    ),
    (
        Kind::Movingwalkway,
        [false, false, false, false, false],
        [true, false, true],
    ),
    (
        Kind::Ramp,
        [false, false, false, false, false],
        [true, true, true],
    ),
    (
        Kind::Stairs,
        [false, false, false, false, false],
        [true, false, true],
    ),
    (
        Kind::Traversal,
        [false, false, false, false, false],
        [true, true, true],
    ),
    (
        Kind::Floor,
        [true, false, false, false, false],
        [false, false, false],
    ),
    (
        Kind::Floor,
        [false, true, false, false, false],
        [true, false, true],
    ),
    (
        Kind::Floor,
        [false, false, true, false, false],
        [true, false, true],
    ),
    (
        Kind::Floor,
        [false, false, false, true, false],
        [true, true, false],
    ),
    (
        Kind::Floor,
        [false, false, false, false, true],
        [false, false, false],
    ),
    (
        Kind::Elevator,
        [false, true, false, false, false],
        [true, false, true],
    ),
];

// A word by itself, and before a dot.
fn judge_dotted(rt: &impl Abort, alloc: Global, row: &Word) -> Result<(), AllocError> {
    judge_word(rt, row.0.as_bytes(), row);
    let dotted = format!(in alloc; "{}.{}", row.0, "ramp.x")?;
    judge_word(rt, dotted.as_bytes(), row);
    assert!(rt; before_dot(dotted.as_bytes()) == row.0.as_bytes());
    Ok(())
}

fn judge_built_in(rt: &impl Abort, walk: &Profile, wheelchair: &Profile) {
    judge_flags(
        rt,
        walk,
        "walk",
        [true, true, true, true, true, true, true, false, false],
    );
    judge_flags(
        rt,
        wheelchair,
        "wheelchair",
        [true, false, false, true, false, false, false, false, false],
    );
}

fn judge_words(rt: &impl Abort, alloc: Global, rows: &[Word]) -> Result<(), AllocError> {
    for row in rows {
        judge_dotted(rt, alloc, row)?;
    }
    Ok(())
}

fn judge_row(rt: &impl Abort, walk: &Profile, wheelchair: &Profile, marked: &Profile, row: &Facts) {
    let (kind, held, allowed) = row;
    judge_facts(rt, walk, *kind, held, allowed[0]);
    judge_facts(rt, wheelchair, *kind, held, allowed[1]);
    judge_facts(rt, marked, *kind, held, allowed[2]);
}

fn judge_profiles(rt: &impl Abort, profiles: &[Profile], marked: &Profile) {
    assert!(rt; profiles.len() == 2);
    let walk = profiles.first().expect(rt, "walk");
    let wheelchair = profiles.get(1).expect(rt, "wheelchair");
    judge_built_in(rt, walk, wheelchair);
    for row in &FACTS {
        judge_row(rt, walk, wheelchair, marked, row);
    }
}

#[test]
fn the_tables_hold(rt: HostRuntime) -> Result<(), Fail> {
    judge_words(&rt, rt.alloc(), &WORDS)?;
    let marked = marked_walk(rt.alloc())?;
    let profiles = built_in(rt.alloc())?;
    judge_profiles(&rt, profiles.as_slice(), &marked);
    Ok(())
}

static KINDS: [Kind; 7] = [
    Kind::Floor,
    Kind::Elevator,
    Kind::Escalator,
    Kind::Movingwalkway,
    Kind::Ramp,
    Kind::Stairs,
    Kind::Traversal,
];

/// An end that asks what the number's binary digits say.
fn end_of(digits: u32) -> EndFacts {
    EndFacts {
        restricted: digits & 1 != 0,
        revolving: digits & 2 != 0,
        turnstile: digits & 4 != 0,
        unmarked: digits & 8 != 0,
        out: digits & 16 != 0,
    }
}

fn joined(kind: Kind, restricted: bool, from: &EndFacts, to: &EndFacts) -> LinkFacts {
    LinkFacts {
        kind,
        restricted: restricted || from.restricted || to.restricted,
        revolving: from.revolving || to.revolving,
        turnstile: from.turnstile || to.turnstile,
        unmarked: from.unmarked || to.unmarked,
        out: from.out || to.out,
    }
}

fn judge_parts(rt: &impl Abort, profile: &Profile, kind: Kind, restricted: bool) {
    let way = passes_way(profile, kind, restricted);
    for pair in 0..1024u32 {
        let from = end_of(pair);
        let to = end_of(pair >> 5);
        let parts = way && passes_end(profile, &from) && passes_end(profile, &to);
        let whole = joined(kind, restricted, &from, &to);
        assert!(rt; parts == allows(profile, &whole));
    }
}

fn judge_ways(rt: &impl Abort, profile: &Profile) {
    for kind in &KINDS {
        judge_parts(rt, profile, *kind, false);
        judge_parts(rt, profile, *kind, true);
    }
}

#[test]
fn a_link_is_judged_by_its_parts(rt: HostRuntime) -> Result<(), Fail> {
    judge_ways(&rt, &marked_walk(rt.alloc())?);
    let profiles = built_in(rt.alloc())?;
    for profile in profiles.as_slice() {
        judge_ways(&rt, profile);
    }
    Ok(())
}
