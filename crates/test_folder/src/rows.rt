//! Items of four kinds, whose rows were worked out by hand.

use exact_json::{Arena, read};
use imdf_rows::{
    Figure, doors_law, items_have_texts_law, labels_law, ordinal, passages_law, push_row, tags_law,
};
use std::process::Abort;
use std::test::Fail;
use venue_types::{
    FeatureId, Kind, Label, LevelRow, OpeningRow, Point, Ref, RelationshipRow, UnitRow,
};

static LEVEL: &[u8] = br#"{"id":"00000000-0000-4000-8000-000000000010","properties":{"ordinal":2,
"address_id":"00000000-0000-4000-8000-000000000001","ordinal":-10e-1}}"#;

static OPENING: &[u8] = br#"{"id":"00000000-0000-4000-8000-000000000112","properties":{
"level_id":"00000000-0000-4000-8000-000000000010","door":{"type":"turnstile.waistheight"},
"accessibility":["visualindicator","wheelchair"],"access_control":["wheelchair"]}}"#;

static RELATIONSHIP: &[u8] = br#"{"id":"00000000-0000-4000-8000-000000000022","properties":{
"category":"stairs.x","direction":"directed",
"origin":{"id":"00000000-0000-4000-8000-000000000301","feature_type":"unit"},
"intermediary":[{"id":"00000000-0000-4000-8000-000000000102","feature_type":"opening"},
{"id":"00000000-0000-4000-8000-000000000202","feature_type":"opening"}]}}"#;

static UNIT: &[u8] =
    br#"{"id":"00000000-0000-4000-8000-000000000300","properties":{"category":"room",
"level_id":"00000000-0000-4000-8000-000000000010","restriction":"",
"display_point":{"type":"Point","coordinates":[10.00022,50.00004]},
"name":{"fr":"Salle","de":"Raum","fr":"Pi\u00e8ce"}}}"#;

fn numbered(number: u128) -> FeatureId {
    FeatureId(0x4000_8000_0000_0000_0000 | (number & 0xffff))
}

fn judge_label(rt: &impl Abort, label: &Label, tag: &str, text: &str) {
    assert!(rt; label.tag.as_str() == tag);
    assert!(rt; label.text.as_str() == text);
}

fn judge_level(rt: &impl Abort, row: &LevelRow) {
    assert!(rt; row.address == Some(numbered(0x1)));
    assert!(rt; row.ordinal == -1);
}

#[test]
fn a_level(rt: HostRuntime) -> Result<(), Fail> {
    items_have_texts_law();
    labels_law();
    tags_law();
    doors_law();
    passages_law();
    let arena = Arena::new(rt.alloc());
    let item = read(&arena, LEVEL)?;
    assert!(rt; ordinal(Some(&item)) == None);
    let mut rows = Vec::new(rt.alloc());
    push_row(rt.alloc(), &mut rows, &item, Figure::Nothing)?;
    judge_level(&rt, rows.first().ok_or("level")?);
    Ok(())
}

fn judge_opening(rt: &impl Abort, row: &OpeningRow) {
    assert!(rt; row.level == numbered(0x10));
    assert!(rt; (row.revolving, row.turnstile) == (false, true));
    assert!(rt; (row.marked, row.out) == (true, false));
}

#[test]
fn an_opening(rt: HostRuntime) -> Result<(), Fail> {
    let arena = Arena::new(rt.alloc());
    let item = read(&arena, OPENING)?;
    let mut rows = Vec::new(rt.alloc());
    push_row(rt.alloc(), &mut rows, &item, Figure::Nothing)?;
    judge_opening(&rt, rows.first().ok_or("opening")?);
    Ok(())
}

fn judge_relationship(rt: &impl Abort, row: &RelationshipRow) {
    assert!(rt; row.kind == Some(Kind::Stairs));
    assert!(rt; (row.directed, row.destination) == (true, None));
    assert!(rt;
        row.origin
            == Some(Ref {
                id: numbered(0x301),
                feature_type: 15
            })
    );
}

// The openings in between.
fn judge_between(rt: &impl Abort, between: &[Ref]) -> Result<(), Fail> {
    assert!(rt; between.len() == 2);
    let first = between.first().ok_or("between")?;
    assert!(rt;
        *first
            == Ref {
                id: numbered(0x102),
                feature_type: 12
            }
    );
    Ok(())
}

#[test]
fn a_relationship(rt: HostRuntime) -> Result<(), Fail> {
    let arena = Arena::new(rt.alloc());
    let item = read(&arena, RELATIONSHIP)?;
    let mut rows = Vec::new(rt.alloc());
    push_row(rt.alloc(), &mut rows, &item, Figure::Nothing)?;
    let row: &RelationshipRow = rows.first().ok_or("relationship")?;
    judge_relationship(&rt, row);
    judge_between(&rt, row.between.as_slice())
}

fn judge_unit(rt: &impl Abort, row: &UnitRow) {
    assert!(rt; row.id == numbered(0x300));
    assert!(rt; row.category.as_str() == "room");
    assert!(rt; row.restricted == true);
    assert!(rt;
        row.display
            == Some(Point {
                x: 10_000_220_000,
                y: 50_000_040_000
            })
    );
}

fn judge_name(rt: &impl Abort, name: &[Label]) -> Result<(), Fail> {
    let [first, second] = name else {
        return Err("two labels".into());
    };
    judge_label(rt, first, "de", "Raum");
    judge_label(rt, second, "fr", "Pi\u{e8}ce");
    Ok(())
}

#[test]
fn a_unit(rt: HostRuntime) -> Result<(), Fail> {
    let arena = Arena::new(rt.alloc());
    let item = read(&arena, UNIT)?;
    let mut rows = Vec::new(rt.alloc());
    push_row(rt.alloc(), &mut rows, &item, Figure::Nothing)?;
    let row: &UnitRow = rows.first().ok_or("unit")?;
    judge_unit(&rt, row);
    judge_name(&rt, row.name.as_slice())
}
