//! Values beside what the forms say of them, and each reader once.

use exact_json::{Arena, Tree, read};
use imdf_schema::{
    File, Form, Geometry, Property, file_numbers_law, file_of_type, fits, fits_geometry, geometry,
    id, is_collection, is_feature, is_null, is_word, item_fits, items, list_of, properties,
    property, text, type_of, unlisted_property,
};
use std::alloc::Global;
use std::process::Abort;
use std::test::Fail;

// A form, a value, and whether it fits.
static FORMS: [(Form, &[u8], bool); 14] = [
    (Form::Id, b"\"00000000-0000-4000-8000-000000000001\"", true),
    (Form::Id, b"null", false),
    (Form::Ids, b"[]", false),
    (Form::IdsOrNull, b"[1]", true),
    (Form::Reference, b"{\"id\":\"x\"}", false),
    (Form::TextOrNull, b"\"\"", true),
    (Form::Door, b"{\"type\":1}", false),
    (Form::Door, b"{}", true),
    (
        Form::DisplayPoint,
        b"{\"type\":\"Point\",\"coordinates\":[10,50]}",
        true,
    ),
    (
        Form::DisplayPoint,
        b"{\"type\":\"Point\",\"coordinates\":[10,91]}",
        false,
    ),
    (Form::Name, b"{\"en\":1,\"en\":\"Bakery\"}", true),
    (Form::Name, b"{\"en\":\"Bakery\",\"en\":1}", false),
    (
        Form::Name,
        b"{\"de\":null,\"en\":1,\"\":\"\",\"en\":2,\"de\":\"\",\"en\":\"Bakery\"}",
        true,
    ),
    (Form::Name, b"{\"de\":\"\",\"en\":1,\"de\":\"\"}", false),
];

fn judge_form(rt: &impl Abort, alloc: Global, form: Form, bytes: &[u8], wanted: bool) {
    let arena = Arena::new(alloc);
    let tree = read(&arena, bytes).expect(rt, "JSON");
    let fit = fits(alloc, form, Some(&tree)).expect(rt, "memory");
    assert!(rt; fit == wanted);
}

#[test]
fn forms_say_what_fits(rt: HostRuntime) -> Result<(), Fail> {
    for (form, bytes, wanted) in &FORMS {
        judge_form(&rt, rt.alloc(), *form, bytes, *wanted);
    }
    Ok(())
}

// Its category is `room`, and it has no level.
fn has_a_category(rt: &impl Abort, item: &Tree) {
    assert!(rt; is_word(property(item, Property::Category), b"room"));
    assert!(rt; text(property(item, Property::Category)).is_some());
    assert!(rt; type_of(property(item, Property::Category)).is_none());
    assert!(rt; id(property(item, Property::LevelId)).is_none());
}

// The same of properties that are named by bytes.
fn has_unlisted(rt: &impl Abort, item: &Tree) {
    assert!(rt; is_null(unlisted_property(item, b"ordinal")));
    assert!(rt; is_word(unlisted_property(item, b"category"), b"room"));
}

// A feature of the category `room`, with one item that is no identifier in its list of units.
fn has_its_members(rt: &impl Abort, item: &Tree) {
    assert!(rt; is_feature(item));
    assert!(rt; fits_geometry(Geometry::Point, geometry(item)));
    has_a_category(rt, item);
    has_unlisted(rt, item);
    for unit in list_of(Form::Ids, property(item, Property::UnitIds)).expect(rt, "a list") {
        assert!(rt; !item_fits(Form::Ids, unit));
    }
}

fn judge_files(rt: &impl Abort) {
    assert!(rt; file_of_type(b"kiosk") == Some(File::Kiosk));
    file_numbers_law();
    assert!(rt; File::Kiosk.number() == 9);
    assert!(rt; File::from_number(9) == Some(File::Kiosk));
    assert!(rt; File::from_number(17) == None);
    assert!(rt; File::Kiosk.name() == "kiosk.geojson");
    assert!(rt; File::Opening.geometry() == Geometry::Line);
}

#[test]
fn a_feature_has_its_members(rt: HostRuntime) -> Result<(), Fail> {
    let bytes =
        b"{\"type\":\"FeatureCollection\",\"features\":[{\"type\":\"Feature\",\"id\":\"00000000-0000-4000-8000-000000000007\",\"geometry\":{\"type\":\"Point\"},\"properties\":{\"category\":\"room\",\"unit_ids\":[1]}}]}";
    let arena = Arena::new(rt.alloc());
    let tree = read(&arena, bytes).expect(&rt, "JSON");
    assert!(rt; is_collection(Some(&tree)));
    for item in items(Some(&tree)).expect(&rt, "a list") {
        has_its_members(&rt, item);
    }
    judge_files(&rt);
    assert!(rt; properties().len() == 31);
    assert!(rt; Property::Name.number() == 16);
    Ok(())
}
