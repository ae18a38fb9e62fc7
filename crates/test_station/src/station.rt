//! The station: a venue of two levels with a lift, stairs, an escalator and a ramp.

use crate::numbers::{
    ADDRESS, AMENITY, ANCHOR, BUILDING, FOOTPRINT, LEVEL, MANIFEST, OCCUPANT, OPENING,
    RELATIONSHIP, SETTINGS, UNIT, VENUE, type_name,
};
use std::alloc::{AllocError, Global};

// The file, the identifier, the place in metres (none, a point, the ends of a line or two corners of a box), the properties.
type Feature = (usize, &'static str, &'static [u8], &'static str);

static FEATURES: [Feature; 44] = [
    (ADDRESS, "@0001", &[], ""),
    (BUILDING, "@0003", &[], ""),
    (VENUE, "@0002", &[0, 0, 100, 60], ""),
    (FOOTPRINT, "@0004", &[0, 0, 100, 60], ""),
    (LEVEL, "@0010", &[0, 0, 100, 60], "'ordinal':0"),
    (LEVEL, "@0011", &[0, 0, 100, 60], "'ordinal':1"),
    (
        AMENITY,
        "@0031",
        &[30, 25],
        "'category':'restroom','unit_ids':['@0300']",
    ),
    (ANCHOR, "@0041", &[22, 4], "'unit_id':'@0305'"),
    (ANCHOR, "@0042", &[22, 20], "'unit_id':'@0400'"),
    (
        OCCUPANT,
        "@0051",
        &[],
        "'anchor_id':'@0041','name':{'en':'Bakery'}",
    ),
    (
        OCCUPANT,
        "@0052",
        &[],
        "'anchor_id':'@0042','name':{'en':'Tickets'}",
    ),
    (OPENING, "@0101", &[21, 40, 23, 40], "'level_id':'@0010'"),
    (OPENING, "@0102", &[41, 40, 43, 40], "'level_id':'@0010'"),
    (OPENING, "@0103", &[51, 40, 53, 40], "'level_id':'@0010'"),
    (OPENING, "@0104", &[71, 40, 73, 40], "'level_id':'@0010'"),
    (OPENING, "@0105", &[19, 10, 21, 10], "'level_id':'@0010'"),
    (OPENING, "@0106", &[49, 10, 51, 10], "'level_id':'@0010'"),
    (
        OPENING,
        "@0107",
        &[10, 24, 10, 26],
        "'level_id':'@0010','door':{'type':'revolving'}",
    ),
    (OPENING, "@0108", &[10, 29, 10, 31], "'level_id':'@0010'"),
    (OPENING, "@0109", &[90, 14, 90, 16], "'level_id':'@0010'"),
    (OPENING, "@0110", &[90, 24, 90, 26], "'level_id':'@0010'"),
    (OPENING, "@0111", &[90, 34, 90, 36], "'level_id':'@0010'"),
    (
        OPENING,
        "@0112",
        &[10, 14, 10, 16],
        "'level_id':'@0010','door':{'type':'turnstile.waistheight'}",
    ),
    (OPENING, "@0201", &[21, 40, 23, 40], "'level_id':'@0011'"),
    (OPENING, "@0202", &[41, 40, 43, 40], "'level_id':'@0011'"),
    (OPENING, "@0203", &[51, 40, 53, 40], "'level_id':'@0011'"),
    (OPENING, "@0204", &[71, 40, 73, 40], "'level_id':'@0011'"),
    (
        UNIT,
        "@0300",
        &[10, 10, 90, 40],
        "'level_id':'@0010','category':'walkway'",
    ),
    (
        UNIT,
        "@0301",
        &[20, 40, 24, 44],
        "'level_id':'@0010','category':'elevator'",
    ),
    (
        UNIT,
        "@0302",
        &[40, 40, 44, 50],
        "'level_id':'@0010','category':'stairs'",
    ),
    (
        UNIT,
        "@0303",
        &[50, 40, 54, 50],
        "'level_id':'@0010','category':'escalator'",
    ),
    (
        UNIT,
        "@0304",
        &[70, 40, 74, 55],
        "'level_id':'@0010','category':'ramp'",
    ),
    (
        UNIT,
        "@0305",
        &[10, 0, 30, 10],
        "'level_id':'@0010','category':'room'",
    ),
    (
        UNIT,
        "@0306",
        &[40, 0, 60, 10],
        "'level_id':'@0010','category':'room'",
    ),
    (
        UNIT,
        "@0307",
        &[60, 20, 62, 22],
        "'level_id':'@0010','category':'column'",
    ),
    (
        UNIT,
        "@0400",
        &[10, 10, 90, 40],
        "'level_id':'@0011','category':'platform'",
    ),
    (
        UNIT,
        "@0401",
        &[20, 40, 24, 44],
        "'level_id':'@0011','category':'elevator'",
    ),
    (
        UNIT,
        "@0402",
        &[40, 40, 44, 50],
        "'level_id':'@0011','category':'stairs'",
    ),
    (
        UNIT,
        "@0403",
        &[50, 40, 54, 50],
        "'level_id':'@0011','category':'escalator'",
    ),
    (
        UNIT,
        "@0404",
        &[70, 40, 74, 55],
        "'level_id':'@0011','category':'ramp'",
    ),
    (
        RELATIONSHIP,
        "@0021",
        &[],
        "'category':'elevator','direction':'undirected','origin':{'id':'@0301','feature_type':'unit'},'destination':{'id':'@0401','feature_type':'unit'}",
    ),
    (
        RELATIONSHIP,
        "@0022",
        &[],
        "'category':'stairs','direction':'undirected','origin':{'id':'@0102','feature_type':'opening'},'destination':{'id':'@0202','feature_type':'opening'}",
    ),
    (
        RELATIONSHIP,
        "@0023",
        &[],
        "'category':'escalator','direction':'directed','origin':{'id':'@0103','feature_type':'opening'},'destination':{'id':'@0203','feature_type':'opening'}",
    ),
    (
        RELATIONSHIP,
        "@0024",
        &[],
        "'category':'ramp','direction':'undirected','origin':{'id':'@0104','feature_type':'opening'},'destination':{'id':'@0204','feature_type':'opening'}",
    ),
];

static MANIFEST_TEXT: &str =
    "{'version':'1.0.0','created':'2024-01-01T00:00:00Z','language':'en'}\n";

static SETTINGS_TEXT: &str =
    "kx = 10000000\nky = 10000000\nelevator_extra = 3000\nescalator_extra = 800\nramp_extra = 2000\nstairs_extra = 1500\nstaff_keys = ['desk-key-1']\n";

// A box goes from its first corner east, north, west and back.
fn geometry(alloc: Global, file: usize, place: &[u8]) -> Result<String, AllocError> {
    match place {
        [x, y] => format!(in alloc; "{{'type':'Point','coordinates':({x},{y})}}"),
        [a, b, c, d] if file == OPENING => {
            format!(in alloc; "{{'type':'LineString','coordinates':[({a},{b}),({c},{d})]}}")
        }
        [a, b, c, d] => format!(in alloc;
            "{{'type':'Polygon','coordinates':[[({a},{b}),({c},{b}),({c},{d}),({a},{d}),({a},{b})]]}}"
        ),
        _ => String::from_str(alloc, "null"),
    }
}

fn add_feature(alloc: Global, text: &mut String, feature: &Feature) -> Result<(), AllocError> {
    let (file, id, place, properties) = feature;
    let kind = type_name(*file);
    let figure = geometry(alloc, *file, place)?;
    let item = format!(in alloc;
        "{{'type':'Feature','id':'{id}','feature_type':'{kind}','geometry':{figure},'properties':{{{properties}}}}}"
    )?;
    text.push_str(item.as_str())
}

// The features of a file, a line each.
fn collection(alloc: Global, file: usize) -> Result<Option<String>, AllocError> {
    let mut text = String::from_str(alloc, "{'type':'FeatureCollection','features':[\n")?;
    let mut count = 0u8;
    for feature in &FEATURES {
        if feature.0 == file {
            if count > 0 {
                text.push_str(",\n")?;
            }
            add_feature(alloc, &mut text, feature)?;
            count = 1;
        }
    }
    text.push_str("\n]}\n")?;
    Ok(if count == 0 { None } else { Some(text) })
}

/// What stands in a file of the station, in the short notation; no file where no feature is of its type.
pub(crate) fn station_text(alloc: Global, file: usize) -> Result<Option<String>, AllocError> {
    match file {
        MANIFEST => Ok(Some(String::from_str(alloc, MANIFEST_TEXT)?)),
        SETTINGS => Ok(Some(String::from_str(alloc, SETTINGS_TEXT)?)),
        _ => collection(alloc, file),
    }
}
