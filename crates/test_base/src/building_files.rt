//! The sizes of two buildings' files, and three of their features, worked out by hand.

use gen_text::gen_files;
use std::alloc::Global;
use std::process::Abort;
use std::test::Fail;
use venue_types::{Files, Slot};

// The files that are there by number, and how many bytes they have.
static SIZES: [(u8, &[(usize, usize)]); 2] = [
    (
        1,
        &[(0, 48), (10, 305), (12, 24_725), (15, 32_598), (16, 291)],
    ),
    (
        2,
        &[
            (0, 48),
            (10, 568),
            (12, 49_409),
            (13, 705),
            (15, 65_155),
            (16, 291),
        ],
    ),
];

// Of the building of two levels: a file, whether it begins or ends so, and the text.
static PARTS: [(usize, bool, &[u8]); 3] = [
    (
        10,
        true,
        br#"{"type":"FeatureCollection","features":[{"type":"Feature","id":"00000000-0000-4000-8000-000000000001","feature_type":"level","geometry":{"type":"Polygon","coordinates":[[[10.00000,50.00000],[10.00400,50.00000],[10.00400,50.00018],[10.00000,50.00018],[10.00000,50.00000]]]},"properties":{"ordinal":-100}},"#,
    ),
    (
        12,
        false,
        br#",{"type":"Feature","id":"00000000-0000-4000-8000-000000000206","feature_type":"opening","geometry":{"type":"LineString","coordinates":[[10.00397,50.00014],[10.00399,50.00014]]},"properties":{"level_id":"00000000-0000-4000-8000-000000000002"}}]}"#,
    ),
    (
        13,
        true,
        br#"{"type":"FeatureCollection","features":[{"type":"Feature","id":"00000000-0000-4000-8000-000000000207","feature_type":"relationship","geometry":null,"properties":{"category":"elevator","direction":"undirected","origin":{"id":"00000000-0000-4000-8000-000000000310","feature_type":"unit"},"destination":{"id":"00000000-0000-4000-8000-000000000413","feature_type":"unit"}}},"#,
    ),
];

// The text of a file, none where it is absent.
fn text_of(files: &Files, file: usize) -> Option<&[u8]> {
    match files.slots.get(file) {
        Some(Slot::Held(bytes)) => Some(bytes.as_slice()),
        _ => None,
    }
}

fn len_of(files: &Files, file: usize) -> Option<usize> {
    match text_of(files, file) {
        Some(text) => Some(text.len()),
        None => None,
    }
}

// How many bytes a file is to have, none where it is to be absent.
fn size_of(sizes: &[(usize, usize)], file: usize) -> Option<usize> {
    for (number, size) in sizes {
        if *number == file {
            return Some(*size);
        }
    }
    None
}

fn judge_sizes(
    rt: &impl Abort,
    alloc: Global,
    levels: u8,
    sizes: &[(usize, usize)],
) -> Result<(), Fail> {
    if levels == 0 || levels > 200 {
        return Err(Fail::new("no such building"));
    }
    let files = gen_files(alloc, levels)?;
    assert!(rt; files.slots.len() == 17);
    for file in 0..17 {
        assert!(rt; len_of(&files, file) == size_of(sizes, file));
    }
    Ok(())
}

fn judge_buildings(
    rt: &impl Abort,
    alloc: Global,
    rows: &[(u8, &[(usize, usize)])],
) -> Result<(), Fail> {
    for (levels, sizes) in rows {
        judge_sizes(rt, alloc, *levels, sizes)?;
    }
    Ok(())
}

fn judge_parts(rt: &impl Abort, files: &Files, rows: &[(usize, bool, &[u8])]) {
    for (file, first, wanted) in rows {
        let text = text_of(files, *file).expect(rt, "a file");
        let stands = if *first {
            text.starts_with(wanted)
        } else {
            text.ends_with(wanted)
        };
        assert!(rt; stands);
    }
}

#[test]
fn files_are_as_counted(rt: HostRuntime) -> Result<(), Fail> {
    judge_buildings(&rt, rt.alloc(), &SIZES)?;
    let files = gen_files(rt.alloc(), 2)?;
    judge_parts(&rt, &files, &PARTS);
    Ok(())
}
