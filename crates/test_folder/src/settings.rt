//! Texts of settings, against what the table of keys says of them.

use std::alloc::{AllocError, Global};
use std::process::Abort;
use std::test::Fail;
use venue_settings::{SettingsFault, read_settings};
use venue_types::{Extras, Inside, Profile, Settings, Text};

// The number that is printed for the fault, and its key or name.
fn told(fault: &SettingsFault) -> (u8, &str) {
    match fault {
        SettingsFault::NotToml => (1, ""),
        SettingsFault::Missing(key) => (2, key.as_str()),
        SettingsFault::WrongKind(key) => (3, key.as_str()),
        SettingsFault::Range(key) => (4, key.as_str()),
        SettingsFault::Unknown(key) => (5, key.as_str()),
        SettingsFault::Twice(name) => (6, name.as_str()),
        SettingsFault::OutOfMemory => (7, ""),
    }
}

// 0 stands for settings without a fault.
fn judge(rt: &impl Abort, alloc: Global, bytes: &[u8], number: u8, key: &str) {
    match read_settings(alloc, bytes) {
        Ok(_) => assert!(rt; number == 0),
        Err(fault) => {
            let (found, at) = told(&fault);
            assert!(rt; found == number);
            assert!(rt; at == key);
        }
    }
}

fn judge_rows(rt: &impl Abort, alloc: Global, rows: &[(&str, u8, &str)]) {
    for (text, number, key) in rows {
        judge(rt, alloc, text.as_bytes(), *number, key);
    }
}

fn repeated(alloc: Global, front: &str, item: &str, count: u8) -> Result<String, AllocError> {
    let mut text = String::from_str(alloc, front)?;
    for _ in 0..count {
        text.push_str(item)?;
    }
    Ok(text)
}

fn judge_numbers(rt: &impl Abort, settings: &Settings) {
    assert!(rt; settings.kx == 10_000_000);
    assert!(rt; settings.ky == 10_000_000);
    assert!(rt; settings.border_tol == 1_000);
    assert!(rt; settings.contain_tol == 5_000);
    assert!(rt; settings.inside == Inside::Straight);
    assert!(rt; settings.last_version == 4_294_967_295);
}

fn judge_extras(rt: &impl Abort, extras: &Extras) {
    assert!(rt; extras.elevator == 3_000);
    assert!(rt; extras.escalator == 800);
    assert!(rt; extras.movingwalkway == 0);
    assert!(rt; extras.ramp == 2_000);
    assert!(rt; extras.stairs == 1_500);
    assert!(rt; extras.traversal == 0);
}

fn judge_keys(rt: &impl Abort, keys: &[Text]) {
    assert!(rt; keys.len() == 1);
    assert!(rt; keys[0].as_str() == "desk-key-1");
}

// The profile of the station's own.
fn judge_night(rt: &impl Abort, profile: &Profile) {
    assert!(rt; profile.name.as_str() == "night-staff_1");
    assert!(rt; profile.restricted && profile.marked && !profile.stairs);
}

fn judge_profiles(rt: &impl Abort, profiles: &[Profile]) {
    assert!(rt; profiles.len() == 3);
    assert!(rt; profiles[0].name.as_str() == "walk");
    assert!(rt; profiles[1].name.as_str() == "wheelchair");
    judge_night(rt, &profiles[2]);
}

fn judge_station(rt: &impl Abort, settings: &Settings) {
    judge_numbers(rt, settings);
    judge_extras(rt, &settings.extras);
    judge_keys(rt, settings.staff_keys.as_slice());
    judge_profiles(rt, settings.profiles.as_slice());
}

// A text, the number of its fault and the fault's key or name.
static ROWS: [(&str, u8, &str); 48] = [
    ("", 2, "kx"),
    ("kx = 0\nky = 1\n", 4, "kx"),
    ("kx = 1\n", 2, "ky"),
    ("kx = 1\nky = 1\nkz = 1\n", 5, "kz"),
    ("zz = 1\naz = 1\n", 5, "az"),
    ("kx = \"a\"\nky = 1\n", 3, "kx"),
    ("kx =", 1, ""),
    ("kx = 1.5\nky = 1\n", 3, "kx"),
    ("kx = 1979-05-27\nky = 1\n", 3, "kx"),
    ("kx = 9223372036854775808\nky = 1\n", 1, ""),
    ("kx = -1\nky = 1\n", 4, "kx"),
    ("kx = 20000000\nky = 20000001\n", 4, "ky"),
    ("kx.a = 1\nky = 1\n", 3, "kx"),
    ("ky = 1\na.b = 1\n", 5, "a"),
    ("kx = 1\nky = 1\nborder_tol = 100001\n", 4, "border_tol"),
    ("kx = 1\nky = 1\ncontain_tol = 1000001\n", 4, "contain_tol"),
    ("kx = 1\nky = 1\ninside = \"straight\"\n", 0, ""),
    ("kx = 1\nky = 1\ninside = \"clear\"\n", 0, ""),
    ("kx = 1\nky = 1\ninside = \"Clear\"\n", 4, "inside"),
    ("kx = 1\nky = 1\ninside = \"\"\n", 4, "inside"),
    ("kx = 1\nky = 1\ninside = \"clear \"\n", 4, "inside"),
    ("kx = 1\nky = 1\ninside = true\n", 3, "inside"),
    ("kx = 1\nky = 1\ninside = [\"clear\"]\n", 3, "inside"),
    (
        "kx = 1\nky = 1\ninside = \"a\"\ncontain_tol = -1\n",
        4,
        "contain_tol",
    ),
    (
        "kx = 1\nky = 1\nelevator_extra = -1\ninside = \"a\"\n",
        4,
        "inside",
    ),
    ("kx = 1\nky = 1\ninsides = \"clear\"\n", 5, "insides"),
    ("kx = 1\nky = 1\nramp_extra = 1000001\n", 4, "ramp_extra"),
    ("kx = 1\nky = 1\nlast_version = 0\n", 4, "last_version"),
    (
        "kx = 1\nky = 1\nlast_version = 4294967296\n",
        4,
        "last_version",
    ),
    (
        "kx = 1\nky = 1\nstaff_keys = [\"1234567\"]\n",
        4,
        "staff_keys",
    ),
    ("kx = 1\nky = 1\nstaff_keys = [\"12345678\"]\n", 0, ""),
    (
        "kx = 1\nky = 1\nstaff_keys = [\"1234 678\"]\n",
        4,
        "staff_keys",
    ),
    (
        "kx = 1\nky = 1\nstaff_keys = [\"12345678\", 1]\n",
        3,
        "staff_keys",
    ),
    ("kx = 1\nky = 1\nstaff_keys = 1\n", 3, "staff_keys"),
    ("kx = 1\nky = 1\nprofile = {name = \"a\"}\n", 3, "profile"),
    ("kx = 1\nky = 1\nprofile = [{name = \"a\"}]\n", 0, ""),
    ("kx = 1\nky = 1\n[[profile]]\nname = \"walk\"\n", 6, "walk"),
    (
        "kx = 1\nky = 1\n[[profile]]\nname = \"a\"\n[[profile]]\nname = \"a\"\n",
        6,
        "a",
    ),
    ("kx = 1\nky = 1\n[[profile]]\nname = \"A\"\n", 4, "name"),
    ("kx = 1\nky = 1\n[[profile]]\nname = \"\"\n", 4, "name"),
    ("kx = 1\nky = 1\n[[profile]]\nname = 1\n", 3, "name"),
    ("kx = 1\nky = 1\n[[profile]]\nramp = true\n", 2, "name"),
    (
        "kx = 1\nky = 1\n[[profile]]\nname = \"a\"\nramp = 1\n",
        3,
        "ramp",
    ),
    (
        "kx = 1\nky = 1\n[[profile]]\nname = \"A\"\nb = 1\na = 1\n",
        5,
        "a",
    ),
    (
        "kx = 1\nky = 1\nborder_tol = -1\n[[profile]]\n",
        4,
        "border_tol",
    ),
    ("kx = 1\nky = 1\nprofile = [1]\n", 3, "profile"),
    (
        "kx = 1\nky = 1\n[[profile]]\nname = \"walk\"\n[[profile]]\nname = \"b\"\nmarked = 0\n",
        3,
        "marked",
    ),
    ("\u{feff}kx = 1\nky = 1\n", 0, ""),
];

const STATION: &str =
    "kx = 10000000\nky = 10000000\nelevator_extra = 3000\nescalator_extra = 800\nramp_extra = 2000\nstairs_extra = 1500\nstaff_keys = [\"desk-key-1\"]\n[[profile]]\nname = \"night-staff_1\"\nrestricted = true\nmarked = true\n";

fn read_station(rt: &impl Abort, alloc: Global) -> Result<(), Fail> {
    match read_settings(alloc, STATION.as_bytes()) {
        Ok(settings) => judge_station(rt, &settings),
        Err(_) => return Err(Fail::from("the station's settings")),
    }
    Ok(())
}

// Settings with so many keys.
fn judge_key_count(
    rt: &impl Abort,
    alloc: Global,
    count: u8,
    number: u8,
    key: &str,
) -> Result<(), AllocError> {
    let keys = "kx = 1\nky = 1\nstaff_keys = [";
    let mut text = repeated(alloc, keys, "\"12345678\",", count)?;
    text.push_str("]\n")?;
    judge(rt, alloc, text.as_bytes(), number, key);
    Ok(())
}

// Settings with so many profiles.
fn judge_profile_count(
    rt: &impl Abort,
    alloc: Global,
    count: u8,
    number: u8,
    key: &str,
) -> Result<(), AllocError> {
    let profiles = "kx = 1\nky = 1\n";
    let text = repeated(alloc, profiles, "[[profile]]\nname = \"p\"\n", count)?;
    judge(rt, alloc, text.as_bytes(), number, key);
    Ok(())
}

#[test]
fn settings_are_read(rt: HostRuntime) -> Result<(), Fail> {
    let alloc = rt.alloc();
    read_station(&rt, alloc)?;
    judge_rows(&rt, alloc, &ROWS);
    judge(&rt, alloc, b"kx = 1\xff", 1, "");
    for (count, number, key) in [(64, 0, ""), (65, 4, "staff_keys")] {
        judge_key_count(&rt, alloc, count, number, key)?;
    }
    for (count, number, key) in [(14, 6, "p"), (15, 4, "profile")] {
        judge_profile_count(&rt, alloc, count, number, key)?;
    }
    Ok(())
}
