//! Identifiers against RFC 9562, section 4, and the thin types once each.

use std::alloc::{AllocError, Global};
use std::process::Abort;
use std::test::Fail;
use venue_types::{
    Bytes, Extras, FeatureId, Inside, Label, List, Profile, ProfileSet, Settings, Text,
    profile_set_law, push_reserved, reserve,
};

// Of three profiles 0 and 2 are the set 5.
#[test]
fn sets_of_profiles(rt: HostRuntime) {
    profile_set_law();
    let set = ProfileSet::nobody().with(2).with(0);
    assert!(rt; set == ProfileSet(5));
    assert!(rt; set.has(0) && !set.has(1) && set.has(2) && !set.has(15));
    assert!(rt; ProfileSet::of_all(3) == ProfileSet(7));
    assert!(rt; ProfileSet::of_all(1) == ProfileSet(1));
    assert!(rt; ProfileSet::of_all(16) == ProfileSet(0xffff));
    assert!(rt; set.joined(ProfileSet(6)) == ProfileSet(7));
    assert!(rt; set.without(ProfileSet(6)) == ProfileSet(1));
    assert!(rt; !set.is_empty() && set.without(set).is_empty());
    assert!(rt; set.has_all_of(ProfileSet(4)) && !set.has_all_of(ProfileSet(6)));
    assert!(rt; set.has_any_of(ProfileSet(6)) && !set.has_any_of(ProfileSet(2)));
    assert!(rt; set.within(3) && !set.within(2) && ProfileSet(0xffff).within(16));
}

fn judge_ids(rt: &impl Abort) {
    let id = FeatureId(0xf81d4fae_7dec_11d0_a765_00a0c91e6bf6);
    for text in [
        "f81d4fae-7dec-11d0-a765-00a0c91e6bf6",
        "F81D4FAE-7DEC-11D0-A765-00A0C91E6BF6",
        "f81d4fae7dec11d0a76500a0c91e6bf6",
        "{f81d4fae-7dec-11d0-a765-00a0c91e6bf6}",
        "urn:uuid:f81d4fae-7dec-11d0-a765-00a0c91e6bf6",
    ] {
        assert!(rt; FeatureId::read(text.as_bytes()) == Some(id));
    }
    assert!(rt; FeatureId::read(b"f81d4fae-7dec-11d0-a765-00a0c91e6bf") == None);
    let written = id.write();
    assert!(rt; written.as_slice() == b"f81d4fae-7dec-11d0-a765-00a0c91e6bf6".as_slice());
}

// A list of one.
fn judge_list(rt: &impl Abort, list: &List<u8>) {
    assert!(rt; list.as_slice() == [7].as_slice());
    assert!(rt; list.get(0) == Some(&7));
    assert!(rt; list.get(1) == None);
    assert!(rt; list.iter().count() == 1);
}

fn judge_lists(rt: &impl Abort, alloc: Global) {
    let mut list = List::new(alloc);
    assert!(rt; list.is_empty());
    list.push(7u8).expect(rt, "memory");
    judge_list(rt, &list);
    assert!(rt; List::from_vec(list.into_vec()).len() == 1);
    let mut items = Vec::new(alloc);
    reserve(&mut items, 1).expect(rt, "memory");
    push_reserved(&mut items, 7u8);
    assert!(rt; items.as_slice() == [7].as_slice());
}

fn judge_bytes(rt: &impl Abort, bytes: Bytes) {
    assert!(rt; bytes.as_slice() == b"ab".as_slice());
    assert!(rt; bytes.into_vec().len() == 2);
}

fn judge_text(rt: &impl Abort, text: Text) {
    assert!(rt; text.as_str() == "ab");
    assert!(rt; text.into_string().len() == 2);
}

#[test]
fn values_go_in_and_come_out(rt: HostRuntime) -> Result<(), Fail> {
    judge_ids(&rt);
    judge_lists(&rt, rt.alloc());
    judge_bytes(&rt, Bytes::from_vec(Vec::from_slice(rt.alloc(), b"ab")?));
    judge_text(&rt, Text::from_string(String::from_str(rt.alloc(), "ab")?));
    Ok(())
}

// Labels, by copies of a name.
fn judge_label(rt: &impl Abort, alloc: Global, name: &Text) {
    let label = Label {
        tag: name.copy(alloc).expect(rt, "memory"),
        text: name.copy(alloc).expect(rt, "memory"),
    };
    let copy = label.copy(alloc).expect(rt, "memory");
    assert!(rt; copy.tag.as_str() == "wheels");
    assert!(rt; copy.text.as_str() == "wheels");
}

fn profile_of(name: Text) -> Profile {
    Profile {
        name,
        elevator: true,
        escalator: false,
        movingwalkway: false,
        ramp: true,
        stairs: false,
        revolving: false,
        turnstile: false,
        restricted: false,
        marked: true,
    }
}

// Settings of this key and a profile of this name.
fn settings_of(alloc: Global, key: Text, name: Text) -> Result<Settings, AllocError> {
    let profile = profile_of(name);
    Ok(Settings {
        kx: 7_000_000,
        ky: 11_000_000,
        border_tol: 1_000,
        contain_tol: 5_000,
        inside: Inside::Straight,
        extras: Extras {
            elevator: 3_000,
            escalator: 0,
            movingwalkway: 0,
            ramp: 0,
            stairs: 0,
            traversal: 0,
        },
        last_version: 1,
        staff_keys: List::from_vec(vec![in alloc; key]?),
        profiles: List::from_vec(vec![in alloc; profile]?),
    })
}

fn judge_copy(rt: &impl Abort, copy: &Settings, settings: &Settings) {
    assert!(rt; copy.kx == 7_000_000);
    assert!(rt; copy.extras == settings.extras);
    for key in copy.staff_keys.iter() {
        assert!(rt; key.as_str() == "wheels");
    }
    for profile in copy.profiles.iter() {
        assert!(rt; profile.name.as_str() == "wheels");
        assert!(rt; profile.elevator && profile.marked && !profile.stairs);
    }
    assert!(rt; copy.profiles.len() == 1);
}

#[test]
fn copies_have_what_was_copied(rt: HostRuntime) -> Result<(), Fail> {
    let alloc = rt.alloc();
    let name = Text::from_string(String::from_str(alloc, "wheels")?);
    judge_label(&rt, alloc, &name);
    let key = name.copy(alloc).expect(&rt, "memory");
    let settings = settings_of(alloc, key, name)?;
    let copy = settings.copy(alloc).expect(&rt, "memory");
    judge_copy(&rt, &copy, &settings);
    Ok(())
}
