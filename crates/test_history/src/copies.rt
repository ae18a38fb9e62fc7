//! A writer and two readers over the station, one call after the other.

ghost use Rattle.std.specs.Prelude.{◌≡◌};
ghost use Rattle.std.specs.Arc.{arc_value};
ghost use Rattle.left_right.specs.Sides.{view};
ghost use Rattle.venue_state.specs.Preparing.{HasSettings};
ghost use Rattle.board_copies.specs.Rules.{book_of, Knows};

use board_copies::{
    Keep, Keeper, Resumed, Resuming, Roll, SideReader, make_reader, make_writer, publish, read_in,
    settle,
};
use core::mem::replace_with;
use std::alloc::Global;
use std::sync::{Arc, Wait};
use std::test::Fail;
use test_station::station_settings;
use test_venues::{id, venue_of};
use venue_history::Act;
use venue_types::{Ask, FeatureId, OutOfMemory, Query, Reply};

// The writer and its book.
#[derive(Drop)]
struct Office {
    keeper: Keeper,
    roll: Roll,
    ghost book_is: { book_of keeper.writer.desk.shown.value ≡ roll.seen.book },
    ghost known: { Knows (view keeper.writer.desk.place) keeper.writer.desk.shown.value },
}

// Who asks.
#[derive(Clone, Copy)]
enum Who {
    One,
    Other,
}

#[derive(Clone, Copy)]
enum Call {
    // Asks for the version, and is told its number and how many features are closed.
    Ask(Who, u32, u32),
    // Publishes that the lift is closed, or open again.
    Publish(bool),
}

fn opened<R: Wait>(rt: &R, alloc: Global) -> Result<Office, Fail> {
    let settings = Arc::new(alloc, station_settings(alloc)?)?;
    let venue = venue_of(alloc, &settings, &[])?;
    let Resumed { held, roll, .. } = Resuming::first(alloc, settings, venue)?.finish(alloc)?;
    let writer = make_writer(alloc, held, 2)?;
    let keeper = Keep {
        writer: settle(writer, rt),
    };
    Ok(Office { keeper, roll })
}

impl Office {
    fn reader(&mut self) -> Result<SideReader, OutOfMemory> {
        make_reader(&mut self.keeper.writer)
    }

    fn publish<R: Wait>(&mut self, rt: &R, alloc: Global, act: Act) -> Result<(), OutOfMemory>
        requires { HasSettings (arc_value self.old.keeper.writer.desk.shown.value.held).board act }
    {
        let held = &*self.keeper.writer.published().held;
        let ready = held.board.ready(alloc, act, 1).map_err(|_| OutOfMemory)?;
        let held = Arc::new(alloc, held.next(&mut self.roll, ready)?)?;
        replace_with(
            &mut self.keeper.writer,
            (rt, held),
            |writer, (rt, held)| publish(writer, rt, held),
        )
    }

    fn publish_lift<R: Wait>(
        &mut self,
        rt: &R,
        alloc: Global,
        closed: bool,
    ) -> Result<(), OutOfMemory> {
        let lift = self
            .keeper
            .writer
            .published()
            .held
            .board
            .closing(id(0x0301));
        if closed {
            self.publish(rt, alloc, Act::Closed(lift))
        } else {
            self.publish(rt, alloc, Act::Reopened(lift))
        }
    }
}

// The number of the version that a reader finds, and how many features are closed there.
fn asked(reader: &mut SideReader, alloc: Global) -> Option<(u32, u32)> {
    let query = Query {
        since: None,
        what: Ask::Version,
    };
    let found = read_in(reader, alloc, &query)?;
    match found.reply {
        Reply::Version { number, closed, .. } if number == found.number => Some((number, closed)),
        _ => None,
    }
}

const CALLS: [Call; 8] = [
    Call::Ask(Who::One, 1, 0),
    Call::Publish(true),
    Call::Ask(Who::One, 2, 1),
    Call::Publish(false),
    Call::Ask(Who::Other, 3, 0),
    Call::Ask(Who::One, 3, 0),
    Call::Publish(true),
    Call::Ask(Who::One, 4, 1),
];

#[test]
fn readers_find_what_was_published(rt: HostRuntime) -> Result<(), Fail> {
    let alloc = rt.alloc();
    let mut office = opened(&rt, alloc)?;
    let mut one = office.reader()?;
    let mut other = office.reader()?;
    for call in &CALLS {
        match *call {
            Call::Ask(Who::One, number, closed) => {
                assert!(rt; asked(&mut one, alloc) == Some((number, closed)));
            }
            Call::Ask(Who::Other, number, closed) => {
                assert!(rt; asked(&mut other, alloc) == Some((number, closed)));
            }
            Call::Publish(closed) => office.publish_lift(&rt, alloc, closed)?,
        }
    }
    Ok(())
}

// Where memory runs out in a publication, what is published stays.
#[test]
fn a_publication_that_fails_changes_nothing(rt: HostRuntime) -> Result<(), Fail> {
    let alloc = rt.alloc();
    let mut office = opened(&rt, alloc)?;
    let mut reader = office.reader()?;
    let published = office.publish_lift(&rt, alloc, true).is_ok();
    let wanted = if published { (2, 1) } else { (1, 0) };
    assert!(rt; asked(&mut reader, alloc) == Some(wanted));
    Ok(())
}
