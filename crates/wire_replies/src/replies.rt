//! Replies, each as the JSON of its body.

ghost use Rattle.std.specs.Prelude.{OnOk};
ghost use Rattle.wire_replies.specs.Bodies.{body_of};
ghost use Rattle.wire_replies.specs.Tokens.{Adds, data_tokens};

use crate::bodies::{
    write_ahead, write_closure, write_closures, write_error, write_full, write_no_place,
    write_place, write_places, write_published, write_rejected, write_version,
};
use crate::nearest::write_nearest;
use crate::tours::{write_no_tour, write_tour};
use crate::walks::{Asked, write_no_route, write_route};
use crate::written::Written;
use json::Writer;
use std::alloc::{AllocError, Global};
use venue_types::Reply;

impl Written for Reply {
    ghost use Rattle.wire_replies.specs.Bodies.{body_of};

    ghost shown = { body_of };

    fn write_to(&self, alloc: Global, out: &mut Writer) -> Result<(), AllocError> {
        match self {
            Reply::Version {
                number,
                closed,
                places,
            } => write_version(alloc, out, *number, *closed, *places),
            Reply::Places { number, rows } => write_places(alloc, out, *number, rows),
            Reply::Place(told) => write_place(alloc, out, told),
            Reply::Closures(told) => write_closures(alloc, out, told),
            Reply::Route {
                number,
                from,
                to,
                profile,
                start,
                cost,
                steps,
                potentials,
            } => {
                let asked = Asked {
                    version: *number,
                    from: *from,
                    to: *to,
                    profile,
                };
                write_route(alloc, out, &asked, *start, *cost, steps, potentials)
            }
            Reply::NoRoute {
                number,
                from,
                to,
                profile,
                reached,
            } => {
                let asked = Asked {
                    version: *number,
                    from: *from,
                    to: *to,
                    profile,
                };
                write_no_route(alloc, out, &asked, reached)
            }
            Reply::Tour(told) => write_tour(alloc, out, told),
            Reply::NoTour(told) => write_no_tour(alloc, out, told),
            Reply::Nearest(told) => write_nearest(alloc, out, told),
            Reply::ClosureDone(done) => write_closure(alloc, out, done),
            Reply::Published { number, dropped } => write_published(alloc, out, *number, dropped),
            Reply::Ahead { since, number } => write_ahead(alloc, out, *since, *number),
            Reply::NoProfile => write_error(alloc, out, "no_such_profile"),
            Reply::NoPlace(which) => write_no_place(alloc, out, *which),
            Reply::NoFeature => write_error(alloc, out, "no_such_feature"),
            Reply::FolderFault { .. } => write_error(alloc, out, "folder_fault"),
            Reply::Rejected(report) => write_rejected(alloc, out, report),
            Reply::HistoryFull { number } => write_full(alloc, out, *number),
            Reply::JournalFault { .. } => write_error(alloc, out, "journal_fault"),
            Reply::OutOfMemory => write_error(alloc, out, "want_of_memory"),
        }
    }
}
