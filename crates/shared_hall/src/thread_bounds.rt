//! What may go to another thread, each type by a function that only compiles where it may, and what waits for nobody.

ghost use Rattle.venue_hall.specs.Facts.{IsAnswered};

use crate::name::HallName;
use crate::office::{LoggedOffice, Pass};
use crate::seat::{LoggedSeat, SeatIn};
use board_copies::{Reads, Writes};
use std::sync::Mutex;
use venue_hall::{Asks, Log};
use venue_ports::Folders;
use venue_types::{Query, Reply};

fn sent<T: Send>(_x: &T) {}

fn shared<T: Sync>(_x: &T) {}

pub fn sent_pass<N: HallName + Send>(pass: &Pass<N>) {
    sent(pass);
}

pub fn shared_office<N: HallName + Send, F: Folders + Send, J: Log + Send>(
    office: &Mutex<LoggedOffice<N, F, J>>,
) {
    shared(office);
}

pub fn sent_seat_in<
    N: HallName + Send + Sync,
    F: Folders + Send,
    Q: Reads + Send,
    W: Writes + Send,
    J: Log + Send,
    R: Sync,
>(seat: &SeatIn<'_, N, F, Q, W, J, R>) {
    sent(seat);
}

pub fn sent_seat<N: HallName + Send + Sync, F: Folders + Send, J: Log + Send, R: Sync>(
    seat: &LoggedSeat<'_, N, F, J, R>,
) {
    sent(seat);
}

/// A question at a seat. Nothing here may wait, so the seat waits for nobody to answer it.
pub fn asked_unwaiting<N: HallName, F: Folders, J: Log, R>(
    seat: &mut LoggedSeat<'_, N, F, J, R>,
    query: &Query,
) -> Reply
    ensures { IsAnswered seat.new.seen query.now result }
{
    seat.ask(query)
}
