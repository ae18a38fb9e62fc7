//! Tests of histories, boards and the hall of one thread.
#![tactic(auto)]

// A module for each kind of board, and for the hall.
#[cfg(test)]
mod boards;
#[cfg(test)]
mod copies;
#[cfg(test)]
mod histories;
#[cfg(test)]
mod nearest;
#[cfg(test)]
mod one_thread;
#[cfg(test)]
mod profiles;
#[cfg(test)]
mod replays;
#[cfg(test)]
mod tours;
