//! Tests of requests, replies, sessions and services.
#![tactic(auto)]

// Requests and replies.
#[cfg(test)]
mod frames;
#[cfg(test)]
mod replies;
#[cfg(test)]
mod requests;

// Sessions.
#[cfg(test)]
mod moments;
#[cfg(test)]
mod session_laws;
#[cfg(test)]
mod sessions;
#[cfg(test)]
mod station;

// Seats and services.
#[cfg(test)]
mod desks;
#[cfg(test)]
mod seats;
