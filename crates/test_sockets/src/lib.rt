//! Tests of connections that wait without a worker and of those that a worker has, on this machine's own address. Every wait in here
//! ends by itself.
#![tactic(auto)]

// What ends a wait, who waits in the lobby, and the outside that they use.
#[cfg(test)]
mod ends;
#[cfg(test)]
mod guests;
#[cfg(test)]
mod outside;
#[cfg(test)]
mod waits;
