//! Tests of the journal of accepted changes, over disks in memory, and of halls that share a history, with a journal and without.
#![tactic(auto)]

// The tests, and the disks, records, images and halls that they judge by.
#[cfg(test)]
mod answers;
#[cfg(test)]
mod begins;
#[cfg(test)]
mod disks;
#[cfg(test)]
mod failing;
#[cfg(test)]
mod going_on;
#[cfg(test)]
mod halls;
#[cfg(test)]
mod images;
#[cfg(test)]
mod journals;
#[cfg(test)]
mod judged;
#[cfg(test)]
mod kept;
#[cfg(test)]
mod kept_long;
#[cfg(test)]
mod law;
#[cfg(test)]
mod lengths;
#[cfg(test)]
mod pairs;
#[cfg(test)]
mod publications;
#[cfg(test)]
mod readings;
#[cfg(test)]
mod records;
#[cfg(test)]
mod restores;
#[cfg(test)]
mod seats;
#[cfg(test)]
mod shared;
#[cfg(test)]
mod stops;
#[cfg(test)]
mod texts;
#[cfg(test)]
mod trials;
#[cfg(test)]
mod workers;
