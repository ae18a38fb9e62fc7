//! Tests of what everything stands on: types, the outside, text forms, walks, numbers, JSON, drafts, reports, certificates.
#![tactic(auto)]

// A module for each crate at the bottom.
#[cfg(test)]
mod building_files;
#[cfg(test)]
mod certificates;
#[cfg(test)]
mod decimals;
#[cfg(test)]
mod disks;
#[cfg(test)]
mod drafts;
#[cfg(test)]
mod json_texts;
#[cfg(test)]
mod lines;
#[cfg(test)]
mod outside;
#[cfg(test)]
mod reporters;
#[cfg(test)]
mod reports;
#[cfg(test)]
mod sockets;
#[cfg(test)]
mod steps;
#[cfg(test)]
mod types;
#[cfg(test)]
mod walks;
