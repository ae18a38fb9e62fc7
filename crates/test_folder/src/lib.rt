//! Tests of a folder read and judged: geometries, categories, settings, rows, references, rings, containment, and the lines of a report.
#![tactic(auto)]

// A module for what each crate of the folder's reading and judging does.
#[cfg(test)]
mod access;
#[cfg(test)]
mod check_lines;
#[cfg(test)]
mod containment;
#[cfg(test)]
mod folder_files;
#[cfg(test)]
mod geometries;
#[cfg(test)]
mod indexes;
#[cfg(test)]
mod long_rings;
#[cfg(test)]
mod properties;
#[cfg(test)]
mod reading;
#[cfg(test)]
mod references;
#[cfg(test)]
mod rings;
#[cfg(test)]
mod rows;
#[cfg(test)]
mod settings;
#[cfg(test)]
mod small_folders;
#[cfg(test)]
mod station;
