//! A building that is made by arithmetic, checked like any folder, and asked for ways before and after its lowest lift is closed.

mod closure;
mod hall;
mod report;
mod settings;
mod sizes;
mod summary_text;
mod ways;

pub use report::{Told, tell_building};
