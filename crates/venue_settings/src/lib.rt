//! The settings of a venue, read from the text of `venue.toml`.
#![tactic(auto)]

mod fault;
mod judge;
mod keys;
mod profile_keys;
mod profiles;
mod settings;
mod table;
mod values;

pub use fault::SettingsFault;
pub use settings::read_settings;
