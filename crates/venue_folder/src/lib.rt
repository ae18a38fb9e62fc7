//! The folders that are served: the seventeen files of each, by the folder's name below a base.
#![tactic(auto)]

mod folder_files;

pub use folder_files::files_of;
