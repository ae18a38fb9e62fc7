//! The files of a folder.

use crate::{Bytes, List};

/// A file's place in a folder.
#[derive(Drop)]
pub enum Slot {
    /// There is no such file.
    Absent,
    /// The file's bytes.
    Held(Bytes),
}

/// The files of a folder, in the order of their numbers. Who reads a folder asks that they be seventeen.
#[derive(Drop)]
pub struct Files {
    pub slots: List<Slot>,
}
