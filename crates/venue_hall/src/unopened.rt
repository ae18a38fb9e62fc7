//! A hall that was not opened.

/// No hall was opened, since memory ran out. The folders come back.
#[derive(Drop)]
pub struct Unopened<F> {
    pub folders: F,
}
