//! What workers side by side are told of their doors.

use std::alloc::{AllocError, Global};
use std::sync::atomic::{AtomicU64, Ordering};

/// Of each version, at which place the worker sits who made it, counted from 1, or 0: by a closing, or by an opening again.
#[derive(Drop)]
pub(crate) struct Answers {
    closings: Vec<AtomicU64>,
    reopenings: Vec<AtomicU64>,
}

fn zeros(alloc: Global, count: usize) -> Result<Vec<AtomicU64>, AllocError> {
    let mut found = Vec::new(alloc);
    for _ in 0..count {
        found.push(AtomicU64::new(0))?;
    }
    Ok(found)
}

// What stands at a place, or 0.
fn noted(list: &[AtomicU64], at: usize) -> u64 {
    match list.get(at) {
        Some(place) => place.load(Ordering::SeqCst),
        None => 0,
    }
}

impl Answers {
    /// Of versions below this one.
    pub(crate) fn new(alloc: Global, count: usize) -> Result<Answers, AllocError> {
        Ok(Answers {
            closings: zeros(alloc, count)?,
            reopenings: zeros(alloc, count)?,
        })
    }

    /// Notes that the door of the worker at this place was closed at a version, or opened again.
    pub(crate) fn note(&self, number: u32, place: usize, is_closed: bool) {
        let list = if is_closed {
            self.closings.as_slice()
        } else {
            self.reopenings.as_slice()
        };
        if let Some(at) = list.get(number as usize) {
            at.store((place as u64).saturating_add(1), Ordering::SeqCst);
        }
    }

    /// At which place the worker sits who was told that he made a version, counted from 0, and whether he closed his door. None where none
    /// was told, or two were.
    pub(crate) fn of(&self, number: usize) -> Option<(usize, bool)> {
        let closing = noted(self.closings.as_slice(), number);
        let reopening = noted(self.reopenings.as_slice(), number);
        match (closing, reopening) {
            (0, 0) => None,
            (place, 0) => Some((place as usize - 1, true)),
            (0, place) => Some((place as usize - 1, false)),
            _ => None,
        }
    }
}
