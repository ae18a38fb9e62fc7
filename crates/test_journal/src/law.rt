//! What a stop in a row of appends may leave, and images that are judged by it.

use crate::images::{Images, Moment};
use crate::texts::{behind, is_shut};
use crate::trials::Trial;
use std::alloc::AllocError;
use std::process::Abort;

/// What a stop may leave: a journal of the records that were kept, or of these and one of those that failed since or are being
/// appended. They are named by their texts.
#[derive(Drop)]
pub(crate) struct Law<'a> {
    kept: Vec<&'a [u8]>,
    failed: Vec<&'a [u8]>,
}

/// Which were seen: the records that were kept alone, and these with the first, the second, the third of those that failed.
pub(crate) type Seen = [bool; 4];

impl<'a> Law<'a> {
    /// Before the first append of a trial.
    pub(crate) fn first(trial: &Trial<'a>) -> Result<Law<'a>, AllocError> {
        let mut kept = Vec::new(trial.alloc);
        if let Some(publication) = trial.there {
            kept.push(publication.text.as_slice())?;
        }
        Ok(Law {
            kept,
            failed: Vec::new(trial.alloc),
        })
    }

    /// While a record with this text is appended, and where that failed.
    pub(crate) fn begin(&mut self, text: &'a [u8]) -> Result<(), AllocError> {
        self.failed.push(text)?;
        Ok(())
    }

    /// Where it was kept.
    pub(crate) fn keep(&mut self) -> Result<(), AllocError> {
        if let Some(text) = self.failed.pop() {
            self.kept.push(text)?;
        }
        self.failed.clear();
        Ok(())
    }

    // Which of the journals these bytes are. At most one byte is a journal without records.
    fn place(&self, bytes: &[u8]) -> Option<usize> {
        if self.kept.is_empty() && bytes.len() <= 1 {
            return Some(0);
        }
        let rest = behind(&self.kept, bytes)?;
        if is_shut(rest) {
            return Some(0);
        }
        for (number, last) in self.failed.iter().enumerate() {
            if rest.strip_prefix(*last).is_some_and(is_shut) {
                return number.checked_add(1);
            }
        }
        None
    }

    /// Draws images of a moment. Each has to be one of the journals.
    pub(crate) fn judge(
        &self,
        rt: &impl Abort,
        moment: &Moment<'_>,
        images: &mut Images,
    ) -> Result<Seen, AllocError> {
        let mut seen = [false; 4];
        for _ in 0..images.each {
            let image = images.draw(moment)?;
            let place = self
                .place(image)
                .expect(rt, "a journal that the law allows");
            if let Some(is_seen) = seen.get_mut(place) {
                *is_seen = true;
            }
        }
        Ok(seen)
    }
}
