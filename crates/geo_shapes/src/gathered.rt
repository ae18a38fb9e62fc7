//! What is read of several values in turn.

ghost use Rattle.std.specs.Prelude.{◌≡◌, [], false, IfOk, OnOk};
ghost use Rattle.geo_shapes.specs.Reading.{Adds, IsFresh};

use crate::read_geometry::ReadGeometry;
use std::alloc::Global;
use venue_types::OutOfMemory;

/// The figures so far, the rules that one of their values breaks, and their counts.
#[derive(Drop)]
pub(crate) struct Gathered<T> {
    /// Those that are there.
    pub figures: Vec<T>,
    pub bad_position: bool,
    pub bad_form: bool,
    pub positions: u64,
    pub longest: u64,
}

impl<T: Drop> Gathered<T> {
    /// Nothing yet, with room for so many.
    pub fn with_capacity(alloc: Global, capacity: usize) -> Result<Gathered<T>, OutOfMemory>
        ensures { IfOk result IsFresh }
    {
        Ok(Gathered {
            figures: Vec::with_capacity(alloc, capacity)?,
            bad_position: false,
            bad_form: false,
            positions: 0,
            longest: 0,
        })
    }

    /// Takes one more in.
    pub fn add(&mut self, read: ReadGeometry<T>) -> Result<(), OutOfMemory>
        ensures { OnOk result (Adds self.old read self.new) }
    {
        let ReadGeometry {
            value,
            bad_position,
            bad_form,
            positions,
            longest,
        } = read;
        match value {
            Some(figure) => self.figures.push(figure)?,
            None => {}
        }
        self.bad_position = self.bad_position || bad_position;
        self.bad_form = self.bad_form || bad_form;
        self.positions = self.positions.saturating_add(positions);
        self.longest = self.longest.max(longest);
        Ok(())
    }
}
