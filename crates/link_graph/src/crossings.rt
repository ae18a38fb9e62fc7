//! The units of a venue, as a graph keeps them.

ghost use Rattle.std.specs.Prelude.{◌≡◌, ◌+◌, ◌<◌, ◌≤◌, Contains, IfOk, Some, length, slice_get};
ghost use Rattle.venue_nodes.specs.Members.{members};
ghost use Rattle.venue_nodes.specs.Rows.{AreRowsOf, row_list};
ghost use Rattle.link_graph.specs.Making.{AreRoomy, IsRoomGround, crossing_of, crossings_from, barred_from};

use crate::parts::Crossing;
use crate::trails::Ground;
use imdf_access::unit_kind;
use std::alloc::Global;
use venue_nodes::Rows;
use venue_types::{Kind, OutOfMemory, UnitRow};

impl Ground<'_> {
    // The unit of this number among what can be closed, whose members these are.
    fn crossing(
        &self,
        alloc: Global,
        via: u32,
        unit: &UnitRow,
        row: &[u32],
    ) -> Result<Crossing, OutOfMemory>
        requires ground { IsRoomGround self.now }
        requires unit { Contains self.now.features.now.units unit.now }
        requires row { row.now ≡ members self.now.features.now self.now.settings.now unit.now }
        requires short { length row.now ≤ 4096 }
        ensures { IfOk result (λ crossing. crossing ≡ crossing_of self.now.features.now self.now.settings.now via unit.now) }
    {
        let kind = unit_kind(unit.category.as_str().as_bytes());
        Ok(Crossing {
            via,
            kind,
            walked: !matches!(kind, Kind::Movingwalkway),
            sights: self.sights(alloc, unit, row)?,
        })
    }

    // The unit of a row of members, where the first unit has this number among what can be closed.
    fn room(&self, alloc: Global, first: u32, rows: &Rows, w: u32) -> Result<Crossing, OutOfMemory>
        requires ground { IsRoomGround self.now }
        requires rows { AreRowsOf self.now.features.now self.now.settings.now rows.now }
        requires roomy { AreRoomy (row_list rows.now) }
        requires few { first + length self.now.features.now.units ≤ 400000 }
        requires row { w < length (row_list rows.now) }
        ensures { IfOk result (λ crossing. slice_get (crossings_from self.now.features.now self.now.settings.now first self.now.features.now.units) w ≡ Some crossing) }
    {
        let k = rows.unit_index(w);
        let row = rows.row(w);
        let units = self.features.units.as_slice();
        self.crossing(alloc, first + k, &units[k as usize], row)
    }

    /// The walkable ones of the units, the first of which has this number among what can be closed, and whose rows of members these are.
    pub(crate) fn crossings(
        &self,
        alloc: Global,
        first: u32,
        rows: &Rows,
    ) -> Result<Vec<Crossing>, OutOfMemory>
        requires ground { IsRoomGround self.now }
        requires rows { AreRowsOf self.now.features.now self.now.settings.now rows.now }
        requires roomy { AreRoomy (row_list rows.now) }
        requires few { first + length self.now.features.now.units ≤ 400000 }
        ensures { IfOk result (λ crossings. crossings.items ≡ crossings_from self.now.features.now self.now.settings.now first self.now.features.now.units) }
    {
        let mut crossings = Vec::new(alloc);
        for w in 0..rows.len() {
            let crossing = self.room(alloc, first, rows, w)?;
            crossings.push(crossing)?;
        }
        Ok(crossings)
    }
}

/// Whether each of the features that can be closed is a restricted unit: so many that are none, then these units.
pub(crate) fn barred_of(
    alloc: Global,
    first: u32,
    units: &[UnitRow],
) -> Result<Vec<bool>, OutOfMemory>
    ensures { IfOk result (λ barred. barred.items ≡ barred_from first units.now) }
{
    let mut barred = vec![in alloc; false; first as usize]?;
    for unit in units {
        barred.push(unit.restricted)?;
    }
    Ok(barred)
}
