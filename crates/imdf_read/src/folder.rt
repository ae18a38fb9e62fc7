//! The whole folder.

ghost use Rattle.std.specs.Prelude.{◌≡◌, IfOk, length};
ghost use Rattle.imdf_read.specs.Out.{IsReadOut};

use crate::file::whole;
use crate::items::Gathered;
use crate::progress::{Progress, read_manifest};
use crate::read_out::ReadOut;
use crate::rows::read_rows;
use imdf_schema::{File, Rule};
use rule_reports::{add, in_order, notes_in_order};
use std::alloc::Global;
use venue_types::{Files, OutOfMemory};

const MAX_ITEMS: u64 = 100_000;

const MAX_POSITIONS: u64 = 1_000_000;

/// Reads the seventeen files of a folder.
///
/// One file's JSON tree is in memory at a time. It takes time in proportion to the bytes, and n log n for n findings.
pub fn read_folder(alloc: Global, files: &Files) -> Result<ReadOut, OutOfMemory>
    requires { length files.now.slots ≡ 17 }
    ensures { IfOk result (IsReadOut files.now) }
{
    let slots = files.slots.as_slice();
    let mut progress = read_manifest(alloc, slots)?;
    let features = read_rows(alloc, &mut progress, slots)?;
    let Progress {
        gathered,
        items,
        positions,
    } = progress;
    let Gathered { findings, notes } = gathered;
    let mut findings = findings;
    add(
        &mut findings,
        items > MAX_ITEMS,
        whole(Rule::S1, File::Manifest),
    )?;
    add(
        &mut findings,
        positions > MAX_POSITIONS,
        whole(Rule::S2, File::Manifest),
    )?;
    Ok(ReadOut {
        features,
        findings: in_order(findings),
        notes: notes_in_order(notes),
    })
}
