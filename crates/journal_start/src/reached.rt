//! What a folder and a journal come to.

ghost use Rattle.std.specs.Prelude.{◌≡◌, ◌⊎◌, ◌≤◌, List, [], ◌∷◌, Some, None, false, string_bytes, IfErr, IfOk, IfSome, IfNone, OnOk, length};
ghost use Rattle.std.specs.Arc.{arc_value};
ghost use Rattle.venue_types.specs.FolderFiles.{all_files};
ghost use Rattle.venue_ports.specs.Asked.{HaveAsked};
ghost use Rattle.venue_ports.specs.Disks.{OpensDisk};
ghost use Rattle.venue_ports.specs.Moments.{Moment};
ghost use Rattle.venue_ports.specs.declared.folders.ReadFault.TheVariants.{Failed};
ghost use Rattle.venue_folder.specs.AskedFolders.{AskedUntil};
ghost use Rattle.venue_folder.specs.Shelves.{folder_path};
ghost use Rattle.venue_session.specs.Openings.{opening_history};
ghost use Rattle.venue_commands.specs.declared.printout.Printout.{Printout};
ghost use Rattle.venue_commands.specs.declared.status.Status.TheVariants.{Wrong};
ghost use Rattle.venue_commands.specs.Checked.{settings_name};
ghost use Rattle.venue_commands.specs.FaultOrder.{FailsInFolder, read_at};
ghost use Rattle.venue_commands.specs.Openings.{IsMadeStart};
ghost use Rattle.venue_hall.specs.Standing.{AreRecordsOf};
ghost use Rattle.change_journal.specs.Told.{told_records};
ghost use Rattle.board_copies.specs.Stamps.{entries_of};
ghost use Rattle.journal_restore.specs.Beginnings.{IsBegun};
ghost use Rattle.journal_start.specs.Starts.{CountsDisk, CountsFolders, HasBegun, IsAskedFor, IsFolderStop, IsStarted, IsStopped, IsStoppedOver, IsStoppedUnder};
ghost use Rattle.journal_start.specs.Stops.{AreSettingsOf};
ghost use Rattle.journal_start.specs.declared.stop.Why.TheVariants as why;

use crate::start::{KeptStart, named};
use crate::stop::{Stop, Why, of_read, of_restore};
use change_journal::Journal;
use journal_restore::{Kept, Restored, Unrestored, begin, restart_law, restore};
use std::alloc::Global;
use std::sync::Arc;
use venue_commands::{
    FolderOf, JournalOf, Reached, Start, Status, open_folder, printed, settings_of,
};
use venue_ports::{Disk, Disks, Folders};
use venue_types::{OutOfMemory, Settings};

// What a hall is opened with, of a journal that was read back.
fn started<K: Disk>(
    alloc: Global,
    base: &str,
    settings: Arc<Settings>,
    kept: Kept<K>,
) -> Result<KeptStart<K>, Stop<K>>
    requires { kept.resumed.held.board.settings ≡ arc_value settings }
    ensures base { IfOk result (λ start. start.base ≡ base.now) }
    ensures settings { IfOk result (λ start. arc_value start.settings ≡ arc_value settings) }
    ensures kept { IfOk result (λ start. start.kept ≡ kept) }
    ensures memory { IfErr result (λ stop. stop.why ≡ why.OutOfMemory) }
    ensures disk { IfErr result (λ stop. stop.disk ≡ Some kept.journal.disk) }
{
    match named(alloc, base, &settings) {
        Ok((base, front)) => Ok(KeptStart {
            base,
            front,
            settings,
            kept,
        }),
        Err(OutOfMemory) => {
            let Kept { journal, .. } = kept;
            Err(Stop {
                why: Why::OutOfMemory,
                disk: Some(journal.into_disk()),
            })
        }
    }
}

// What a hall is opened with, of a journal in which the history of a folder's venue begins.
fn begun<K: Disk>(
    alloc: Global,
    opening: Start,
    settings: Arc<Settings>,
    journal: Journal<K>,
) -> Result<KeptStart<K>, Stop<K>>
    requires empty { journal.count ≡ 0 }
    requires made { IsMadeStart (arc_value settings) opening }
    ensures base { IfOk result (λ start. start.base ≡ opening.base) }
    ensures settings { IfOk result (λ start. arc_value start.settings ≡ arc_value settings) }
    ensures history { IfOk result (λ start. entries_of start.kept.resumed.held.stamp ≡ opening_history opening.venue) }
    ensures length { IfOk result (λ start. start.kept.journal.count ≡ length (entries_of start.kept.resumed.held.stamp)) }
    ensures records { IfOk result (λ start. AreRecordsOf (told_records start.kept.journal.count (K.moments start.kept.journal.disk)) (entries_of start.kept.resumed.held.stamp)) }
    ensures begun { IfOk result (λ start. IsBegun opening.files.slots (K.moments journal.disk) start.kept.journal.count (K.moments start.kept.journal.disk)) }
    ensures kept { IfOk result (λ start. K.faults start.kept.journal.disk ≡ K.faults journal.disk) }
    ensures why { IfErr result (λ stop. (stop.why ≡ why.DiskFault) ⊎ (stop.why ≡ why.OutOfMemory)) }
    ensures back { IfErr result (λ stop. (disk : K) × (stop.disk ≡ Some disk) × CountsDisk (K.faults journal.disk) (K.faults disk) stop.why) }
{
    let Start {
        base,
        files,
        venue,
        front,
        ..
    } = opening;
    match begin(alloc, journal, &settings, venue, &files) {
        Ok(kept) => Ok(KeptStart {
            base,
            front,
            settings,
            kept,
        }),
        Err(Unrestored { disk, fault }) => Err(Stop {
            why: of_restore(alloc, fault),
            disk: Some(disk),
        }),
    }
}

// What a journal that has no record comes to: the folder is read.
fn begun_of<F: Folders, K: Disk>(
    alloc: Global,
    of: FolderOf<'_>,
    folders: &mut F,
    settings: Arc<Settings>,
    journal: Journal<K>,
) -> Result<KeptStart<K>, Stop<K>>
    requires empty { journal.count ≡ 0 }
    ensures base { IfOk result (λ start. start.base ≡ of.entry.base.now) }
    ensures settings { IfOk result (λ start. arc_value start.settings ≡ arc_value settings) }
    ensures length { IfOk result (λ start. start.kept.journal.count ≡ length (entries_of start.kept.resumed.held.stamp)) }
    ensures records { IfOk result (λ start. AreRecordsOf (told_records start.kept.journal.count (K.moments start.kept.journal.disk)) (entries_of start.kept.resumed.held.stamp)) }
    ensures begun { IfOk result (λ start. HasBegun (F.files folders.old) of.entry.base.now of.entry.folder.now (arc_value settings) (K.moments journal.disk) start.kept.journal.count start.kept.resumed (K.moments start.kept.journal.disk)) }
    ensures kept { IfOk result (λ start. K.faults start.kept.journal.disk ≡ K.faults journal.disk) }
    ensures stopped { IfErr result (λ stop. IsFolderStop (F.files folders.old) of.entry.base.now of.entry.folder.now (arc_value settings) stop.why) }
    ensures back { IfErr result (λ stop. (disk : K) × (stop.disk ≡ Some disk) × CountsDisk (K.faults journal.disk) (K.faults disk) stop.why) }
    ensures same { F.files folders.new ≡ F.files folders.old }
    ensures failed { IfErr result (λ stop. stop.why ≡ why.FolderFault → AskedUntil (folder_path of.entry.base.now of.entry.folder.now) all_files (F.asked folders.old) (F.asked folders.new) Failed) }
    ensures count { IfErr result (λ stop. CountsFolders (F.faults folders.old) (F.faults folders.new) stop.why) }
    ensures counted { OnOk result (F.faults folders.new ≡ F.faults folders.old) }
    ensures folders_later { F.faults folders.old ≤ F.faults folders.new }
{
    match open_folder(alloc, of, &settings, folders) {
        Ok(Reached::Opened(opening)) => begun(alloc, opening, settings, journal),
        Ok(Reached::Printed(answer)) => Err(Stop {
            why: Why::Printed(answer),
            disk: Some(journal.into_disk()),
        }),
        Err(fault) => Err(Stop {
            why: of_read(fault),
            disk: Some(journal.into_disk()),
        }),
    }
}

// What the disk of a journal comes to: it is read back, and where it has no record the folder is read.
fn reach_disk<F: Folders, K: Disk>(
    alloc: Global,
    of: FolderOf<'_>,
    folders: &mut F,
    settings: Arc<Settings>,
    disk: K,
) -> Result<KeptStart<K>, Stop<K>>
    ensures base { IfOk result (λ start. start.base ≡ of.entry.base.now) }
    ensures settings { IfOk result (λ start. arc_value start.settings ≡ arc_value settings) }
    ensures length { IfOk result (λ start. start.kept.journal.count ≡ length (entries_of start.kept.resumed.held.stamp)) }
    ensures records { IfOk result (λ start. AreRecordsOf (told_records start.kept.journal.count (K.moments start.kept.journal.disk)) (entries_of start.kept.resumed.held.stamp)) }
    ensures started { IfOk result (λ start. IsStarted (F.files folders.old) of.entry.base.now of.entry.folder.now (arc_value settings) (K.moments disk) (F.asked folders.new ≡ F.asked folders.old)
        start.kept.journal.count start.kept.resumed (K.moments start.kept.journal.disk)) }
    ensures kept { IfOk result (λ start. K.faults start.kept.journal.disk ≡ K.faults disk) }
    ensures stopped { IfErr result (λ stop. IsStoppedOver (F.files folders.old) of.entry.base.now of.entry.folder.now (arc_value settings) (K.moments disk) stop.why) }
    ensures back { IfErr result (λ stop. (back : K) × (stop.disk ≡ Some back) × CountsDisk (K.faults disk) (K.faults back) stop.why) }
    ensures same { F.files folders.new ≡ F.files folders.old }
    ensures failed { IfErr result (λ stop. stop.why ≡ why.FolderFault → AskedUntil (folder_path of.entry.base.now of.entry.folder.now) all_files (F.asked folders.old) (F.asked folders.new) Failed) }
    ensures count { IfErr result (λ stop. CountsFolders (F.faults folders.old) (F.faults folders.new) stop.why) }
    ensures counted { OnOk result (F.faults folders.new ≡ F.faults folders.old) }
    ensures folders_later { F.faults folders.old ≤ F.faults folders.new }
{
    restart_law();
    match restore(alloc, disk, &settings) {
        Ok(Restored { journal, resumed }) => match resumed {
            Some(resumed) => started(alloc, of.base, settings, Kept { journal, resumed }),
            None => begun_of(alloc, of, folders, settings, journal),
        },
        Err(Unrestored { disk, fault }) => Err(Stop {
            why: of_restore(alloc, fault),
            disk: Some(disk),
        }),
    }
}

// What a journal comes to under the settings of its base, which were read before: its disk is opened.
fn reach_opened<F: Folders, K: Disks>(
    alloc: Global,
    of: JournalOf<'_>,
    folders: &mut F,
    disks: &mut K,
    settings: Settings,
) -> Result<KeptStart<K::Disk>, Stop<K::Disk>>
    ensures base { IfOk result (λ start. start.base ≡ of.entry.of.base.now) }
    ensures settings { IfOk result (λ start. arc_value start.settings ≡ settings) }
    ensures started { IfOk result (λ start. (opened : List Moment) × OpensDisk (K.files disks.old) of.entry.of.base.now of.entry.journal.now opened
        × IsStarted (F.files folders.old) of.entry.of.base.now of.entry.of.folder.now settings opened (F.asked folders.new ≡ F.asked folders.old)
        start.kept.journal.count start.kept.resumed (K.Disk.moments start.kept.journal.disk)) }
    ensures length { IfOk result (λ start. start.kept.journal.count ≡ length (entries_of start.kept.resumed.held.stamp)) }
    ensures records { IfOk result (λ start. AreRecordsOf (told_records start.kept.journal.count (K.Disk.moments start.kept.journal.disk)) (entries_of start.kept.resumed.held.stamp)) }
    ensures sound { IfOk result (λ start. K.Disk.faults start.kept.journal.disk ≡ 0) }
    ensures stopped { IfErr result (λ stop. IsStoppedUnder (F.files folders.old) (K.files disks.old) of.entry.of.base.now of.entry.of.folder.now of.entry.journal.now settings stop.disk stop.why) }
    ensures back { IfErr result (λ stop. IfSome stop.disk (λ disk. CountsDisk 0 (K.Disk.faults disk) stop.why)) }
    ensures disks { IfErr result (λ stop. IfNone stop.disk (CountsDisk (K.faults disks.old) (K.faults disks.new) stop.why)) }
    ensures disks_kept { IfErr result (λ stop. IfSome stop.disk (λ _. K.faults disks.new ≡ K.faults disks.old)) }
    ensures disks_sound { OnOk result (K.faults disks.new ≡ K.faults disks.old) }
    ensures asked { IsAskedFor of.entry.of.base.now of.entry.journal.now (K.opens disks.old) (K.opens disks.new) (K.opened disks.old) (K.opened disks.new) result }
    ensures disks_later { K.faults disks.old ≤ K.faults disks.new }
    ensures held { K.files disks.new ≡ K.files disks.old }
    ensures same { F.files folders.new ≡ F.files folders.old }
    ensures failed { IfErr result (λ stop. stop.why ≡ why.FolderFault → AskedUntil (folder_path of.entry.of.base.now of.entry.of.folder.now) all_files (F.asked folders.old) (F.asked folders.new) Failed) }
    ensures count { IfErr result (λ stop. CountsFolders (F.faults folders.old) (F.faults folders.new) stop.why) }
    ensures counted { OnOk result (F.faults folders.new ≡ F.faults folders.old) }
    ensures folders_later { F.faults folders.old ≤ F.faults folders.new }
{
    let JournalOf { of, journal, .. } = of;
    let Ok(settings) = Arc::new(alloc, settings) else {
        return Err(Stop {
            why: Why::OutOfMemory,
            disk: None,
        });
    };
    match disks.open_disk(of.base, journal) {
        Ok(disk) => reach_disk(alloc, of, folders, settings, disk),
        Err(_) => Err(Stop {
            why: Why::DiskFault,
            disk: None,
        }),
    }
}

// What stops a command whose settings this line stops.
fn stopped_by<K>(text: String) -> Stop<K>
    ensures why { (answer : Printout) × (result.why ≡ why.Printed answer) × (answer.text ≡ string_bytes text) × (answer.status ≡ Wrong) }
    ensures disk { result.disk ≡ None }
{
    Stop {
        why: Why::Printed(printed(Status::Wrong, text)),
        disk: None,
    }
}

/// What a folder and a journal of a base come to: the settings are read, then the journal's disk is opened and read back, and where it has no record the folder
/// is read and its opening appended. Where it has records the folder isn't read.
///
/// # Errors
///
/// What is printed, or what failed, with the disk where it was opened.
pub fn reach_journal<F: Folders, K: Disks>(
    alloc: Global,
    of: JournalOf<'_>,
    folders: &mut F,
    disks: &mut K,
) -> Result<KeptStart<K::Disk>, Stop<K::Disk>>
    ensures base { IfOk result (λ start. start.base ≡ of.entry.of.base.now) }
    ensures settings { IfOk result (λ start. AreSettingsOf (F.files folders.old) of.entry.of.base.now (arc_value start.settings)) }
    ensures started { IfOk result (λ start. (opened : List Moment) × OpensDisk (K.files disks.old) of.entry.of.base.now of.entry.journal.now opened
        × IsStarted (F.files folders.old) of.entry.of.base.now of.entry.of.folder.now (arc_value start.settings) opened
        (HaveAsked (read_at of.entry.of.base.now settings_name false ∷ []) (F.asked folders.old) (F.asked folders.new))
        start.kept.journal.count start.kept.resumed (K.Disk.moments start.kept.journal.disk)) }
    ensures length { IfOk result (λ start. start.kept.journal.count ≡ length (entries_of start.kept.resumed.held.stamp)) }
    ensures records { IfOk result (λ start. AreRecordsOf (told_records start.kept.journal.count (K.Disk.moments start.kept.journal.disk)) (entries_of start.kept.resumed.held.stamp)) }
    ensures sound { IfOk result (λ start. K.Disk.faults start.kept.journal.disk ≡ 0) }
    ensures stopped { IfErr result (λ stop. IsStopped (F.files folders.old) (K.files disks.old) of.entry.of.base.now of.entry.of.folder.now of.entry.journal.now stop.disk stop.why) }
    ensures back { IfErr result (λ stop. IfSome stop.disk (λ disk. CountsDisk 0 (K.Disk.faults disk) stop.why)) }
    ensures disks { IfErr result (λ stop. IfNone stop.disk (CountsDisk (K.faults disks.old) (K.faults disks.new) stop.why)) }
    ensures disks_kept { IfErr result (λ stop. IfSome stop.disk (λ _. K.faults disks.new ≡ K.faults disks.old)) }
    ensures disks_sound { OnOk result (K.faults disks.new ≡ K.faults disks.old) }
    ensures asked { IsAskedFor of.entry.of.base.now of.entry.journal.now (K.opens disks.old) (K.opens disks.new) (K.opened disks.old) (K.opened disks.new) result }
    ensures disks_later { K.faults disks.old ≤ K.faults disks.new }
    ensures held { K.files disks.new ≡ K.files disks.old }
    ensures same { F.files folders.new ≡ F.files folders.old }
    ensures failed { IfErr result (λ stop. stop.why ≡ why.FolderFault
        → FailsInFolder (F.files folders.old) (F.asked folders.old) (F.asked folders.new) of.entry.of.base.now of.entry.of.folder.now) }
    ensures count { IfErr result (λ stop. CountsFolders (F.faults folders.old) (F.faults folders.new) stop.why) }
    ensures counted { OnOk result (F.faults folders.new ≡ F.faults folders.old) }
    ensures folders_later { F.faults folders.old ≤ F.faults folders.new }
{
    match settings_of(alloc, of.of.base, folders) {
        Ok(Ok(settings)) => reach_opened(alloc, of, folders, disks, settings),
        Ok(Err(text)) => Err(stopped_by(text)),
        Err(fault) => Err(Stop {
            why: of_read(fault),
            disk: None,
        }),
    }
}
