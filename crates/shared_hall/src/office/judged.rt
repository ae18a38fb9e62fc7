//! A publication in two parts, each under the lock. Between them its files are judged, and the lock is free.

ghost use Rattle.std.specs.Prelude.{◌≡◌, ◌+◌, ℕ, List as AList, IfOk, IfErr, OnOk, length};
ghost use Rattle.std.specs.Arc.{arc_value};
ghost use Rattle.venue_types.specs.declared.query.Change.TheVariants.{Publish};
ghost use Rattle.venue_hall.specs.Changes.{AreRead, Changes};
ghost use Rattle.venue_hall.specs.Replies.{told};
ghost use Rattle.venue_hall.specs.Standing.{AreRecordsOf};
ghost use Rattle.board_copies.specs.Making.{IsUnread, CountsJournalFault};
ghost use Rattle.shared_hall.specs.Judging.{AreSettingsOf, IsJudgedAt};
ghost use Rattle.shared_hall.specs.Offices.{faulted, IsRecorded};

use crate::name::HallName;
use crate::office::{OfficeOf, Pass};
use board_copies::{Keeper, Outcome, read_folder, ready_venue};
use std::alloc::Global;
use std::sync::{Arc, Wait};
use venue_hall::{Log, Venue, version_law};
use venue_ports::Folders;
use venue_types::{Files, Reply, Settings, Text};

/// The files that were read for a publication, and the settings by which they are to be judged.
#[derive(Drop)]
pub struct Unjudged {
    pub files: Files,
    pub settings: Arc<Settings>,
}

impl<N: HallName, F: Folders, J: Log> OfficeOf<N, F, Keeper, J> {
    /// Reads the seventeen files of a folder for a publication, once each, in order, up to the first fault, and hands them out with the
    /// settings, or tells why not. Nothing is published.
    pub fn read_folder(
        &mut self,
        alloc: Global,
        folder: &Text,
        pass: &mut Pass<N>,
    ) -> Result<Unjudged, Reply>
        ensures read { IfOk result (λ it. AreRead self.old.shelf folder.now it.files) }
        ensures settings { IfOk result (λ it. AreSettingsOf self.old.entries (arc_value it.settings)) }
        ensures faultless { OnOk result (self.new.faults ≡ self.old.faults) }
        ensures uncounted { OnOk result (pass.new.faults ≡ pass.old.faults) }
        ensures unread { IfErr result (IsUnread self.old.faults self.new.faults) }
        ensures counted { IfErr result (λ reply. pass.new.faults ≡ faulted reply pass.old.faults) }
        ensures named { self.old.shelf ≡ N.folder_files }
        ensures office { self.new ≡ record self.old { faults = self.new.faults } }
        ensures kept { pass.new ≡ record pass.old { faults = pass.new.faults } }
    {
        let Ok(settings) = Arc::try_clone(&self.settings) else {
            return Err(Reply::OutOfMemory);
        };
        match read_folder(alloc, &mut self.reader, folder) {
            Ok(files) => Ok(Unjudged { files, settings }),
            Err(reply) => {
                pass.count_fault(&reply);
                Err(reply)
            }
        }
    }

    /// Publishes a venue by the pass's worker, or tells why not. It was judged since its files were read, and the history may have gone on
    /// since: the publication is made ready at the version that stands now, and the reply tells the number of the version after it.
    pub fn publish<R: Wait>(
        &mut self,
        rt: &R,
        alloc: Global,
        files: Files,
        venue: Arc<Venue>,
        pass: &mut Pass<N>,
    ) -> Reply
        requires seventeen { length files.slots ≡ 17 }
        requires judged { IsJudgedAt self.old.entries files venue }
        ensures reply { (folder : AList ℕ) → AreRead self.old.shelf folder files
            → Changes self.old.shelf pass.old.worker (Publish folder) self.old.entries result self.new.entries }
        ensures fault { self.new.faults ≡ self.old.faults }
        ensures shelf { self.new.shelf ≡ self.old.shelf }
        ensures named { self.old.shelf ≡ N.folder_files }
        ensures log_fault { CountsJournalFault self.old.log_faults self.new.log_faults result }
        ensures recorded { IsRecorded (told result) self.old.records self.new.records }
        ensures records { AreRecordsOf self.new.records self.new.entries }
        ensures made { pass.new.made ≡ pass.old.made + told result }
        ensures faults { pass.new.faults ≡ faulted result pass.old.faults }
        ensures kept { pass.new ≡ record pass.old { made = pass.new.made; faults = pass.new.faults } }
    {
        version_law();
        let held = &self.keeper.writer.published().held;
        let outcome = ready_venue(
            alloc,
            &held.board,
            &self.settings,
            pass.worker,
            files,
            venue,
        );
        match outcome {
            Outcome::Stays(reply) => {
                pass.count_fault(&reply);
                reply
            }
            Outcome::Made(ready, reply, files) => match self.enter(rt, alloc, ready, files, pass) {
                Ok(()) => reply,
                Err(reply) => {
                    pass.count_fault(&reply);
                    reply
                }
            },
        }
    }
}
