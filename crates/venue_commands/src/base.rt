//! What the files of a base hold.

ghost use Rattle.std.specs.Prelude.{◌≡◌, ◌^◌, ◌<◌, length, IfOk, IfSome, [], ◌∷◌, true, false, OnOk, IsErrOf};
ghost use Rattle.venue_ports.specs.Files.{file_at, HasReadCause};
ghost use Rattle.route_certificate.specs.Forms.{IsTable, FitsTable, FitsWalk};
ghost use Rattle.route_certificate.specs.Answers.{FitsAnswer, HasFewSteps};
ghost use Rattle.venue_ports.specs.Asked.{HaveAsked};
ghost use Rattle.venue_commands.specs.FaultOrder.{read_at};
ghost use Rattle.venue_commands.specs.Files.{links_limit, links_name, walk_limit, walk_name, answer_limit, answer_name};
ghost use Rattle.venue_commands.specs.Output.{WalkForm};
ghost use Rattle.venue_commands.specs.Verified.{AnswerForm};
ghost use Rattle.venue_commands.specs.Steps.{IsJudged};

use crate::load::{Cause, Loaded, load};
use route_certificate::{AnswerIn, FormFault, Table, WalkIn, read_answer, read_table, read_walk};
use std::alloc::Global;
use venue_ports::{Folders, ReadFault};

const LINKS_LIMIT: u32 = 268_435_456;

const WALK_LIMIT: u32 = 33_554_432;

const ANSWER_LIMIT: u32 = 33_554_432;

/// The table of the base, or why there is none.
pub(crate) fn table_of<F: Folders>(
    alloc: Global,
    base: &str,
    folders: &mut F,
) -> Result<Result<Table, Cause>, ReadFault>
    ensures told { IfOk result (λ judged. IfSome (F.files folders.old) (λ files. IsJudged IsTable links_limit (file_at files base.now links_name) judged)) }
    ensures fits { IfOk result (λ judged. IfOk judged FitsTable) }
    ensures few { IfOk result (λ judged. IfOk judged (λ table. length table.links < 2 ^ 32)) }
    ensures same { F.files folders.new ≡ F.files folders.old }
    ensures asked { OnOk result (HaveAsked (read_at base.now links_name false ∷ []) (F.asked folders.old) (F.asked folders.new)) }
    ensures failed { IsErrOf result ReadFault.Failed → HaveAsked (read_at base.now links_name true ∷ []) (F.asked folders.old) (F.asked folders.new) }
    ensures cause { HasReadCause (F.faults folders.old) (F.faults folders.new) result }
{
    match load(alloc, folders, base, "links.txt", LINKS_LIMIT)? {
        Loaded::Missing => Ok(Err(Cause::Missing)),
        Loaded::Large => Ok(Err(Cause::Large)),
        Loaded::Whole(bytes) => match read_table(alloc, bytes.as_slice()) {
            Ok(table) => Ok(Ok(table)),
            Err(FormFault::Line(line)) => Ok(Err(Cause::Malformed(line))),
            Err(FormFault::OutOfMemory) => Err(ReadFault::OutOfMemory),
        },
    }
}

/// The walk of the base over the table, or why there is none.
pub(crate) fn walk_of<F: Folders>(
    alloc: Global,
    base: &str,
    table: &Table,
    folders: &mut F,
) -> Result<Result<WalkIn, Cause>, ReadFault>
    ensures told { IfOk result (λ judged. IfSome (F.files folders.old) (λ files. IsJudged (WalkForm table.now) walk_limit (file_at files base.now walk_name) judged)) }
    ensures fits { IfOk result (λ judged. IfOk judged (FitsWalk table.now)) }
    ensures few { IfOk result (λ judged. IfOk judged (λ walk. length walk.steps < 2 ^ 32)) }
    ensures same { F.files folders.new ≡ F.files folders.old }
    ensures asked { OnOk result (HaveAsked (read_at base.now walk_name false ∷ []) (F.asked folders.old) (F.asked folders.new)) }
    ensures failed { IsErrOf result ReadFault.Failed → HaveAsked (read_at base.now walk_name true ∷ []) (F.asked folders.old) (F.asked folders.new) }
    ensures cause { HasReadCause (F.faults folders.old) (F.faults folders.new) result }
{
    match load(alloc, folders, base, "walk.txt", WALK_LIMIT)? {
        Loaded::Missing => Ok(Err(Cause::Missing)),
        Loaded::Large => Ok(Err(Cause::Large)),
        Loaded::Whole(bytes) => match read_walk(alloc, bytes.as_slice(), table) {
            Ok(walk) => Ok(Ok(walk)),
            Err(FormFault::Line(line)) => Ok(Err(Cause::Malformed(line))),
            Err(FormFault::OutOfMemory) => Err(ReadFault::OutOfMemory),
        },
    }
}

/// The answer of the base over the table, or why there is none.
pub(crate) fn answer_of<F: Folders>(
    alloc: Global,
    base: &str,
    table: &Table,
    folders: &mut F,
) -> Result<Result<AnswerIn, Cause>, ReadFault>
    ensures told { IfOk result (λ judged. IfSome (F.files folders.old) (λ files. IsJudged (AnswerForm table.now) answer_limit (file_at files base.now answer_name) judged)) }
    ensures fits { IfOk result (λ judged. IfOk judged (FitsAnswer (length table.now.nodes))) }
    ensures few { IfOk result (λ judged. IfOk judged (λ answer. HasFewSteps answer.claim)) }
    ensures same { F.files folders.new ≡ F.files folders.old }
    ensures asked { OnOk result (HaveAsked (read_at base.now answer_name false ∷ []) (F.asked folders.old) (F.asked folders.new)) }
    ensures failed { IsErrOf result ReadFault.Failed → HaveAsked (read_at base.now answer_name true ∷ []) (F.asked folders.old) (F.asked folders.new) }
    ensures cause { HasReadCause (F.faults folders.old) (F.faults folders.new) result }
{
    match load(alloc, folders, base, "answer.txt", ANSWER_LIMIT)? {
        Loaded::Missing => Ok(Err(Cause::Missing)),
        Loaded::Large => Ok(Err(Cause::Large)),
        Loaded::Whole(bytes) => match read_answer(alloc, bytes.as_slice(), table) {
            Ok(answer) => Ok(Ok(answer)),
            Err(FormFault::Line(line)) => Ok(Err(Cause::Malformed(line))),
            Err(FormFault::OutOfMemory) => Err(ReadFault::OutOfMemory),
        },
    }
}
