// A request alone: the store is opened, the request done, and its reply printed.
ghost use Rattle.std.specs.Prelude.{◌≡◌, ◌≢◌, ◌≤◌, ◌∷◌, [], List, Some, if◌then◌else◌, IfOk, IfErr, OnErr, OnOk};
ghost use Rattle.disk_model.specs.FaultCounts.{NoFault, AnyFaultCounted};
ghost use Rattle.mdbox_base.specs.Streams.{Appended, Rose};
ghost use Rattle.lanes.specs.Worlds.{HasItsMessage};
ghost use Rattle.mdbox_base.specs.declared.script.JournalEntry.{JournalEntry as EntryValue};
ghost use Rattle.script_run.specs.Done.{IsScriptDone};
ghost use Rattle.script_run.specs.One.{alone};
ghost use Rattle.script_run.specs.Opening.{IsUnopened};
ghost use Rattle.script_run.specs.Script.{is_fetch};
ghost use Rattle.script_run.specs.Worked.{IsWorkedOut};
ghost use Rattle.mdbox_top.specs.Alone.{ReplyTells, RequestMoments, RequestRests, MayFail, IsDoneAlone};
ghost use Rattle.mdbox_top.specs.Served.{RequestOutcome, ShowsReply};
ghost use Rattle.request_text.specs.Outcomes.{status_of};
ghost use Rattle.piece_writer.specs.Pieces.{IsPrintError, WritesPrefix};
ghost use Rattle.piece_writer.specs.declared.error.PrintError.TheVariants as print;
ghost use Rattle.request_text.specs.ReplyText.{fetched_text, reply_text, IsLong};
ghost use Rattle.request_text.specs.declared.outcome.Outcome.TheVariants as outcome;

use crate::opening::outcome_of;
use attach_detach::Prepared;
use disk_model::Disk;
use mail_ops::listings_are_answered;
use mdbox_base::{Reply, Request, Sink};
use piece_writer::PrintError;
use request_text::{Outcome, outcome_of_reply, print_fetch_alone, print_reply};
use script_run::{run_request, safe_files_are_shown};
use std::alloc::Global;
use store_open::OpenRefused;

/// Opens the store, does a request, prints its reply, and hands the disk back. One that delivers a message has it prepared.
pub fn serve<D: Disk, O: Sink>(
    alloc: Global,
    request: Request,
    prepared: Option<Prepared>,
    disk: D,
    output: &mut O,
) -> (Outcome, D)
    requires { HasItsMessage request prepared }
    ensures ends { RequestOutcome D (ReplyTells request) request (O.held output.old) (O.held output.new) (D.history disk) (D.history result.1) (D.faults disk) (D.faults result.1) result.0 }
    ensures moments { RequestMoments request (D.history disk) (D.history result.1) }
    ensures rests { RequestRests request (MayFail request (status_of result.0)) (D.faults disk) (D.faults result.1) (D.history disk) (D.history result.1) }
    ensures disk_fault { AnyFaultCounted (result.0 ≡ outcome.DiskFault) (D.faults disk) (D.faults result.1) }
    ensures disk_quiet { (MayFail request (status_of result.0) → ⊥) → NoFault (D.faults disk) (D.faults result.1) }
    ensures write_fault { result.0 ≡ outcome.WriteFault → Rose (O.faults output.old) (O.faults output.new) }
    ensures write_quiet { result.0 ≢ outcome.WriteFault → O.faults output.new ≡ O.faults output.old }
    ensures counted { O.faults output.old ≤ O.faults output.new }
{
    let octets_alone = prints_octets(&request);
    match reply_alone(alloc, request, prepared, disk) {
        Ok((reply, disk)) => (print_outcome(alloc, output, octets_alone, &reply), disk),
        Err(OpenRefused { error, disk }) => (outcome_of(error), disk),
    }
}

/// Opens the store, does a request as a script of one, and answers its reply.
fn reply_alone<D: Disk>(
    alloc: Global,
    request: Request,
    prepared: Option<Prepared>,
    disk: D,
) -> Result<(Reply, D), OpenRefused<D>>
    requires { HasItsMessage request prepared }
    ensures done { IfOk result (λ done. IsDoneAlone request done.0 (D.history disk) (D.history done.1) (D.faults disk) (D.faults done.1)) }
    ensures served { IfOk result (λ done. (journal : List EntryValue) × IsScriptDone (alone request) (done.0 ∷ []) journal (D.history disk) (D.history done.1) (D.faults disk) (D.faults done.1) × IsWorkedOut D (alone request) 1 (Some done.0 ∷ []) journal (D.history disk) (D.history done.1) (D.faults disk) (D.faults done.1)) }
    ensures refused { IfErr result (λ refused. IsUnopened refused.error (D.history disk) (D.history refused.disk) (D.faults disk) (D.faults refused.disk)) }
{
    listings_are_answered();
    safe_files_are_shown();
    let (reply, disk) = run_request(alloc, disk, request, prepared)?;
    Ok((reply, disk))
}

/// Whether the reply to a request alone is the octets of a message, which are printed as they are.
fn prints_octets(request: &Request) -> bool
    ensures { result ≡ is_fetch request.now }
{
    matches!(request, Request::Fetch { .. })
}

/// Prints a reply, of a message its octets alone if so it is to be.
fn print_outcome<O: Sink>(
    alloc: Global,
    output: &mut O,
    octets_alone: bool,
    given: &Reply,
) -> Outcome
    ensures shown { ShowsReply (if octets_alone then fetched_text given.now else reply_text given.now) given.now (O.held output.old) (O.held output.new) result }
    ensures write_fault { result ≡ outcome.WriteFault → Rose (O.faults output.old) (O.faults output.new) }
    ensures write_quiet { result ≢ outcome.WriteFault → O.faults output.new ≡ O.faults output.old }
    ensures counted { O.faults output.old ≤ O.faults output.new }
{
    match print_single(alloc, output, octets_alone, given) {
        Ok(()) => outcome_of_reply(given),
        Err(PrintError::NoMemory) => Outcome::NoMemory,
        Err(PrintError::WriteFault) => Outcome::WriteFault,
    }
}

/// Prints a reply or a message's octets.
fn print_single<O: Sink>(
    alloc: Global,
    output: &mut O,
    octets_alone: bool,
    given: &Reply,
) -> Result<(), PrintError>
    ensures ok { OnOk result (Appended (O.held output.old) (if octets_alone then fetched_text given.now else reply_text given.now) (O.held output.new)) }
    ensures err { OnErr result (WritesPrefix (O.held output.old) [] (if octets_alone then fetched_text given.now else reply_text given.now) (O.held output.new)) }
    ensures quiet { OnOk result (O.faults output.new ≡ O.faults output.old) }
    ensures cause { IfErr result (IsPrintError (O.faults output.old) (O.faults output.new)) }
    ensures memory { IfErr result (λ error. error ≡ print.NoMemory → IsLong given.now) }
    ensures counted { O.faults output.old ≤ O.faults output.new }
{
    if octets_alone {
        print_fetch_alone(alloc, output, given)
    } else {
        print_reply(alloc, output, given)
    }
}
