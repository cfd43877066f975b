// A delivery: the message is read, the clock asked, and the delivery done as any request alone is.
ghost use Rattle.std.specs.Prelude.{◌≡◌, ◌≢◌, ◌≤◌, ◌⊎◌, ◌∷◌, [], IfOk, IfErr, OnOk};
ghost use Rattle.attach_detach.specs.Prepared.{IsTakenApart};
ghost use Rattle.disk_model.specs.FaultCounts.{NoFault, AnyFaultCounted};
ghost use Rattle.mdbox_base.specs.Streams.{Rose};
ghost use Rattle.mdbox_top.specs.DeliverRun.{IsMessageOf, IsTimeOf, IsReadWhole, unread_outcome, IsUnread, DeliverOutcome, DeliverMoments, DeliverRests};
ghost use Rattle.mdbox_top.specs.InputRun.{IsOneOf};
ghost use Rattle.request_text.specs.Outcomes.{status_of};
ghost use Rattle.request_text.specs.declared.outcome.InputRefusal.{InputRefusal};
ghost use Rattle.request_text.specs.declared.outcome.Outcome.TheVariants as outcome;

use crate::alone::serve;
use attach_detach::{Prepared, take_apart};
use disk_model::Disk;
use mdbox_base::{Clock, ClockFault, InputError, Name, Octets, Request, Sink, Source, read_all};
use request_text::{InputRefusal, Outcome};
use std::alloc::Global;

/// How many octets a message may have.
const MESSAGE_LIMIT: u64 = 67_108_864;

/// Reads a message from the input to its end, takes its attachments out, asks the clock, saves the message in the mailbox with this
/// name, prints the reply, and hands the disk back. Unless there is a message the clock isn't asked, and unless there is a time too no
/// call of the disk is made.
pub fn deliver<D: Disk, I: Source, O: Sink, C: Clock>(
    alloc: Global,
    name: Name,
    disk: D,
    input: &mut I,
    output: &mut O,
    clock: &mut C,
) -> (Outcome, D)
    ensures ends { DeliverOutcome D name (I.left input.old) (C.time clock.old) (O.held output.old) (O.held output.new) (D.history disk) (D.history result.1) (D.faults disk) (D.faults result.1) result.0 }
    ensures moments { DeliverMoments name (I.left input.old) (C.time clock.old) (D.history disk) (D.history result.1) }
    ensures rests { DeliverRests name (I.left input.old) (C.time clock.old) (IsOneOf (6 ∷ 8 ∷ []) (status_of result.0)) (D.faults disk) (D.faults result.1) (D.history disk) (D.history result.1) }
    ensures disk_fault { AnyFaultCounted (result.0 ≡ outcome.DiskFault) (D.faults disk) (D.faults result.1) }
    ensures read_fault { result.0 ≡ outcome.ReadFault → Rose (I.faults input.old) (I.faults input.new) ⊎ (Rose (C.faults clock.old) (C.faults clock.new) × IsReadWhole (I.left input.old) (I.left input.new)) }
    ensures write_fault { result.0 ≡ outcome.WriteFault → Rose (O.faults output.old) (O.faults output.new) }
    ensures disk_quiet { (IsOneOf (6 ∷ 8 ∷ []) (status_of result.0) → ⊥) → NoFault (D.faults disk) (D.faults result.1) }
    ensures uncalled { (result.0 ≡ outcome.ReadFault) ⊎ ((why : InputRefusal) × (result.0 ≡ outcome.InputRefused why)) → result.1 ≡ disk }
    ensures read_quiet { result.0 ≢ outcome.ReadFault → I.faults input.new ≡ I.faults input.old }
    ensures clock_quiet { result.0 ≢ outcome.ReadFault → C.faults clock.new ≡ C.faults clock.old }
    ensures asked { (clock.new ≡ clock.old) ⊎ (IsReadWhole (I.left input.old) (I.left input.new) × (I.faults input.new ≡ I.faults input.old)) }
    ensures too_long { (why : InputRefusal) → result.0 ≡ outcome.InputRefused why → clock.new ≡ clock.old }
    ensures write_quiet { result.0 ≢ outcome.WriteFault → O.faults output.new ≡ O.faults output.old }
    ensures counted { (I.faults input.old ≤ I.faults input.new) × (O.faults output.old ≤ O.faults output.new) × (C.faults clock.old ≤ C.faults clock.new) }
{
    match read_message(alloc, input, clock) {
        Ok((message, given, time)) => {
            let request = Request::Deliver {
                name,
                time,
                message,
            };
            serve(alloc, request, given, disk, output)
        }
        Err(outcome) => (outcome, disk),
    }
}

/// The message that the input is, the same with its attachments taken out, unless it has none, and the time when it was received.
fn read_message<I: Source, C: Clock>(
    alloc: Global,
    input: &mut I,
    clock: &mut C,
) -> Result<(Octets, Option<Prepared>, u64), Outcome>
    ensures message { IfOk result (λ read. IsMessageOf (I.left input.old) read.0 × IsTakenApart read.0 read.1) }
    ensures time { IfOk result (λ read. IsTimeOf (C.time clock.old) read.2) }
    ensures unread { IfErr result (IsUnread (I.left input.old)) }
    ensures cause { IfErr result (λ ended. ended ≡ outcome.ReadFault → Rose (I.faults input.old) (I.faults input.new) ⊎ (Rose (C.faults clock.old) (C.faults clock.new) × IsReadWhole (I.left input.old) (I.left input.new))) }
    ensures asked { (clock.new ≡ clock.old) ⊎ (IsReadWhole (I.left input.old) (I.left input.new) × (I.faults input.new ≡ I.faults input.old)) }
    ensures too_long { IfErr result (λ ended. (why : InputRefusal) → ended ≡ outcome.InputRefused why → clock.new ≡ clock.old) }
    ensures quiet { OnOk result ((I.faults input.new ≡ I.faults input.old) × (C.faults clock.new ≡ C.faults clock.old)) }
    ensures unfailed { IfErr result (λ ended. ended ≢ outcome.ReadFault → (I.faults input.new ≡ I.faults input.old) × (C.faults clock.new ≡ C.faults clock.old)) }
    ensures counted { (I.faults input.old ≤ I.faults input.new) × (C.faults clock.old ≤ C.faults clock.new) }
{
    let message = match read_all(alloc, input, MESSAGE_LIMIT) {
        Ok(message) => message,
        Err(error) => return Err(unread(error)),
    };
    let Ok(given) = take_apart(alloc, message.as_slice()) else {
        return Err(Outcome::NoMemory);
    };
    match clock.now() {
        Ok(time) => Ok((message, given, time)),
        Err(ClockFault) => Err(Outcome::ReadFault),
    }
}

/// The end of a run whose input was not read.
pub(crate) fn unread(error: InputError) -> Outcome
    ensures { result ≡ unread_outcome error }
{
    match error {
        InputError::TooLong(limit) => Outcome::InputRefused(InputRefusal::TooLong(limit)),
        InputError::Fault => Outcome::ReadFault,
        InputError::NoMemory => Outcome::NoMemory,
    }
}
