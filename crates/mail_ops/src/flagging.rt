// Setting the flags of a message.
ghost use Rattle.std.specs.Prelude.{◌≡◌, ◌⊎◌, ℕ, Some, None, true, false};
ghost use Rattle.journal.specs.Events.{Around};
ghost use Rattle.mdbox_base.specs.declared.progress.Progress.TheVariants as progress;
ghost use Rattle.mdbox_base.specs.declared.replies.Refusal.{Refusal};
ghost use Rattle.mdbox_base.specs.declared.replies.Refusal.TheVariants as refusal;
ghost use Rattle.mdbox_base.specs.declared.replies.Reply.TheVariants as reply;
ghost use Rattle.mdbox_base.specs.declared.requests.Request.TheVariants as request;
ghost use Rattle.mail_ops.specs.Flagging.{HasEntryMore, flag_refusal};
ghost use Rattle.mail_ops.specs.OnlyLogs.{ChangesOnlyLogs};
ghost use Rattle.mail_ops.specs.declared.task.TaskStage.TheVariants as stage;
ghost use Rattle.task_claims.specs.Claims.{no_claims};
ghost use Rattle.task_claims.specs.Leaving.{LeavesOthers};
ghost use Rattle.store_seen.specs.Seeing.{seen_of};
ghost use Rattle.store_core.specs.Dues.{due_at};
ghost use Rattle.store_core.specs.Keeping.{KeepsRest};
ghost use Rattle.task_steps.specs.Step.{HasNotBegun, Steps};

use crate::laws::flags_are_shown;
use disk_model::Disk;
use mdbox_base::{BoxEntry, Did, Flags, Half, Name, Refusal, Reply, Uid};
use store_core::{StepError, Store};

/// Sets the flags of a message: the only event of its request. It takes no memory.
pub fn flag<D: Disk>(store: &mut Store<D>, name: &Name, uid: Uid, flags: Flags) -> (Reply, Did)
    ensures does { (around after : Around) (pins : ℕ → ℕ) → Steps HasNotBegun HasNotBegun around after (request.Flag name.now uid flags) (seen_of pins store.old (D.history store.old.disk) (D.faults store.old.disk)) (seen_of pins store.new (D.history store.new.disk) (D.faults store.new.disk)) result.1 (Some result.0) }
    ensures refused { (why : Refusal) → flag_refusal name.now uid.0 store.old ≡ Some why → (result.0 ≡ reply.Refused why) × (store.new ≡ store.old) }
    ensures done { flag_refusal name.now uid.0 store.old ≡ None → (result.0 ≡ reply.Done) ⊎ ((result.0 ≡ reply.Refused refusal.Stopped) × (store.new.stopped ≡ true)) }
    ensures appended { result.0 ≡ reply.Done → HasEntryMore name.now store.old store.new }
    ensures due { (uid : ℕ) → due_at uid store.new ≡ due_at uid store.old }
    ensures leaves { store.new.stopped ≡ false → LeavesOthers no_claims store.old store.new (D.history store.old.disk) (D.history store.new.disk) }
    ensures keeps { ChangesOnlyLogs (KeepsRest store.old store.new) stage.First stage.First (progress.Done result.0) store.old store.new (D.history store.old.disk) (D.history store.new.disk) (D.faults store.old.disk) (D.faults store.new.disk) }
{
    flags_are_shown();
    store.facts();
    if store.stopped() {
        return (Reply::Refused(Refusal::Stopped), Did::Quiet);
    }
    let Some(index) = store.list_of(name) else {
        return (Reply::Refused(Refusal::NoMailbox), Did::Step(Half::Whole));
    };
    if index.find(uid).is_none() {
        return (Reply::Refused(Refusal::NoMessage), Did::Step(Half::Whole));
    }
    let Some(number) = store.number_of(name) else {
        unreachable!()
    };
    let entry = BoxEntry::F {
        uid,
        flags: flags.bits(),
    };
    match store.append_box(number, &entry) {
        Ok(()) => (Reply::Done, Did::Step(Half::Whole)),
        Err(StepError::Stopped) => (Reply::Refused(Refusal::Stopped), Did::Broken(Half::Whole)),
        Err(StepError::NoMemory) => unreachable!(),
    }
}
