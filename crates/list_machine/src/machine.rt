// Laws of the list machine.
ghost use Rattle.std.specs.Prelude.{◌≡◌, ◌+◌, ℕ, List, true};
ghost use Rattle.mdbox_base.specs.declared.requests.Request.{Request};
ghost use Rattle.mdbox_base.specs.declared.replies.Refusal.{Refusal};
ghost use Rattle.mdbox_base.specs.declared.replies.Reply.{Reply};
ghost use Rattle.mdbox_base.specs.declared.replies.Reply.TheVariants.{Refused};
ghost use Rattle.model_lists.specs.Lists.{Lists, AreWellFormed, refs_of};
ghost use Rattle.list_machine.specs.Run.{Run, RunEvent};
ghost use Rattle.list_machine.specs.Machine.{Answers, RequestInRange, refs_added, refs_taken, is_step};

/// A delivery and a copy add one reference to a GUID, an expunge and the second half of a move take one, a deletion takes those
/// of all that the mailbox lists, and no other step changes the references of any.
pub fn steps_change_references()
    ensures { (run : Run) (old : Lists) (request : Request) (event : RunEvent) (reply : Reply) (new : Lists) (guid : List ℕ) → Answers run old request event reply new → refs_of new guid + refs_taken run event old request event.part reply guid ≡ refs_of old guid + refs_added old request event.part reply guid }
{}

/// Well formed lists stay so at each step of a request that can be asked.
pub fn steps_keep_order()
    ensures { (run : Run) (old : Lists) (request : Request) (event : RunEvent) (reply : Reply) (new : Lists) → AreWellFormed old → RequestInRange request → Answers run old request event reply new → AreWellFormed new }
{}

/// A refusal changes no list, is one of those that are steps, and where one is due nothing else is answered.
pub fn refusals_change_nothing()
    ensures same { (run : Run) (old : Lists) (request : Request) (event : RunEvent) (refusal : Refusal) (new : Lists) → Answers run old request event (Refused refusal) new → new ≡ old }
    ensures step { (run : Run) (old : Lists) (request : Request) (event : RunEvent) (refusal : Refusal) (new : Lists) → Answers run old request event (Refused refusal) new → is_step refusal ≡ true }
    ensures alone { (run : Run) (old : Lists) (request : Request) (event : RunEvent) (refusal : Refusal) (reply : Reply) (new other : Lists) → Answers run old request event (Refused refusal) new → Answers run old request event reply other → reply ≡ Refused refusal }
{}

/// An event of a run has one reply, and leaves one state of the lists.
pub fn steps_are_one()
    ensures { (run : Run) (old : Lists) (request : Request) (event : RunEvent) (reply second : Reply) (new other : Lists) → Answers run old request event reply new → Answers run old request event second other → (reply ≡ second) × (new ≡ other) }
{}
