// Laws of the detached form of a message.
ghost use Rattle.std.specs.Prelude.{◌≡◌, ℕ, List};
ghost use Rattle.mdbox_base.specs.declared.metadata.ExtRef.{ExtRef};
ghost use Rattle.model_attach.specs.Detached.{Piece, IsDetached, AreDetached};
ghost use Rattle.model_attach.specs.Rejoined.{IsWhole};

/// The whole of the detached form of a message is the message.
pub fn whole_of_detached_is_message()
    ensures { (message body : List ℕ) (refs : List ExtRef) (instances : List (List ℕ)) → AreDetached message body refs instances → IsWhole message body refs instances }
{}

/// A message has at most one detached form.
pub fn detached_form_is_one()
    ensures { (message b c : List ℕ) (xs ys : List Piece) → IsDetached message xs b → IsDetached message ys c → (xs ≡ ys) × (b ≡ c) }
{}
