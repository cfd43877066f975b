// Laws of prepared messages.
ghost use Rattle.std.specs.Prelude.{◌≡◌, [], ℕ, List, filter, map};
ghost use Rattle.mdbox_base.specs.declared.metadata.ExtRef.{ExtRef};
ghost use Rattle.model_attach.specs.Detached.{AreDetached};
ghost use Rattle.model_mime.specs.Parts.{parts_in};
ghost use Rattle.attach_detach.specs.declared.message.Prepared.{Prepared};
ghost use Rattle.attach_detach.specs.Prepared.{IsPlain, IsPrepared, NameParts};

/// The body of a prepared message, references that name its parts, and the parts' octets are the detached form of the
/// message: so they can be rejoined, and give it.
pub fn prepared_is_detached()
    ensures { (message : List ℕ) (prepared : Prepared) (refs : List ExtRef) → IsPrepared message prepared → NameParts refs prepared.parts → AreDetached message prepared.body refs (map (λ d. d.octets) prepared.parts) }
{}

/// A message of which no part can be detached is prepared as it is.
pub fn plain_messages_are_prepared()
    ensures { (message : List ℕ) (prepared : Prepared) → IsPlain message prepared → filter (λ part. part.detachable) (parts_in message) ≡ [] → IsPrepared message prepared }
{}
