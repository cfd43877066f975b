// Laws of rejoining.
ghost use Rattle.std.specs.Prelude.{◌≡◌, ◌≤◌, ℕ, List, None, length};
ghost use Rattle.mdbox_base.specs.declared.metadata.ExtRef.{ExtRef};
ghost use Rattle.model_attach.specs.Rejoined.{IsWhole, join_error};

/// A stored body, references and instances determine the whole.
pub fn whole_is_one()
    ensures { (v w body : List ℕ) (refs : List ExtRef) (instances : List (List ℕ)) → IsWhole v body refs instances → IsWhole w body refs instances → v ≡ w }
{}

/// Where there is a whole of at most 4,294,967,295 octets, nothing is wrong with its parts.
pub fn whole_has_no_error()
    ensures { (whole body : List ℕ) (refs : List ExtRef) (instances : List (List ℕ)) → IsWhole whole body refs instances → length whole ≤ 4294967295 → join_error body (length whole) refs instances ≡ None }
{}
