// Laws of base64 text in lines.
ghost use Rattle.std.specs.Prelude.{◌≡◌, ℕ, List};
ghost use Rattle.mdbox_base.specs.declared.metadata.LineForm.{LineForm};
ghost use Rattle.model_base64.specs.Base64Text.{IsCanonical};

/// A text is canonical of at most one form and one row of octets.
pub fn canonical_text_is_of_one_form()
    ensures { (text : List ℕ) (f g : LineForm) (a b : List ℕ) → IsCanonical text f a → IsCanonical text g b → (f ≡ g) × (a ≡ b) }
{}
