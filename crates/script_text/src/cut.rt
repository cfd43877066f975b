// Cutting a text at the first octet of a kind.
ghost use Rattle.std.specs.Prelude.{◌≡◌, ◌≢◌, ◌++◌, ◌∷◌, ℕ, List, IsTrue, IfSome, IfNone};
ghost use Rattle.std.specs.List.{list_all};
ghost use Rattle.mdbox_base.specs.Words.{is_other_than};

use memchr::memchr;

/// What stands before the first such octet, and what follows it.
pub fn cut(text: &[u8], mark: u8) -> Option<(&[u8], &[u8])>
    ensures some { IfSome result (λ x. (text.now ≡ x.0.now ++ mark ∷ x.1.now) × IsTrue (list_all (is_other_than mark) x.0.now)) }
    ensures none { IfNone result ((before behind : List ℕ) → text.now ≢ before ++ mark ∷ behind) }
{
    let place = memchr(mark, text)?;
    Some((&text[..place], &text[place + 1..]))
}
