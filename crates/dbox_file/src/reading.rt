// Reading what stands at the front of a text.
ghost use Rattle.std.specs.Prelude.{◌≡◌, ◌≤◌, ◌<◌, ◌+◌, ℕ, List, length, drop, IfOk, IfErr};
ghost use Rattle.std.specs.List.{list_all};
ghost use Rattle.mdbox_base.specs.Numbers.{is_between};
ghost use Rattle.dbox_file.specs.Reading.{FoundSome, Flawed, IsText, IsRun};

/// Why a text doesn't begin with what is looked for.
#[derive(Clone, Copy, Debug, PartialEq, Eq)]
pub enum Flaw {
    /// The text is the front of it: more octets may complete it.
    Short,
    /// It is not, whatever follows.
    Bad,
}

/// What follows these octets.
pub fn behind<'a>(text: &'a [u8], wanted: &[u8]) -> Result<&'a [u8], Flaw>
    ensures found { IfOk result (λ rest. FoundSome (IsText wanted.now) text.now rest.now) }
    ensures flaw { IfErr result (Flawed (IsText wanted.now) text.now) }
{
    match text.strip_prefix(wanted) {
        Some(rest) => Ok(rest),
        None if wanted.starts_with(text) => Err(Flaw::Short),
        None => Err(Flaw::Bad),
    }
}

/// What follows so many printing octets (20 to 7E).
pub fn behind_printing(text: &[u8], count: usize) -> Result<&[u8], Flaw>
    ensures found { IfOk result (λ rest. FoundSome (IsRun count (is_between 32 126)) text.now rest.now) }
    ensures flaw { IfErr result (Flawed (IsRun count (is_between 32 126)) text.now) }
{
    if text.len() < count {
        return Err(if all_printing(text) {
            Flaw::Short
        } else {
            Flaw::Bad
        });
    }
    let (run, rest) = text.split_at(count);
    if all_printing(run) {
        Ok(rest)
    } else {
        Err(Flaw::Bad)
    }
}

fn all_printing(text: &[u8]) -> bool
    ensures { result ≡ list_all (is_between 32 126) text.now }
{
    text.iter().all(|octet| (0x20..=0x7e).contains(octet))
}

/// What follows so many octets of any kind.
pub fn behind_any(text: &[u8], count: u64) -> Result<&[u8], Flaw>
    ensures found { IfOk result (λ rest. (rest.now ≡ drop count text.now) × (count ≤ length text.now)) }
    ensures flaw { IfErr result (λ flaw. (flaw ≡ Flaw.Short) × (length text.now < count)) }
{
    if (text.len() as u64) < count {
        Err(Flaw::Short)
    } else {
        Ok(&text[count as usize..])
    }
}
