// The verbs of requests.
ghost use Rattle.std.specs.Prelude.{◌≡◌, ◌≢◌, IfSome, IfNone};
ghost use Rattle.script_text.specs.Reading.{verb_text};
ghost use Rattle.script_text.specs.declared.verb.Verb.{Verb};

/// The verbs of requests that have further words.
#[derive(Clone, Copy, Debug, PartialEq, Eq)]
pub enum Verb {
    Deliver,
    List,
    Fetch,
    Flag,
    Keywords,
    Copy,
    Move,
    Expunge,
    Make,
    Delete,
    Rename,
}

/// The verb that a word is.
pub fn verb_of(word: &[u8]) -> Option<Verb>
    ensures some { IfSome result (λ verb. word.now ≡ verb_text verb) }
    ensures none { IfNone result ((verb : Verb) → word.now ≢ verb_text verb) }
{
    match word {
        b"deliver" => Some(Verb::Deliver),
        b"list" => Some(Verb::List),
        b"fetch" => Some(Verb::Fetch),
        b"flag" => Some(Verb::Flag),
        b"keywords" => Some(Verb::Keywords),
        b"copy" => Some(Verb::Copy),
        b"move" => Some(Verb::Move),
        b"expunge" => Some(Verb::Expunge),
        b"make" => Some(Verb::Make),
        b"delete" => Some(Verb::Delete),
        b"rename" => Some(Verb::Rename),
        _ => None,
    }
}
