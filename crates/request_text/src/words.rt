// The command that words say.
ghost use Rattle.std.specs.Prelude.{◌≡◌, ◌≢◌, ◌≤◌, ◌↔◌, ◌∷◌, [], ℕ, map, codes, string_bytes, IsErr, IsErrOf, IfOk, IfSome, IfNone, IsTrue};
ghost use Rattle.mdbox_base.specs.Numbers.{decimal_text};
ghost use Rattle.mdbox_base.specs.Words.{IsName, IsNumber};
ghost use Rattle.request_text.specs.Commands.{Says, SaysOnly, SayNothing, NamesMailbox};
ghost use Rattle.request_text.specs.declared.command.Command.{Command};
ghost use Rattle.request_text.specs.declared.words.WordsError.TheVariants as words_error;

use crate::command::Command;
use crate::keywords::{are_few, are_keywords, read_texts};
use mdbox_base::{
    Flags, Name, NoMemory, StoreId, Uid, flags_of, is_number, name_of, read_decimal, read_lower_hex,
};
use std::alloc::Global;

/// How many lanes a script has at most, and how many requests.
const MOST_LANES: u32 = 64;

const MOST_REQUESTS: u32 = 100_000;

/// Why no command was read.
#[derive(Clone, Copy, Debug, PartialEq, Eq)]
pub enum WordsError {
    /// The words say no command.
    Usage,
    NoMemory,
}

/// The command that these words say. Only one that names a mailbox takes memory, for the name and for keywords.
pub fn read_words(alloc: Global, words: &[String]) -> Result<Command, WordsError>
    ensures says { IfOk result (SaysOnly (map string_bytes words.now)) }
    ensures usage { IsErrOf result words_error.Usage → SayNothing (map string_bytes words.now) }
    ensures memory { IsErrOf result words_error.NoMemory → (command : Command) × NamesMailbox command × SaysOnly (map string_bytes words.now) command }
{
    match words {
        [word] => read_one(word.as_str()),
        [verb, word] => read_two(alloc, verb.as_str(), word.as_bytes()),
        [verb, first, second, others @ ..] => read_more(
            alloc,
            verb.as_str(),
            first.as_bytes(),
            second.as_bytes(),
            others,
        ),
        _ => Err(WordsError::Usage),
    }
}

/// The command that three words and others say.
fn read_more(
    alloc: Global,
    verb: &str,
    first: &[u8],
    second: &[u8],
    others: &[String],
) -> Result<Command, WordsError>
    ensures says { IfOk result (Says (verb.now ∷ first.now ∷ second.now ∷ map string_bytes others.now)) }
    ensures usage { IsErrOf result words_error.Usage → SayNothing (verb.now ∷ first.now ∷ second.now ∷ map string_bytes others.now) }
    ensures memory { IsErrOf result words_error.NoMemory → (command : Command) × NamesMailbox command × Says (verb.now ∷ first.now ∷ second.now ∷ map string_bytes others.now) command }
{
    if verb == "keywords" {
        return read_keywords(alloc, first, second, others);
    }
    match others {
        [] => read_three(alloc, verb, first, second),
        [third] => read_four(alloc, verb, first, second, third.as_bytes()),
        _ => Err(WordsError::Usage),
    }
}

/// The command that one word says.
fn read_one(word: &str) -> Result<Command, WordsError>
    ensures says { IfOk result (Says (word.now ∷ [])) }
    ensures usage { IsErr result → SayNothing (word.now ∷ []) }
    ensures memory { IsErrOf result words_error.NoMemory → ⊥ }
{
    match word {
        "boxes" => Ok(Command::Boxes),
        "counts" => Ok(Command::Counts),
        "purge" => Ok(Command::Purge),
        "resync" => Ok(Command::Resync),
        "serve" => Ok(Command::Serve),
        "dump" => Ok(Command::Dump),
        "logdump" => Ok(Command::LogDump),
        "--help" => Ok(Command::Help),
        "--version" => Ok(Command::Version),
        _ => Err(WordsError::Usage),
    }
}

/// The command that two words say.
fn read_two(alloc: Global, verb: &str, word: &[u8]) -> Result<Command, WordsError>
    ensures says { IfOk result (Says (verb.now ∷ word.now ∷ [])) }
    ensures usage { IsErrOf result words_error.Usage → SayNothing (verb.now ∷ word.now ∷ []) }
    ensures memory { IsErrOf result words_error.NoMemory → (command : Command) × NamesMailbox command × Says (verb.now ∷ word.now ∷ []) command }
{
    match verb {
        "init" => read_init(word),
        "deliver" => read_deliver(alloc, word),
        "list" => read_list(alloc, word),
        "make" => read_make(alloc, word),
        "delete" => read_delete(alloc, word),
        "batch" => read_batch(word),
        "rebuild" => read_rebuild(word),
        _ => Err(WordsError::Usage),
    }
}

/// The making of a store with the id that this word names.
fn read_init(word: &[u8]) -> Result<Command, WordsError>
    ensures says { IfOk result (Says (codes "init" ∷ word.now ∷ [])) }
    ensures usage { IsErr result → SayNothing (codes "init" ∷ word.now ∷ []) }
    ensures memory { IsErrOf result words_error.NoMemory → ⊥ }
{
    match read_lower_hex(word) {
        Some(id) => Ok(Command::Init { id: StoreId(id) }),
        None => Err(WordsError::Usage),
    }
}

/// The rebuild of a store with the id that this word names.
fn read_rebuild(word: &[u8]) -> Result<Command, WordsError>
    ensures says { IfOk result (Says (codes "rebuild" ∷ word.now ∷ [])) }
    ensures usage { IsErr result → SayNothing (codes "rebuild" ∷ word.now ∷ []) }
    ensures memory { IsErrOf result words_error.NoMemory → ⊥ }
{
    match read_lower_hex(word) {
        Some(id) => Ok(Command::Rebuild { id: StoreId(id) }),
        None => Err(WordsError::Usage),
    }
}

/// The delivery to the mailbox with this name.
fn read_deliver(alloc: Global, word: &[u8]) -> Result<Command, WordsError>
    ensures says { IfOk result (Says (codes "deliver" ∷ word.now ∷ [])) }
    ensures usage { IsErrOf result words_error.Usage → SayNothing (codes "deliver" ∷ word.now ∷ []) }
    ensures memory { IsErrOf result words_error.NoMemory → IsName word.now }
{
    let name = read_name(alloc, word)?;
    Ok(Command::Deliver { name })
}

/// The listing of the mailbox with this name.
fn read_list(alloc: Global, word: &[u8]) -> Result<Command, WordsError>
    ensures says { IfOk result (Says (codes "list" ∷ word.now ∷ [])) }
    ensures usage { IsErrOf result words_error.Usage → SayNothing (codes "list" ∷ word.now ∷ []) }
    ensures memory { IsErrOf result words_error.NoMemory → IsName word.now }
{
    let name = read_name(alloc, word)?;
    Ok(Command::List { name })
}

/// The making of a mailbox with this name.
fn read_make(alloc: Global, word: &[u8]) -> Result<Command, WordsError>
    ensures says { IfOk result (Says (codes "make" ∷ word.now ∷ [])) }
    ensures usage { IsErrOf result words_error.Usage → SayNothing (codes "make" ∷ word.now ∷ []) }
    ensures memory { IsErrOf result words_error.NoMemory → IsName word.now }
{
    let name = read_name(alloc, word)?;
    Ok(Command::Make { name })
}

/// The deletion of the mailbox with this name.
fn read_delete(alloc: Global, word: &[u8]) -> Result<Command, WordsError>
    ensures says { IfOk result (Says (codes "delete" ∷ word.now ∷ [])) }
    ensures usage { IsErrOf result words_error.Usage → SayNothing (codes "delete" ∷ word.now ∷ []) }
    ensures memory { IsErrOf result words_error.NoMemory → IsName word.now }
{
    let name = read_name(alloc, word)?;
    Ok(Command::Delete { name })
}

/// The script for as many lanes as this word says.
fn read_batch(word: &[u8]) -> Result<Command, WordsError>
    ensures says { IfOk result (Says (codes "batch" ∷ word.now ∷ [])) }
    ensures usage { IsErr result → SayNothing (codes "batch" ∷ word.now ∷ []) }
    ensures memory { IsErrOf result words_error.NoMemory → ⊥ }
{
    match read_up_to(word, MOST_LANES) {
        Some(lanes) => Ok(Command::Batch { lanes }),
        None => Err(WordsError::Usage),
    }
}

/// The command that three words say, of which the first isn't `keywords`.
fn read_three(alloc: Global, verb: &str, first: &[u8], second: &[u8]) -> Result<Command, WordsError>
    requires { verb.now ≢ codes "keywords" }
    ensures says { IfOk result (Says (verb.now ∷ first.now ∷ second.now ∷ [])) }
    ensures usage { IsErrOf result words_error.Usage → SayNothing (verb.now ∷ first.now ∷ second.now ∷ []) }
    ensures memory { IsErrOf result words_error.NoMemory → (command : Command) × NamesMailbox command × Says (verb.now ∷ first.now ∷ second.now ∷ []) command }
{
    match verb {
        "fetch" => read_fetch(alloc, first, second),
        "expunge" => read_expunge(alloc, first, second),
        "rename" => read_rename(alloc, first, second),
        _ => Err(WordsError::Usage),
    }
}

/// The fetch of the message with this UID in the mailbox with this name. The name is read last, since it takes memory.
fn read_fetch(alloc: Global, name: &[u8], uid: &[u8]) -> Result<Command, WordsError>
    ensures says { IfOk result (Says (codes "fetch" ∷ name.now ∷ uid.now ∷ [])) }
    ensures usage { IsErrOf result words_error.Usage → SayNothing (codes "fetch" ∷ name.now ∷ uid.now ∷ []) }
    ensures memory { IsErrOf result words_error.NoMemory → (command : Command) × NamesMailbox command × Says (codes "fetch" ∷ name.now ∷ uid.now ∷ []) command }
{
    let Some(uid) = read_uid(uid) else {
        return Err(WordsError::Usage);
    };
    let name = read_name(alloc, name)?;
    Ok(Command::Fetch { name, uid })
}

/// The expunge of the message with this UID in the mailbox with this name. The name is read last, since it takes memory.
fn read_expunge(alloc: Global, name: &[u8], uid: &[u8]) -> Result<Command, WordsError>
    ensures says { IfOk result (Says (codes "expunge" ∷ name.now ∷ uid.now ∷ [])) }
    ensures usage { IsErrOf result words_error.Usage → SayNothing (codes "expunge" ∷ name.now ∷ uid.now ∷ []) }
    ensures memory { IsErrOf result words_error.NoMemory → (command : Command) × NamesMailbox command × Says (codes "expunge" ∷ name.now ∷ uid.now ∷ []) command }
{
    let Some(uid) = read_uid(uid) else {
        return Err(WordsError::Usage);
    };
    let name = read_name(alloc, name)?;
    Ok(Command::Expunge { name, uid })
}

/// The renaming of the mailbox with this name to the target.
fn read_rename(alloc: Global, name: &[u8], target: &[u8]) -> Result<Command, WordsError>
    ensures says { IfOk result (Says (codes "rename" ∷ name.now ∷ target.now ∷ [])) }
    ensures usage { IsErrOf result words_error.Usage → SayNothing (codes "rename" ∷ name.now ∷ target.now ∷ []) }
    ensures memory { IsErrOf result words_error.NoMemory → IsName name.now × IsName target.now }
{
    let (name, target) = read_names(alloc, name, target)?;
    Ok(Command::Rename { name, target })
}

/// The command that four words say, of which the first isn't `keywords`.
fn read_four(
    alloc: Global,
    verb: &str,
    first: &[u8],
    second: &[u8],
    third: &[u8],
) -> Result<Command, WordsError>
    requires { verb.now ≢ codes "keywords" }
    ensures says { IfOk result (Says (verb.now ∷ first.now ∷ second.now ∷ third.now ∷ [])) }
    ensures usage { IsErrOf result words_error.Usage → SayNothing (verb.now ∷ first.now ∷ second.now ∷ third.now ∷ []) }
    ensures memory { IsErrOf result words_error.NoMemory → (command : Command) × NamesMailbox command × Says (verb.now ∷ first.now ∷ second.now ∷ third.now ∷ []) command }
{
    match verb {
        "flag" => read_flag(alloc, first, second, third),
        "copy" => read_copy(alloc, first, second, third),
        "move" => read_move(alloc, first, second, third),
        "exercise" => read_exercise(first, second, third),
        _ => Err(WordsError::Usage),
    }
}

/// The setting of flags of the message with this UID in the mailbox with this name. The name is read last, since it takes memory.
fn read_flag(alloc: Global, name: &[u8], uid: &[u8], flags: &[u8]) -> Result<Command, WordsError>
    ensures says { IfOk result (Says (codes "flag" ∷ name.now ∷ uid.now ∷ flags.now ∷ [])) }
    ensures usage { IsErrOf result words_error.Usage → SayNothing (codes "flag" ∷ name.now ∷ uid.now ∷ flags.now ∷ []) }
    ensures memory { IsErrOf result words_error.NoMemory → (command : Command) × NamesMailbox command × Says (codes "flag" ∷ name.now ∷ uid.now ∷ flags.now ∷ []) command }
{
    let Some(uid) = read_uid(uid) else {
        return Err(WordsError::Usage);
    };
    let Some(flags) = read_flags(flags) else {
        return Err(WordsError::Usage);
    };
    let name = read_name(alloc, name)?;
    Ok(Command::Flag { name, uid, flags })
}

/// The setting of keywords of the message with this UID in the mailbox with this name. What takes memory is read last.
fn read_keywords(
    alloc: Global,
    name: &[u8],
    uid: &[u8],
    keywords: &[String],
) -> Result<Command, WordsError>
    ensures says { IfOk result (Says (codes "keywords" ∷ name.now ∷ uid.now ∷ map string_bytes keywords.now)) }
    ensures usage { IsErrOf result words_error.Usage → SayNothing (codes "keywords" ∷ name.now ∷ uid.now ∷ map string_bytes keywords.now) }
    ensures memory { IsErrOf result words_error.NoMemory → (command : Command) × NamesMailbox command × Says (codes "keywords" ∷ name.now ∷ uid.now ∷ map string_bytes keywords.now) command }
{
    let Some(uid) = read_uid(uid) else {
        return Err(WordsError::Usage);
    };
    if !are_keywords(keywords) || !are_few(keywords) {
        return Err(WordsError::Usage);
    }
    let name = read_name(alloc, name)?;
    let words = read_texts(alloc, keywords)?;
    Ok(Command::Keywords { name, uid, words })
}

/// The copy of the message with this UID, from the mailbox with this name, to the target. The names are read last, since they
/// take memory.
fn read_copy(alloc: Global, name: &[u8], uid: &[u8], target: &[u8]) -> Result<Command, WordsError>
    ensures says { IfOk result (Says (codes "copy" ∷ name.now ∷ uid.now ∷ target.now ∷ [])) }
    ensures usage { IsErrOf result words_error.Usage → SayNothing (codes "copy" ∷ name.now ∷ uid.now ∷ target.now ∷ []) }
    ensures memory { IsErrOf result words_error.NoMemory → (command : Command) × NamesMailbox command × Says (codes "copy" ∷ name.now ∷ uid.now ∷ target.now ∷ []) command }
{
    let Some(uid) = read_uid(uid) else {
        return Err(WordsError::Usage);
    };
    let (name, target) = read_names(alloc, name, target)?;
    Ok(Command::Copy { name, uid, target })
}

/// The move of the message with this UID, from the mailbox with this name, to the target. The names are read last, since they
/// take memory.
fn read_move(alloc: Global, name: &[u8], uid: &[u8], target: &[u8]) -> Result<Command, WordsError>
    ensures says { IfOk result (Says (codes "move" ∷ name.now ∷ uid.now ∷ target.now ∷ [])) }
    ensures usage { IsErrOf result words_error.Usage → SayNothing (codes "move" ∷ name.now ∷ uid.now ∷ target.now ∷ []) }
    ensures memory { IsErrOf result words_error.NoMemory → (command : Command) × NamesMailbox command × Says (codes "move" ∷ name.now ∷ uid.now ∷ target.now ∷ []) command }
{
    let Some(uid) = read_uid(uid) else {
        return Err(WordsError::Usage);
    };
    let (name, target) = read_names(alloc, name, target)?;
    Ok(Command::Move { name, uid, target })
}

/// The exercise of as many lanes and requests as these words say, and of the number that makes it.
fn read_exercise(lanes: &[u8], count: &[u8], number: &[u8]) -> Result<Command, WordsError>
    ensures says { IfOk result (Says (codes "exercise" ∷ lanes.now ∷ count.now ∷ number.now ∷ [])) }
    ensures usage { IsErr result → SayNothing (codes "exercise" ∷ lanes.now ∷ count.now ∷ number.now ∷ []) }
    ensures memory { IsErrOf result words_error.NoMemory → ⊥ }
{
    match (
        read_up_to(lanes, MOST_LANES),
        read_up_to(count, MOST_REQUESTS),
        read_decimal(number),
    ) {
        (Some(lanes), Some(count), Some(number)) => Ok(Command::Exercise {
            lanes,
            count,
            number,
        }),
        _ => Err(WordsError::Usage),
    }
}

/// Two names of mailboxes.
fn read_names(alloc: Global, first: &[u8], second: &[u8]) -> Result<(Name, Name), WordsError>
    ensures says { IfOk result (λ names. (names.0 ≡ first.now) × (names.1 ≡ second.now) × IsName first.now × IsName second.now) }
    ensures usage { IsErrOf result words_error.Usage → IsName first.now → IsName second.now → ⊥ }
    ensures memory { IsErrOf result words_error.NoMemory → IsName first.now × IsName second.now }
{
    match (read_name(alloc, first), read_name(alloc, second)) {
        (Ok(first), Ok(second)) => Ok((first, second)),
        (Err(WordsError::Usage), _) | (_, Err(WordsError::Usage)) => Err(WordsError::Usage),
        _ => Err(WordsError::NoMemory),
    }
}

/// The UID that this word names, from 1 to 4,294,967,294.
fn read_uid(word: &[u8]) -> Option<Uid>
    ensures some { IfSome result (λ uid. IsNumber uid.0 × (word.now ≡ decimal_text uid.0)) }
    ensures none { IfNone result ((uid : ℕ) → IsNumber uid → word.now ≢ decimal_text uid) }
{
    let number = u32::try_from(read_decimal(word)?).ok()?;
    is_number(number).then_some(Uid(number))
}

/// The number that this word names, from 1 up to the greatest.
fn read_up_to(word: &[u8], most: u32) -> Option<u32>
    ensures some { IfSome result (λ number. (1 ≤ number) × (number ≤ most) × (word.now ≡ decimal_text number)) }
    ensures none { IfNone result ((number : ℕ) → 1 ≤ number → number ≤ most → word.now ≢ decimal_text number) }
{
    let number = u32::try_from(read_decimal(word)?).ok()?;
    is_up_to(number, most).then_some(number)
}

/// Whether a number is one from 1 up to the greatest.
fn is_up_to(number: u32, most: u32) -> bool
    ensures { IsTrue result ↔ ((1 ≤ number) × (number ≤ most)) }
{
    1 <= number && number <= most
}

/// The flags whose bits this word names, 0 to 31.
fn read_flags(word: &[u8]) -> Option<Flags>
    ensures some { IfSome result (λ flags. (flags ≤ 31) × (word.now ≡ decimal_text flags)) }
    ensures none { IfNone result ((flags : ℕ) → flags ≤ 31 → word.now ≢ decimal_text flags) }
{
    let bits = u8::try_from(read_decimal(word)?).ok()?;
    flags_of(bits)
}

/// The name of a mailbox.
fn read_name(alloc: Global, word: &[u8]) -> Result<Name, WordsError>
    ensures says { IfOk result (λ name. (name ≡ word.now) × IsName word.now) }
    ensures usage { IsErrOf result words_error.Usage → IsName word.now → ⊥ }
    ensures memory { IsErrOf result words_error.NoMemory → IsName word.now }
{
    match name_of(alloc, word) {
        Ok(Some(name)) => Ok(name),
        Ok(None) => Err(WordsError::Usage),
        Err(NoMemory) => Err(WordsError::NoMemory),
    }
}
