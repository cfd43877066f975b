// What the words ask for, as far as more is told of it.
use mdbox_base::{NoMemory, Octets};
use request_text::{Command, WordsError, read_words};
use std::alloc::Global;
use usage_text::{blame_line, blame_of};

/// A command of which more is told, or words that say none.
#[derive(Drop)]
pub(crate) enum Asked {
    Version,
    Rebuild,
    /// No command, and this line tells why.
    Nothing(Octets),
    /// No command, since a word isn't UTF-8.
    NoText,
    Another,
}

/// What these words ask for. There are none if one of those that were given isn't UTF-8 (`is_text`).
pub(crate) fn asked_by(
    alloc: Global,
    is_text: bool,
    words: &Result<Vec<String>, NoMemory>,
) -> Asked {
    let Ok(words) = words else {
        return Asked::Another;
    };
    if !is_text {
        return Asked::NoText;
    }
    match read_words(alloc, words.as_slice()) {
        Ok(Command::Version) => Asked::Version,
        Ok(Command::Rebuild { .. }) => Asked::Rebuild,
        Err(WordsError::Usage) => asked_wrongly(alloc, words.as_slice()),
        _ => Asked::Another,
    }
}

/// What is told of words that say no command; nothing, without memory for it.
fn asked_wrongly(alloc: Global, words: &[String]) -> Asked {
    let Some(blame) = blame_of(alloc, words) else {
        return Asked::Another;
    };
    match blame_line(alloc, words, blame) {
        Ok(line) => Asked::Nothing(line),
        Err(NoMemory) => Asked::Another,
    }
}
