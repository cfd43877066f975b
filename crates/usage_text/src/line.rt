// The line that tells what is wrong with words.
ghost use Rattle.std.specs.Prelude.{◌≡◌, ◌++◌, ◌∷◌, [], length, take, map, string_bytes, codes, if◌then◌else◌, nat_lt, IfOk, OnOk};
ghost use Rattle.std.specs.Char.Escape.{escape_ascii};
ghost use Rattle.usage_text.specs.BlameText.{blame_text, count_text, counts_text, fewer_text, least_text, word_text, quoted_word, rule_name, rule_text};
ghost use Rattle.usage_text.specs.Blames.{BlameGives};

use crate::blame::Blame;
use crate::rule::Rule;
use mdbox_base::{NoMemory, Octets, push_decimal};
use std::alloc::Global;

/// How many octets of a word are told at most.
const MOST_TOLD: usize = 60;

/// The line that tells what is wrong with these words.
pub fn blame_line(alloc: Global, words: &[String], blame: Blame) -> Result<Octets, NoMemory>
    requires { BlameGives (map string_bytes words.now) blame }
    ensures { IfOk result (λ line. line ≡ blame_text (map string_bytes words.now) blame ++ 10 ∷ []) }
{
    let mut line = Octets::empty(alloc);
    match blame {
        Blame::NoWords => line.push_all(b"no command; mdbox --help lists them")?,
        Blame::Verb => {
            line.push_all(b"no command ")?;
            push_quoted(&mut line, words[0].as_bytes())?;
            line.push_all(b"; mdbox --help lists them")?;
        }
        Blame::Count(count) => {
            push_count(&mut line, words[0].as_bytes(), count, words.len() - 1)?;
        }
        Blame::Fewer(count) => {
            push_fewer(&mut line, words[0].as_bytes(), count, words.len() - 1)?;
        }
        Blame::Keywords => line.push_all(b"more than 32 different keywords")?,
        Blame::Word(place, rule) => push_word(&mut line, words[place].as_bytes(), rule)?,
    }
    line.push_all(b"\n")?;
    Ok(line)
}

/// Appends a verb, how many words there must be after it, and how many there are.
fn push_count(line: &mut Octets, verb: &[u8], count: usize, given: usize) -> Result<(), NoMemory>
    ensures { OnOk result (line.new ≡ line.old ++ count_text verb.now count given) }
{
    push_quoted(line, verb)?;
    push_counts(line, count, given)
}

/// Appends how many words there must be, and how many there are.
fn push_counts(line: &mut Octets, count: usize, given: usize) -> Result<(), NoMemory>
    ensures { OnOk result (line.new ≡ line.old ++ counts_text count given) }
{
    line.push_all(b" takes ")?;
    push_decimal(line, count as u64)?;
    line.push_all(b" words after it, not ")?;
    push_decimal(line, given as u64)?;
    line.push_all(b"; mdbox --help names them")
}

/// Appends a verb, how many words there must be after it at least, and how many there are.
fn push_fewer(line: &mut Octets, verb: &[u8], count: usize, given: usize) -> Result<(), NoMemory>
    ensures { OnOk result (line.new ≡ line.old ++ fewer_text verb.now count given) }
{
    push_quoted(line, verb)?;
    push_least(line, count, given)
}

/// Appends how many words there must be at least, and how many there are.
fn push_least(line: &mut Octets, count: usize, given: usize) -> Result<(), NoMemory>
    ensures { OnOk result (line.new ≡ line.old ++ least_text count given) }
{
    line.push_all(b" takes at least ")?;
    push_decimal(line, count as u64)?;
    line.push_all(b" words after it, not ")?;
    push_decimal(line, given as u64)?;
    line.push_all(b"; mdbox --help names them")
}

/// Appends a word and what its rule allows.
fn push_word(line: &mut Octets, word: &[u8], rule: Rule) -> Result<(), NoMemory>
    ensures { OnOk result (line.new ≡ line.old ++ word_text word.now rule) }
{
    let (name, text) = told_of(rule);
    line.push_all(name)?;
    line.push_all(b" ")?;
    push_quoted(line, word)?;
    line.push_all(b": ")?;
    line.push_all(text)
}

/// What the help calls a word of this rule, and what it may be.
fn told_of(rule: Rule) -> (&'static [u8], &'static [u8])
    ensures { (result.0.now ≡ rule_name rule) × (result.1.now ≡ rule_text rule) }
{
    match rule {
        Rule::Id => (b"ID", b"16 lower-case hexadecimal digits"),
        Rule::Name => (b"BOX", b"1 to 255 octets of UTF-8, no control character"),
        Rule::Uid => (b"UID", b"1 to 4294967294, no leading zero"),
        Rule::Flags => (
            b"BITS",
            b"0 to 31, no leading zero: the sum of 1 answered, 2 flagged, 4 deleted, 8 seen, 16 draft",
        ),
        Rule::Keyword => (
            b"KEYWORD",
            b"1 to 64 printing octets of ASCII, no blank, none of ( ) { % * \" \\ ]",
        ),
        Rule::Lanes => (b"LANES", b"1 to 64, no leading zero"),
        Rule::Requests => (b"COUNT", b"1 to 100000, no leading zero"),
        Rule::Number => (b"NUMBER", b"0 to 18446744073709551615, no leading zero"),
    }
}

/// Appends a word between quotes, as a terminal may show it: escaped, and without what is past the first 60 octets.
pub fn push_quoted(out: &mut Octets, word: &[u8]) -> Result<(), NoMemory>
    ensures { OnOk result (out.new ≡ out.old ++ quoted_word word.now) }
{
    let (told, end) = told_part(word);
    out.push_all(b"\"")?;
    for octet in told {
        push_escaped(out, *octet)?;
    }
    out.push_all(end)
}

/// The octets of a word that are told, and what follows them: a quote, and two points if they aren't all.
fn told_part(word: &[u8]) -> (&[u8], &'static [u8])
    ensures told { result.0.now ≡ take 60 word.now }
    ensures end { result.1.now ≡ 34 ∷ (if nat_lt 60 (length word.now) then codes ".." else []) }
{
    if word.len() > MOST_TOLD {
        (&word[..MOST_TOLD], b"\"..")
    } else {
        (word, b"\"")
    }
}

/// Appends an octet, escaped if it isn't a printing one of ASCII.
fn push_escaped(out: &mut Octets, octet: u8) -> Result<(), NoMemory>
    ensures { OnOk result (out.new ≡ out.old ++ escape_ascii octet) }
{
    let mut escape = octet.escape_ascii();
    while let Some(next) = escape.next() {
        out.push_all(&[next])?;
    }
    Ok(())
}
