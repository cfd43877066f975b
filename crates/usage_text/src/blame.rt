// What is wrong with words that say no command.
ghost use Rattle.std.specs.Prelude.{◌≡◌, ◌∷◌, [], codes, map, string_bytes, IfSome, IfNone};
ghost use Rattle.request_text.specs.Commands.{Says};
ghost use Rattle.request_text.specs.declared.command.Command.{Command};
ghost use Rattle.usage_text.specs.Blames.{BlameGives};
ghost use Rattle.usage_text.specs.declared.rule.Rule.TheVariants as rule;

use crate::rule::Rule;
use crate::rules::{first_unfit, rules_of};
use request_text::{are_few, first_other};
use std::alloc::Global;

/// What is wrong with words that say no command.
#[derive(Clone, Copy, Debug, PartialEq, Eq)]
pub enum Blame {
    /// There are none.
    NoWords,
    /// No command has this verb, the first word.
    Verb,
    /// The commands of the verb have so many words after it, and there are others.
    Count(usize),
    /// The commands of the verb have so many words after it at least, and there are fewer.
    Fewer(usize),
    /// More than 32 keywords are different.
    Keywords,
    /// The word at this place is the first that stands in no command of the verb; what does follows this rule. The verb is at place 0.
    Word(usize, Rule),
}

/// What is wrong with these words; nothing if they say a command.
pub fn blame_of(alloc: Global, words: &[String]) -> Option<Blame>
    ensures some { IfSome result (BlameGives (map string_bytes words.now)) }
    ensures none { IfNone result ((command : Command) × Says (map string_bytes words.now) command) }
{
    let Some((verb, others)) = words.split_first() else {
        return Some(Blame::NoWords);
    };
    let Some(rules) = rules_of(verb.as_str()) else {
        return Some(Blame::Verb);
    };
    if verb.as_str() == "keywords" {
        return blame_of_keywords(alloc, rules, others);
    }
    if others.len() != rules.len() {
        return Some(Blame::Count(rules.len()));
    }
    let (place, rule) = first_unfit(alloc, rules, others)?;
    Some(Blame::Word(place + 1, rule))
}

/// What is wrong with these words behind the verb `keywords`: a name, a UID and keywords.
fn blame_of_keywords(alloc: Global, rules: &[Rule], others: &[String]) -> Option<Blame>
    requires { rules.now ≡ rule.Name ∷ rule.Uid ∷ [] }
    ensures some { IfSome result (BlameGives (codes "keywords" ∷ map string_bytes others.now)) }
    ensures none { IfNone result ((command : Command) × Says (codes "keywords" ∷ map string_bytes others.now) command) }
{
    if others.len() < rules.len() {
        return Some(Blame::Fewer(rules.len()));
    }
    let (first, keywords) = others.split_at(rules.len());
    if let Some((place, rule)) = first_unfit(alloc, rules, first) {
        return Some(Blame::Word(place + 1, rule));
    }
    if let Some(place) = first_other(keywords) {
        return Some(Blame::Word(place + 3, Rule::Keyword));
    }
    if are_few(keywords) {
        None
    } else {
        Some(Blame::Keywords)
    }
}
