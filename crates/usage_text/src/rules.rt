// The rules of the words after a verb.
ghost use Rattle.std.specs.Prelude.{◌≡◌, length, map, string_bytes, IfSome, IfNone};
ghost use Rattle.request_text.specs.declared.command.Command.{Command};
ghost use Rattle.usage_text.specs.Blames.{HasVerb};
ghost use Rattle.usage_text.specs.Rules.{AreRulesOf, FirstUnfit, FitTo};

use crate::rule::{Rule, fits};
use std::alloc::Global;

/// The rules of the words after a verb, but for keywords.
pub(crate) fn rules_of(verb: &str) -> Option<&'static [Rule]>
    ensures some { IfSome result (λ rules. AreRulesOf verb.now rules.now) }
    ensures none { IfNone result ((command : Command) → HasVerb verb.now command → ⊥) }
{
    match verb {
        "init" => Some(&[Rule::Id]),
        "deliver" => Some(&[Rule::Name]),
        "list" => Some(&[Rule::Name]),
        "fetch" => Some(&[Rule::Name, Rule::Uid]),
        "flag" => Some(&[Rule::Name, Rule::Uid, Rule::Flags]),
        "keywords" => Some(&[Rule::Name, Rule::Uid]),
        "boxes" => Some(&[]),
        "counts" => Some(&[]),
        "purge" => Some(&[]),
        "resync" => Some(&[]),
        "serve" => Some(&[]),
        "expunge" => Some(&[Rule::Name, Rule::Uid]),
        "copy" => Some(&[Rule::Name, Rule::Uid, Rule::Name]),
        "move" => Some(&[Rule::Name, Rule::Uid, Rule::Name]),
        "make" => Some(&[Rule::Name]),
        "delete" => Some(&[Rule::Name]),
        "rename" => Some(&[Rule::Name, Rule::Name]),
        "batch" => Some(&[Rule::Lanes]),
        "exercise" => Some(&[Rule::Lanes, Rule::Requests, Rule::Number]),
        "rebuild" => Some(&[Rule::Id]),
        "dump" => Some(&[]),
        "logdump" => Some(&[]),
        "--help" => Some(&[]),
        "--version" => Some(&[]),
        _ => None,
    }
}

/// The place of the first word that its rule doesn't allow, and the rule.
pub(crate) fn first_unfit(alloc: Global, rules: &[Rule], words: &[String]) -> Option<(usize, Rule)>
    requires { length words.now ≡ length rules.now }
    ensures some { IfSome result (λ x. FirstUnfit rules.now (map string_bytes words.now) x.0 x.1) }
    ensures none { IfNone result (FitTo rules.now (map string_bytes words.now) (length rules.now)) }
{
    let mut place = 0;
    while place < rules.len() {
        let rule = rules[place];
        if !fits(alloc, rule, words[place].as_bytes()) {
            return Some((place, rule));
        }
        place += 1;
    }
    None
}
