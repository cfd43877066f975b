// Laws of scripts.
ghost use Rattle.std.specs.Prelude.{◌≡◌, ◌≤◌, ◌<◌, ◌^◌, ℕ, List, Result};
ghost use Rattle.mdbox_base.specs.declared.script.Script.{Script};
ghost use Rattle.script_text.specs.MadeScript.{made_script};
ghost use Rattle.script_text.specs.Script.{ScriptGives, IsScript, IsForLanes, script_text};
ghost use Rattle.script_text.specs.declared.error.ScriptError.{ScriptError};

/// A text is one script at most, or goes wrong at one place.
pub fn a_text_is_one_script()
    ensures { (lanes : ℕ) (text : List ℕ) (a b : Result Script ScriptError) → lanes < 2 ^ 32 → ScriptGives lanes text a → ScriptGives lanes text b → a ≡ b }
{}

/// What is written of a script is this script again.
pub fn written_scripts_are_read()
    ensures { (script : Script) → IsForLanes script → IsScript script.lanes (script_text script.requests) script }
{}

/// A made script is one for its lanes.
pub fn made_scripts_fit()
    ensures { (lanes count number : ℕ) → 1 ≤ lanes → lanes ≤ 64 → count ≤ 100000 → IsForLanes (made_script lanes count number) }
{}
