// A script, read.
ghost use Rattle.std.specs.Prelude.{◌≡◌, ◌⊎◌, Result, Err};
ghost use Rattle.mdbox_base.specs.declared.script.Script.{Script};
ghost use Rattle.script_text.specs.Script.{BeginsAnother, ScriptGives};
ghost use Rattle.script_text.specs.declared.error.ScriptError.{ScriptError};

use crate::error::{Flaw, ScriptError};
use crate::request::request_at;
use mdbox_base::{Script, Seq};
use std::alloc::Global;

/// How many requests a script has at most.
pub const MOST_REQUESTS: usize = 100_000;

/// The script for so many lanes that a text is. Of each message one copy is made. A request that is bad is
/// told as such, and never as out of memory.
pub fn read_script(alloc: Global, text: &[u8], lanes: u32) -> Result<Script, ScriptError>
    ensures gives { (result ≡ Err ScriptError.NoMemory) ⊎ ScriptGives lanes text.now result }
    ensures exactly { (answer : Result Script ScriptError) → ScriptGives lanes text.now answer → (result ≡ Err ScriptError.NoMemory) ⊎ (result ≡ answer) }
    ensures memory { result ≡ Err ScriptError.NoMemory → BeginsAnother lanes text.now }
{
    let mut requests = Seq::empty(alloc);
    let mut rest = text;
    while !rest.is_empty() {
        let offset = (text.len() - rest.len()) as u64;
        if requests.length() == MOST_REQUESTS {
            return Err(ScriptError::Bad(offset));
        }
        match request_at(alloc, rest, lanes) {
            Ok((asked, after)) => {
                requests.push(asked)?;
                rest = after;
            }
            Err(Flaw::Bad) => return Err(ScriptError::Bad(offset)),
            Err(Flaw::NoMemory) => return Err(ScriptError::NoMemory),
        }
    }
    Ok(Script { lanes, requests })
}
