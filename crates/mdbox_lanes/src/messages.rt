// Messages that threads prepare.
ghost use Rattle.std.specs.Prelude.{All};
ghost use Rattle.script_text.specs.Script.{FitsScript};

use crate::wrong::{Wrong, must};
use attach_detach::Prepared;
use base64::engine::general_purpose::STANDARD;
use mdbox_base::Script;
use mdbox_threads::prepare_all;
use script_text::read_script;
use std::alloc::Global;
use std::thread::Threads;

/// How many messages there are: so many that threads prepare them.
const MESSAGES: u64 = 8;

/// How many octets the attachment has.
const ATTACHED: u32 = 180_000;

/// What stands before the attachment,
const HEAD: &[u8] =
    b"From: a@example.org\r\nMIME-Version: 1.0\r\nContent-Type: multipart/mixed; boundary=\"b1\"\r\n\r\n--b1\r\nContent-Type: text/plain\r\n\r\nSee the file.\r\n--b1\r\nContent-Type: application/pdf; name=\"r.pdf\"\r\nContent-Transfer-Encoding: base64\r\n\r\n";

/// and after it.
const END: &[u8] = b"\r\n--b1--\r\n";

/// Messages of 246,549 octets with an attachment in base64: of each 235 octets are left, and one part is taken out.
pub fn prepare_together<R: Threads + Sync>(rt: &R, alloc: Global) -> Result<(), Wrong> {
    let message = message(alloc)?;
    let length = message.len();
    let line = format!(in alloc; "1 deliver 5:INBOX 7 {length}\n")?;
    let mut text = Vec::new(alloc);
    for _ in 0..MESSAGES {
        text.extend_from_slice(line.as_bytes())?;
        text.extend_from_slice(message.as_slice())?;
        text.extend_from_slice(b"\n")?;
    }
    match read_script(alloc, text.as_slice(), 1) {
        Ok(script) => see_prepared(rt, alloc, &script),
        Err(_) => Err(Wrong::Differs("no script")),
    }
}

/// Prepares the messages of a script, and looks at each.
fn see_prepared<R: Threads + Sync>(rt: &R, alloc: Global, script: &Script) -> Result<(), Wrong>
    requires { All (λ asked. FitsScript asked.1) script.now.requests }
{
    let given = prepare_all(rt, alloc, script.requests.as_slice())?;
    must(given.length() as u64 == MESSAGES, "not each message")?;
    for prepared in given.as_slice() {
        must(is_cut(prepared), "a message is prepared otherwise")?;
    }
    Ok(())
}

fn is_cut(prepared: &Option<Prepared>) -> bool {
    match prepared {
        Some(prepared) => {
            prepared.body.length() == 235
                && prepared.whole == 246_549
                && prepared.parts.length() == 1
        }
        None => false,
    }
}

fn message(alloc: Global) -> Result<Vec<u8>, Wrong> {
    let mut attached = Vec::new(alloc);
    for place in 0..ATTACHED {
        attached.push((place % 251) as u8)?;
    }
    let text = STANDARD.encode(alloc, attached.as_slice())?;
    let mut message = Vec::from_slice(alloc, HEAD)?;
    let mut first = true;
    for line in text.as_bytes().chunks(76) {
        if !first {
            message.extend_from_slice(b"\r\n")?;
        }
        message.extend_from_slice(line)?;
        first = false;
    }
    message.extend_from_slice(END)?;
    Ok(message)
}
