// The messages of a storage file.
ghost use Rattle.std.specs.Prelude.{◌≡◌, ◌⊎◌, List, Result, Err};
ghost use Rattle.model_storage.specs.declared.places.MessageAt.{MessageAt};
ghost use Rattle.model_storage.specs.declared.places.ScanError.{ScanError};
ghost use Rattle.model_storage.specs.StorageFile.{ScanGives};

use crate::header_line::header_line;
use crate::message::message_at;
use mdbox_base::Seq;
use model_storage::{MessageAt, ScanError};
use std::alloc::Global;

/// The places of all messages of a storage file, in order.
/// What follows the last message must be nothing: the first place where no whole message stands refuses the file.
pub fn scan(alloc: Global, file: &[u8]) -> Result<Seq<MessageAt>, ScanError>
    ensures gives { (result ≡ Err ScanError.NoMemory) ⊎ ScanGives file.now result }
    ensures exactly { (answer : Result (List MessageAt) ScanError) → ScanGives file.now answer → (result ≡ Err ScanError.NoMemory) ⊎ (result ≡ answer) }
{
    let mut offset = header_line(file)?;
    let mut messages = Seq::empty(alloc);
    while offset < file.len() as u64 {
        let message = message_at(file, offset)?;
        messages.push(message)?;
        offset = message.end;
    }
    Ok(messages)
}
