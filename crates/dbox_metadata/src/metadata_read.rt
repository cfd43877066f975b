// Metadata lines, read.
ghost use Rattle.std.specs.Prelude.{◌≡◌, ◌≢◌, ◌++◌, ◌⊎◌, ℕ, List, [], Result, Ok, Err, IfSome, IfNone};
ghost use Rattle.model_storage.specs.declared.metadata_value.Metadata.{Metadata};
ghost use Rattle.model_storage.specs.StorageFile.{Line, IsLine, line_text};
ghost use Rattle.dbox_metadata.specs.MetadataRead.{MetadataGives};
ghost use Rattle.dbox_metadata.specs.SoFar.{IsNextLine, meta_line};

use crate::error::MetaError;
use crate::reader::Reader;
use crate::split::split;
use model_storage::Metadata;
use std::alloc::Global;

/// What the metadata lines of a message say. The first bad line refuses them, with its offset in these lines.
pub fn read_metadata(alloc: Global, lines: &[u8]) -> Result<Metadata, MetaError>
    ensures gives { (result ≡ Err MetaError.NoMemory) ⊎ MetadataGives lines.now result }
    ensures exactly { (answer : Result Metadata MetaError) → MetadataGives lines.now answer → (result ≡ Err MetaError.NoMemory) ⊎ (result ≡ answer) }
{
    let mut reader = Reader::new(alloc);
    let mut rest = lines;
    while !rest.is_empty() {
        let bad = MetaError::BadLine((lines.len() - rest.len()) as u64);
        let Some((key, value, behind)) = next_line(rest) else {
            return Err(bad);
        };
        if !reader.take(alloc, key, value)? {
            return Err(bad);
        }
        rest = behind;
    }
    Ok(reader.meta)
}

/// The key and the value of the line in front, and what follows it.
pub fn next_line(text: &[u8]) -> Option<(u8, &[u8], &[u8])>
    ensures some { IfSome result (λ x. IsNextLine text.now (meta_line x.0 x.1.now) x.2.now) }
    ensures none { IfNone result ((line : Line) (behind : List ℕ) → IsLine line → text.now ≢ line_text line ++ behind) }
{
    let (key, rest) = text.split_first()?;
    if *key == b'\n' {
        return None;
    }
    let (value, behind) = split(rest, b'\n')?;
    Some((*key, value, behind))
}
