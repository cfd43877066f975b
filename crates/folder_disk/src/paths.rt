// The path of a file.
ghost use Rattle.std.specs.Prelude.{◌≡◌, IfOk, IfSome, IfNone, string_bytes};
ghost use Rattle.file_paths.specs.Paths.{path_text, IsStoreFile};
ghost use Rattle.folder_model.specs.Paths.{IsPath};

use disk_model::{FileName, same_file};
use file_paths::{files_have_own_paths, name_of_path};
use folder_model::CallError;
use std::alloc::Global;

/// A file's path, which is of one spelling. None of a name that no file of a store has.
#[tactic(auto, using(crate::proofs::FileLemmas::path_is))]
pub(crate) fn path_of(alloc: Global, name: FileName) -> Result<Option<String>, CallError>
    ensures some { IfOk result (λ found. IfSome found (λ path. IsStoreFile name × (string_bytes path ≡ path_text name))) }
    ensures spelled { IfOk result (λ found. IfSome found (λ path. IsPath (string_bytes path))) }
    ensures none { IfOk result (λ found. IfNone found (IsStoreFile name → ⊥)) }
{
    files_have_own_paths();
    let path = file_paths::path_of(alloc, name)?;
    match name_of_path(path.as_slice()) {
        Some(own) if same_file(own, name) => match String::from_utf8(path.into_vec()) {
            Ok(path) => Ok(Some(path)),
            Err(_) => Err(CallError::Failed),
        },
        _ => Ok(None),
    }
}
