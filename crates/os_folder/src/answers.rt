// What the system's answers mean.
ghost use Rattle.std.specs.Prelude.{◌≡◌, ◌↔◌, [], Ok, Err, true, false, IsTrue, IfOk, IfErr};
ghost use Rattle.std.specs.Fs.{file_type, IsDir, IsFile};
ghost use Rattle.std.specs.IoError.{error_kind};
ghost use Rattle.std.specs.declared.io.ErrorKind.TheVariants.{AlreadyExists};
ghost use Rattle.folder_model.specs.declared.folder.Kind.TheVariants as kind;
ghost use Rattle.os_folder.specs.Answers.{call_error, IsNoSuchPath};

use folder_model::{CallError, Kind};
use std::alloc::Global;
use std::fs::Metadata;
use std::io::{self, ErrorKind};

/// What an error of the system means.
pub(crate) fn error_of(error: io::Error) -> CallError
    ensures { result ≡ call_error (error_kind error) }
{
    match error.kind() {
        ErrorKind::Interrupted => CallError::Interrupted,
        _ => CallError::Failed,
    }
}

/// Whether an error of this kind says that nothing stands at the path: a folder of it is missing too, say, or is a file, or a
/// circle of links.
fn is_no_such_path(kind: ErrorKind) -> bool
    ensures { IsTrue result ↔ IsNoSuchPath kind }
{
    matches!(
        kind,
        ErrorKind::NotFound | ErrorKind::NotADirectory | ErrorKind::FilesystemLoop
    )
}

/// What stands at a path, by the answer to a look at it.
pub(crate) fn kind_told(answer: io::Result<Metadata>) -> io::Result<Kind>
    ensures file { IfOk answer (λ found. IsFile (file_type found) → result ≡ Ok kind.File) }
    ensures folder { IfOk answer (λ found. IsDir (file_type found) → result ≡ Ok kind.Folder) }
    ensures other { IfOk answer (λ found. (IsFile (file_type found) → ⊥) → (IsDir (file_type found) → ⊥) → result ≡ Ok kind.Other) }
    ensures nothing { IfErr answer (λ error. IsNoSuchPath (error_kind error) → result ≡ Ok kind.Nothing) }
    ensures err { IfErr answer (λ error. (IsNoSuchPath (error_kind error) → ⊥) → result ≡ Err error) }
{
    match answer {
        Ok(found) if found.is_file() => Ok(Kind::File),
        Ok(found) if found.is_dir() => Ok(Kind::Folder),
        Ok(_) => Ok(Kind::Other),
        Err(error) if is_no_such_path(error.kind()) => Ok(Kind::Nothing),
        Err(error) => Err(error),
    }
}

/// The paths in a folder: none where there is no such folder.
pub(crate) fn paths_told(alloc: Global, answer: io::Result<Vec<String>>) -> io::Result<Vec<String>>
    ensures ok { IfOk answer (λ paths. result ≡ Ok paths) }
    ensures nothing { IfErr answer (λ error. IsNoSuchPath (error_kind error) → IfOk result (λ paths. paths.items ≡ [])) }
    ensures err { IfErr answer (λ error. (IsNoSuchPath (error_kind error) → ⊥) → result ≡ Err error) }
{
    match answer {
        Ok(paths) => Ok(paths),
        Err(error) if is_no_such_path(error.kind()) => Ok(Vec::new(alloc)),
        Err(error) => Err(error),
    }
}

/// Whether a folder was made: it wasn't where something stands already.
pub(crate) fn made_told(answer: io::Result<()>) -> io::Result<bool>
    ensures made { IfOk answer (λ _. result ≡ Ok true) }
    ensures there { IfErr answer (λ error. error_kind error ≡ AlreadyExists → result ≡ Ok false) }
    ensures err { IfErr answer (λ error. (error_kind error ≡ AlreadyExists → ⊥) → result ≡ Err error) }
{
    match answer {
        Ok(()) => Ok(true),
        Err(error) if error.kind() == ErrorKind::AlreadyExists => Ok(false),
        Err(error) => Err(error),
    }
}
