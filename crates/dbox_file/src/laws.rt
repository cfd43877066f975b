// Laws of storage files as they are written.
ghost use Rattle.std.specs.Prelude.{◌<◌, ◌^◌, ◌++◌, ℕ, List, length, flat_map, Ok};
ghost use Rattle.std.specs.List.{AllByRecursion};
ghost use Rattle.model_storage.specs.StorageFile.{Message, IsFile, PlaceGives, place_at};
ghost use Rattle.model_storage.specs.WrittenFile.{FitsInFile, written_header, written_message};

/// A written message is found where it was put, whatever stands before and after it.
pub fn written_messages_are_found()
    ensures { (before after : List ℕ) (m : Message) → FitsInFile m → PlaceGives (before ++ (written_message m ++ after)) (length before) (Ok (place_at (length before) m)) }
{}

/// A written header line and written messages after it are a storage file of these messages.
pub fn written_files_are_files()
    ensures { (time : ℕ) (messages : List Message) → time < 2 ^ 64 → AllByRecursion FitsInFile messages → IsFile (written_header time ++ flat_map written_message messages) (written_header time) messages }
{}
