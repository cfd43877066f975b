// Laws of storage files.
ghost use Rattle.std.specs.Prelude.{◌≡◌, ◌<◌, ◌^◌, ◌++◌, ◌∷◌, [], ℕ, List, Result};
ghost use Rattle.model_storage.specs.declared.places.MessageAt.{MessageAt};
ghost use Rattle.model_storage.specs.declared.places.ScanError.{ScanError};
ghost use Rattle.model_storage.specs.StorageFile.{Message, IsMessage, IsHeaderLine, IsFile, ScanGives};
ghost use Rattle.model_storage.specs.WrittenFile.{first_header, first_message, first_octets, FitsInFile, written_header, written_message};

/// No message is the front of another.
pub fn no_message_begins_another()
    ensures { (a b x y : List ℕ) (m n : Message) → IsMessage a m → IsMessage b n → a ++ x ≡ b ++ y → (a ≡ b) × (m ≡ n) }
{}

/// Octets are a storage file of one header line and one list of messages at most.
pub fn octets_are_one_file()
    ensures { (octets h k : List ℕ) (ms ns : List Message) → IsFile octets h ms → IsFile octets k ns → (h ≡ k) × (ms ≡ ns) }
{}

/// A scan has at most one answer, but for lack of memory.
pub fn a_scan_has_one_answer()
    ensures { (octets : List ℕ) (a b : Result (List MessageAt) ScanError) → ScanGives octets a → ScanGives octets b → a ≡ b }
{}

/// The written form of a message is one of its spellings.
pub fn written_message_is_a_spelling()
    ensures { (m : Message) → FitsInFile m → IsMessage (written_message m) m }
{}

/// The written header line is one, for message headers of 30 octets.
pub fn written_header_is_a_header_line()
    ensures { (time : ℕ) → time < 2 ^ 64 → IsHeaderLine (written_header time) 30 }
{}

/// A message of 114 octets with its header line is a storage file of that message.
pub fn an_example_is_a_file()
    ensures { IsFile first_octets first_header (first_message ∷ []) }
{}
