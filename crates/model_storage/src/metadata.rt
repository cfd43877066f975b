// Laws of metadata and of references.
ghost use Rattle.std.specs.Prelude.{◌≡◌, ◌≤◌, ℕ, List, length};
ghost use Rattle.std.specs.List.{AllByRecursion};
ghost use Rattle.mdbox_base.specs.declared.metadata.ExtRef.{ExtRef};
ghost use Rattle.model_storage.specs.declared.metadata_value.Metadata.{Metadata};
ghost use Rattle.model_storage.specs.StorageFile.{Line};
ghost use Rattle.model_storage.specs.References.{AreReferences, ReferenceFits, references_text};
ghost use Rattle.model_storage.specs.Metadata.{IsMetadata, IsMetadataText, IsFirstBadLine, HasReferences, metadata_text};

/// Lines, and a text of lines, say at most one metadata.
pub fn metadata_is_one()
    ensures lines { (lines : List Line) (m n : Metadata) → IsMetadata lines m → IsMetadata lines n → m ≡ n }
    ensures text { (text : List ℕ) (m n : Metadata) → IsMetadataText text m → IsMetadataText text n → m ≡ n }
{}

/// The written form of metadata that some text says is a text of it.
pub fn written_metadata_is_a_spelling()
    ensures { (text : List ℕ) (m : Metadata) → IsMetadataText text m → IsMetadataText (metadata_text m) m }
{}

/// A text has at most one first bad line, and none where it says metadata.
pub fn first_bad_line_is_one()
    ensures one { (text : List ℕ) (i j : ℕ) → IsFirstBadLine text i → IsFirstBadLine text j → i ≡ j }
    ensures none { (text : List ℕ) (m : Metadata) (offset : ℕ) → IsMetadataText text m → IsFirstBadLine text offset → ⊥ }
{}

/// References that fit have one text, their written one, a text spells at most one list, and lines have at most one.
pub fn references_are_one()
    ensures text { (text : List ℕ) (rs ss : List ExtRef) → AreReferences text rs → AreReferences text ss → rs ≡ ss }
    ensures reads_back { (refs : List ExtRef) → 1 ≤ length refs → AllByRecursion ReferenceFits refs → AreReferences (references_text refs) refs }
    ensures written { (text : List ℕ) (refs : List ExtRef) → AreReferences text refs → text ≡ references_text refs }
    ensures lines { (lines : List Line) (rs ss : List ExtRef) → HasReferences lines rs → HasReferences lines ss → rs ≡ ss }
{}
