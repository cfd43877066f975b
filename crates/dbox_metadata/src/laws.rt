// Laws of metadata that a store makes.
ghost use Rattle.std.specs.Prelude.{◌≤◌, ◌+◌, ◌*◌, length};
ghost use Rattle.model_storage.specs.declared.metadata_value.Metadata.{Metadata};
ghost use Rattle.model_storage.specs.Metadata.{IsMetadataText, metadata_text};
ghost use Rattle.dbox_metadata.specs.MadeMetadata.{IsMadeMetadata};

/// The written form of metadata that a store makes says this metadata.
pub fn made_metadata_is_said()
    ensures { (meta : Metadata) → IsMadeMetadata meta → IsMetadataText (metadata_text meta) meta }
{}

/// It is short: a block of metadata has room for some 9,700 references.
pub fn made_metadata_is_short()
    ensures { (meta : Metadata) → IsMadeMetadata meta → length (metadata_text meta) ≤ 346 + 108 * length meta.refs }
{}
