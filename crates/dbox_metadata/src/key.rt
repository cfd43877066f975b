// The keys of metadata lines that have a meaning.
ghost use Rattle.std.specs.Prelude.{◌≡◌, false, IfSome, IfNone};
ghost use Rattle.model_storage.specs.Metadata.{is_known_key};
ghost use Rattle.dbox_metadata.specs.Keys.{octet_of_key};

/// A key that has a meaning.
#[derive(Clone, Copy, Debug, PartialEq, Eq)]
pub enum Key {
    Received,
    PhysicalSize,
    VirtualSize,
    Guid,
    Origin,
    References,
}

impl Key {
    /// The key of this octet. All other octets are unknown keys.
    pub fn of(octet: u8) -> Option<Key>
        ensures some { IfSome result (λ key. octet ≡ octet_of_key key) }
        ensures none { IfNone result (is_known_key octet ≡ false) }
    {
        match octet {
            b'R' => Some(Key::Received),
            b'Z' => Some(Key::PhysicalSize),
            b'V' => Some(Key::VirtualSize),
            b'G' => Some(Key::Guid),
            b'B' => Some(Key::Origin),
            b'X' => Some(Key::References),
            _ => None,
        }
    }

    /// The octet that stands for the key.
    pub fn octet(self) -> u8
        ensures { result ≡ octet_of_key self }
    {
        match self {
            Key::Received => b'R',
            Key::PhysicalSize => b'Z',
            Key::VirtualSize => b'V',
            Key::Guid => b'G',
            Key::Origin => b'B',
            Key::References => b'X',
        }
    }
}
