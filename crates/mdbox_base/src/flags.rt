// Flags of a message.
ghost use Rattle.std.specs.Prelude.{◌≡◌, ◌≤◌, ◌<◌, ℕ, IfSome, IfNone};

use std::marker::Model;

/// The system flags of a message (RFC 9051, section 2.3.2) as bits:
/// 1 `\Answered`, 2 `\Flagged`, 4 `\Deleted`, 8 `\Seen`, 16 `\Draft`.
#[derive(Clone, Copy, Debug, PartialEq, Eq)]
pub struct Flags {
    bits: u8,
}

impl Model for Flags {
    ghost Value = { ℕ };

    ghost view = { λ f. f.bits };

    ghost invariant = { λ f. f.bits < 32 };

    ghost inverse = { λ bits. record { bits = bits } };
}

impl Flags {
    /// The bits.
    pub fn bits(self) -> u8
        ensures same { result ≡ self }
        ensures flags { result < 32 }
    {
        self.bits
    }
}

/// The flags of these bits, where they are flags.
pub fn flags_of(bits: u8) -> Option<Flags>
    ensures some { IfSome result (λ flags. (flags ≡ bits) × (bits ≤ 31)) }
    ensures none { IfNone result (31 < bits) }
{
    if bits <= 31 {
        Some(Flags { bits })
    } else {
        None
    }
}
