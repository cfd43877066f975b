// The range of the store's numbers.
ghost use Rattle.std.specs.Prelude.{◌↔◌, IsTrue};
ghost use Rattle.mdbox_base.specs.Words.{IsNumber};

/// The last number of a storage file, a mailbox, a record or a generation. The first is 1.
pub const LAST_NUMBER: u32 = 4_294_967_294;

/// Whether this may be the number of a storage file, a mailbox, a record or a generation.
pub fn is_number(n: u32) -> bool
    ensures { IsTrue result ↔ IsNumber n }
{
    (1..=LAST_NUMBER).contains(&n)
}
