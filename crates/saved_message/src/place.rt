// The GUID of a message, by the place where it is first stored.
ghost use Rattle.std.specs.Prelude.{◌≡◌, ◌++◌};
ghost use Rattle.saved_message.specs.Region.{guid_of_place};

use mdbox_base::{FileNo, Guid, StoreId};

/// The GUID of a message that is first stored at this offset of a storage file.
pub fn guid_at(store: StoreId, file: FileNo, offset: u32) -> Guid
    ensures { result.0 ≡ guid_of_place store.0 file.0 offset }
{
    let StoreId(id) = store;
    Guid(joined(id, file.0.to_be_bytes(), offset.to_be_bytes()))
}

/// Three texts, one behind another.
fn joined(first: [u8; 8], second: [u8; 4], third: [u8; 4]) -> [u8; 16]
    ensures { result ≡ first ++ (second ++ third) }
{
    let [a, b, c, d, e, f, g, h] = first;
    let [i, j, k, l] = second;
    let [m, n, o, p] = third;
    [a, b, c, d, e, f, g, h, i, j, k, l, m, n, o, p]
}
