// The path of a file.
ghost use Rattle.std.specs.Prelude.{◌≡◌, ◌++◌, ◌∷◌, List, ℕ, take, drop, IfOk, OnOk, OnErr, string_bytes};
ghost use Rattle.hex.specs.Hex.{encode_lower};
ghost use Rattle.file_paths.specs.Paths.{path_text};

use disk_model::FileName;
use mdbox_base::{NoMemory, Octets, push_decimal};
use std::alloc::Global;

/// A file's path in the store's folder, as text.
pub fn path_of(alloc: Global, name: FileName) -> Result<Octets, NoMemory>
    ensures { IfOk result (λ path. path ≡ path_text name) }
{
    match name {
        FileName::Root => with_text(alloc, b"storage/root.log"),
        FileName::Map(generation) => {
            let mut path = with_text(alloc, b"storage/map.")?;
            push_decimal(&mut path, generation as u64)?;
            path.push_all(b".log")?;
            Ok(path)
        }
        FileName::Box(number, generation) => {
            let mut path = with_text(alloc, b"mailboxes/b.")?;
            push_decimal(&mut path, number as u64)?;
            path.push_all(b".")?;
            push_decimal(&mut path, generation as u64)?;
            path.push_all(b".log")?;
            Ok(path)
        }
        FileName::Mail(number) => {
            let mut path = with_text(alloc, b"storage/m.")?;
            push_decimal(&mut path, number as u64)?;
            Ok(path)
        }
        FileName::Inst(hash, id) => {
            let mut path = with_text(alloc, b"attachments/")?;
            push_digits(alloc, &mut path, &hash[..1])?;
            path.push_all(b"/")?;
            push_digits(alloc, &mut path, &hash[1..2])?;
            path.push_all(b"/")?;
            push_digits(alloc, &mut path, &hash)?;
            path.push_all(b"-")?;
            push_digits(alloc, &mut path, &id)?;
            Ok(path)
        }
    }
}

fn with_text(alloc: Global, text: &[u8]) -> Result<Octets, NoMemory>
    ensures { IfOk result (λ octets. octets ≡ text.now) }
{
    let mut octets = Octets::empty(alloc);
    octets.push_all(text)?;
    Ok(octets)
}

/// Adds octets as lower-case hexadecimal digits.
fn push_digits(alloc: Global, path: &mut Octets, octets: &[u8]) -> Result<(), NoMemory>
    ensures { OnOk result (path.new ≡ path.old ++ encode_lower octets.now) }
{
    let digits = hex::encode(alloc, octets)?;
    path.push_all(digits.as_bytes())
}
