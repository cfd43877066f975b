// The file of a path.
ghost use Rattle.std.specs.Prelude.{◌≡◌, ◌≢◌, ◌<◌, ◌++◌, ◌∷◌, [], ℕ, List, length, IsTrue, IfSome, IfNone, codes};
ghost use Rattle.std.specs.List.{list_all};
ghost use Rattle.disk_model.specs.declared.name.FileName.{FileName};
ghost use Rattle.disk_model.specs.declared.name.FileName.TheVariants.{Map, Box, Mail, Inst};
ghost use Rattle.hex.specs.Hex.{encode_lower};
ghost use Rattle.mdbox_base.specs.Numbers.{decimal_text};
ghost use Rattle.mdbox_base.specs.Words.{IsNumber, is_other_than};
ghost use Rattle.file_paths.specs.Paths.{path_text, IsStoreFile};
ghost use Rattle.file_paths.specs.InstPath.{inst_path};

use disk_model::FileName;
use mdbox_base::{is_number, read_decimal, read_lower_hex};

/// The store's file with this path. None if and only if the path is none of a store's file.
pub fn name_of_path(path: &[u8]) -> Option<FileName>
    ensures some { IfSome result (λ name. IsStoreFile name × (path.now ≡ path_text name)) }
    ensures none { IfNone result ((name : FileName) → IsStoreFile name → path.now ≡ path_text name → ⊥) }
{
    if path == b"storage/root.log".as_slice() {
        Some(FileName::Root)
    } else if let Some(generation) = map_generation(path) {
        Some(FileName::Map(generation))
    } else if let Some((number, generation)) = box_numbers(path) {
        Some(FileName::Box(number, generation))
    } else if let Some(number) = mail_number(path) {
        Some(FileName::Mail(number))
    } else {
        inst_of(path)
    }
}

/// The generation of the map log with this path.
fn map_generation(path: &[u8]) -> Option<u32>
    ensures some { IfSome result (λ generation. IsNumber generation × (path.now ≡ path_text (Map generation))) }
    ensures none { IfNone result ((generation : ℕ) → IsNumber generation → path.now ≢ path_text (Map generation)) }
{
    number_of(between(path, b"storage/map.", b".log")?)
}

/// The mailbox's number and the generation of the log with this path.
fn box_numbers(path: &[u8]) -> Option<(u32, u32)>
    ensures some { IfSome result (λ x. IsNumber x.0 × IsNumber x.1 × (path.now ≡ path_text (Box x.0 x.1))) }
    ensures none { IfNone result ((number generation : ℕ) → IsNumber number → IsNumber generation → path.now ≢ path_text (Box number generation)) }
{
    numbers_of(between(path, b"mailboxes/b.", b".log")?)
}

/// The two numbers that a point parts.
fn numbers_of(text: &[u8]) -> Option<(u32, u32)>
    ensures some { IfSome result (λ x. IsNumber x.0 × IsNumber x.1 × (text.now ≡ decimal_text x.0 ++ (codes "." ++ decimal_text x.1))) }
    ensures none { IfNone result ((m n : ℕ) → IsNumber m → IsNumber n → text.now ≢ decimal_text m ++ (codes "." ++ decimal_text n)) }
{
    let (first, second) = split(text, b'.')?;
    Some((number_of(first)?, number_of(second)?))
}

/// The number of the storage file with this path.
fn mail_number(path: &[u8]) -> Option<u32>
    ensures some { IfSome result (λ number. IsNumber number × (path.now ≡ path_text (Mail number))) }
    ensures none { IfNone result ((number : ℕ) → IsNumber number → path.now ≢ path_text (Mail number)) }
{
    number_of(path.strip_prefix(b"storage/m.")?)
}

/// The instance with this path.
fn inst_of(path: &[u8]) -> Option<FileName>
    ensures some { IfSome result (λ name. IsStoreFile name × (path.now ≡ path_text name)) }
    ensures none { IfNone result ((hash id : List ℕ) → IsStoreFile (Inst hash id) → path.now ≢ path_text (Inst hash id)) }
{
    let (first, rest) = first_folder(path.strip_prefix(b"attachments/")?)?;
    let (second, text) = first_folder(rest)?;
    inst_in(first, second, text)
}

/// The octet that names the first folder of a path, and what stands in that folder.
fn first_folder(path: &[u8]) -> Option<(u8, &[u8])>
    ensures some { IfSome result (λ x. path.now ≡ encode_lower (x.0 ∷ []) ++ (codes "/" ++ x.1.now)) }
    ensures none { IfNone result ((octet : ℕ) (rest : List ℕ) → octet < 256 → path.now ≢ encode_lower (octet ∷ []) ++ (codes "/" ++ rest)) }
{
    let (folder, rest) = split(path, b'/')?;
    Some((octet_of(folder)?, rest))
}

/// The instance with this text as its name in the folder of these octets.
fn inst_in(first: u8, second: u8, text: &[u8]) -> Option<FileName>
    ensures some { IfSome result (λ name. IsStoreFile name × (inst_path first second text.now ≡ path_text name)) }
    ensures none { IfNone result ((hash id : List ℕ) → IsStoreFile (Inst hash id) → inst_path first second text.now ≢ path_text (Inst hash id)) }
{
    let (hash, id) = split(text, b'-')?;
    let hash = read_lower_hex::<20>(hash)?;
    let id = read_lower_hex::<16>(id)?;
    if hash[0] != first || hash[1] != second {
        return None;
    }
    Some(FileName::Inst(hash, id))
}

/// The number that these decimal digits spell, from 1 to 4,294,967,294.
fn number_of(text: &[u8]) -> Option<u32>
    ensures some { IfSome result (λ number. IsNumber number × (text.now ≡ decimal_text number)) }
    ensures none { IfNone result ((number : ℕ) → IsNumber number → text.now ≢ decimal_text number) }
{
    let number = u32::try_from(read_decimal(text)?).ok()?;
    is_number(number).then_some(number)
}

/// What stands between these texts.
fn between<'a>(text: &'a [u8], front: &[u8], end: &[u8]) -> Option<&'a [u8]>
    ensures some { IfSome result (λ middle. text.now ≡ front.now ++ (middle.now ++ end.now)) }
    ensures none { IfNone result ((middle : List ℕ) → text.now ≢ front.now ++ (middle ++ end.now)) }
{
    text.strip_prefix(front)?.strip_suffix(end)
}

/// What stands before the first such octet, and behind it.
fn split(text: &[u8], mark: u8) -> Option<(&[u8], &[u8])>
    ensures some { IfSome result (λ x. (text.now ≡ x.0.now ++ mark ∷ x.1.now) × IsTrue (list_all (is_other_than mark) x.0.now)) }
    ensures none { IfNone result ((before behind : List ℕ) → text.now ≢ before ++ mark ∷ behind) }
{
    for (i, octet) in text.iter().enumerate() {
        if *octet == mark {
            return Some((&text[..i], &text[i + 1..]));
        }
    }
    None
}

/// The octet that two lower-case hexadecimal digits name.
pub fn octet_of(text: &[u8]) -> Option<u8>
    ensures some { IfSome result (λ octet. text.now ≡ encode_lower (octet ∷ [])) }
    ensures none { IfNone result ((octet : ℕ) → octet < 256 → text.now ≢ encode_lower (octet ∷ [])) }
{
    let [octet] = read_lower_hex::<1>(text)?;
    Some(octet)
}
