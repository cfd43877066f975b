// The header line of a storage file.
ghost use Rattle.std.specs.Prelude.{◌≡◌, ◌≢◌, ◌<◌, ◌++◌, ◌↔◌, ◌⊎◌, ◌∷◌, ℕ, true, false, IsTrue, IsSome, List, length, flat_map, None, IfSome, IfNone, IfOk, IfErr};
ghost use Rattle.std.specs.List.{AllByRecursion};
ghost use Rattle.mdbox_base.specs.Numbers.{IsHex};
ghost use Rattle.model_storage.specs.Grammars.{Begins};
ghost use Rattle.model_storage.specs.StorageFile.{Line, IsField, field_text, IsHeaderLine, IsRefused};
ghost use Rattle.dbox_file.specs.HeaderFields.{CanEnd, Completes, HasHeaderLine, line_of, IsNextField, IsRunLength};

use mdbox_base::read_hex;
use memchr::memchr;
use model_storage::ScanError;

/// How many octets a header line may have, its LF included.
const LONGEST: usize = 512;
/// How many octets a message's header has.
const MESSAGE_HEADER: u64 = 30;

/// The length of the header line at the front.
pub fn header_line(file: &[u8]) -> Result<u64, ScanError>
    ensures ok { IfOk result (λ size. HasHeaderLine file.now size 30) }
    ensures err { IfErr result (IsRefused file.now) }
{
    match read_header_line(file) {
        None => Err(ScanError::BadHeader),
        Some((length, MESSAGE_HEADER)) => Ok(length),
        Some((_, size)) => Err(ScanError::HeaderSize(size)),
    }
}

/// The length of the header line at the front, and the size of message headers that it tells.
fn read_header_line(file: &[u8]) -> Option<(u64, u64)>
    ensures some { IfSome result (λ x. HasHeaderLine file.now x.0 x.1) }
    ensures none { IfNone result (¬ Begins IsHeaderLine file.now) }
{
    let (window, _) = file.split_at(file.len().min(LONGEST));
    let end = memchr(b'\n', window)?;
    let (line, _) = window.split_at(end);
    let fields = line.strip_prefix(b"2")?;
    let size = message_header_size(fields)?;
    Some((end as u64 + 1, size))
}

/// The size of message headers that the fields of a header line tell.
fn message_header_size(text: &[u8]) -> Option<u64>
    ensures some { IfSome result (Completes None false text.now) }
    ensures none { IfNone result ((n : ℕ) → Completes None false text.now n → ⊥) }
{
    let mut told = Told {
        size: None,
        time: false,
    };
    let mut rest = text;
    while !rest.is_empty() {
        let field = next_field(rest)?;
        told = told.and(field.letter, field.value)?;
        rest = field.behind;
    }
    told.size
}

/// A field of the header line, and what follows it.
#[derive(Clone, Copy)]
struct Field<'a> {
    letter: u8,
    value: &'a [u8],
    behind: &'a [u8],
}

/// The field at the front of a text that isn't empty.
fn next_field(text: &[u8]) -> Option<Field<'_>>
    requires { 0 < length text.now }
    ensures some { IfSome result (λ f. IsNextField text.now (line_of f.letter f.value.now) f.behind.now) }
    ensures none { IfNone result ((fields : List Line) → AllByRecursion IsField fields → text.now ≢ flat_map field_text fields) }
{
    let rest = text.strip_prefix(b" ")?;
    let (letter, rest) = rest.split_first()?;
    if !letter.is_ascii_alphabetic() {
        return None;
    }
    let length = value_length(rest);
    let (value, behind) = rest.split_at(length);
    Some(Field {
        letter: *letter,
        value,
        behind,
    })
}

/// How many letters and digits stand at the front.
fn value_length(text: &[u8]) -> usize
    ensures { IsRunLength text.now result }
{
    for (i, octet) in text.iter().enumerate() {
        if !octet.is_ascii_alphanumeric() {
            return i;
        }
    }
    text.len()
}

/// What the fields so far tell: the size of message headers, and whether they tell the creation time.
#[derive(Clone, Copy)]
struct Told {
    size: Option<u64>,
    time: bool,
}

impl Told {
    /// The same with one field more, where that may be.
    fn and(self, letter: u8, value: &[u8]) -> Option<Told>
        ensures some { IfSome result (λ next. (fields : List Line) (n : ℕ) →
            IsField (line_of letter value.now) → (CanEnd next.size next.time fields n ↔ CanEnd self.size self.time (line_of letter value.now ∷ fields) n)) }
        ensures none { IfNone result ((fields : List Line) (n : ℕ) → CanEnd self.size self.time (line_of letter value.now ∷ fields) n → ⊥) }
    {
        match letter {
            b'M' => self.and_size(value),
            b'C' => self.and_time(value),
            _ => Some(self),
        }
    }

    fn and_size(self, digits: &[u8]) -> Option<Told>
        ensures some { IfSome result (λ next. (next ≡ record { size = next.size; time = self.time }) × (self.size ≡ None) × IfSome next.size (IsHex 8 digits.now) × IsSome next.size) }
        ensures none { IfNone result (IsSome self.size ⊎ ((n : ℕ) → IsHex 8 digits.now n → ⊥)) }
    {
        if self.size.is_some() || digits.len() > 8 {
            return None;
        }
        let size = Some(read_hex(digits)?);
        Some(Told {
            size,
            time: self.time,
        })
    }

    fn and_time(self, digits: &[u8]) -> Option<Told>
        ensures some { IfSome result (λ next. (next ≡ record { size = self.size; time = true }) × (self.time ≡ false) × ((n : ℕ) × IsHex 16 digits.now n)) }
        ensures none { IfNone result (IsTrue self.time ⊎ ((n : ℕ) → IsHex 16 digits.now n → ⊥)) }
    {
        if self.time {
            return None;
        }
        read_hex(digits)?;
        Some(Told {
            size: self.size,
            time: true,
        })
    }
}
