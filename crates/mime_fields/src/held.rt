// A parameter's value as far as a boundary can hold it.
ghost use Rattle.std.specs.Prelude.{◌≡◌, ◌++◌, ◌∷◌, [], ℕ, List, length, Some};
ghost use Rattle.mime_fields.specs.Holding.{held};
ghost use Rattle.model_mime.specs.Fields.{multipart, is_boundary, is_printing};
ghost use Rattle.std.specs.List.{list_all};

use model_mime::{Boundary, Kind};

/// The value of a parameter. One of more than 70 octets is no boundary, so these aren't kept.
#[derive(Drop)]
pub enum Held {
    Whole(Boundary),
    TooLong,
}

/// Holds a text.
pub fn hold(text: &[u8]) -> Held
    ensures { result ≡ held text.now }
{
    match Boundary::of(text) {
        Some(boundary) => Held::Whole(boundary),
        None => Held::TooLong,
    }
}

impl Held {
    /// Adds an octet at the end.
    pub fn with(self, octet: u8) -> Held
        ensures { (text : List ℕ) → self ≡ held text → result ≡ held (text ++ octet ∷ []) }
    {
        match self {
            Held::Whole(mut boundary) => {
                if boundary.push(octet) {
                    Held::Whole(boundary)
                } else {
                    Held::TooLong
                }
            }
            Held::TooLong => Held::TooLong,
        }
    }

    /// The kind of a multipart whose boundary this is.
    pub fn into_kind(self) -> Kind
        ensures { (text : List ℕ) → self ≡ held text → result ≡ multipart (Some text) }
    {
        match self {
            Held::Whole(boundary) => {
                if is_boundary(boundary.as_octets()) {
                    Kind::Multipart(boundary)
                } else {
                    Kind::Unreadable
                }
            }
            Held::TooLong => Kind::Unreadable,
        }
    }
}

/// Whether a text is a boundary: 1 to 70 printing octets, of which the last is no space.
#[tactic(auto, unfolding(model_mime::specs::Fields::is_boundary))]
fn is_boundary(text: &[u8]) -> bool
    ensures { result ≡ is_boundary text.now }
{
    1 <= text.len() && text.len() <= 70 && is_printing(text) && !text.ends_with(b" ")
}

fn is_printing(text: &[u8]) -> bool
    ensures { result ≡ list_all is_printing text.now }
{
    text.iter().all(|octet| 32 <= *octet && *octet <= 126)
}
