// Parts of a message (RFC 2045, RFC 2046).
ghost use Rattle.std.specs.Prelude.{◌≡◌, ◌≤◌, ◌<◌, ◌++◌, ◌∷◌, [], ℕ, List, length, take, MatchBool, IfSome, IfNone};

use std::marker::Model;

/// How the body of a part is coded (RFC 2045, section 6): in base64, or in any other way.
#[derive(Clone, Copy, Debug, PartialEq, Eq)]
pub enum Coding {
    Base64,
    Plain,
}

/// The boundary of a multipart (RFC 2046, section 5.1.1): at most 70 octets.
#[derive(Debug, Drop)]
pub struct Boundary {
    octets: [u8; 70],
    length: u8,
}

impl Model for Boundary {
    ghost Value = { List ℕ };

    ghost view = { λ b. take b.length b.octets };

    ghost invariant = { λ b. b.length ≤ 70 };
}

impl Boundary {
    /// These octets, where there are at most 70.
    pub fn of(text: &[u8]) -> Option<Boundary>
        ensures some { IfSome result (λ b. (b ≡ text.now) × (length text.now ≤ 70)) }
        ensures none { IfNone result (70 < length text.now) }
    {
        if text.len() > 70 {
            return None;
        }
        let mut octets = [0; 70];
        octets[..text.len()].copy_from_slice(text);
        Some(Boundary {
            octets,
            length: text.len() as u8,
        })
    }

    /// The boundary's octets.
    pub fn as_octets(&self) -> &[u8]
        ensures same { result.now ≡ self.now }
        ensures short { length result.now ≤ 70 }
    {
        &self.octets[..self.length as usize]
    }

    /// Adds an octet at the end. False, with nothing added, where there are 70.
    pub fn push(&mut self, octet: u8) -> bool
        ensures { MatchBool result ((length self.old < 70) × (self.new ≡ self.old ++ octet ∷ [])) ((length self.old ≡ 70) × (self.new ≡ self.old)) }
    {
        if self.length >= 70 {
            return false;
        }
        self.octets[self.length as usize] = octet;
        self.length += 1;
        true
    }
}

/// What the header fields say an entity is.
#[derive(Debug, Drop)]
pub enum Kind {
    /// There is no Content-Type.
    Missing,
    /// The Content-Type can't be read, or is a multipart's without a boundary.
    Unreadable,
    Text,
    Message,
    Multipart(Boundary),
    Other,
}

/// What the header fields of an entity say.
#[derive(Debug, Drop)]
pub struct Fields {
    pub kind: Kind,
    pub coding: Coding,
}

/// A line of a text: where it starts, where its text ends (before the line break), and where the next one starts.
#[derive(Clone, Copy, Debug, PartialEq, Eq)]
pub struct Line {
    pub start: usize,
    pub end: usize,
    pub next: usize,
}

/// A leaf of a message: the range of its body in octets, or, where it is detachable, of its body without the
/// line breaks at the end.
#[derive(Clone, Copy, Debug, PartialEq, Eq)]
pub struct Part {
    pub start: u32,
    pub end: u32,
    pub coding: Coding,
    pub detachable: bool,
}
