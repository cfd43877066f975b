// The value of a header field, read octet by octet.
ghost use Rattle.std.specs.Prelude.{◌≡◌, ◌≤◌, ◌<◌, ◌∷◌, ◌++◌, [], ℕ, List, length, take, drop, IfSome, IfNone, MatchBool, Some, None, IsTrue, ◌≢◌, take_while, suc};
ghost use Rattle.model_mime.specs.Lines.{texts, is_blank};
ghost use Rattle.model_mime.specs.Fields.{continuation, behind_blanks, behind, ends_parameter, token, is_token, quoted, with_octet, parameter_value, parameter, boundary_among, multipart, kind_by, typed, boundary_behind, coding_of, is_word};
ghost use Rattle.mime_fields.specs.Alone.{is_alone};
ghost use Rattle.mime_fields.specs.Reading.{IsHeld, IsParameter};
ghost use Rattle.mime_fields.specs.Holding.{held};

use crate::held::{Held, hold};
use crate::lines::next_line;
use model_mime::{Coding, Kind};
use std::marker::Model;

/// What is left of a field's value: of the line that it stands in, and the lines behind.
#[derive(Drop)]
pub struct Value<'a> {
    line: &'a [u8],
    below: &'a [u8],
}

impl<'a> Model for Value<'a> {
    ghost use Rattle.std.specs.Prelude.{List, ℕ};
    ghost use Rattle.mime_fields.specs.Folded.{folded};

    ghost Value = { List ℕ };

    ghost view = { λ v. folded v.line.now v.below.now };
}

fn is_blank(octet: u8) -> bool
    ensures { result ≡ is_blank octet }
{
    octet == b' ' || octet == b'\t'
}

/// The first line of a text, where it continues a field, and the lines behind it.
fn continued<'a>(text: &'a [u8]) -> Option<(&'a [u8], &'a [u8])>
    ensures some { IfSome result (λ x. (0 < length x.0.now) × (continuation (texts text.now) ≡ x.0.now ++ continuation (texts x.1.now))) }
    ensures none { IfNone result (continuation (texts text.now) ≡ []) }
{
    let line = next_line(text, 0)?;
    if line.end == 0 || !is_blank(text[0]) {
        return None;
    }
    Some((&text[..line.end], &text[line.next..]))
}

impl<'a> Value<'a> {
    /// The value of a field that begins here.
    pub fn of(line: &'a [u8], below: &'a [u8]) -> Value<'a>
        ensures { result ≡ line.now ++ continuation (texts below.now) }
    {
        Value { line, below }
    }

    /// The octet in front.
    fn peek(&self) -> Option<u8>
        ensures some { IfSome result (λ c. self.now ≡ c ∷ drop 1 self.now) }
        ensures none { IfNone result (self.now ≡ []) }
    {
        match self.line.first() {
            Some(octet) => Some(*octet),
            None => {
                let (line, _) = continued(self.below)?;
                Some(line[0])
            }
        }
    }

    /// Takes the octet in front.
    fn next(&mut self) -> Option<u8>
        ensures some { IfSome result (λ c. self.old ≡ c ∷ self.new) }
        ensures none { IfNone result ((self.old ≡ []) × (self.new ≡ [])) }
    {
        if self.line.len() == 0 {
            let (line, below) = continued(self.below)?;
            self.line = line;
            self.below = below;
        }
        let octet = self.line[0];
        self.line = &self.line[1..];
        Some(octet)
    }

    /// Leaves out the blanks in front.
    pub fn skip_blanks(&mut self)
        ensures same { self.new ≡ behind_blanks self.old }
        ensures less { length self.new ≤ length self.old }
    {
        while let Some(octet) = self.peek() {
            if !is_blank(octet) {
                return;
            }
            let _ = self.next();
        }
    }

    /// Takes this octet, where it stands in front.
    pub fn accept(&mut self, octet: u8) -> bool
        ensures taken { MatchBool result (behind octet self.old ≡ Some self.new) ((behind octet self.old ≡ None) × (self.new ≡ self.old)) }
        ensures less { length self.new ≤ length self.old }
        ensures one { IsTrue result → length self.new < length self.old }
    {
        match self.peek() {
            Some(front) if front == octet => {
                let _ = self.next();
                true
            }
            _ => false,
        }
    }

    /// Takes the token in front, where there is one. It lies in one line, since a line below begins with a blank.
    pub fn token(&mut self) -> Option<&'a [u8]>
        ensures some { IfSome result (λ t. token self.old ≡ Some (t.now, self.new)) }
        ensures none { IfNone result (token self.old ≡ None) }
        ensures less { length self.new ≤ length self.old }
    {
        let size = token_size(self.line);
        if size == 0 {
            return None;
        }
        let (token, rest) = self.line.split_at(size);
        self.line = rest;
        Some(token)
    }

    /// Whether a parameter ends here: at the value's end, or at a semicolon.
    pub fn ends_parameter(&self) -> bool
        ensures { result ≡ ends_parameter self.now }
    {
        match self.peek() {
            Some(octet) => octet == b';',
            None => true,
        }
    }

    /// The octet that an octet of a quoted string stands for: the next behind a backslash, else itself.
    fn quoted_octet(&mut self, octet: u8) -> Option<u8>
        requires { octet ≢ 34 }
        ensures some { IfSome result (λ c. quoted (octet ∷ self.old) ≡ with_octet c (quoted self.new)) }
        ensures none { IfNone result (quoted (octet ∷ self.old) ≡ None) }
        ensures less { length self.new ≤ length self.old }
    {
        if octet == b'\\' {
            self.next()
        } else {
            Some(octet)
        }
    }

    /// Takes a quoted string behind its first quote. None where it doesn't end.
    fn quoted(&mut self) -> Option<Held>
        ensures some { IfSome result (λ h. IsHeld quoted self.old h self.new) }
        ensures none { IfNone result (quoted self.old ≡ None) }
        ensures less { length self.new ≤ length self.old }
    {
        let mut held = hold(b"");
        while let Some(octet) = self.next() {
            if octet == b'"' {
                return Some(held);
            }
            held = held.with(self.quoted_octet(octet)?);
        }
        None
    }

    /// Takes a parameter's value: a token or a quoted string.
    fn parameter_value(&mut self) -> Option<Held>
        ensures some { IfSome result (λ h. IsHeld parameter_value self.old h self.new) }
        ensures none { IfNone result (parameter_value self.old ≡ None) }
        ensures less { length self.new ≤ length self.old }
    {
        if self.accept(b'"') {
            return self.quoted();
        }
        let token = self.token()?;
        Some(hold(token))
    }

    /// Takes a parameter, with the blanks around its name, the equals sign and its value.
    fn parameter(&mut self) -> Option<Parameter<'a>>
        ensures some { IfSome result (λ p. IsParameter self.old p.name.now p.value self.new) }
        ensures none { IfNone result (parameter self.old ≡ None) }
        ensures less { length self.new ≤ length self.old }
    {
        self.skip_blanks();
        let name = self.token()?;
        self.skip_blanks();
        if !self.accept(b'=') {
            return None;
        }
        self.skip_blanks();
        let value = self.parameter_value()?;
        self.skip_blanks();
        if self.ends_parameter() {
            Some(Parameter { name, value })
        } else {
            None
        }
    }

    /// The boundary among parameters. None where reading fails before it, or there is none.
    fn boundary(&mut self) -> Option<Held>
        ensures some { IfSome result (λ h. (text : List ℕ) × (h ≡ held text) × (boundary_among (suc (length self.old)) self.old ≡ Some text)) }
        ensures none { IfNone result (boundary_among (suc (length self.old)) self.old ≡ None) }
    {
        loop {
            let parameter = self.parameter()?;
            if is_word(parameter.name, b"boundary") {
                return Some(parameter.value);
            }
            if !self.accept(b';') {
                return None;
            }
        }
    }

    /// The kind of a multipart with these parameters.
    fn multipart(&mut self) -> Kind
        ensures { result ≡ multipart (boundary_behind self.old) }
    {
        if !self.accept(b';') {
            return Kind::Unreadable;
        }
        match self.boundary() {
            Some(boundary) => boundary.into_kind(),
            None => Kind::Unreadable,
        }
    }

    /// The kind by the type, where its parameters are left.
    #[tactic(auto, unfolding(model_mime::specs::Fields::kind_by))]
    fn kind_by(&mut self, main: &[u8]) -> Kind
        ensures { result ≡ kind_by main.now self.old }
    {
        if main.eq_ignore_ascii_case(b"text") {
            Kind::Text
        } else if main.eq_ignore_ascii_case(b"message") {
            Kind::Message
        } else if main.eq_ignore_ascii_case(b"multipart") {
            self.multipart()
        } else {
            Kind::Other
        }
    }

    /// Whether the value is a word, in any case, with blanks alone behind it.
    fn is_alone(&mut self, word: &[u8]) -> bool
        ensures { result ≡ is_alone self.old word.now }
    {
        let mut left = word;
        while let Some((first, rest)) = left.split_first() {
            match self.next() {
                Some(octet) if octet.eq_ignore_ascii_case(first) => left = rest,
                _ => return false,
            }
        }
        self.skip_blanks();
        self.peek().is_none()
    }

    /// What a Content-Transfer-Encoding says.
    #[tactic(auto, unfolding(model_mime::specs::Fields::coding_of))]
    pub fn coding(&mut self) -> Coding
        ensures { result ≡ coding_of (Some self.old) }
    {
        self.skip_blanks();
        if self.is_alone(b"base64") {
            Coding::Base64
        } else {
            Coding::Plain
        }
    }

    /// What a Content-Type says. None where it isn't a type, a slash, a subtype, and the end or a semicolon.
    #[tactic(auto, unfolding(model_mime::specs::Fields::typed))]
    pub fn kind(&mut self) -> Option<Kind>
        ensures { result ≡ typed self.old }
    {
        self.skip_blanks();
        let main = self.token()?;
        if !self.accept(b'/') {
            return None;
        }
        let _ = self.token()?;
        self.skip_blanks();
        if self.ends_parameter() {
            Some(self.kind_by(main))
        } else {
            None
        }
    }
}

/// Whether a text is a word, in any case.
fn is_word(text: &[u8], word: &[u8]) -> bool
    ensures { result ≡ is_word text.now word.now }
{
    text.eq_ignore_ascii_case(word)
}

/// A parameter.
#[derive(Drop)]
struct Parameter<'a> {
    name: &'a [u8],
    value: Held,
}

/// How many octets of a token stand in front of a line.
fn token_size(line: &[u8]) -> usize
    ensures size { result ≡ length (take_while is_token line.now) }
    ensures within { result ≤ length line.now }
{
    line.iter().take_while(|octet| is_token(**octet)).count()
}

fn is_token(octet: u8) -> bool
    ensures { result ≡ is_token octet }
{
    octet.is_ascii_graphic() && !b"()<>@,;:\\/[]?=\"".contains(&octet)
}
