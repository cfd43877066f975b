// Octets and words as lines write them.
use crate::texts::Texts;
use mdbox_base::NoMemory;

impl Texts {
    /// The octets that a line writes: pairs of hexadecimal digits, text between quotes, and `$NAME`, with spaces between them. None
    /// if it isn't written so.
    pub fn octets(&self, line: &str) -> Result<Option<Vec<u8>>, NoMemory> {
        let mut octets = Vec::new(self.alloc());
        let mut quoted = false;
        for piece in line.split('"') {
            if quoted {
                octets.extend_from_slice(piece.as_bytes())?;
            } else if !self.push_all(&mut octets, piece)? {
                return Ok(None);
            }
            quoted = !quoted;
        }
        Ok(Some(octets))
    }

    /// Adds what a line without quotes writes. False if it isn't written so.
    fn push_all(&self, octets: &mut Vec<u8>, line: &str) -> Result<bool, NoMemory> {
        for word in line.split(' ') {
            let read = match word.strip_prefix("$") {
                Some(name) => self.push_named(octets, name)?,
                None => push_digits(octets, word)?,
            };
            if !read {
                return Ok(false);
            }
        }
        Ok(true)
    }

    fn push_named(&self, octets: &mut Vec<u8>, name: &str) -> Result<bool, NoMemory> {
        match self.find(name) {
            Some(text) => {
                octets.extend_from_slice(text)?;
                Ok(true)
            }
            None => Ok(false),
        }
    }

    /// The words of a line, with one space between two. `$NAME` is the text with this name, and `''` an empty word.
    pub fn words(&self, line: &str) -> Result<Vec<String>, NoMemory> {
        let mut words = Vec::new(self.alloc());
        if line.is_empty() {
            return Ok(words);
        }
        for word in line.split(' ') {
            words.push(String::from_str(self.alloc(), self.word(word))?)?;
        }
        Ok(words)
    }

    fn word<'x>(&'x self, word: &'x str) -> &'x str {
        match word.strip_prefix("$") {
            Some(name) => str::from_utf8(self.find(name).unwrap_or(b"")).unwrap_or(""),
            None if word == "''" => "",
            None => word,
        }
    }
}

/// Adds the octets of pairs of hexadecimal digits. False if these are none.
fn push_digits(octets: &mut Vec<u8>, word: &str) -> Result<bool, NoMemory> {
    for pair in word.as_bytes().chunks(2) {
        match octet_of(pair) {
            Some(octet) => octets.push(octet)?,
            None => return Ok(false),
        }
    }
    Ok(true)
}

/// The octet of two hexadecimal digits.
fn octet_of(pair: &[u8]) -> Option<u8> {
    match pair {
        [high, low] => Some(digit(*high)?.wrapping_mul(16).wrapping_add(digit(*low)?)),
        _ => None,
    }
}

fn digit(octet: u8) -> Option<u8> {
    match octet {
        b'0'..=b'9' => Some(octet - b'0'),
        b'a'..=b'f' => Some(octet - b'a' + 10),
        _ => None,
    }
}
