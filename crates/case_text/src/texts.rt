// Octets by their names.
use mdbox_base::NoMemory;
use std::alloc::Global;

/// Octets with a name.
#[derive(Drop)]
struct Text {
    name: String,
    octets: Vec<u8>,
}

/// The octets that lines have named.
#[derive(Drop)]
pub struct Texts {
    alloc: Global,
    texts: Vec<Text>,
}

impl Texts {
    pub fn empty(alloc: Global) -> Texts {
        Texts {
            alloc,
            texts: Vec::new(alloc),
        }
    }

    pub(crate) fn alloc(&self) -> Global {
        self.alloc
    }

    /// The octets with this name.
    pub fn find(&self, name: &str) -> Option<&[u8]> {
        for text in &self.texts {
            if text.name.as_str() == name {
                return Some(text.octets.as_slice());
            }
        }
        None
    }

    /// The first name of these octets.
    pub fn name_of(&self, octets: &[u8]) -> Option<&str> {
        for text in &self.texts {
            if text.octets.as_slice() == octets {
                return Some(text.name.as_str());
            }
        }
        None
    }

    /// Names octets. Those that had the name lose it.
    pub fn set(&mut self, name: &str, octets: Vec<u8>) -> Result<(), NoMemory> {
        for text in self.texts.iter_mut() {
            if text.name.as_str() == name {
                text.octets = octets;
                return Ok(());
            }
        }
        let name = String::from_str(self.alloc, name)?;
        self.texts.push(Text { name, octets })?;
        Ok(())
    }

    /// Adds octets so many times to those with this name, of which there may be none.
    pub fn add(&mut self, name: &str, octets: &[u8], count: u64) -> Result<(), NoMemory> {
        for text in self.texts.iter_mut() {
            if text.name.as_str() == name {
                return push_times(&mut text.octets, octets, count);
            }
        }
        let mut whole = Vec::new(self.alloc);
        push_times(&mut whole, octets, count)?;
        self.set(name, whole)
    }
}

fn push_times(whole: &mut Vec<u8>, octets: &[u8], count: u64) -> Result<(), NoMemory> {
    for _ in 0..count {
        whole.extend_from_slice(octets)?;
    }
    Ok(())
}
