// Octets of a file.
ghost use Rattle.std.specs.Prelude.{◌≡◌, ◌<◌, ◌≤◌, [], length, take, drop, OnOk, OnErr, IfOk, All};
ghost use Rattle.disk_model.specs.Disk.{overlaid};

use mdbox_base::NoMemory;
use std::alloc::Global;

/// Octets of a file, or those that a write put.
#[derive(Drop)]
pub struct Text {
    pub octets: Vec<u8>,
    pub ghost fit: { All (λ octet. octet < 256) octets.items },
}

impl Text {
    pub fn empty(alloc: Global) -> Text
        ensures { result.octets.items ≡ [] }
    {
        Text {
            octets: Vec::new(alloc),
        }
    }

    pub fn of(alloc: Global, octets: &[u8]) -> Result<Text, NoMemory>
        ensures { IfOk result (λ text. text.octets.items ≡ octets.now) }
    {
        let octets = octets.to_vec(alloc)?;
        Ok(Text { octets })
    }

    /// Lays octets over these from a place on, and behind their end.
    pub fn overlay(&mut self, at: usize, from: &[u8]) -> Result<(), NoMemory>
        requires { at ≤ length self.old.octets.items }
        ensures ok { OnOk result (self.new.octets.items ≡ overlaid self.old.octets.items at from.now) }
        ensures err { OnErr result (self.new.octets.items ≡ self.old.octets.items) }
    {
        let within = from.len().min(self.octets.len() - at);
        self.octets.extend_from_slice(&from[within..])?;
        self.octets[at..at + within].copy_from_slice(&from[..within]);
        Ok(())
    }

    /// Keeps the first of these.
    pub fn cut(&mut self, length: usize)
        ensures { self.new.octets.items ≡ take length self.old.octets.items }
    {
        self.octets.truncate(length);
    }

    /// Fills the front of `into` with these from a place on, so many at most, and tells how many.
    pub fn read(&self, from: u64, most: usize, into: &mut [u8]) -> usize
        requires { most ≤ length into.old }
        ensures count { result ≤ length into.new }
        ensures octets { take result into.new ≡ take result (drop from self.now.octets.items) }
        ensures some { 0 < most → from < length self.now.octets.items → 0 < result }
        ensures rest { drop result into.new ≡ drop result into.old }
    {
        let length = self.octets.len();
        let from = (from as usize).min(length);
        let count = most.min(length - from);
        into[..count].copy_from_slice(&self.octets[from..from + count]);
        count
    }
}
