// Calls that are to fail.
ghost use Rattle.std.specs.Prelude.{◌≡◌, ◌||◌};
ghost use Rattle.disk_mem.specs.Numbers.{fails_call, fails_write, is_listed, counted, counted_write};

use mdbox_base::Seq;

/// The numbers of calls that are to fail, of all and of writes alone, and how many there were since the list was made.
#[derive(Drop)]
pub struct Plan {
    pub calls: Seq<u64>,
    pub call: u64,
    pub writes: Seq<u64>,
    pub write: u64,
}

impl Plan {
    /// Counts a call. True where it is to fail.
    pub fn count(&mut self) -> bool
        ensures listed { result ≡ fails_call self.old }
        ensures counted { self.new ≡ counted self.old }
    {
        self.call = self.call.saturating_add(1);
        is_among(self.calls.as_slice(), self.call)
    }

    /// Counts a write. True where it is to fail.
    pub fn count_write(&mut self) -> bool
        ensures listed { result ≡ fails_write self.old }
        ensures counted { self.new ≡ counted_write self.old }
    {
        self.call = self.call.saturating_add(1);
        self.write = self.write.saturating_add(1);
        is_among(self.calls.as_slice(), self.call) || is_among(self.writes.as_slice(), self.write)
    }
}

fn is_among(numbers: &[u64], number: u64) -> bool
    ensures { result ≡ is_listed numbers.now number }
{
    numbers.iter().any(|n| *n == number)
}
