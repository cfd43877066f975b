// The system's clock.
ghost use Rattle.std.specs.Prelude.{None, Ok, ◌≡◌, ◌↔◌, ◌<◌, ◌≤◌, ◌/◌, IsTrue, IsOk, IsErr, IfOk};
ghost use Rattle.std.specs.Duration.{as_nanos};
ghost use Rattle.mdbox_base.specs.Streams.{next_count};

use mdbox_base::{Clock, ClockFault};
use std::io;
use std::time::{Duration, SystemTime};

/// The system's clock. A call that the system fails is counted, and so is a time before 1970.
#[derive(Drop)]
pub struct StdClock {
    rt: HostRuntime,
    faults: u64,
}

impl StdClock {
    /// A clock whose count of faults is 0.
    pub fn of(rt: HostRuntime) -> StdClock
        ensures { ⟦<StdClock as Clock>⟧.faults result ≡ 0 }
    {
        StdClock { rt, faults: 0 }
    }

    /// Whether a call has failed.
    pub fn has_failed(&self) -> bool
        ensures { IsTrue result ↔ 0 < self.now.faults }
    {
        self.faults > 0
    }

    /// The whole seconds of what the system answers. Errors are counted.
    fn told(&mut self, answer: io::Result<Duration>) -> Result<u64, ClockFault>
        ensures value { IfOk answer (λ time. result ≡ Ok (as_nanos time / 1000000000)) }
        ensures failed { IsErr result ↔ IsErr answer }
        ensures risen { IsErr result → self.new.faults ≡ next_count self.old.faults }
        ensures same { IsOk result → self.new.faults ≡ self.old.faults }
        ensures counted { self.old.faults ≤ self.new.faults }
    {
        match answer {
            Ok(time) => Ok(time.as_secs()),
            Err(_) => {
                self.faults = self.faults.saturating_add(1);
                Err(ClockFault)
            }
        }
    }
}

impl Clock for StdClock {
    ghost time = { λ _. None };

    ghost faults = { λ clock. clock.faults };

    fn now(&mut self) -> Result<u64, ClockFault> {
        let answer = since_1970(&self.rt);
        self.told(answer)
    }
}

/// The time since the beginning of 1970.
fn since_1970(rt: &HostRuntime) -> io::Result<Duration> {
    match SystemTime::now(rt)?.duration_since(SystemTime::UNIX_EPOCH) {
        Ok(time) => Ok(time),
        Err(_) => Err(io::ErrorKind::InvalidData.into()),
    }
}
