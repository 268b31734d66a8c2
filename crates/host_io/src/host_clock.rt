//! The clock of the machine.
ghost use Rattle.std.specs.Prelude.{◌≡◌, [], false};

use node_io::Clock;
use std::time::{Clock as System, SystemTime, UNIX_EPOCH};

/// The system's clock, in milliseconds since 1970. Where the system gives no time, or one past the range of the
/// answer, the last answer is given again, or 0 before the first.
#[derive(Drop)]
pub struct HostClock<'a, R: System> {
    system: &'a R,
    last: u64,
}

impl<'a, R: System> HostClock<'a, R> {
    /// The clock of this system.
    pub fn new(system: &'a R) -> HostClock<'a, R>
        ensures { result.last ≡ 0 }
    {
        HostClock { system, last: 0 }
    }
}

// The milliseconds since 1970, where the system gives them.
fn milliseconds<R: System>(system: &R) -> Option<u64> {
    let now = SystemTime::now(system).ok()?;
    let since = now.duration_since(UNIX_EPOCH).ok()?;
    u64::try_from(since.as_millis()).ok()
}

impl<R: System> Clock for HostClock<'_, R> {
    ghost state = { λ c. record { observable = false; answers = []; last = c.last } };

    fn now(&mut self) -> u64 {
        if let Some(now) = milliseconds(self.system) {
            self.last = now;
        }
        self.last
    }
}
