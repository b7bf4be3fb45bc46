ghost use Rattle.std.specs.Prelude.{◌≡◌, ◌≤◌, None};

use outside_io::Clock;
use std::rt;
use std::time::Instant;

/// Counts milliseconds from its first answer, which is 0, by the system's steady clock. It never goes back: where the
/// system has no time, it stands still.
#[derive(Drop)]
pub struct SteadyClock<'a, R: rt::Clock> {
    rt: &'a R,
    start: Option<Instant>,
    last: u64,
}

impl<'a, R: rt::Clock> SteadyClock<'a, R> {
    /// A clock that hasn't begun.
    pub fn new(rt: &'a R) -> Self
        ensures { result.last ≡ 0 }
    {
        SteadyClock {
            rt,
            start: None,
            last: 0,
        }
    }
}

impl<'a, R: rt::Clock> Clock for SteadyClock<'a, R> {
    ghost times = { λ _. None };

    fn now(&mut self) -> u64
        ensures later { self.old.last ≤ result }
        ensures last { self.new.last ≡ result }
    {
        if let Ok(now) = Instant::now(self.rt) {
            let start = self.start.unwrap_or(now);
            let passed = now.saturating_duration_since(start).as_millis();
            self.start = Some(start);
            self.last = self.last.max(u64::try_from(passed).unwrap_or(u64::MAX));
        }
        self.last
    }
}
