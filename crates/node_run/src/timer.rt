ghost use Rattle.std.specs.Prelude.{◌≡◌, None};
ghost use Rattle.node_run.specs.Timing.{Timing, timed};

use std::marker::Model;

/// How long after a tick the next one is due, in milliseconds.
const PERIOD: u64 = 100;

/// The time so far, and that of the last tick, in milliseconds.
#[derive(Drop)]
pub struct Timer {
    time: u64,
    tick: Option<u64>,
}

impl Model for Timer {
    ghost use Rattle.node_run.specs.Timing.{Timing};

    ghost Value = { Timing };

    ghost view = { λ t. record { time = t.time; tick = t.tick } };
}

impl Timer {
    /// No time, and no tick yet.
    pub fn new() -> Timer
        ensures { result ≡ record { time = 0; tick = None } }
    {
        Timer {
            time: 0,
            tick: None,
        }
    }

    /// The greatest time that the clock has told.
    pub fn time(&self) -> u64
        ensures { result ≡ self.now.time }
    {
        self.time
    }

    /// Takes what the clock tells, and answers whether a tick is due, which then counts as done.
    pub fn is_due(&mut self, now: u64) -> bool
        ensures { (self.new, result) ≡ timed self.old now }
    {
        self.time = self.time.max(now);
        let due = match self.tick {
            None => true,
            Some(last) => self.time.saturating_sub(last) >= PERIOD,
        };
        if due {
            self.tick = Some(self.time);
        }
        due
    }
}
