ghost use Rattle.std.specs.Prelude.{◌≡◌, List, [], ℕ, Option, Some};
ghost use Rattle.outside_io.specs.Telling.{Tells};
ghost use Rattle.outside_io.specs.Memory.{time_at, times_told};

/// The time in milliseconds. It may stand still or go back: whoever keeps a time takes the greater of it and the last.
pub trait Clock {
    /// All answers so far in order, where they are known.
    ghost times: { Self → Option (List ℕ) };

    /// The time now.
    fn now(&mut self) -> u64
        ensures told { Tells (times self.old) (times self.new) result };
}

/// A clock that answers the times of a list in order, and from then on the last of them; 0 where the list is empty.
#[derive(Debug, Drop)]
pub struct MemClock {
    times: Vec<u64>,
    calls: u64,
}

impl MemClock {
    /// A clock that answers these times.
    pub fn new(times: Vec<u64>) -> Self
        ensures times { result.times.items ≡ times.items }
        ensures none_told { times_told result ≡ Some [] }
    {
        MemClock { times, calls: 0 }
    }
}

impl Clock for MemClock {
    ghost times = { λ clock. times_told clock };

    #[tactic(auto, using(crate::proofs::Times::first_times_next))]
    fn now(&mut self) -> u64
        ensures told { Tells (times_told self.old) (times_told self.new) result }
        ensures time { result ≡ time_at self.old.times.items self.old.calls }
        ensures given { self.new.times ≡ self.old.times }
    {
        let call = self.calls;
        self.calls = call.saturating_add(1);
        if call < self.times.len() as u64 {
            return self.times[call as usize];
        }
        match self.times.last() {
            Some(time) => *time,
            None => 0,
        }
    }
}
