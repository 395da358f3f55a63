//! A clock.

/// Tells the time. No clause says what it shows.
pub trait Clock {
    /// Milliseconds since the start.
    fn now(&mut self) -> u64;
}

/// A clock for tests, which goes on by so many milliseconds at each look.
#[derive(Clone, Copy, Debug, Drop, PartialEq, Eq)]
pub struct MemClock {
    pub now: u64,
    pub pace: u64,
}

impl Clock for MemClock {
    fn now(&mut self) -> u64 {
        self.now = self.now.saturating_add(self.pace);
        self.now
    }
}
