//! The clock of the system.
use std::rt::Clock as System;
use std::time::Instant;
use sv_ports::Clock;

/// The system's clock.
#[derive(Drop)]
pub struct OsClock<'r, R: System> {
    rt: &'r R,
    start: Option<Instant>,
    last: u64,
}

impl<'r, R: System> OsClock<'r, R> {
    /// It counts from now on.
    pub fn new(rt: &'r R) -> OsClock<'r, R> {
        OsClock {
            rt,
            start: Instant::now(rt).ok(),
            last: 0,
        }
    }
}

impl<'r, R: System> Clock for OsClock<'r, R> {
    // Where the system fails to tell, it is the time that was told last.
    fn now(&mut self) -> u64 {
        if let Some(start) = &self.start {
            if let Ok(passed) = start.elapsed(self.rt) {
                self.last = passed
                    .as_secs()
                    .saturating_mul(1000)
                    .saturating_add(u64::from(passed.subsec_millis()));
            }
        }
        self.last
    }
}
