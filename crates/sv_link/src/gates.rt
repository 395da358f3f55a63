//! Gates, by which tests hold a session's request up until another session's comes.
ghost use Rattle.std.specs.Prelude.{◌≡◌, IsTrue, ◌↔◌};

use std::sync::atomic::{AtomicBool, Ordering};
use std::thread;

/// A place that each request passes between its being taken and its step.
///
/// The server's own gate does nothing. A test's may make two requests wait for each other, which shows that their sessions run at once.
pub trait Gate {
    /// The request of this number in its session, from 1, is to be stepped next.
    fn pass(&self, session: u16, turn: u32);
}

/// The server's gate: every request passes at once.
#[derive(Drop)]
pub struct OpenGate;

impl Gate for OpenGate {
    fn pass(&self, _session: u16, _turn: u32) {}
}

// How often a call looks for the other before it gives up.
const MEETING_LOOKS: u32 = 1_000_000;

// One of the two calls that wait for each other.
#[derive(Drop)]
struct Meeting {
    session: u16,
    turn: u32,
    came: AtomicBool,
    saw: AtomicBool,
}

impl Meeting {
    fn new(session: u16, turn: u32) -> Meeting
        ensures { (result.session ≡ session) × (result.turn ≡ turn) }
    {
        Meeting {
            session,
            turn,
            came: AtomicBool::new(false),
            saw: AtomicBool::new(false),
        }
    }

    fn is(&self, session: u16, turn: u32) -> bool
        ensures { IsTrue result ↔ (self.now.session ≡ session) × (self.now.turn ≡ turn) }
    {
        self.session == session && self.turn == turn
    }

    // Comes, and looks for the other. Whether it saw it.
    fn sees(&self, other: &Meeting) -> bool {
        self.came.store(true, Ordering::SeqCst);
        for _ in 1..MEETING_LOOKS {
            if other.came.load(Ordering::SeqCst) {
                return true;
            }
            thread::yield_now();
        }
        other.came.load(Ordering::SeqCst)
    }
}

/// A gate at which two requests wait for each other. All others pass at once.
///
/// Each of the two looks for the other at most 1,000,000 times, and lets other threads run between two looks. Then it gives up. So where
/// one thread makes both calls, one after the other, the first of them gives up.
#[derive(Drop)]
pub struct HoldGate {
    held: Meeting,
    other: Meeting,
    gave_up: AtomicBool,
}

impl HoldGate {
    /// The request `turn` of the session `held`, and the request `other_turn` of the session `other`, are to meet.
    pub fn new(held: u16, turn: u32, other: u16, other_turn: u32) -> HoldGate {
        HoldGate {
            held: Meeting::new(held, turn),
            other: Meeting::new(other, other_turn),
            gave_up: AtomicBool::new(false),
        }
    }

    /// Whether both came and each saw the other.
    pub fn met(&self) -> bool {
        self.held.saw.load(Ordering::SeqCst) && self.other.saw.load(Ordering::SeqCst)
    }

    /// Whether one gave up.
    pub fn gave_up(&self) -> bool {
        self.gave_up.load(Ordering::SeqCst)
    }

    fn meet(&self, me: &Meeting, other: &Meeting) {
        if me.sees(other) {
            me.saw.store(true, Ordering::SeqCst);
        } else {
            self.gave_up.store(true, Ordering::SeqCst);
        }
    }
}

impl Gate for HoldGate {
    fn pass(&self, session: u16, turn: u32) {
        if self.held.is(session, turn) {
            self.meet(&self.held, &self.other);
        } else if self.other.is(session, turn) {
            self.meet(&self.other, &self.held);
        }
    }
}
