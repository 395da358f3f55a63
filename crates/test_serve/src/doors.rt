//! A door whose clients wrote all of their bytes before.
ghost use Rattle.std.specs.Prelude.{◌+◌, ◌≤◌};
ghost use Rattle.std.specs.Vec.{vec_len, vec_capacity};

use std::alloc::Global;
use std::marker::Model;
use sv_bytes::FaultCount;
use sv_door::{Door, EndMade};
use test_calls::ScriptEnd;

/// What a client sends before it closes, and the call of the server's end that fails, by its number from 1. Where this is 0 none fails.
#[derive(Clone, Copy, Debug, Drop)]
pub struct Script {
    pub coming: &'static [u8],
    pub failing: u64,
}

/// An end that was given back.
#[derive(Drop)]
struct Returned {
    end: ScriptEnd<'static>,
}

impl Model for Returned {
    ghost use Rattle.sv_door.specs.Doors.{Passage, passage_of};
    ghost use Rattle.test_calls.specs.Scripts.{told_of_script, faults_of_script};

    ghost Value = { Passage };

    ghost view = { λ r. passage_of (told_of_script r.end) (faults_of_script r.end) };
}

/// Gives an end for each script, in order. After these no connection can be made.
#[derive(Drop)]
pub struct ScriptDoor<'a> {
    alloc: Global,
    scripts: &'a [Script],
    given: Vec<Returned>,
    made: u64,
    owed: usize,
    pub faults: FaultCount,
    ghost room: { vec_len given + owed ≤ vec_capacity given },
}

impl<'a> ScriptDoor<'a> {
    pub fn new(alloc: Global, scripts: &'a [Script]) -> ScriptDoor<'a> {
        ScriptDoor {
            alloc,
            scripts,
            given: Vec::new(alloc),
            made: 0,
            owed: 0,
            faults: FaultCount::new(),
        }
    }
}

impl<'a> Door for ScriptDoor<'a> {
    type E = ScriptEnd<'static>;

    ghost given = { λ d. d.given.items };

    ghost made = { λ d. d.made };

    ghost owed = { λ d. d.owed };

    ghost faults = { λ d. d.faults.value };

    ghost sure = { λ d port. ⊥ };

    fn accept(&mut self, _port: u16) -> EndMade<ScriptEnd<'static>> {
        let Some(script) = self.scripts.first() else {
            self.faults.raise();
            return EndMade::Failed;
        };
        let Ok(end) = ScriptEnd::new(self.alloc, script.coming, script.failing, self.made) else {
            return EndMade::Memory;
        };
        let Some(owed) = self.owed.checked_add(1) else {
            return EndMade::Memory;
        };
        if self.made == u64::MAX || self.given.reserve(owed).is_err() {
            return EndMade::Memory;
        }
        self.scripts = &self.scripts[1..];
        self.made += 1;
        self.owed = owed;
        EndMade::End(end)
    }

    fn connect(&mut self, _port: u16) -> EndMade<ScriptEnd<'static>> {
        self.faults.raise();
        EndMade::Failed
    }

    fn give_back(&mut self, end: ScriptEnd<'static>) {
        self.owed -= 1;
        self.given.push_reserved(Returned { end });
    }
}
