//! A listener that writes down what it is told.
use std::alloc::{AllocError, Global};
use sv_pilot::Listener;
use sv_world::{ObjectId, Value};

/// For each call the object and its first number, as ` 0=10`. After so many calls it has no memory.
#[derive(Drop)]
pub struct Notes {
    alloc: Global,
    text: String,
    room: u32,
}

impl Notes {
    pub fn new(alloc: Global, room: u32) -> Notes {
        Notes {
            alloc,
            text: String::new(alloc),
            room,
        }
    }

    pub fn into_text(self) -> String {
        let Notes { text, .. } = self;
        text
    }
}

impl Listener for Notes {
    fn changed(&mut self, object: ObjectId, now: &Value) -> Result<(), AllocError> {
        if self.room == 0 {
            return Err(AllocError);
        }
        self.room -= 1;
        let number = object.0;
        if let [first, ..] = now.as_slice() {
            let note = format!(in self.alloc; " {number}={first}")?;
            self.text.push_str(note.as_str())?;
        }
        Ok(())
    }
}
