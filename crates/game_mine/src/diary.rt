//! A listener that writes down what its player sees.
use std::alloc::{AllocError, Global};
use sv_pilot::Listener;
use sv_world::{ObjectId, Value};

#[derive(Drop)]
pub struct Diary {
    alloc: Global,
    name: &'static str,
    text: String,
}

impl Diary {
    pub fn new(alloc: Global, name: &'static str) -> Diary {
        Diary {
            alloc,
            name,
            text: String::new(alloc),
        }
    }

    pub fn into_text(self) -> String {
        let Diary { text, .. } = self;
        text
    }
}

fn name_of(object: ObjectId) -> &'static str {
    match object.0 {
        0 => "the mine",
        1 => "Ann's purse",
        _ => "Bob's purse",
    }
}

/// Whether something happened to an object: the mine is open, or a purse's owner dug.
fn is_touched(object: ObjectId, second: i64) -> bool {
    if object.0 == 0 {
        0 <= second
    } else {
        0 < second
    }
}

impl Listener for Diary {
    fn changed(&mut self, object: ObjectId, now: &Value) -> Result<(), AllocError> {
        let name = self.name;
        let what = name_of(object);
        if let [first, second] = now.as_slice()
            && is_touched(object, *second)
        {
            let line = format!(in self.alloc; "{name} sees {what}: {first} {second}\n")?;
            self.text.push_str(line.as_str())?;
        }
        Ok(())
    }
}
