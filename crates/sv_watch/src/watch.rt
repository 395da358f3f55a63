//! A stored callback that tells changes.
ghost use Rattle.std.specs.Prelude.{◌≡◌, ◌++◌, map, take, length, vec_len, OnOk, OnErr, All};
ghost use Rattle.std.specs.Result.{ForOk};
ghost use Rattle.sv_watch.specs.Told.{change_line, IsChangeIn};

use crate::{Change, Line};
use std::alloc::AllocError;
use sv_world::Shape;

/// What makes the line of a change.
pub type Callback = Box<dyn Fn(&Change) -> Result<Line, AllocError> + Send + Sync>;

/// A stored callback, beside the fact that it makes the stated line of each change in worlds of the shape.
#[derive(Drop)]
pub struct Watch {
    shape: Shape,
    callback: Callback,
    ghost callable: { (c : _) → IsChangeIn shape c.now → Callback.pre callback c },
    ghost tells: { (c : _) (r : _) → IsChangeIn shape c.now → Callback.post callback c r → ForOk r (λ line. line ≡ change_line c.now) },
}

impl Watch {
    /// Keeps a callback that may be called at each change in worlds of the shape, and makes the stated line of it.
    pub fn new(shape: Shape, callback: Callback) -> Watch
        requires callable { (c : _) → IsChangeIn shape c.now → Callback.pre callback c }
        requires tells { (c : _) (r : _) → IsChangeIn shape c.now → Callback.post callback c r → ForOk r (λ line. line ≡ change_line c.now) }
        ensures { result.shape ≡ shape }
    {
        Watch { shape, callback }
    }

    /// Appends one line for each change, in order.
    pub fn tell(&self, changes: &[Change], lines: &mut Vec<Line>) -> Result<(), AllocError>
        requires { All (IsChangeIn self.now.shape) changes.now }
        ensures ok { OnOk result (lines.new.items ≡ lines.old.items ++ map change_line changes.now) }
        ensures err { OnErr result (lines.new.items ≡ lines.old.items) }
    {
        let count = lines.len();
        let result = self.tell_each(changes, lines);
        if result.is_err() {
            lines.truncate(count);
        }
        result
    }

    // Leaves the lines told so far where memory ends.
    fn tell_each(&self, changes: &[Change], lines: &mut Vec<Line>) -> Result<(), AllocError>
        requires { All (IsChangeIn self.now.shape) changes.now }
        ensures ok { OnOk result (lines.new.items ≡ lines.old.items ++ map change_line changes.now) }
        ensures front { take (vec_len lines.old) lines.new.items ≡ lines.old.items }
    {
        for change in changes {
            lines.push(self.line_of(change)?)?;
        }
        Ok(())
    }

    fn line_of(&self, change: &Change) -> Result<Line, AllocError>
        requires { IsChangeIn self.now.shape change.now }
        ensures { ForOk result (λ line. line ≡ change_line change.now) }
    {
        (self.callback)(change)
    }
}
