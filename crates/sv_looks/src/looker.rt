//! A stored callback that tells snapshots.
ghost use Rattle.std.specs.Prelude.{◌≡◌, ◌++◌, map, take, vec_len, OnOk, OnErr, All};
ghost use Rattle.std.specs.Result.{ForOk};
ghost use Rattle.sv_looks.specs.Cuts.{IsShaped};
ghost use Rattle.sv_looks.specs.Lines.{look_line};

use crate::snapshot::Snapshot;
use std::alloc::AllocError;
use sv_watch::Line;
use sv_world::Shape;

/// What makes the line of a snapshot.
pub type Callback = Box<dyn Fn(&Snapshot) -> Result<Line, AllocError>>;

/// A stored callback, beside the fact that it makes the stated line of each snapshot of a world of the shape.
#[derive(Drop)]
pub struct Looker {
    shape: Shape,
    callback: Callback,
    ghost callable: { (s : _) → IsShaped shape s.now → Callback.pre callback s },
    ghost tells: { (s : _) (r : _) → IsShaped shape s.now → Callback.post callback s r → ForOk r (λ line. line ≡ look_line s.now) },
}

impl Looker {
    /// Keeps a callback that may be called at each snapshot of a world of the shape, and makes the stated line of it.
    pub fn new(shape: Shape, callback: Callback) -> Looker
        requires callable { (s : _) → IsShaped shape s.now → Callback.pre callback s }
        requires tells { (s : _) (r : _) → IsShaped shape s.now → Callback.post callback s r → ForOk r (λ line. line ≡ look_line s.now) }
        ensures { result.shape ≡ shape }
    {
        Looker { shape, callback }
    }

    /// Appends one line for each snapshot, in order, and nothing where memory runs out.
    pub fn tell(&self, snapshots: &[Snapshot], lines: &mut Vec<Line>) -> Result<(), AllocError>
        requires { All (IsShaped self.now.shape) snapshots.now }
        ensures ok { OnOk result (lines.new.items ≡ lines.old.items ++ map look_line snapshots.now) }
        ensures err { OnErr result (lines.new.items ≡ lines.old.items) }
    {
        let count = lines.len();
        let result = self.tell_each(snapshots, lines);
        if result.is_err() {
            lines.truncate(count);
        }
        result
    }

    // Leaves the lines told so far where memory ends.
    fn tell_each(&self, snapshots: &[Snapshot], lines: &mut Vec<Line>) -> Result<(), AllocError>
        requires { All (IsShaped self.now.shape) snapshots.now }
        ensures ok { OnOk result (lines.new.items ≡ lines.old.items ++ map look_line snapshots.now) }
        ensures front { take (vec_len lines.old) lines.new.items ≡ lines.old.items }
    {
        for snapshot in snapshots {
            lines.push(self.line_of(snapshot)?)?;
        }
        Ok(())
    }

    fn line_of(&self, snapshot: &Snapshot) -> Result<Line, AllocError>
        requires { IsShaped self.now.shape snapshot.now }
        ensures { ForOk result (λ line. line ≡ look_line snapshot.now) }
    {
        (self.callback)(snapshot)
    }
}
