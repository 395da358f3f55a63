//! The store of all versions.
ghost use Rattle.std.specs.Prelude.{◌≡◌, ℕ, [], ◌∷◌, ◌++◌, ◌<◌, ◌≤◌, option_copied, IfOk, OnOk, OnErr};
ghost use Rattle.sv_versions.specs.Held.{read_below, latest, put_in, pruned, restored, count_up_to, AnswersAbove};
ghost use Rattle.sv_versions.specs.Undone.{undone};

use crate::crowded::{keep_crowded, list_object, prune_each};
use crate::history::History;
use crate::undo::{Replaced, Undo};
use std::alloc::{AllocError, Global};
use std::marker::Model;
use sv_world::{ObjectId, Shape, Value};

/// The values of a world's objects at positions.
///
/// Contracts see the shape and the list of the values held, by object and by position. An object has one value at a position.
#[derive(Debug, Drop)]
pub struct Versions {
    alloc: Global,
    shape: Shape,
    histories: Vec<History>,
    /// The objects that may have more than one version, so that a pruning looks at no other.
    crowded: Vec<ObjectId>,
}

impl Model for Versions {
    ghost use Rattle.sv_versions.specs.Held.{Store};

    ghost Value = { Store };

    ghost use Rattle.sv_versions.specs.Histories.{flat, AreListed};
    ghost use Rattle.std.specs.Prelude.{◌≡◌, length};

    ghost view = { λ s. record { shape = s.shape; held = flat s.histories.items } };

    ghost invariant = { λ s. (length s.histories.items ≡ s.shape.objects) × AreListed s.crowded.items s.histories.items };
}

impl Versions {
    /// The store in which nothing is held.
    pub fn new(alloc: Global, shape: Shape) -> Result<Versions, AllocError>
        ensures { IfOk result (λ versions. versions ≡ record { shape = shape; held = [] }) }
    {
        let count = shape.objects as usize;
        let mut histories = Vec::with_capacity(alloc, count)?;
        for _ in 0..count {
            histories.push(History::new(alloc))?;
        }
        Ok(Versions {
            alloc,
            shape,
            histories,
            crowded: Vec::new(alloc),
        })
    }

    pub fn shape(&self) -> Shape
        ensures { result ≡ self.now.shape }
    {
        self.shape
    }

    /// Where its memory comes from.
    pub fn alloc(&self) -> Global {
        self.alloc
    }

    /// The value of an object at the greatest position below one, and `None` where none is held there.
    pub fn read_below(&self, object: ObjectId, pos: u32) -> Option<&Value>
        requires { object.0 < self.now.shape.objects }
        ensures { option_copied result ≡ read_below self.now.held object.0 pos }
    {
        let history = &self.histories[object.0 as usize];
        history.below(pos)
    }

    /// The value of an object at its greatest position, and `None` where none is held.
    pub fn latest(&self, object: ObjectId) -> Option<&Value>
        requires { object.0 < self.now.shape.objects }
        ensures { option_copied result ≡ latest self.now.held object.0 }
    {
        let history = &self.histories[object.0 as usize];
        history.latest()
    }

    /// How many values of an object stand at or below a position.
    pub fn old_versions(&self, object: ObjectId, commit: u32) -> usize
        requires { object.0 < self.now.shape.objects }
        ensures { result ≡ count_up_to self.now.held object.0 commit }
    {
        let history = &self.histories[object.0 as usize];
        history.old_versions(commit)
    }

    /// Holds one more value, in place of the one that the object had at this position.
    pub fn put(&mut self, object: ObjectId, pos: u32, value: Value) -> Result<(), AllocError>
        requires { object.0 < self.old.shape.objects }
        ensures ok { OnOk result (self.new ≡ record self.old { held = put_in self.old.held (record { object = object.0; pos = pos; value = value }) }) }
        ensures answers { OnOk result ((told : ℕ) (all : _) → AnswersAbove told self.old.held all → AnswersAbove told self.new.held (all ++ record { object = object.0; pos = pos; value = value } ∷ [])) }
        ensures err { OnErr result (self.new ≡ self.old) }
    {
        self.replace(object, pos, value)?;
        Ok(())
    }

    /// Holds one more value, as `put` does, and notes what that changed.
    pub fn put_noted(
        &mut self,
        undo: &mut Undo,
        object: ObjectId,
        pos: u32,
        value: Value,
    ) -> Result<(), AllocError>
        requires { object.0 < self.old.shape.objects }
        ensures ok { OnOk result (self.new ≡ record self.old { held = put_in self.old.held (record { object = object.0; pos = pos; value = value }) }) }
        ensures answers { OnOk result ((told : ℕ) (all : _) → AnswersAbove told self.old.held all → AnswersAbove told self.new.held (all ++ record { object = object.0; pos = pos; value = value } ∷ [])) }
        ensures err { OnErr result (self.new ≡ self.old) }
        ensures undone { undone undo.new self.new.held ≡ undone undo.old self.old.held }
    {
        let was = self.replace(object, pos, value)?;
        if let Err(failed) = undo.changes.push(Replaced { object, pos, was }) {
            self.restore(failed.value);
            return Err(AllocError);
        }
        Ok(())
    }

    /// Takes back what was noted, the latest first. This takes no memory.
    pub fn undo(&mut self, undo: Undo)
        ensures { self.new ≡ record self.old { held = undone undo self.old.held } }
    {
        let mut undo = undo;
        while let Some(change) = undo.changes.pop() {
            self.restore(change);
        }
        self.unlist();
    }

    /// Forgets that objects with at most one version had more.
    fn unlist(&mut self)
        ensures { self.new ≡ self.old }
    {
        keep_crowded(&mut self.crowded, &self.histories);
    }

    fn restore(&mut self, change: Replaced)
        ensures { self.new ≡ record self.old { held = restored change.object.0 change.pos change.was self.old.held } }
    {
        let index = change.object.0 as usize;
        if index < self.histories.len() {
            let history = &mut self.histories[index];
            history.restore(change.pos, change.was);
        }
    }

    /// Holds one more value, and returns the one that the object had at this position.
    fn replace(
        &mut self,
        object: ObjectId,
        pos: u32,
        value: Value,
    ) -> Result<Option<Value>, AllocError>
        requires { object.0 < self.old.shape.objects }
        ensures ok { OnOk result (self.new ≡ record self.old { held = put_in self.old.held (record { object = object.0; pos = pos; value = value }) }) }
        ensures answers { OnOk result ((told : ℕ) (all : _) → AnswersAbove told self.old.held all → AnswersAbove told self.new.held (all ++ record { object = object.0; pos = pos; value = value } ∷ [])) }
        ensures undone { IfOk result (λ was. restored object.0 pos was self.new.held ≡ self.old.held) }
        ensures err { OnErr result (self.new ≡ self.old) }
    {
        let count = self.histories[object.0 as usize].len();
        list_object(&mut self.crowded, object, count)?;
        let history = &mut self.histories[object.0 as usize];
        history.put(pos, value)
    }

    /// Keeps, of each object's values at or below the commit, only the one at the greatest position.
    ///
    /// Looks only at the objects that may have more than one version.
    pub fn prune(&mut self, commit: u32)
        ensures kept { self.new ≡ record self.old { held = pruned commit self.old.held } }
        ensures answers { (told : ℕ) (all : _) → told ≤ commit → AnswersAbove told self.old.held all → AnswersAbove commit self.new.held all }
        ensures few { (x : ℕ) → count_up_to self.new.held x commit ≤ 1 }
    {
        prune_each(&mut self.histories, &self.crowded, commit);
        keep_crowded(&mut self.crowded, &self.histories);
    }

    /// A store that holds the same.
    pub fn copy(&self) -> Result<Versions, AllocError>
        ensures { IfOk result (λ copy. copy ≡ self.now) }
    {
        let mut histories = Vec::with_capacity(self.alloc, self.histories.len())?;
        for history in &self.histories {
            histories.push(history.copy(self.alloc)?)?;
        }
        Ok(Versions {
            alloc: self.alloc,
            shape: self.shape,
            histories,
            crowded: Vec::from_slice(self.alloc, &self.crowded)?,
        })
    }
}
