//! What is noted of puts, so that they can be taken back.
use std::alloc::Global;
use std::marker::Model;
use sv_world::{ObjectId, Value};

/// What a put changed: at this position of the object another value stood before, or none.
#[derive(Debug, Drop)]
pub struct Replaced {
    pub object: ObjectId,
    pub pos: u32,
    pub was: Option<Value>,
}

/// What the puts of an attempt changed, so that all of them can be taken back.
///
/// Contracts see the changes, the latest first.
#[derive(Debug, Drop)]
pub struct Undo {
    pub(crate) changes: Vec<Replaced>,
}

impl Model for Undo {
    ghost use Rattle.std.specs.Prelude.{List, reverse};
    ghost use Rattle.sv_versions.specs.declared.undo.Replaced.{Replaced};

    ghost Value = { List Replaced };

    ghost view = { λ u. reverse u.changes.items };
}

impl Undo {
    ghost use Rattle.std.specs.Prelude.{◌≡◌, []};

    /// Nothing was changed yet.
    pub fn new(alloc: Global) -> Undo
        ensures { result ≡ [] }
    {
        Undo {
            changes: Vec::new(alloc),
        }
    }
}
