//! Actions that were made, and the results that are kept for them.
ghost use Rattle.std.specs.Prelude.{◌≡◌, IfOk};

use std::alloc::{AllocError, Global};
use sv_lists::List;
use sv_world::{Action, Value, copy_action, copy_values};

/// An action that was made and is not settled yet, with the client's number for it.
#[derive(Debug, Drop)]
pub struct Made {
    pub seq: u32,
    pub action: Action,
}

/// The values that an action would give its written objects, in order, and `None` where what it reads is not all known.
pub type KeptValues = Option<List<Value>>;

pub fn copy_made(alloc: Global, made: &[Made]) -> Result<Vec<Made>, AllocError>
    ensures { IfOk result (λ copies. copies.items ≡ made.now) }
{
    let mut copies = Vec::with_capacity(alloc, made.len())?;
    for one in made {
        let action = copy_action(alloc, &one.action)?;
        copies.push(Made {
            seq: one.seq,
            action,
        })?;
    }
    Ok(copies)
}

pub fn copy_kept(alloc: Global, kept: &[KeptValues]) -> Result<Vec<KeptValues>, AllocError>
    ensures { IfOk result (λ copies. copies.items ≡ kept.now) }
{
    let mut copies = Vec::with_capacity(alloc, kept.len())?;
    for one in kept {
        copies.push(copy_result(alloc, one)?)?;
    }
    Ok(copies)
}

fn copy_result(alloc: Global, kept: &KeptValues) -> Result<KeptValues, AllocError>
    ensures { IfOk result (λ copy. copy ≡ kept.now) }
{
    match kept {
        None => Ok(None),
        Some(values) => Ok(Some(copy_values(alloc, values.as_slice())?)),
    }
}
