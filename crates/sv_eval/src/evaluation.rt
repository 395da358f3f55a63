//! The evaluation of an action on the values of its reads.
ghost use Rattle.std.specs.Prelude.{◌≡◌, ℕ, IfOk, All, length};
ghost use Rattle.sv_world.specs.Sets.{at_mask, write_set};
ghost use Rattle.sv_eval.specs.Evaluation.{effect_of};

use crate::Effect;
use crate::run::run_body;
use std::alloc::{AllocError, Global};
use sv_lists::List;
use sv_world::{Action, Value, copy_value, copy_values, is_in_mask};

/// The result of an action on one value for each of its reads.
///
/// Slots and attributes beyond the values are read as 0, and setting them does nothing.
pub fn eval(alloc: Global, action: &Action, values: &[Value]) -> Result<Effect, AllocError>
    ensures exact { IfOk result (λ effect. effect ≡ effect_of action.now values.now) }
    ensures shaped { (attrs : ℕ) → All (λ value. length value ≡ attrs) values.now → IfOk result (λ effect. All (λ value. length value ≡ attrs) effect.writes) }
    ensures counted { length values.now ≡ length action.now.reads → IfOk result (λ effect. length effect.writes ≡ length (write_set action.now)) }
{
    let effect = evaluate(alloc, action, values)?;
    Ok(effect)
}

#[tactic(auto, unfolding(crate::specs::Evaluation::effect_of))]
fn evaluate(alloc: Global, action: &Action, values: &[Value]) -> Result<Effect, AllocError>
    ensures { IfOk result (λ effect. effect ≡ effect_of action.now values.now) }
{
    let mut slots = copy_values(alloc, values)?.into_vec();
    if run_body(&action.body, slots.as_mut_slice()) {
        let writes = take_masked(alloc, action.mask, slots)?;
        Ok(Effect {
            void: false,
            writes,
        })
    } else {
        let writes = copy_masked(alloc, action.mask, values)?;
        Ok(Effect { void: true, writes })
    }
}

/// Copies of the values at the slots in the mask.
fn copy_masked(alloc: Global, mask: u16, values: &[Value]) -> Result<List<Value>, AllocError>
    ensures { IfOk result (λ copies. copies ≡ at_mask mask 0 values.now) }
{
    let mut copies = List::new(alloc);
    for (slot, value) in values.iter().enumerate() {
        if is_in_mask(mask, slot) {
            copies.push(copy_value(alloc, value)?)?;
        }
    }
    Ok(copies)
}

/// The values at the slots in the mask, out of all.
fn take_masked(alloc: Global, mask: u16, slots: Vec<Value>) -> Result<List<Value>, AllocError>
    ensures { IfOk result (λ taken. taken ≡ at_mask mask 0 slots.items) }
{
    let mut taken = List::new(alloc);
    for (place, value) in slots.into_iter().enumerate() {
        if is_in_mask(mask, place) {
            taken.push(value)?;
        }
    }
    Ok(taken)
}
