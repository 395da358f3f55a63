//! Actions that are refused, one for each cause: in place of those that a log leaves out.
ghost use Rattle.std.specs.Prelude.{◌≡◌, ◌≤◌, pos, Some, IfOk};
ghost use Rattle.sv_world.specs.declared.action.Expr.TheVariants as expr;
ghost use Rattle.sv_world.specs.Faults.{first_fault_of_action};
ghost use Rattle.sv_entries.specs.Refused.{zeros, setting, single};

use std::alloc::{AllocError, Global};
use sv_lists::{Boxed, List};
use sv_world::{Action, BadAction, Body, Expr, ObjectId, Point, Reads, Shape, Stmt};

fn plus_zero(alloc: Global, sum: Expr) -> Result<Expr, AllocError>
    ensures { IfOk result (λ e. e ≡ expr.Add sum (expr.Lit (pos 0))) }
{
    let zero = Boxed::new(alloc, Expr::Lit(0))?;
    let sum = Boxed::new(alloc, sum)?;
    Ok(Expr::Add(sum, zero))
}

/// A sum of zeros, nested so deep.
fn zeros(alloc: Global, levels: u8) -> Result<Expr, AllocError>
    ensures { IfOk result (λ e. e ≡ zeros levels) }
{
    let mut sum = Expr::Lit(0);
    for _ in 0..levels {
        sum = plus_zero(alloc, sum)?;
    }
    Ok(sum)
}

#[tactic(auto, using(crate::proofs::Faulty::set_is_short))]
fn setting(alloc: Global, slot: u8, attr: u8, levels: u8) -> Result<Body, AllocError>
    ensures { IfOk result (λ body. body ≡ setting slot attr levels) }
{
    let expr = zeros(alloc, levels)?;
    let mut stmts = List::new(alloc);
    stmts.push(Stmt::Set { slot, attr, expr })?;
    Body::from_stmts(alloc, stmts.as_slice())
}

/// An action of one statement, which sets an attribute of a slot to a sum of zeros.
fn single(
    alloc: Global,
    reads: &[ObjectId],
    mask: u16,
    x: i32,
    target: (u8, u8),
    levels: u8,
) -> Result<Action, AllocError>
    ensures { IfOk result (λ a. a ≡ single reads.now mask x target.0 target.1 levels) }
{
    let reads = Reads::from_slice(alloc, reads)?;
    let body = setting(alloc, target.0, target.1, levels)?;
    Ok(Action {
        reads,
        mask,
        origin: Point { x, y: 0 },
        body,
    })
}

/// An action that is refused in a shape for a cause, and for none before it.
#[tactic(auto, using(crate::proofs::Faulty::no_reads, crate::proofs::Faulty::too_many_reads, crate::proofs::Faulty::not_ascending, crate::proofs::Faulty::no_such_object, crate::proofs::Faulty::bad_mask, crate::proofs::Faulty::bad_slot, crate::proofs::Faulty::not_writable, crate::proofs::Faulty::bad_attr, crate::proofs::Faulty::too_large, crate::proofs::Faulty::too_deep, crate::proofs::Faulty::bad_origin))]
pub fn bad_action(alloc: Global, shape: Shape, cause: BadAction) -> Result<Action, AllocError>
    requires objects { 1 ≤ shape.objects }
    requires attrs { 1 ≤ shape.attrs }
    ensures { IfOk result (λ a. first_fault_of_action shape a ≡ Some cause) }
{
    let first = ObjectId(0);
    let beyond = ObjectId(shape.objects);
    let many = [
        first, first, first, first, first, first, first, first, first, first, first, first, first,
        first, first, first, first,
    ];
    match cause {
        BadAction::NoReads => single(alloc, &[], 0, 0, (0, 0), 0),
        BadAction::TooManyReads => single(alloc, &many, 0, 0, (0, 0), 0),
        BadAction::NotAscending => single(alloc, &[first, first], 0, 0, (0, 0), 0),
        BadAction::NoSuchObject => single(alloc, &[beyond], 0, 0, (0, 0), 0),
        BadAction::BadMask => single(alloc, &[first], 2, 0, (0, 0), 0),
        BadAction::BadSlot => single(alloc, &[first], 1, 0, (1, 0), 0),
        BadAction::NotWritable => single(alloc, &[first], 0, 0, (0, 0), 0),
        BadAction::BadAttr => single(alloc, &[first], 1, 0, (0, shape.attrs), 0),
        BadAction::TooLarge => single(alloc, &[first], 1, 0, (0, 0), 32),
        BadAction::TooDeep => single(alloc, &[first], 1, 0, (0, 0), 8),
        BadAction::BadOrigin => single(alloc, &[first], 1, 1_000_001, (0, 0), 0),
    }
}
