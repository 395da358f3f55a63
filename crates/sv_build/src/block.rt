//! Statements, blocks of them, and bodies.
ghost use Rattle.std.specs.Prelude.{◌≡◌, List, [], ◌∷◌, ◌++◌, true, false, IfOk, OnOk, IsErrOf};
ghost use Rattle.sv_world.specs.declared.action.Stmt.{Stmt};
ghost use Rattle.sv_world.specs.declared.action.Stmt.TheVariants as stmts;
ghost use Rattle.sv_world.specs.Short.{has_short_blocks};

use crate::{Condition, Term};
use std::alloc::{AllocError, Global};
use sv_lists::List;
use sv_world::{Body, Stmt, has_short_blocks};
use thiserror::Error;

/// Statements, one after the other: a statement, a tuple of two to four blocks, or `()`, which has none.
pub trait Block: Copy {
    ghost statements: { Self → List Stmt };

    /// The statements behind those of a list.
    fn behind(self, alloc: Global, list: List<Stmt>) -> Result<List<Stmt>, AllocError>
        ensures { IfOk result (λ all. all ≡ list ++ statements self) };
}

fn list_of<B: Block>(alloc: Global, block: B) -> Result<List<Stmt>, AllocError>
    ensures { IfOk result (λ list. list ≡ B.statements block) }
{
    block.behind(alloc, List::new(alloc))
}

impl Block for () {
    ghost statements = { λ _. [] };

    fn behind(self, _alloc: Global, list: List<Stmt>) -> Result<List<Stmt>, AllocError> {
        Ok(list)
    }
}

impl<A: Block, B: Block> Block for (A, B) {
    ghost statements = { λ x. A.statements x.0 ++ B.statements x.1 };

    fn behind(self, alloc: Global, list: List<Stmt>) -> Result<List<Stmt>, AllocError> {
        let list = self.0.behind(alloc, list)?;
        self.1.behind(alloc, list)
    }
}

impl<A: Block, B: Block, C: Block> Block for (A, B, C) {
    ghost statements = { λ x. A.statements x.0 ++ B.statements x.1 ++ C.statements x.2 };

    fn behind(self, alloc: Global, list: List<Stmt>) -> Result<List<Stmt>, AllocError> {
        let list = (self.0, self.1).behind(alloc, list)?;
        self.2.behind(alloc, list)
    }
}

impl<A: Block, B: Block, C: Block, D: Block> Block for (A, B, C, D) {
    ghost statements = { λ x. A.statements x.0 ++ B.statements x.1 ++ C.statements x.2 ++ D.statements x.3 };

    fn behind(self, alloc: Global, list: List<Stmt>) -> Result<List<Stmt>, AllocError> {
        let list = (self.0, self.1, self.2).behind(alloc, list)?;
        self.3.behind(alloc, list)
    }
}

/// The statement that sets an attribute of the object in a slot.
#[derive(Clone, Copy)]
pub struct Setting<T> {
    slot: u8,
    attr: u8,
    value: T,
}

impl<T: Term> Block for Setting<T> {
    ghost statements = { λ s. stmts.Set s.slot s.attr (T.expr s.value) ∷ [] };

    fn behind(self, alloc: Global, list: List<Stmt>) -> Result<List<Stmt>, AllocError> {
        let Setting { slot, attr, value } = self;
        let mut list = list;
        let expr = value.expr(alloc)?;
        list.push(Stmt::Set { slot, attr, expr })?;
        Ok(list)
    }
}

/// The statement that runs one block where a condition holds, and else the other.
#[derive(Clone, Copy)]
pub struct Choice<C, A, B> {
    condition: C,
    then: A,
    other: B,
}

impl<C: Condition, A: Block, B: Block> Block for Choice<C, A, B> {
    ghost statements = { λ s. stmts.If (C.cond s.condition) (A.statements s.then) (B.statements s.other) ∷ [] };

    fn behind(self, alloc: Global, list: List<Stmt>) -> Result<List<Stmt>, AllocError> {
        let stmt = chosen(alloc, self)?;
        let mut list = list;
        list.push(stmt)?;
        Ok(list)
    }
}

fn chosen<C: Condition, A: Block, B: Block>(
    alloc: Global,
    choice: Choice<C, A, B>,
) -> Result<Stmt, AllocError>
    ensures { IfOk result (λ stmt. stmt ≡ stmts.If (C.cond choice.condition) (A.statements choice.then) (B.statements choice.other)) }
{
    let then = list_of(alloc, choice.then)?;
    let other = list_of(alloc, choice.other)?;
    choice_of(alloc, choice.condition, then, other)
}

fn choice_of<C: Condition>(
    alloc: Global,
    condition: C,
    then: List<Stmt>,
    other: List<Stmt>,
) -> Result<Stmt, AllocError>
    ensures { IfOk result (λ stmt. stmt ≡ stmts.If (C.cond condition) then other) }
{
    let cond = condition.cond(alloc)?;
    Ok(Stmt::If { cond, then, other })
}

/// Sets an attribute of the object in a slot.
pub fn set<T: Term>(slot: u8, attr: u8, value: T) -> Setting<T>
    ensures { result ≡ record { slot = slot; attr = attr; value = value } }
{
    Setting { slot, attr, value }
}

/// Runs one block where the condition holds, and else the other.
pub fn when<C: Condition, A: Block, B: Block>(condition: C, then: A, other: B) -> Choice<C, A, B>
    ensures { result ≡ record { condition = condition; then = then; other = other } }
{
    Choice {
        condition,
        then,
        other,
    }
}

/// Why a body was not made.
#[derive(Clone, Copy, Debug, Drop, PartialEq, Eq, Error)]
pub enum BuildError {
    #[error("a block has more than 255 statements")]
    LongBlock,

    #[error("out of memory")]
    Memory,
}

impl From<AllocError> for BuildError {
    ghost use Rattle.std.specs.Prelude.{◌≡◌};
    ghost use Rattle.sv_build.specs.declared.block.BuildError.TheVariants as errors;

    ghost from_gives = { λ _ e. e ≡ errors.Memory };

    fn from(_error: AllocError) -> BuildError {
        BuildError::Memory
    }
}

/// The body that has just these statements.
pub fn body_of<B: Block>(alloc: Global, block: B) -> Result<Body, BuildError>
    ensures built { IfOk result (λ body. body ≡ B.statements block) }
    ensures short { OnOk result (has_short_blocks (B.statements block) ≡ true) }
    ensures long { IsErrOf result BuildError.LongBlock → has_short_blocks (B.statements block) ≡ false }
{
    let statements = list_of(alloc, block)?;
    if !has_short_blocks(statements.as_slice()) {
        return Err(BuildError::LongBlock);
    }
    Ok(Body::from_stmts(alloc, statements.as_slice())?)
}
