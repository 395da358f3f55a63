//! Bodies of many statements and of many levels, made of trees.
use std::alloc::{AllocError, Global};
use sv_lists::{Boxed, List};
use sv_world::{Body, Cond, Expr, Stmt, has_short_blocks};

/// What a body is made of. A statement that sets a number to a literal has two nodes.
#[derive(Clone, Copy)]
pub enum Built {
    /// So many statements that set the first number to 7.
    Sets(u16),
    /// An empty `if` with so many negations of its comparison, and so many statements behind it.
    Negated(u8, u16),
    /// So many `if` in one another, each in the first block of the one before it, and a statement in the last. A statement that sets the
    /// number to 8 stands in each block that does not run.
    Nested(u8),
    /// The same, each in the second block.
    Chained(u8),
    /// A statement that sets the first number to 1 after so many additions of 1, one in the other.
    Sums(u8),
}

/// The body of these statements, where nodes can hold them.
pub fn flat(alloc: Global, stmts: &[Stmt]) -> Result<Body, AllocError> {
    if !has_short_blocks(stmts) {
        return Err(AllocError);
    }
    Body::from_stmts(alloc, stmts)
}

pub fn stmts_of(alloc: Global, built: Built) -> Result<List<Stmt>, AllocError> {
    match built {
        Built::Sets(count) => sets(alloc, count),
        Built::Negated(count, behind) => negated(alloc, count, behind),
        Built::Nested(count) => nested(alloc, count, false),
        Built::Chained(count) => nested(alloc, count, true),
        Built::Sums(count) => one(alloc, sum(alloc, count)?),
    }
}

pub fn body_of(alloc: Global, built: Built) -> Result<Body, AllocError> {
    let stmts = stmts_of(alloc, built)?;
    let body = flat(alloc, stmts.as_slice());
    drop(stmts);
    body
}

/// A statement that sets the first number.
fn one(alloc: Global, expr: Expr) -> Result<List<Stmt>, AllocError> {
    let mut stmts = List::new(alloc);
    stmts.push(Stmt::Set {
        slot: 0,
        attr: 0,
        expr,
    })?;
    Ok(stmts)
}

fn put_sets(stmts: &mut List<Stmt>, count: u16) -> Result<(), AllocError> {
    for _ in 0..count {
        stmts.push(Stmt::Set {
            slot: 0,
            attr: 0,
            expr: Expr::Lit(7),
        })?;
    }
    Ok(())
}

fn sets(alloc: Global, count: u16) -> Result<List<Stmt>, AllocError> {
    let mut stmts = List::new(alloc);
    put_sets(&mut stmts, count)?;
    Ok(stmts)
}

fn negated_cond(alloc: Global, count: u8) -> Result<Cond, AllocError> {
    let mut cond = Cond::Eq(Expr::Lit(1), Expr::Lit(2));
    for _ in 0..count {
        cond = Cond::Not(Boxed::new(alloc, cond)?);
    }
    Ok(cond)
}

fn negated(alloc: Global, count: u8, behind: u16) -> Result<List<Stmt>, AllocError> {
    let cond = negated_cond(alloc, count)?;
    let mut stmts = List::new(alloc);
    stmts.push(Stmt::If {
        cond,
        then: List::new(alloc),
        other: List::new(alloc),
    })?;
    put_sets(&mut stmts, behind)?;
    Ok(stmts)
}

/// An `if` that runs its first or its second block.
fn choice(run: List<Stmt>, passed: List<Stmt>, in_second: bool) -> Stmt {
    if in_second {
        let cond = Cond::Eq(Expr::Lit(1), Expr::Lit(2));
        return Stmt::If {
            cond,
            then: passed,
            other: run,
        };
    }
    let cond = Cond::Eq(Expr::Lit(1), Expr::Lit(1));
    Stmt::If {
        cond,
        then: run,
        other: passed,
    }
}

/// These statements in a block that an `if` runs.
pub fn around(alloc: Global, run: List<Stmt>, in_second: bool) -> Result<List<Stmt>, AllocError> {
    let passed = one(alloc, Expr::Lit(8))?;
    let mut stmts = List::new(alloc);
    stmts.push(choice(run, passed, in_second))?;
    Ok(stmts)
}

fn nested(alloc: Global, count: u8, in_second: bool) -> Result<List<Stmt>, AllocError> {
    let mut stmts = sets(alloc, 1)?;
    for _ in 0..count {
        stmts = around(alloc, stmts, in_second)?;
    }
    Ok(stmts)
}

fn one_more(alloc: Global, expr: Expr) -> Result<Expr, AllocError> {
    let left = Boxed::new(alloc, expr)?;
    let right = Boxed::new(alloc, Expr::Lit(1))?;
    Ok(Expr::Add(left, right))
}

fn sum(alloc: Global, count: u8) -> Result<Expr, AllocError> {
    let mut expr = Expr::Lit(1);
    for _ in 0..count {
        expr = one_more(alloc, expr)?;
    }
    Ok(expr)
}
