//! Actions, and the trees of their bodies.

use crate::{Body, Reads};
use sv_lists::{Boxed, List};

/// A number computed from the values that an action reads.
#[derive(Debug, Drop)]
pub enum Expr {
    Lit(i64),
    /// An attribute of the object in a slot, which is a place in the action's reads.
    Attr { slot: u8, attr: u8 },
    Add(Boxed<Expr>, Boxed<Expr>),
    Sub(Boxed<Expr>, Boxed<Expr>),
    Mul(Boxed<Expr>, Boxed<Expr>),
    Div(Boxed<Expr>, Boxed<Expr>),
    Rem(Boxed<Expr>, Boxed<Expr>),
    Min(Boxed<Expr>, Boxed<Expr>),
    Max(Boxed<Expr>, Boxed<Expr>),
}

/// A condition. Both sides of `And` and `Or` are always evaluated.
#[derive(Debug, Drop)]
pub enum Cond {
    Eq(Expr, Expr),
    Lt(Expr, Expr),
    Le(Expr, Expr),
    And(Boxed<Cond>, Boxed<Cond>),
    Or(Boxed<Cond>, Boxed<Cond>),
    Not(Boxed<Cond>),
}

/// A statement of an action's body.
#[derive(Debug, Drop)]
pub enum Stmt {
    Set {
        slot: u8,
        attr: u8,
        expr: Expr,
    },
    If {
        cond: Cond,
        then: List<Stmt>,
        other: List<Stmt>,
    },
}

/// A place in the plane, at which an action is made.
#[derive(Clone, Copy, Debug, Drop, PartialEq, Eq)]
pub struct Point {
    pub x: i32,
    pub y: i32,
}

/// A deterministic change of the objects that it reads.
///
/// `reads` are 1 to 16 objects, ascending; a slot is a place in it. Bit `k` of `mask`, of weight `2^k`, says that the object in slot
/// `k` may be written. Statements run in order, and each sees what the earlier ones set. The body is shared, so that a copy of an action
/// takes memory only for more than eight reads.
#[derive(Debug, Drop)]
pub struct Action {
    pub reads: Reads,
    pub mask: u16,
    pub origin: Point,
    pub body: Body,
}
