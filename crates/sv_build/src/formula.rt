//! Numbers and conditions.
ghost use Rattle.std.specs.Prelude.{◌≡◌, IfOk};
ghost use Rattle.sv_world.specs.declared.action.Expr.{Expr};
ghost use Rattle.sv_world.specs.declared.action.Expr.TheVariants as exprs;
ghost use Rattle.sv_world.specs.declared.action.Cond.{Cond};
ghost use Rattle.sv_world.specs.declared.action.Cond.TheVariants as conds;
ghost use Rattle.sv_world.specs.declared.node.Operator.TheVariants as operators;
ghost use Rattle.sv_world.specs.declared.node.Comparison.TheVariants as comparisons;
ghost use Rattle.sv_world.specs.declared.node.Connective.TheVariants as connectives;
ghost use Rattle.sv_world.specs.Parts.{binary_by, compare_by, join_by};

use std::alloc::{AllocError, Global};
use std::ops::{Add, BitAnd, BitOr, Div, Mul, Not, Rem, Sub};
use sv_lists::Boxed;
use sv_world::{Comparison, Cond, Connective, Expr, Operator};

/// A number: an `i64`, or a formula of numbers.
pub trait Term: Copy {
    ghost expr: { Self → Expr };

    fn expr(self, alloc: Global) -> Result<Expr, AllocError>
        ensures { IfOk result (λ e. e ≡ expr self) };
}

/// A formula that holds or not.
pub trait Condition: Copy {
    ghost cond: { Self → Cond };

    fn cond(self, alloc: Global) -> Result<Cond, AllocError>
        ensures { IfOk result (λ c. c ≡ cond self) };
}

/// A number or a condition, with the operators of the language. In conditions `&`, `|` and `!` are its `and`, `or` and `not`.
#[derive(Clone, Copy)]
pub struct Formula<T>(T);

impl<T: Term> Term for Formula<T> {
    ghost expr = { λ f. T.expr f.0 };

    fn expr(self, alloc: Global) -> Result<Expr, AllocError> {
        self.0.expr(alloc)
    }
}

impl<T: Condition> Condition for Formula<T> {
    ghost cond = { λ f. T.cond f.0 };

    fn cond(self, alloc: Global) -> Result<Cond, AllocError> {
        self.0.cond(alloc)
    }
}

impl Term for i64 {
    ghost expr = { λ n. exprs.Lit n };

    fn expr(self, _alloc: Global) -> Result<Expr, AllocError> {
        Ok(Expr::Lit(self))
    }
}

/// An attribute of the object in a slot.
#[derive(Clone, Copy)]
pub struct Got {
    slot: u8,
    attr: u8,
}

impl Term for Got {
    ghost expr = { λ g. exprs.Attr g.slot g.attr };

    fn expr(self, _alloc: Global) -> Result<Expr, AllocError> {
        Ok(Expr::Attr {
            slot: self.slot,
            attr: self.attr,
        })
    }
}

/// Two parts under what joins them.
#[derive(Clone, Copy)]
pub struct Pair<O, A, B> {
    by: O,
    left: A,
    right: B,
}

impl<A: Term, B: Term> Term for Pair<Operator, A, B> {
    ghost expr = { λ p. binary_by p.by (A.expr p.left) (B.expr p.right) };

    fn expr(self, alloc: Global) -> Result<Expr, AllocError> {
        let a = Boxed::new(alloc, self.left.expr(alloc)?)?;
        let b = Boxed::new(alloc, self.right.expr(alloc)?)?;
        Ok(match self.by {
            Operator::Add => Expr::Add(a, b),
            Operator::Sub => Expr::Sub(a, b),
            Operator::Mul => Expr::Mul(a, b),
            Operator::Div => Expr::Div(a, b),
            Operator::Rem => Expr::Rem(a, b),
            Operator::Min => Expr::Min(a, b),
            Operator::Max => Expr::Max(a, b),
        })
    }
}

impl<A: Term, B: Term> Condition for Pair<Comparison, A, B> {
    ghost cond = { λ p. compare_by p.by (A.expr p.left) (B.expr p.right) };

    fn cond(self, alloc: Global) -> Result<Cond, AllocError> {
        let a = self.left.expr(alloc)?;
        let b = self.right.expr(alloc)?;
        Ok(match self.by {
            Comparison::Eq => Cond::Eq(a, b),
            Comparison::Lt => Cond::Lt(a, b),
            Comparison::Le => Cond::Le(a, b),
        })
    }
}

impl<A: Condition, B: Condition> Condition for Pair<Connective, A, B> {
    ghost cond = { λ p. join_by p.by (A.cond p.left) (B.cond p.right) };

    fn cond(self, alloc: Global) -> Result<Cond, AllocError> {
        let a = Boxed::new(alloc, self.left.cond(alloc)?)?;
        let b = Boxed::new(alloc, self.right.cond(alloc)?)?;
        Ok(match self.by {
            Connective::And => Cond::And(a, b),
            Connective::Or => Cond::Or(a, b),
        })
    }
}

/// The opposite of a condition.
#[derive(Clone, Copy)]
pub struct Negated<T>(T);

impl<T: Condition> Condition for Negated<T> {
    ghost cond = { λ c. conds.Not (T.cond c.0) };

    fn cond(self, alloc: Global) -> Result<Cond, AllocError> {
        Ok(Cond::Not(Boxed::new(alloc, self.0.cond(alloc)?)?))
    }
}

/// An attribute of the object in a slot, which is a place in the action's reads.
pub fn get(slot: u8, attr: u8) -> Formula<Got>
    ensures { result.0 ≡ record { slot = slot; attr = attr } }
{
    Formula(Got { slot, attr })
}

/// A number as a formula, for the left of an operator.
pub fn number(number: i64) -> Formula<i64>
    ensures { result.0 ≡ number }
{
    Formula(number)
}

impl<T> Formula<T> {
    fn with<O, B>(self, by: O, right: B) -> Formula<Pair<O, T, B>>
        ensures { result.0 ≡ record { by = by; left = self.0; right = right } }
    {
        Formula(Pair {
            by,
            left: self.0,
            right,
        })
    }
}

impl<T: Term> Formula<T> {
    /// The lesser of two numbers.
    pub fn min<B: Term>(self, right: B) -> Formula<Pair<Operator, T, B>>
        ensures { result.0 ≡ record { by = operators.Min; left = self.0; right = right } }
    {
        self.with(Operator::Min, right)
    }

    /// The greater of two numbers.
    pub fn max<B: Term>(self, right: B) -> Formula<Pair<Operator, T, B>>
        ensures { result.0 ≡ record { by = operators.Max; left = self.0; right = right } }
    {
        self.with(Operator::Max, right)
    }

    /// `==` of the language.
    pub fn eq<B: Term>(self, right: B) -> Formula<Pair<Comparison, T, B>>
        ensures { result.0 ≡ record { by = comparisons.Eq; left = self.0; right = right } }
    {
        self.with(Comparison::Eq, right)
    }

    /// `<` of the language.
    pub fn lt<B: Term>(self, right: B) -> Formula<Pair<Comparison, T, B>>
        ensures { result.0 ≡ record { by = comparisons.Lt; left = self.0; right = right } }
    {
        self.with(Comparison::Lt, right)
    }

    /// `<=` of the language.
    pub fn le<B: Term>(self, right: B) -> Formula<Pair<Comparison, T, B>>
        ensures { result.0 ≡ record { by = comparisons.Le; left = self.0; right = right } }
    {
        self.with(Comparison::Le, right)
    }
}

impl<T: Term, B: Term> Add<B> for Formula<T> {
    type Output = Formula<Pair<Operator, T, B>>;

    ghost add_gives = { λ a b sum. sum.0 ≡ record { by = operators.Add; left = a.0; right = b } };

    fn add(self, right: B) -> Formula<Pair<Operator, T, B>> {
        self.with(Operator::Add, right)
    }
}

impl<T: Term, B: Term> Sub<B> for Formula<T> {
    type Output = Formula<Pair<Operator, T, B>>;

    ghost sub_gives = { λ a b rest. rest.0 ≡ record { by = operators.Sub; left = a.0; right = b } };

    fn sub(self, right: B) -> Formula<Pair<Operator, T, B>> {
        self.with(Operator::Sub, right)
    }
}

impl<T: Term, B: Term> Mul<B> for Formula<T> {
    type Output = Formula<Pair<Operator, T, B>>;

    ghost mul_gives = { λ a b product. product.0 ≡ record { by = operators.Mul; left = a.0; right = b } };

    fn mul(self, right: B) -> Formula<Pair<Operator, T, B>> {
        self.with(Operator::Mul, right)
    }
}

impl<T: Term, B: Term> Div<B> for Formula<T> {
    type Output = Formula<Pair<Operator, T, B>>;

    ghost div_gives = { λ a b quotient. quotient.0 ≡ record { by = operators.Div; left = a.0; right = b } };

    fn div(self, right: B) -> Formula<Pair<Operator, T, B>> {
        self.with(Operator::Div, right)
    }
}

impl<T: Term, B: Term> Rem<B> for Formula<T> {
    type Output = Formula<Pair<Operator, T, B>>;

    ghost rem_gives = { λ a b rest. rest.0 ≡ record { by = operators.Rem; left = a.0; right = b } };

    fn rem(self, right: B) -> Formula<Pair<Operator, T, B>> {
        self.with(Operator::Rem, right)
    }
}

impl<T: Condition, B: Condition> BitAnd<B> for Formula<T> {
    type Output = Formula<Pair<Connective, T, B>>;

    ghost bitand_gives = { λ a b both. both.0 ≡ record { by = connectives.And; left = a.0; right = b } };

    fn bitand(self, right: B) -> Formula<Pair<Connective, T, B>> {
        self.with(Connective::And, right)
    }
}

impl<T: Condition, B: Condition> BitOr<B> for Formula<T> {
    type Output = Formula<Pair<Connective, T, B>>;

    ghost bitor_gives = { λ a b either. either.0 ≡ record { by = connectives.Or; left = a.0; right = b } };

    fn bitor(self, right: B) -> Formula<Pair<Connective, T, B>> {
        self.with(Connective::Or, right)
    }
}

impl<T: Condition> Not for Formula<T> {
    type Output = Formula<Negated<T>>;

    ghost not_gives = { λ a opposite. opposite.0 ≡ record { 0 = a.0 } };

    fn not(self) -> Formula<Negated<T>> {
        Formula(Negated(self.0))
    }
}
