//! The nodes of an action's body.

/// What joins two expressions to one.
#[derive(Clone, Copy, Debug, Drop, PartialEq, Eq)]
pub enum Operator {
    Add,
    Sub,
    Mul,
    Div,
    Rem,
    Min,
    Max,
}

/// What compares two expressions.
#[derive(Clone, Copy, Debug, Drop, PartialEq, Eq)]
pub enum Comparison {
    Eq,
    Lt,
    Le,
}

/// What joins two conditions to one.
#[derive(Clone, Copy, Debug, Drop, PartialEq, Eq)]
pub enum Connective {
    And,
    Or,
}

/// A node of a body. The parts of a node stand right behind it, one after the other.
#[derive(Clone, Copy, Debug, Drop, PartialEq, Eq)]
pub enum Node {
    /// An expression: this number.
    Lit(i64),
    /// An expression: an attribute of the object in a slot.
    Attr { slot: u8, attr: u8 },
    /// An expression. Two expressions follow.
    Binary(Operator),
    /// A condition. Two expressions follow.
    Compare(Comparison),
    /// A condition. Two conditions follow.
    Join(Connective),
    /// A condition. A condition follows.
    Not,
    /// A statement. An expression follows.
    Set { slot: u8, attr: u8 },
    /// A statement. A condition and two blocks follow, of which the first runs where the condition holds.
    If,
    /// A block. `count` statements follow, which have `size` nodes.
    Block { count: u8, size: usize },
}
