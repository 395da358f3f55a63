//! What a text consists of.

use crate::TextCause;

/// A word or sign of the language, or the end of the text.
#[derive(Clone, Copy, Drop, PartialEq, Eq)]
pub enum Mark {
    Reads,
    Writes,
    At,
    Set,
    If,
    Else,
    Min,
    Max,
    And,
    Or,
    Not,
    /// A word that is none of the language's.
    Other,
    Open,
    Close,
    OpenTest,
    CloseTest,
    OpenBlock,
    CloseBlock,
    Semicolon,
    Plus,
    Minus,
    Times,
    Divide,
    Remainder,
    Equal,
    LessEqual,
    Less,
    End,
}

#[derive(Clone, Copy, Drop)]
pub enum Token {
    Number(i64),
    /// A number that is written as numbers are, but is outside i64.
    Wide,
    /// `@`, an object, `.` and an attribute.
    Ref { object: u16, attr: u8 },
    Mark(Mark),
    /// What is refused wherever it stands.
    Bad(TextCause),
}

#[derive(Clone, Copy, Drop)]
pub struct Lexeme {
    /// The offset of its first byte in the text.
    pub place: u32,
    /// Whether it directly follows a word or number.
    pub glued: bool,
    pub token: Token,
}

/// What is left of a text: tokens and its end, its end alone, or nothing.
#[derive(Clone, Copy, Drop)]
pub enum Left {
    Tokens,
    End,
    Nothing,
}

/// The token that stands next. Behind the end of the text this is one that may stand nowhere.
#[derive(Clone, Copy, Drop)]
pub struct Ahead {
    pub next: Lexeme,
    /// Where the bytes behind it begin.
    pub end: usize,
    pub left: Left,
}
