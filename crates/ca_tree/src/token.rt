//! Tokens of a source text.

use crate::name::{Name, Place};

/// A token: what it is, where it begins, and which bytes of the text it takes.
#[derive(Drop)]
pub struct Token {
    pub kind: Kind,
    pub at: Place,
    /// The number of the first byte, from 0.
    pub start: usize,
    /// How many bytes it takes.
    pub len: usize,
}

/// What a token is. A word that is no key word is a name; no token spells a negative number.
#[derive(Drop)]
pub enum Kind {
    Word(Name),
    Number(i64),
    Key(Keyword),
    Sign(Sign),
}

/// The words that are no names.
#[derive(Clone, Copy, PartialEq, Eq)]
pub enum Keyword {
    Class,
    Public,
    Long,
    Bool,
    Int,
    Void,
    If,
    Else,
    While,
    For,
    Return,
    New,
    Nullptr,
    This,
    True,
    False,
    Print,
    Main,
    Max,
    Min,
}

/// The signs, of one byte or of two.
#[derive(Clone, Copy, PartialEq, Eq)]
pub enum Sign {
    OpenBrace,
    CloseBrace,
    OpenParenthesis,
    CloseParenthesis,
    OpenBracket,
    CloseBracket,
    Semicolon,
    Comma,
    Colon,
    Assign,
    Equal,
    NotEqual,
    Less,
    Greater,
    LessEqual,
    GreaterEqual,
    Plus,
    Minus,
    Times,
    Divide,
    Remainder,
    Not,
    And,
    Or,
    Arrow,
    PlusAssign,
    MinusAssign,
    TimesAssign,
    Increment,
    Decrement,
    BitAnd,
    BitOr,
    BitXor,
    BitAndAssign,
    BitOrAssign,
    BitXorAssign,
}
