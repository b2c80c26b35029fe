//! How key words and signs are spelled.

ghost use Rattle.std.specs.Prelude.{◌≡◌};
ghost use Rattle.std.specs.Prelude.{find};
ghost use Rattle.ca_tree.specs.Spellings.{body_words, double_sign, keyword_of, keyword_text, sign_text, single_sign, spells_keyword};

use crate::token::{Keyword, Sign};

impl Keyword {
    /// The text of the key word.
    pub fn text(self) -> &'static str
        ensures { result.now ≡ keyword_text self }
    {
        match self {
            Keyword::Class => "class",
            Keyword::Public => "public",
            Keyword::Long => "long",
            Keyword::Bool => "bool",
            Keyword::Int => "int",
            Keyword::Void => "void",
            Keyword::If => "if",
            Keyword::Else => "else",
            Keyword::While => "while",
            Keyword::For => "for",
            Keyword::Return => "return",
            Keyword::New => "new",
            Keyword::Nullptr => "nullptr",
            Keyword::This => "this",
            Keyword::True => "true",
            Keyword::False => "false",
            Keyword::Print => "print",
            Keyword::Main => "main",
            Keyword::Max => "max",
            Keyword::Min => "min",
        }
    }

    /// The key word that is spelled so.
    pub fn spelled(word: &[u8]) -> Option<Keyword>
        ensures { result ≡ keyword_of word.now }
    {
        if spells(word, Keyword::Class) {
            Some(Keyword::Class)
        } else if spells(word, Keyword::Public) {
            Some(Keyword::Public)
        } else if spells(word, Keyword::Long) {
            Some(Keyword::Long)
        } else if spells(word, Keyword::Bool) {
            Some(Keyword::Bool)
        } else if spells(word, Keyword::Int) {
            Some(Keyword::Int)
        } else if spells(word, Keyword::Void) {
            Some(Keyword::Void)
        } else if spells(word, Keyword::Main) {
            Some(Keyword::Main)
        } else {
            body_word(word)
        }
    }
}

/// Whether the word is spelled as the key word is.
fn spells(word: &[u8], key: Keyword) -> bool
    ensures { result ≡ spells_keyword word.now key }
{
    word == key.text().as_bytes()
}

/// The key word of a body that is spelled so.
fn body_word(word: &[u8]) -> Option<Keyword>
    ensures { result ≡ find (spells_keyword word.now) body_words }
{
    if spells(word, Keyword::If) {
        Some(Keyword::If)
    } else if spells(word, Keyword::Else) {
        Some(Keyword::Else)
    } else if spells(word, Keyword::While) {
        Some(Keyword::While)
    } else if spells(word, Keyword::For) {
        Some(Keyword::For)
    } else if spells(word, Keyword::Return) {
        Some(Keyword::Return)
    } else if spells(word, Keyword::Print) {
        Some(Keyword::Print)
    } else if spells(word, Keyword::New) {
        Some(Keyword::New)
    } else if spells(word, Keyword::Nullptr) {
        Some(Keyword::Nullptr)
    } else if spells(word, Keyword::This) {
        Some(Keyword::This)
    } else if spells(word, Keyword::True) {
        Some(Keyword::True)
    } else if spells(word, Keyword::False) {
        Some(Keyword::False)
    } else if spells(word, Keyword::Max) {
        Some(Keyword::Max)
    } else if spells(word, Keyword::Min) {
        Some(Keyword::Min)
    } else {
        None
    }
}

impl Sign {
    /// The text of the sign, of one byte or of two.
    pub fn text(self) -> &'static str
        ensures { result.now ≡ sign_text self }
    {
        match self {
            Sign::OpenBrace => "{",
            Sign::CloseBrace => "}",
            Sign::OpenParenthesis => "(",
            Sign::CloseParenthesis => ")",
            Sign::OpenBracket => "[",
            Sign::CloseBracket => "]",
            Sign::Semicolon => ";",
            Sign::Comma => ",",
            Sign::Colon => ":",
            Sign::Assign => "=",
            Sign::Equal => "==",
            Sign::NotEqual => "!=",
            Sign::Less => "<",
            Sign::Greater => ">",
            Sign::LessEqual => "<=",
            Sign::GreaterEqual => ">=",
            Sign::Plus => "+",
            Sign::Minus => "-",
            Sign::Times => "*",
            Sign::Divide => "/",
            Sign::Remainder => "%",
            Sign::Not => "!",
            Sign::And => "&&",
            Sign::Or => "||",
            Sign::Arrow => "->",
            Sign::PlusAssign => "+=",
            Sign::MinusAssign => "-=",
            Sign::TimesAssign => "*=",
            Sign::Increment => "++",
            Sign::Decrement => "--",
            Sign::BitAnd => "&",
            Sign::BitOr => "|",
            Sign::BitXor => "^",
            Sign::BitAndAssign => "&=",
            Sign::BitOrAssign => "|=",
            Sign::BitXorAssign => "^=",
        }
    }

    /// The sign that is spelled by the byte.
    pub fn single(b: u8) -> Option<Sign>
        ensures { result ≡ single_sign b }
    {
        match b {
            b'{' => Some(Sign::OpenBrace),
            b'}' => Some(Sign::CloseBrace),
            b'(' => Some(Sign::OpenParenthesis),
            b')' => Some(Sign::CloseParenthesis),
            b'[' => Some(Sign::OpenBracket),
            b']' => Some(Sign::CloseBracket),
            b';' => Some(Sign::Semicolon),
            b',' => Some(Sign::Comma),
            b':' => Some(Sign::Colon),
            b'=' => Some(Sign::Assign),
            b'<' => Some(Sign::Less),
            b'>' => Some(Sign::Greater),
            b'+' => Some(Sign::Plus),
            b'-' => Some(Sign::Minus),
            b'*' => Some(Sign::Times),
            b'/' => Some(Sign::Divide),
            b'%' => Some(Sign::Remainder),
            b'!' => Some(Sign::Not),
            b'&' => Some(Sign::BitAnd),
            b'|' => Some(Sign::BitOr),
            b'^' => Some(Sign::BitXor),
            _ => None,
        }
    }

    /// The sign that is spelled by the two bytes.
    pub fn double(a: u8, b: u8) -> Option<Sign>
        ensures { result ≡ double_sign a b }
    {
        match (a, b) {
            (b'=', b'=') => Some(Sign::Equal),
            (b'!', b'=') => Some(Sign::NotEqual),
            (b'<', b'=') => Some(Sign::LessEqual),
            (b'>', b'=') => Some(Sign::GreaterEqual),
            (b'&', b'&') => Some(Sign::And),
            (b'|', b'|') => Some(Sign::Or),
            (b'-', b'>') => Some(Sign::Arrow),
            (b'+', b'=') => Some(Sign::PlusAssign),
            (b'-', b'=') => Some(Sign::MinusAssign),
            (b'*', b'=') => Some(Sign::TimesAssign),
            (b'+', b'+') => Some(Sign::Increment),
            (b'-', b'-') => Some(Sign::Decrement),
            (b'&', b'=') => Some(Sign::BitAndAssign),
            (b'|', b'=') => Some(Sign::BitOrAssign),
            (b'^', b'=') => Some(Sign::BitXorAssign),
            _ => None,
        }
    }
}
