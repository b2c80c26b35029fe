//! From the bytes of a text to its tokens, for the parser and for whoever tells a refusal's place.
//!
//! What the tokens of a text are stands in `specs/Tokens.antt`: each byte lies in exactly one blank,
//! comment or token, and each token has its place and its bytes. What is refused first in a text, and
//! where, stands in `specs/Faults.antt`. `lex` promises the tokens of each text that has some within
//! the limit, and else the one refusal at its place, unless memory runs out. It takes time linear in
//! the bytes.
//!
//! `end_place` is where a text is refused that ends too early. The laws say that a text has one list
//! of tokens or one refusal and not both, and that each token is the longest that may stand there.
//!
//! Whoever reads the public clauses must believe `Bytes`, `Faults`, `Pieces`, `Places` and `Tokens` of `specs/`;
//! what stands in `specs/clauses/` serves clauses within the crate alone.
#![tactic(auto)]

mod bytes;
mod front;
pub mod laws;
mod place;

ghost use Rattle.std.specs.Prelude.{◌≡◌, ◌≤◌, length, Err, IfOk};
ghost use Rattle.ca_tree.specs.declared.name.Place.{Place};
ghost use Rattle.ca_tree.specs.declared.token.Token.{Token};
ghost use Rattle.ca_lex.specs.declared.LexError.TheVariants.{BadByte, WideNumber, Limit, Memory};
ghost use Rattle.ca_lex.specs.Places.{advance, start};
ghost use Rattle.ca_lex.specs.Tokens.{Tokens};
ghost use Rattle.ca_lex.specs.Faults.{LexFault, bad_byte, token_limit, wide_number};

pub use crate::bytes::line_len;
pub use crate::front::close_of;
use crate::front::{Front, front_of};
use crate::place::{START, place_behind};
use ca_tree::{Place, Token};
use std::alloc::{AllocError, AllocFailed, Global};
use thiserror::Error;

/// The most bytes of a text whose places are told.
pub const LONGEST_TEXT: usize = 1_073_741_824;

/// The most tokens that a text may have.
pub const MOST_TOKENS: usize = 262_144;

/// Why a text has not been read, with the first refused place.
#[derive(Debug, Drop, Error)]
pub enum LexError {
    /// The byte begins no token, is the first of digits that begin with a needless 0, is a letter
    /// directly behind digits, or is the `/` of an unclosed comment.
    #[error("no token")]
    BadByte(Place),
    /// A number above 9223372036854775807.
    #[error("a number above 9223372036854775807")]
    WideNumber(Place),
    /// The first byte of the token behind `MOST_TOKENS` tokens.
    #[error("too many tokens")]
    Limit(Place),
    /// Out of memory.
    #[error("out of memory")]
    Memory,
}

impl From<AllocError> for LexError {
    ghost from_gives = { λ _ e. e ≡ Memory };

    fn from(_e: AllocError) -> LexError {
        LexError::Memory
    }
}

impl<T: Drop> From<AllocFailed<T>> for LexError {
    ghost from_gives = { λ _ e. e ≡ Memory };

    fn from(_e: AllocFailed<T>) -> LexError {
        LexError::Memory
    }
}

/// The tokens of a text. It is refused where it has more than `MOST_TOKENS` tokens or a byte that
/// lies in no token, blank or comment. The first refused place decides.
pub fn lex(alloc: Global, text: &[u8]) -> Result<Vec<Token>, LexError>
    requires { length text.now ≤ LONGEST_TEXT }
    ensures tokens { IfOk result (λ v. Tokens text.now v.items) }
    ensures few { IfOk result (λ v. length v.items ≤ MOST_TOKENS) }
    ensures bad_byte { (p : Place) → result ≡ Err (BadByte p) → LexFault text.now p bad_byte }
    ensures wide_number { (p : Place) → result ≡ Err (WideNumber p) → LexFault text.now p wide_number }
    ensures limit { (p : Place) → result ≡ Err (Limit p) → LexFault text.now p token_limit }
{
    let mut tokens = Vec::new(alloc);
    let mut rest = text;
    let mut at = START;
    let mut start: usize = 0;
    'pieces: while !rest.is_empty() {
        let front = front_of(alloc, rest)?;
        let len = match front {
            Front::Blank(len) => len,
            Front::Comment(len) => len,
            Front::Token(len, kind) => {
                if tokens.len() == MOST_TOKENS {
                    return Err(LexError::Limit(at));
                }
                tokens.push(Token {
                    kind,
                    at,
                    start,
                    len,
                })?;
                len
            }
            Front::LetterBehind(len) => {
                if tokens.len() == MOST_TOKENS {
                    return Err(LexError::Limit(at));
                }
                let (digits, _letter) = rest.split_at(len);
                return Err(LexError::BadByte(place_behind(at, digits)));
            }
            Front::TooGreat => return Err(LexError::WideNumber(at)),
            Front::Refused => return Err(LexError::BadByte(at)),
        };
        let (here, after) = rest.split_at(len);
        at = place_behind(at, here);
        start += len;
        rest = after;
    }
    Ok(tokens)
}

/// The place behind the last byte.
pub fn end_place(text: &[u8]) -> Place
    requires { length text.now ≤ LONGEST_TEXT }
    ensures { result ≡ advance start text.now }
{
    place_behind(START, text)
}
