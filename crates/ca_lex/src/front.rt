//! What stands in front of a text.

ghost use Rattle.std.specs.Prelude.{◌≡◌, ◌<◌, ◌≤◌, ◌^◌, ℕ, length, IfOk, IfSome, IfNone, true, slice_index};
ghost use Rattle.std.specs.Char.{is_ascii_digit};
ghost use Rattle.ca_lex.specs.Bytes.{value_of};
ghost use Rattle.ca_lex.specs.Pieces.{close_len, closes, number_piece, piece_of, sign_piece, slash_piece, word_piece};
ghost use Rattle.ca_lex.specs.clauses.Fronts.{piece_at};

use crate::bytes::{digits_len, is_blank, is_letter, line_len, name_len};
use ca_tree::{Keyword, Kind, Name, Sign};
use std::alloc::{AllocError, Global};

/// What stands in front: a blank, a comment or a token, with the number of its bytes, or else what
/// may not stand there.
#[derive(Drop)]
pub(crate) enum Front {
    Blank(usize),
    Comment(usize),
    Token(usize, Kind),
    /// A number above `GREATEST_NUMBER`.
    TooGreat,
    /// So many digits with a letter directly behind them.
    LetterBehind(usize),
    Refused,
}

/// What stands in front. A comment or a sign is told by its first byte and the bytes behind it.
#[tactic(auto, unfolding(crate::specs::Pieces::piece_of))]
pub(crate) fn front_of(alloc: Global, text: &[u8]) -> Result<Front, AllocError>
    requires { 0 < length text.now }
    ensures { IfOk result (λ front. piece_at front ≡ piece_of text.now) }
{
    let first = text[0];
    if is_blank(first) {
        Ok(Front::Blank(1))
    } else if is_letter(first) {
        word(alloc, text)
    } else if first.is_ascii_digit() {
        Ok(number(text))
    } else if first == b'/' {
        Ok(slash(&text[1..]))
    } else {
        Ok(sign(first, &text[1..]))
    }
}

/// The key word or the name in front, where a letter is first.
fn word(alloc: Global, text: &[u8]) -> Result<Front, AllocError>
    ensures { IfOk result (λ front. piece_at front ≡ word_piece text.now) }
{
    let (bytes, _rest) = text.split_at(name_len(text));
    match Keyword::spelled(bytes) {
        Some(keyword) => Ok(Front::Token(bytes.len(), Kind::Key(keyword))),
        None => Ok(Front::Token(bytes.len(), Kind::Word(Name::new(alloc, bytes)?))),
    }
}

/// The number in front, where a digit is first.
fn number(text: &[u8]) -> Front
    ensures { piece_at result ≡ number_piece text.now }
{
    let (digits, rest) = text.split_at(digits_len(text));
    if digits.len() > 1 && digits[0] == b'0' {
        return Front::Refused;
    }
    let Some(value) = value_of(digits) else {
        return Front::TooGreat;
    };
    if !rest.is_empty() && is_letter(rest[0]) {
        return Front::LetterBehind(digits.len());
    }
    Front::Token(digits.len(), Kind::Number(value as i64))
}

/// The greatest number that a text may spell.
const GREATEST_NUMBER: u64 = 9_223_372_036_854_775_807;

/// The number that digits spell, unless it is above `GREATEST_NUMBER`.
fn value_of(digits: &[u8]) -> Option<u64>
    requires { (i : ℕ) → i < length digits.now → is_ascii_digit (slice_index digits.now i) ≡ true }
    ensures some { IfSome result (λ n. n ≡ value_of digits.now) }
    ensures small { IfSome result (λ n. n < 2 ^ 63) }
    ensures none { IfNone result (2 ^ 63 ≤ value_of digits.now) }
{
    let mut n: u64 = 0;
    for b in digits {
        let d = u64::from(*b - b'0');
        if n > (GREATEST_NUMBER - d) / 10 {
            return None;
        }
        n = n * 10 + d;
    }
    Some(n)
}

/// The comment or the sign that begins with `/`, where `behind` follows it.
fn slash(behind: &[u8]) -> Front
    ensures { piece_at result ≡ slash_piece behind.now }
{
    match behind {
        [b'/', ..] => Front::Comment(line_len(behind) + 1),
        [b'*', rest @ ..] => match close_of(rest) {
            Some(n) => Front::Comment(n + 2),
            None => Front::Refused,
        },
        _ => sign(b'/', behind),
    }
}

/// How many bytes there are through the first `*/`.
pub fn close_of(text: &[u8]) -> Option<usize>
    ensures length { result ≡ close_len text.now }
    ensures within { IfSome result (λ n. n ≤ length text.now) }
{
    let mut n: usize = 0;
    while n + 1 < text.len() {
        if closes(text[n], text[n + 1]) {
            return Some(n + 2);
        }
        n += 1;
    }
    None
}

/// Whether the two bytes are `*/`.
fn closes(first: u8, second: u8) -> bool
    ensures { result ≡ closes first second }
{
    first == b'*' && second == b'/'
}

/// The longest sign that begins with the byte, where `rest` follows it.
fn sign(first: u8, rest: &[u8]) -> Front
    ensures { piece_at result ≡ sign_piece first rest.now }
{
    if let [second, ..] = rest {
        if let Some(sign) = Sign::double(first, *second) {
            return Front::Token(2, Kind::Sign(sign));
        }
    }
    match Sign::single(first) {
        Some(sign) => Front::Token(1, Kind::Sign(sign)),
        None => Front::Refused,
    }
}
