//! What stands in front of the tokens: a key word, a sign, a name, a number.

ghost use Rattle.std.specs.Prelude.{◌≡◌, ◌<◌, length, IfSome, IfNone, IfOk, None, is_some};
ghost use Rattle.ca_descent.specs.Exact.{Unlimited, Exact, Sees, head_of};
ghost use Rattle.ca_tree.specs.View.{expression_view};
ghost use Rattle.ca_expressions.specs.Terminals.{key, sign, name, number, zero, tail_front, literal, unary_operator, operator, word_operator};
ghost use Rattle.ca_expressions.specs.Readers.{answer};
ghost use Rattle.ca_expressions.specs.declared.tokens.Fault.TheVariants.{Memory};

use ca_tree::{BinaryOp, ExprKind, ExprNode, Keyword, Kind, Name, Place, Sign, Token, UnaryOp};
use std::alloc::{AllocError, AllocFailed, Global};

/// Why nothing is read: no memory, or the tokens from the first wrong one on, or from the first one
/// past a limit on.
#[derive(Drop)]
pub enum Fault<'a> {
    Memory,
    Wrong(&'a [Token]),
    TooDeep(&'a [Token]),
}

impl<'a> From<AllocError> for Fault<'a> {
    ghost from_gives = { λ _ e. e ≡ Memory };

    fn from(_e: AllocError) -> Fault<'a> {
        Fault::Memory
    }
}

impl<'a, T: Drop> From<AllocFailed<T>> for Fault<'a> {
    ghost from_gives = { λ _ e. e ≡ Memory };

    fn from(_e: AllocFailed<T>) -> Fault<'a> {
        Fault::Memory
    }
}

/// Whether the key word stands in front.
pub fn is_key(tokens: &[Token], word: Keyword) -> bool
    ensures { result ≡ is_some (head_of (key word) tokens.now) }
{
    if let [token, ..] = tokens {
        if let Kind::Key(found) = &token.kind {
            return *found == word;
        }
    }
    false
}

/// Whether the sign stands in front.
pub fn is_sign(tokens: &[Token], wanted: Sign) -> bool
    ensures { result ≡ is_some (head_of (sign wanted) tokens.now) }
{
    if let [token, ..] = tokens {
        if let Kind::Sign(found) = &token.kind {
            return *found == wanted;
        }
    }
    false
}

/// Whether the number 0 stands in front.
pub fn is_zero(tokens: &[Token]) -> bool
    ensures { result ≡ is_some (head_of zero tokens.now) }
{
    if let [token, ..] = tokens {
        if let Kind::Number(n) = &token.kind {
            return *n == 0;
        }
    }
    false
}

/// Whether a name stands in front.
pub fn is_name(tokens: &[Token]) -> bool
    ensures { result ≡ is_some (head_of name tokens.now) }
{
    if let [token, ..] = tokens {
        if let Kind::Word(_) = &token.kind {
            return true;
        }
    }
    false
}

/// Whether a sign that a tail begins with stands in front: `->` or `[`.
pub fn is_tail(tokens: &[Token]) -> bool
    ensures { result ≡ is_some (head_of tail_front tokens.now) }
{
    if let [token, ..] = tokens {
        if let Kind::Sign(found) = &token.kind {
            return *found == Sign::Arrow || *found == Sign::OpenBracket;
        }
    }
    false
}

/// The place of the key word, where it stands in front, and what stands behind it.
pub fn key_at(tokens: &[Token], word: Keyword) -> Option<(Place, &[Token])>
    ensures some { IfSome result (λ p. Sees (key word) tokens.now p.0 p.1.now) }
    ensures none { IfNone result (head_of (key word) tokens.now ≡ None) }
    ensures shorter { IfSome result (λ p. length p.1.now < length tokens.now) }
{
    let [token, rest @ ..] = tokens else {
        return None;
    };
    if !is_key(tokens, word) {
        return None;
    }
    Some((token.at, rest))
}

/// The place of the sign, where it stands in front, and what stands behind it.
pub fn sign_at(tokens: &[Token], wanted: Sign) -> Option<(Place, &[Token])>
    ensures some { IfSome result (λ p. Sees (sign wanted) tokens.now p.0 p.1.now) }
    ensures none { IfNone result (head_of (sign wanted) tokens.now ≡ None) }
    ensures shorter { IfSome result (λ p. length p.1.now < length tokens.now) }
{
    let [token, rest @ ..] = tokens else {
        return None;
    };
    if !is_sign(tokens, wanted) {
        return None;
    }
    Some((token.at, rest))
}

/// The number in front with its place, and what stands behind it.
pub fn number_at(tokens: &[Token]) -> Option<((i64, Place), &[Token])>
    ensures some { IfSome result (λ p. Sees number tokens.now p.0 p.1.now) }
    ensures none { IfNone result (head_of number tokens.now ≡ None) }
    ensures shorter { IfSome result (λ p. length p.1.now < length tokens.now) }
{
    let [token, rest @ ..] = tokens else {
        return None;
    };
    let Kind::Number(n) = &token.kind else {
        return None;
    };
    Some(((*n, token.at), rest))
}

/// The literal in front as the expression that it is, and what stands behind it.
pub fn literal_at(tokens: &[Token]) -> Option<(ExprNode, &[Token])>
    ensures some { IfSome result (λ p. Sees literal tokens.now (expression_view p.0) p.1.now) }
    ensures none { IfNone result (head_of literal tokens.now ≡ None) }
    ensures shorter { IfSome result (λ p. length p.1.now < length tokens.now) }
{
    if let Some(((n, at), rest)) = number_at(tokens) {
        let kind = ExprKind::Number(n);
        return Some((ExprNode { at, kind }, rest));
    }
    if let Some((at, rest)) = key_at(tokens, Keyword::True) {
        let kind = ExprKind::Truth(true);
        return Some((ExprNode { at, kind }, rest));
    }
    if let Some((at, rest)) = key_at(tokens, Keyword::False) {
        let kind = ExprKind::Truth(false);
        return Some((ExprNode { at, kind }, rest));
    }
    if let Some((at, rest)) = key_at(tokens, Keyword::Nullptr) {
        let kind = ExprKind::Null;
        return Some((ExprNode { at, kind }, rest));
    }
    None
}

/// The `-` or `!` in front with its place, and what stands behind it.
pub fn unary_at(tokens: &[Token]) -> Option<((UnaryOp, Place), &[Token])>
    ensures some { IfSome result (λ p. Sees unary_operator tokens.now p.0 p.1.now) }
    ensures none { IfNone result (head_of unary_operator tokens.now ≡ None) }
    ensures shorter { IfSome result (λ p. length p.1.now < length tokens.now) }
{
    if let Some((at, rest)) = sign_at(tokens, Sign::Minus) {
        return Some(((UnaryOp::Minus, at), rest));
    }
    if let Some((at, rest)) = sign_at(tokens, Sign::Not) {
        return Some(((UnaryOp::Not, at), rest));
    }
    None
}

/// The operator in front that is written by a key word, with its place, and what stands behind it.
pub fn word_at(tokens: &[Token]) -> Option<((BinaryOp, Place), &[Token])>
    ensures some { IfSome result (λ p. Sees word_operator tokens.now p.0 p.1.now) }
    ensures none { IfNone result (head_of word_operator tokens.now ≡ None) }
    ensures shorter { IfSome result (λ p. length p.1.now < length tokens.now) }
{
    let [token, rest @ ..] = tokens else {
        return None;
    };
    let Kind::Key(word) = &token.kind else {
        return None;
    };
    let Some(op) = word.binary() else {
        return None;
    };
    Some(((op, token.at), rest))
}

/// The binary operator of the level in front with its place, and what stands behind it.
pub fn operator_at(tokens: &[Token], level: usize) -> Option<((BinaryOp, Place), &[Token])>
    ensures some { IfSome result (λ p. Sees (operator level) tokens.now p.0 p.1.now) }
    ensures none { IfNone result (head_of (operator level) tokens.now ≡ None) }
    ensures shorter { IfSome result (λ p. length p.1.now < length tokens.now) }
{
    let [token, rest @ ..] = tokens else {
        return None;
    };
    let Kind::Sign(sign) = &token.kind else {
        return None;
    };
    let Some(op) = sign.binary() else {
        return None;
    };
    let found = op.level();
    if found != level {
        return None;
    }
    Some(((op, token.at), rest))
}

/// The key word's place, and what stands behind it.
pub fn take_key<'a>(tokens: &'a [Token], word: Keyword) -> Result<(Place, &'a [Token]), Fault<'a>>
    ensures answer { Exact (Unlimited (Sees (key word))) (Unlimited (Sees (key word))) tokens.now (answer (λ p. p) result) }
    ensures shorter { IfOk result (λ p. length p.1.now < length tokens.now) }
{
    match key_at(tokens, word) {
        Some((at, rest)) => Ok((at, rest)),
        None => Err(Fault::Wrong(tokens)),
    }
}

/// The sign's place, and what stands behind it.
pub fn take_sign<'a>(tokens: &'a [Token], wanted: Sign) -> Result<(Place, &'a [Token]), Fault<'a>>
    ensures answer { Exact (Unlimited (Sees (sign wanted))) (Unlimited (Sees (sign wanted))) tokens.now (answer (λ p. p) result) }
    ensures shorter { IfOk result (λ p. length p.1.now < length tokens.now) }
{
    match sign_at(tokens, wanted) {
        Some((at, rest)) => Ok((at, rest)),
        None => Err(Fault::Wrong(tokens)),
    }
}

/// The number with its place, and what stands behind it.
pub fn take_number<'a>(tokens: &'a [Token]) -> Result<((i64, Place), &'a [Token]), Fault<'a>>
    ensures answer { Exact (Unlimited (Sees number)) (Unlimited (Sees number)) tokens.now (answer (λ p. p) result) }
    ensures shorter { IfOk result (λ p. length p.1.now < length tokens.now) }
{
    match number_at(tokens) {
        Some((found, rest)) => Ok((found, rest)),
        None => Err(Fault::Wrong(tokens)),
    }
}

/// A copy of the name with its place, and what stands behind it.
pub fn take_name<'a>(
    alloc: Global,
    tokens: &'a [Token],
) -> Result<((Name, Place), &'a [Token]), Fault<'a>>
    ensures answer { Exact (Unlimited (Sees name)) (Unlimited (Sees name)) tokens.now (answer (λ p. p) result) }
    ensures shorter { IfOk result (λ p. length p.1.now < length tokens.now) }
{
    let [token, rest @ ..] = tokens else {
        return Err(Fault::Wrong(tokens));
    };
    let Kind::Word(found) = &token.kind else {
        return Err(Fault::Wrong(tokens));
    };
    let name = found.copy(alloc)?;
    Ok(((name, token.at), rest))
}
