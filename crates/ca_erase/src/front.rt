//! What stands in front of a text.

ghost use Rattle.std.specs.Prelude.{◌≡◌, ◌≢◌, ◌<◌, ◌≤◌, ◌+◌, ◌++◌, ℕ, List, length, drop, true, IfSome, IfNone};
ghost use Rattle.ca_lex.specs.Pieces.{close_len};
ghost use Rattle.ca_canonical.specs.declared.marks.Mark.{Mark as PlainMark};
ghost use Rattle.ca_canonical.specs.Marks.{mark_text};
ghost use Rattle.ca_canonical.specs.Erased.{block_len, comment_behind, comment_len, opens_mark};
ghost use Rattle.ca_erase.specs.BadMarks.{space_of};
ghost use Rattle.ca_erase.specs.clauses.Fronts.{IsFront};

use ca_canonical::Mark;
use ca_lex::{close_of, line_len};

/// What stands in front, with the number of its bytes.
pub(crate) enum Front {
    /// A mark, with the space behind it if there is one.
    Left(usize),
    /// Any other comment, or a byte before which no comment begins.
    Kept(usize),
    /// A comment that begins with `/*@` and is no mark.
    BadMark,
}

/// What stands in front.
pub(crate) fn front_of(text: &[u8]) -> Front
    requires { 0 < length text.now }
    ensures { IsFront result text.now }
{
    match comment_len(text) {
        None => Front::Kept(1),
        Some(len) => {
            if opens_mark(text) {
                marked(text)
            } else {
                Front::Kept(len)
            }
        }
    }
}

/// What stands in front where that begins with `/*@`.
fn marked(text: &[u8]) -> Front
    requires { opens_mark text.now ≡ true }
    ensures { IsFront result text.now }
{
    match mark_of(text) {
        None => Front::BadMark,
        Some(mark) => {
            let (bytes, behind) = text.split_at(mark.text().as_bytes().len());
            Front::Left(bytes.len() + space_len(behind))
        }
    }
}

/// How many bytes the comment in front has.
fn comment_len(text: &[u8]) -> Option<usize>
    ensures length { result ≡ comment_len text.now }
    ensures within { IfSome result (λ n. (0 < n) × (n ≤ length text.now)) }
{
    match text {
        [b'/', behind @ ..] => comment_behind(behind),
        _ => None,
    }
}

/// How many bytes the comment has that a `/` begins, where `behind` follows it.
fn comment_behind(behind: &[u8]) -> Option<usize>
    ensures length { result ≡ comment_behind behind.now }
    ensures within { IfSome result (λ n. (0 < n) × (n ≤ length behind.now + 1)) }
{
    match behind {
        [b'/', ..] => Some(line_len(behind) + 1),
        [b'*', rest @ ..] => Some(block_len(rest)),
        _ => None,
    }
}

/// How many bytes a comment of `/*` has, where the text stands behind these two: through the first `*/`, or all.
fn block_len(text: &[u8]) -> usize
    ensures length { result ≡ block_len (close_len text.now) text.now }
    ensures within { (2 ≤ result) × (result ≤ length text.now + 2) }
{
    match close_of(text) {
        Some(n) => n + 2,
        None => text.len() + 2,
    }
}

/// Whether `/*@` stands in front.
fn opens_mark(text: &[u8]) -> bool
    ensures { result ≡ opens_mark text.now }
{
    match text {
        [a, b, c, ..] => *a == b'/' && *b == b'*' && *c == b'@',
        _ => false,
    }
}

/// The mark in front.
fn mark_of(text: &[u8]) -> Option<Mark>
    ensures some { IfSome result (λ m. text.now ≡ mark_text m ++ drop (length (mark_text m)) text.now) }
    ensures none { IfNone result ((m : PlainMark) (r : List ℕ) → text.now ≢ mark_text m ++ r) }
{
    if begins(text, Mark::Lock) {
        Some(Mark::Lock)
    } else if begins(text, Mark::Unlock) {
        Some(Mark::Unlock)
    } else if begins(text, Mark::Spawn) {
        Some(Mark::Spawn)
    } else if begins(text, Mark::Parallel) {
        Some(Mark::Parallel)
    } else {
        None
    }
}

/// Whether the mark stands in front.
fn begins(text: &[u8], mark: Mark) -> bool
    ensures yes { result ≡ true → text.now ≡ mark_text mark ++ drop (length (mark_text mark)) text.now }
    ensures no { (r : List ℕ) → text.now ≡ mark_text mark ++ r → result ≡ true }
{
    text.starts_with(mark.text().as_bytes())
}

/// 1 where a space stands in front, else 0.
fn space_len(text: &[u8]) -> usize
    ensures { result ≡ length (space_of text.now) }
{
    match text {
        [b' ', ..] => 1,
        _ => 0,
    }
}
