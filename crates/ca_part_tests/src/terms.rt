//! Terms that are written as texts, and what is asked of their forms. Where memory runs out the test ends, and no term and no form
//! lives where a function may end early, since its destructor, with all kinds of terms below it, would be proved there once more.
//!
//! A text of a term puts terms on a stack, the last of which it stands for. A letter takes the terms on top, and puts one in their
//! place; in front of some it has a number. Parts are apart by `,`, and `9:` before a part goes through it nine times, each time with
//! one more at `i`. So `0p1p+` is the sum of the parameters 0 and 1, and `0f,3:1ip+` that of field 0 and the parameters 1 to 3. `13w`
//! is field 0, squared thirteen times.

use crate::sources::let_go;
use ca_folds::FoldOp;
use ca_norm::gather::{array_of, polynomial_of, scalar_of};
use ca_norm::{MOST_WEIGHT, Normal, NormalError, Sort, Term, normal, same, weight};
use std::process::Abort;

/// A value in a box.
pub fn boxed<R: AllocGlobal + Abort, T>(rt: &R, value: T) -> Box<T> {
    Box::new(rt.alloc(), value).expect(rt, "a box")
}

/// A term without parts: parameters of the first operation that are numbers or truth values, of the second one, fields that are
/// numbers, arrays or pointers, the receiver, and numbers, `m` below zero.
fn leaf(letter: u8, at: u32, number: i64) -> Term {
    match letter {
        b'p' => Term::Atom(Sort::Long, 1, at),
        b'b' => Term::Atom(Sort::Bool, 1, at),
        b'o' => Term::Atom(Sort::Long, 2, at),
        b'f' => Term::Atom(Sort::Long, 3, at),
        b's' => Term::Atom(Sort::LongArray, 3, at),
        b'q' => Term::Atom(Sort::Pointer, 3, at),
        b'n' => Term::Number(number),
        b'm' => Term::Number(number.wrapping_neg()),
        _ => Term::Null,
    }
}

/// The call of a value method of the receiver with the term as its argument.
fn call<R: AllocGlobal + Abort>(rt: &R, term: Term) -> Term {
    let receiver = boxed(rt, Term::Atom(Sort::Pointer, 0, 0));
    let mut args = Vec::new(rt.alloc());
    args.push(term).expect(rt, "an argument");
    Term::Result(Sort::Long, 3, receiver, args)
}

/// A term with one part.
fn alone<R: AllocGlobal>(rt: &R, letter: u8, part: Box<Term>) -> Term {
    match letter {
        b'N' => Term::Neg(part),
        b'D' => Term::Divide(part, 7),
        b'M' => Term::Remainder(part, 7),
        b'!' => Term::Not(part),
        b'R' => Term::Read(Sort::Pointer, part, 1, 2),
        _ => Term::Result(Sort::Pointer, 3, part, Vec::new(rt.alloc())),
    }
}

/// The operator of a letter, of those whose operands may stand in any order.
fn operator(letter: u8) -> FoldOp {
    match letter {
        b'G' => FoldOp::Max,
        b'K' => FoldOp::Min,
        b'B' => FoldOp::BitAnd,
        b'T' => FoldOp::BitOr,
        _ => FoldOp::BitXor,
    }
}

/// A term with two parts.
fn beside(letter: u8, a: Box<Term>, b: Box<Term>) -> Term {
    match letter {
        b'*' => Term::Mul(a, b),
        b'<' => Term::Less(a, b),
        b'L' => Term::LessEqual(a, b),
        b'=' => Term::Same(a, b),
        b'&' => Term::And(a, b),
        b'|' => Term::Or(a, b),
        b'G' | b'K' | b'B' | b'T' | b'^' => Term::Fold(operator(letter), a, b),
        b'P' => Term::ReadAt(Sort::Pointer, a, 1, 2, b),
        b'I' => Term::ReadAt(Sort::Long, a, 1, 2, b),
        _ => Term::Select(a, b),
    }
}

/// A term with three parts: an array with an item put to an index, or with an addend there, or a choice.
fn three(letter: u8, a: Box<Term>, b: Box<Term>, c: Box<Term>) -> Term {
    match letter {
        b'U' => Term::Put(a, b, c),
        b'A' => Term::AddAt(a, b, c),
        _ => Term::Choose(a, b, c),
    }
}

/// The array under the three terms on top, with the last of them added to the range between the other two.
fn swept<R: AllocGlobal + Abort>(rt: &R, stack: &mut Vec<Term>, addend: Box<Term>) -> Term {
    let to = top_box(rt, stack);
    let from = top_box(rt, stack);
    Term::Sweep(top_box(rt, stack), from, to, addend)
}

/// The term on top, which is taken.
fn top<R: Abort>(rt: &R, stack: &mut Vec<Term>) -> Term {
    stack.pop().expect(rt, "a term")
}

/// The same in a box.
fn top_box<R: AllocGlobal + Abort>(rt: &R, stack: &mut Vec<Term>) -> Box<Term> {
    boxed(rt, top(rt, stack))
}

/// What a letter that takes terms puts in their place. `x` lets two terms change places.
fn made<R: AllocGlobal + Abort>(rt: &R, stack: &mut Vec<Term>, letter: u8) -> Term {
    let above = top(rt, stack);
    match letter {
        b'x' => {
            let below = top(rt, stack);
            stack.push(above).expect(rt, "a term");
            below
        }
        b'+' => Term::add(rt.alloc(), top(rt, stack), above).expect(rt, "a sum"),
        b'-' => Term::sub(rt.alloc(), top(rt, stack), above).expect(rt, "a difference"),
        b'V' => call(rt, above),
        b'N' | b'D' | b'M' | b'!' | b'R' | b'C' => alone(rt, letter, boxed(rt, above)),
        b'U' | b'A' | b'?' => {
            let b = top_box(rt, stack);
            three(letter, top_box(rt, stack), b, boxed(rt, above))
        }
        b'W' => swept(rt, stack, boxed(rt, above)),
        _ => beside(letter, top_box(rt, stack), boxed(rt, above)),
    }
}

/// Puts field 0 squared so many times: each second field closes a square, each fourth one a square of squares, and so on.
fn put_squares<R: AllocGlobal + Abort>(rt: &R, stack: &mut Vec<Term>, times: u32) {
    for n in 0..1_u32.wrapping_shl(times) {
        stack.push(leaf(b'f', 0, 0)).expect(rt, "a field");
        for _ in 0..n.trailing_ones() {
            let above = top_box(rt, stack);
            let square = beside(b'*', top_box(rt, stack), above);
            stack.push(square).expect(rt, "a square");
        }
    }
}

/// Goes through a part once.
fn go<R: AllocGlobal + Abort>(rt: &R, stack: &mut Vec<Term>, part: &str, turn: u32) {
    let mut at: u32 = 0;
    let mut number: i64 = 0;
    for letter in part.as_bytes() {
        if letter.is_ascii_digit() {
            let digit = *letter & 15;
            at = at.wrapping_mul(10).wrapping_add(digit as u32);
            number = number.wrapping_mul(10).wrapping_add(digit as i64);
        } else if *letter == b'i' {
            at = at.wrapping_add(turn);
        } else if *letter == b'w' {
            put_squares(rt, stack, at);
            at = 0;
            number = 0;
        } else {
            let term = match *letter {
                b'p' | b'b' | b'o' | b'f' | b's' | b'q' | b'n' | b'm' | b'z' => leaf(
                    *letter, at, number,
                ),
                _ => made(rt, stack, *letter),
            };
            stack.push(term).expect(rt, "a term");
            at = 0;
            number = 0;
        }
    }
}

/// The term of a text.
fn term<R: AllocGlobal + Abort>(rt: &R, text: &str) -> Term {
    let mut stack = Vec::new(rt.alloc());
    for part in text.split(',') {
        let (times, part) = part.split_once(':').unwrap_or(("1", part));
        let times: u32 = times.parse().expect(rt, "a number");
        for turn in 0..times {
            go(rt, &mut stack, part, turn);
        }
    }
    let term = top(rt, &mut stack);
    assert!(rt; stack.is_empty());
    let_go(stack);
    term
}

/// What a term weighs.
fn weighed<R: AllocGlobal + Abort>(rt: &R, text: &str) -> u64 {
    let term = term(rt, text);
    let weight = weight(&term);
    let_go(term);
    weight
}

/// The form of a term.
fn formed<R: AllocGlobal + Abort>(rt: &R, text: &str) -> Normal {
    let term = term(rt, text);
    let form = normal(rt.alloc(), &term).expect(rt, "a form");
    let_go(term);
    form
}

/// Whether a term has a form that is the same as its copy.
fn has_form<R: AllocGlobal + Abort>(rt: &R, text: &str) -> bool {
    let form = formed(rt, text);
    let copy = form.copy(rt.alloc()).expect(rt, "a copy");
    are_same(form, copy)
}

/// Whether a term is too heavy for a form.
fn is_large<R: AllocGlobal + Abort>(rt: &R, text: &str) -> bool {
    let term = term(rt, text);
    let form = normal(rt.alloc(), &term);
    let_go(term);
    let is_large = matches!(&form, Err(NormalError::Large));
    let_go(form);
    is_large
}

/// Whether two terms have one form.
fn have_one_form<R: AllocGlobal + Abort>(rt: &R, texts: &str) -> bool {
    let (one, other) = texts.split_once(' ').expect(rt, "two terms");
    are_same(formed(rt, one), formed(rt, other))
}

fn are_same(first: Normal, second: Normal) -> bool {
    let answer = same(&first, &second);
    let_go(first);
    let_go(second);
    answer
}

/// How many powers the longest monomial of the term's form has.
fn longest<R: AllocGlobal + Abort>(rt: &R, text: &str) -> usize {
    let term = term(rt, text);
    let form = polynomial_of(rt.alloc(), &term).expect(rt, "a form");
    let_go(term);
    let longest = form.longest();
    let_go(form);
    longest
}

/// Whether the term's form is the same as its copy. The term is too heavy for `normal`.
fn has_scalar_form<R: AllocGlobal + Abort>(rt: &R, text: &str) -> bool {
    let term = term(rt, text);
    let form = scalar_of(rt.alloc(), &term).expect(rt, "a form");
    let_go(term);
    let copy = form.copy(rt.alloc()).expect(rt, "a copy");
    let answer = form.same(&copy);
    let_go(form);
    let_go(copy);
    answer
}

/// Whether the array's form is the same as its copy. The array is too heavy for `normal`.
fn has_array_form<R: AllocGlobal + Abort>(rt: &R, text: &str) -> bool {
    let term = term(rt, text);
    let form = array_of(rt.alloc(), &term).expect(rt, "a form");
    let_go(term);
    let copy = form.copy(rt.alloc()).expect(rt, "a copy");
    let answer = form.same(&copy);
    let_go(form);
    let_go(copy);
    answer
}

/// Whether a row holds: terms that are alike or differ in their forms, a term that has a form or is too heavy for one, one that weighs
/// the most, less or more, the most powers of its monomials, and terms past the limit, which have forms all the same.
fn holds<R: AllocGlobal + Abort>(rt: &R, row: &str) -> bool {
    let (what, text) = row.split_once(' ').expect(rt, "a row");
    match what {
        "alike" => have_one_form(rt, text),
        "differ" => !have_one_form(rt, text),
        "formed" => has_form(rt, text),
        "large" => is_large(rt, text),
        "heaviest" => weighed(rt, text) == MOST_WEIGHT,
        "light" => weighed(rt, text) < MOST_WEIGHT,
        "past" => weighed(rt, text) > MOST_WEIGHT,
        "powers" => longest(rt, text) <= 320,
        "scalar" => has_scalar_form(rt, text),
        "array" => has_array_form(rt, text),
        _ => false,
    }
}

/// Ends the test unless all rows hold. A line with `//` tells what the rows behind it are for.
pub fn hold<R: AllocGlobal + Abort>(rt: &R, rows: &str) {
    for row in rows.lines() {
        if !row.starts_with("//") {
            assert!(rt; holds(rt, row), "{row}");
        }
    }
}

/// Ends the test unless all rows hold with each of the kinds in place of `$`.
pub fn hold_for_each<R: AllocGlobal + Abort>(rt: &R, kinds: &str, rows: &str) {
    for kind in kinds.lines() {
        let rows = rows.replace(rt.alloc(), "$", kind).expect(rt, "rows");
        hold(rt, &rows);
    }
}
