//! Tokens, trees and programs of sources, each lent for good. Where a source has none, or memory runs out, the test ends, so that
//! nothing lives where a function may end early.

ghost use Rattle.std.specs.Prelude.{◌≡◌, ℕ, List};
ghost use Rattle.ca_tree.specs.declared.token.Token.{Token};
ghost use Rattle.ca_tree.specs.View.{tree_view};
ghost use Rattle.ca_program.specs.View.{program_view};
ghost use Rattle.ca_lex.specs.Tokens.{Tokens};
ghost use Rattle.ca_parse.specs.Grammar.{DerivesWithin};
ghost use Rattle.ca_resolve.specs.Judged.{fine};
ghost use Rattle.ca_types.specs.Classes.{judge};
ghost use Rattle.ca_meaning.specs.ProgramTyped.{ProgramTyped};

use ca_code::{PlainBodies, lay_out_with};
use ca_lex::{LONGEST_TEXT, lex};
use ca_parse::parse;
use ca_program::Program;
use ca_sections::Coded;
use ca_steps::Laid;
use ca_tree::{Token, Tree};
use ca_types::check;
use std::process::Abort;

/// Lets a value go. A tree, a program or a form that lives at a function's end has its destructor written out there, and here it is
/// one call.
pub fn let_go<T: Drop>(_value: T) {}

/// Lends a value for good. What is lent has no owner in a test, so nobody drops it.
pub fn lent<'a, R: AllocGlobal + Abort, T: Drop + 'a>(rt: &R, value: T) -> &'a T
    ensures { result.now ≡ value }
{
    let lent = Box::leak(Box::new(rt.alloc(), value).expect(rt, "a box"));
    &*lent
}

/// The tokens of a text.
pub fn tokens<'a, R: AllocGlobal + Abort>(rt: &R, text: &str) -> &'a Vec<Token>
    ensures { (bytes : List ℕ) × Tokens bytes result.now.items }
{
    assert!(rt; text.len() <= LONGEST_TEXT);
    lent(rt, lex(rt.alloc(), text.as_bytes()).expect(rt, "tokens"))
}

/// The tree of a text.
pub fn tree<'a, R: AllocGlobal + Abort>(rt: &R, text: &str) -> &'a Tree
    ensures { (bytes : List ℕ) × (tokens : List Token) × Tokens bytes tokens × DerivesWithin tokens (tree_view result.now) }
{
    lent(rt, parse(rt.alloc(), tokens(rt, text)).expect(rt, "a tree"))
}

/// The program of a tree.
pub fn checked<'a, R: AllocGlobal + Abort>(rt: &R, tree: &Tree) -> &'a Program
    ensures { judge (tree_view tree.now) ≡ fine (program_view result.now) }
{
    lent(rt, check(rt.alloc(), tree).expect(rt, "a program"))
}

/// The program of a text, which is typed.
pub fn program<'a, R: AllocGlobal + Abort>(rt: &R, text: &str) -> &'a Program
    ensures { ProgramTyped (program_view result.now) }
{
    checked(rt, tree(rt, text))
}

/// The program of a text with its code, by which sections run.
pub fn coded<'a, R: AllocGlobal + Abort>(rt: &R, text: &str) -> &'a Coded<'a> {
    let alloc = rt.alloc();
    let program = program(rt, text);
    let Ok(code) = lay_out_with(alloc, program, &PlainBodies) else {
        panic!(rt; "no code");
    };
    let Ok(laid) = Laid::of(alloc, code) else {
        panic!(rt; "nothing to run");
    };
    let laid = lent(rt, laid);
    let Ok(coded) = Coded::of(alloc, program, laid) else {
        panic!(rt; "no bodies that fit");
    };
    lent(rt, coded)
}

/// A text in which `$` stands for the end of a line.
pub fn with_lines<R: AllocGlobal + Abort>(rt: &R, text: &str) -> String {
    text.replace(rt.alloc(), "$", "\n").expect(rt, "a text")
}

/// Adds a part, with a number in four digits for `#`.
fn add_part<R: AllocGlobal + Abort>(rt: &R, text: &mut String, part: &str, number: u32) {
    let number = format!(in rt.alloc(); "{number:04}").expect(rt, "a number");
    let part = part.replace(rt.alloc(), "#", &number).expect(rt, "a part");
    text.push_str(&part).expect(rt, "a part");
}

/// A text of rows: how often each stands, and behind `|` what stands so often, each time with its number in four digits for `#`.
pub fn spread<R: AllocGlobal + Abort>(rt: &R, rows: &str) -> String {
    let mut text = String::new(rt.alloc());
    for row in rows.lines() {
        let (times, part) = row.split_once('|').expect(rt, "a row");
        let times: u32 = times.parse().expect(rt, "a number");
        for number in 0..times {
            add_part(rt, &mut text, part, number);
        }
    }
    text
}

/// Rows in which a word stands for a number.
pub fn with_number<R: AllocGlobal + Abort>(rt: &R, rows: &str, word: &str, number: u32) -> String {
    let number = format!(in rt.alloc(); "{number}").expect(rt, "a number");
    rows.replace(rt.alloc(), word, &number).expect(rt, "rows")
}
