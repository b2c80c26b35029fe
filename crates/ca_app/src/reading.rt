//! From a text to its program, or the refusal that it is told: `specs/clauses/Reading.antt`, by `specs/Accepted.antt` and
//! `Refusals.antt`.

ghost use Rattle.std.specs.Prelude.{◌≡◌, ◌≤◌, length, IfOk};
ghost use Rattle.std.specs.Result.{IfErr};
ghost use Rattle.ca_tree.specs.View.{tree_view};
ghost use Rattle.ca_program.specs.View.{program_view};
ghost use Rattle.ca_app.specs.Accepted.{HasTokens, token_place};
ghost use Rattle.ca_app.specs.clauses.Reading.{HasOneTree, IsProgramOf, IsCauseFor};
ghost use Rattle.ca_app.specs.declared.serving.TheConstants.{MOST_BYTES};

use crate::refusals::{NO_TOKEN, Refusal, TOO_DEEP, TOO_GREAT, TOO_MANY, WRONG_TOKEN};
use ca_lex::{LexError, end_place, lex};
use ca_parse::{ParseError, parse};
use ca_program::Program;
use ca_resolve::CheckError;
use ca_tree::{Place, Token, Tree};
use ca_types::check;
use std::alloc::Global;

/// Why a text has no program: it is refused, or memory runs out.
#[derive(Clone, Copy, PartialEq, Eq)]
pub enum NoProgram {
    Refused(Refusal),
    Memory,
}

/// The program and the tree of a text.
#[derive(Drop)]
pub struct Reading {
    pub program: Program,
    pub tree: Tree,
}

/// Reads a text that isn't too long.
pub fn read_program(alloc: Global, text: &[u8]) -> Result<Reading, NoProgram>
    requires { length text.now ≤ MOST_BYTES }
    ensures program { IfOk result (λ r. IsProgramOf text.now (program_view r.program)) }
    ensures tree { IfOk result (λ r. HasOneTree text.now (tree_view r.tree)) }
    ensures cause { IfErr result (IsCauseFor text.now) }
{
    let tokens = tokens_of(alloc, text)?;
    let tree = tree_of(alloc, text, &tokens)?;
    match check(alloc, &tree) {
        Ok(program) => Ok(Reading { program, tree }),
        Err(CheckError::Violation(at, code)) => Err(NoProgram::Refused(Refusal { at, code })),
        Err(CheckError::Limit(at, code)) => Err(NoProgram::Refused(Refusal { at, code })),
        Err(CheckError::Memory) => Err(NoProgram::Memory),
    }
}

/// The tokens of a text.
fn tokens_of(alloc: Global, text: &[u8]) -> Result<Vec<Token>, NoProgram>
    requires { length text.now ≤ MOST_BYTES }
    ensures tokens { IfOk result (λ tokens. HasTokens text.now tokens.items) }
    ensures cause { IfErr result (IsCauseFor text.now) }
{
    match lex(alloc, text) {
        Ok(tokens) => Ok(tokens),
        Err(LexError::BadByte(at)) => Err(NoProgram::Refused(Refusal { at, code: NO_TOKEN })),
        Err(LexError::WideNumber(at)) => Err(NoProgram::Refused(Refusal {
            at,
            code: TOO_GREAT,
        })),
        Err(LexError::Limit(at)) => Err(NoProgram::Refused(Refusal { at, code: TOO_MANY })),
        Err(LexError::Memory) => Err(NoProgram::Memory),
    }
}

/// The tree of a text that has these tokens.
fn tree_of(alloc: Global, text: &[u8], tokens: &[Token]) -> Result<Tree, NoProgram>
    requires { HasTokens text.now tokens.now }
    ensures tree { IfOk result (λ tree. HasOneTree text.now (tree_view tree)) }
    ensures cause { IfErr result (IsCauseFor text.now) }
{
    match parse(alloc, tokens) {
        Ok(tree) => Ok(tree),
        Err(ParseError::Syntax(k)) => Err(NoProgram::Refused(Refusal {
            at: token_place(text, tokens, k),
            code: WRONG_TOKEN,
        })),
        Err(ParseError::Deep(k)) => Err(NoProgram::Refused(Refusal {
            at: token_place(text, tokens, k),
            code: TOO_DEEP,
        })),
        Err(ParseError::Memory) => Err(NoProgram::Memory),
    }
}

/// The place of a token, or the place behind the last byte where there is no such token.
fn token_place(text: &[u8], tokens: &[Token], k: usize) -> Place
    requires { length text.now ≤ MOST_BYTES }
    ensures { result ≡ token_place text.now tokens.now k }
{
    match tokens.get(k) {
        Some(token) => token.at,
        None => end_place(text),
    }
}
