//! The tokens of a small text.

use crate::sources::tokens;
use ca_lex::end_place;
use ca_tree::{Kind, Token};
use std::process::Abort;
use std::str::from_utf8;

/// What a token is and its text, its line, its column, where it starts and how long it is.
const TOKENS: &str = "key word this 1 1 0 4
name x1 2 2 6 2
sign <= 2 9 13 2
number 40 2 12 16 2";

/// What a token is and its text.
fn kind<R: AllocGlobal + Abort>(rt: &R, kind: &Kind) -> String {
    let alloc = rt.alloc();
    let told = match kind {
        Kind::Key(key) => format!(in alloc; "key word {}", key.text()),
        Kind::Word(name) => {
            let text = from_utf8(name.as_bytes()).expect(rt, "a text");
            format!(in alloc; "name {text}")
        }
        Kind::Sign(sign) => format!(in alloc; "sign {}", sign.text()),
        Kind::Number(number) => format!(in alloc; "number {}", *number),
    };
    told.expect(rt, "a text")
}

/// Whether a row tells what the token is and where it stands.
fn is_shown<R: AllocGlobal + Abort>(rt: &R, token: &Token, row: &str) -> bool {
    let kind = kind(rt, &token.kind);
    let shown = format!(in rt.alloc();
        "{} {} {} {} {}",
        kind.as_str(),
        token.at.line,
        token.at.column,
        token.start,
        token.len
    );
    shown.expect(rt, "a text").as_str() == row
}

#[test]
fn reads_tokens(rt: HostRuntime) {
    let tokens = tokens(&rt, "this\n x1 /**/<= 40");
    assert!(rt; tokens.len() == 4);
    for (token, row) in tokens.iter().zip(TOKENS.lines()) {
        assert!(rt; is_shown(&rt, token, row), "{row}");
    }
    let end = end_place(b"this\n x1");
    assert!(rt; end.line == 2 && end.column == 4);
}
