//! The text as far as it has been written.

ghost use Rattle.std.specs.Prelude.{◌≡◌, ◌<◌, ◌^◌, [], ◌∷◌, ◌++◌, false, IfOk, OnOk};
ghost use Rattle.ca_tree.specs.declared.token.Kind.TheVariants.{Word, Number, Key, Sign as SignKind};
ghost use Rattle.ca_canonical.specs.Texts.{depth_behind_sign, gap_behind, is_semicolon};
ghost use Rattle.ca_canonical.specs.Marks.{marks};
ghost use Rattle.ca_canonical.specs.clauses.Pens.{Puts, Writes, WritesPieces, put, waiting, whole};

use crate::marks::Mark;
use ca_tree::{Keyword, Name, Sign};
use itoa::Buffer;
use std::alloc::{AllocError, Global};
use std::marker::Model;

/// The text of some pieces, and what decides on the byte behind the last of them.
#[derive(Drop)]
pub(crate) struct Pen {
    text: Vec<u8>,
    /// Within how many round brackets the text ends.
    depth: usize,
    /// Whether the last token is a `}`, and the byte behind it waits for the next token.
    brace: bool,
    /// Whether memory ran out, so that there is no text in the end.
    failed: bool,
}

impl Model for Pen {
    ghost use Rattle.std.specs.Prelude.{◌≤◌, length};
    ghost use Rattle.ca_canonical.specs.clauses.Pens.{Written};

    ghost Value = { Written };

    ghost view = { λ p. record { text = p.text.items; depth = p.depth; brace = p.brace; failed = p.failed } };

    ghost invariant = { λ p. p.depth ≤ length p.text.items };
}

/// The byte behind a sign within so many round brackets; behind a `}` what follows decides.
fn gap_behind(depth: usize, sign: Sign) -> Option<u8>
    ensures { result ≡ gap_behind depth sign }
{
    match sign {
        Sign::OpenBrace => Some(b'\n'),
        Sign::Colon => Some(b'\n'),
        Sign::Semicolon => Some(if depth == 0 { b'\n' } else { b' ' }),
        Sign::CloseBrace => None,
        _ => Some(b' '),
    }
}

/// The round brackets that are open behind a sign.
fn depth_behind(depth: usize, sign: Sign) -> usize
    requires { depth < 2 ^ 63 }
    ensures { result ≡ depth_behind_sign depth sign }
{
    match sign {
        Sign::OpenParenthesis => depth + 1,
        Sign::CloseParenthesis => depth.saturating_sub(1),
        _ => depth,
    }
}

/// Whether the sign is `;`.
fn is_semicolon(sign: Sign) -> bool
    ensures { result ≡ is_semicolon sign }
{
    matches!(sign, Sign::Semicolon)
}

impl Pen {
    /// Nothing has been written.
    pub fn new(alloc: Global) -> Pen
        ensures { result ≡ record { text = []; depth = 0; brace = false; failed = false } }
    {
        Pen {
            text: Vec::new(alloc),
            depth: 0,
            brace: false,
            failed: false,
        }
    }

    /// Writes the byte behind a `}` that waits for it, where a `;` follows or not.
    fn end_brace(&mut self, semicolon: bool) -> Result<(), AllocError>
        ensures text { IfOk result (λ _. self.new.text ≡ self.old.text ++ waiting self.old.brace semicolon) }
        ensures depth { self.new.depth ≡ self.old.depth }
        ensures brace { IfOk result (λ _. self.new.brace ≡ false) }
        ensures failed { self.new.failed ≡ self.old.failed }
    {
        if self.brace {
            self.text.push(if semicolon { b' ' } else { b'\n' })?;
            self.brace = false;
        }
        Ok(())
    }

    /// Writes a piece of this text, a `;` or not, and the byte behind it unless it waits, if there is memory.
    fn add(&mut self, semicolon: bool, text: &[u8], gap: Option<u8>) -> Result<(), AllocError>
        ensures put { IfOk result (λ _. self.new ≡ put semicolon text.now gap self.old) }
        ensures failed { self.new.failed ≡ self.old.failed }
    {
        self.end_brace(semicolon)?;
        self.text.extend_from_slice(text)?;
        match gap {
            Some(gap) => self.text.push(gap)?,
            None => self.brace = true,
        }
        Ok(())
    }

    /// Writes such a piece, or keeps in mind that memory ran out.
    fn put(&mut self, semicolon: bool, text: &[u8], gap: Option<u8>)
        ensures { Puts semicolon text.now gap self.old self.new }
    {
        if self.add(semicolon, text, gap).is_err() {
            self.failed = true;
        }
    }

    /// Writes a name.
    pub fn name(&mut self, name: &Name)
        ensures { Writes self.old self.new (Word name.now ∷ []) }
    {
        self.put(false, name.as_bytes(), Some(b' '));
    }

    /// Writes a number.
    pub fn number(&mut self, n: i64)
        ensures { Writes self.old self.new (Number n ∷ []) }
    {
        let mut buffer = Buffer::new();
        self.put(false, buffer.format(n).as_bytes(), Some(b' '));
    }

    /// Writes a key word.
    pub fn key(&mut self, key: Keyword)
        ensures { Writes self.old self.new (Key key ∷ []) }
    {
        self.put(false, key.text().as_bytes(), Some(b' '));
    }

    /// Writes a sign.
    pub fn sign(&mut self, sign: Sign)
        ensures { Writes self.old self.new (SignKind sign ∷ []) }
    {
        let gap = gap_behind(self.depth, sign);
        self.put(is_semicolon(sign), sign.text().as_bytes(), gap);
        if self.failed {
            return;
        }
        self.depth = depth_behind(self.depth, sign);
    }

    /// Writes a mark.
    fn mark(&mut self, mark: Mark)
        ensures { WritesPieces self.old self.new (marks (mark ∷ [])) }
    {
        self.put(false, mark.text().as_bytes(), Some(b' '));
    }

    /// Writes marks.
    pub fn marks(&mut self, all: &[Mark])
        ensures { WritesPieces self.old self.new (marks all.now) }
    {
        'marks: for one in all {
            self.mark(*one);
        }
    }

    /// The whole text, if there was memory for it.
    pub fn finish(mut self) -> Result<Vec<u8>, AllocError>
        ensures text { IfOk result (λ text. text.items ≡ whole self []) }
        ensures failed { OnOk result (self.failed ≡ false) }
    {
        if self.failed {
            return Err(AllocError);
        }
        self.end_brace(false)?;
        Ok(self.text)
    }
}
