//! Kinds of bodies: what calls of operations, puts to fields, creations and prints are laid out to, and which loops are handed on.

ghost use Rattle.std.specs.Prelude.{◌≡◌, true, map};
ghost use Rattle.ca_program.specs.Kinds.{kind_type, kinds_in};
ghost use Rattle.ca_program.specs.Layout.{all_acts, no_acts, no_hands};
ghost use Rattle.ca_program.specs.View.{program_view, statement_view};
ghost use Rattle.ca_code.specs.Seen.{placed};
ghost use Rattle.ca_code.specs.Texts.{IsCopied};
ghost use Rattle.ca_code.specs.Laying.{Adds, HandsOn};

use crate::ins::Row;
use crate::rows::Rows;
use crate::scope::Scope;
use ca_program::Stmt;

/// A kind of bodies.
pub trait Bodies {
    ghost use Rattle.std.specs.Prelude.{List};
    ghost use Rattle.ca_program.specs.Kinds.{Kind, Kinds};
    ghost use Rattle.ca_program.specs.Instructions.{Placed};
    ghost use Rattle.ca_program.specs.Layout.{Acts, Hands};

    /// What acts are laid out to.
    ghost acts: { Self → Kinds → Acts };

    /// What loops are laid out to that are handed on, with the kinds of all locals of the body.
    ghost hands: { Self → Kinds → List Kind → Hands };

    /// What a row of a body that heeds no marks is changed to.
    ghost changed: { Self → Placed → Placed };

    /// Adds what an act is laid out to.
    fn act<'a>(&self, scope: &Scope<'a>, rows: &mut Rows<'a>, line: u32, s: &'a Stmt, top: u32)
        ensures { Adds rows.old rows.new (acts self.now (kinds_in (program_view scope.now.program.now) scope.now.locals.now) line (statement_view s.now) top) };

    /// Adds what a loop is laid out to, and answers true, if it is handed on.
    fn hand<'a>(
        &self,
        scope: &Scope<'a>,
        rows: &mut Rows<'a>,
        line: u32,
        s: &'a Stmt,
        top: u32,
    ) -> bool
        ensures { HandsOn rows.old rows.new (hands self.now (kinds_in (program_view scope.now.program.now) scope.now.locals.now) (map kind_type scope.now.locals.now) line (statement_view s.now) top) result };

    /// Whether they are the bodies that heed no marks, with each row changed. Then they needn't be walked once more.
    fn is_copied(&self) -> bool
        ensures { result ≡ true → IsCopied (acts self.now) (hands self.now) (changed self.now) };

    /// The row, changed.
    fn change<'a>(&self, row: Row<'a>) -> Row<'a>
        ensures { placed result ≡ changed self.now (placed row.entry) };
}

/// Those of value methods, which do nothing of this.
pub struct ValueBodies;

impl Bodies for ValueBodies {
    ghost acts = { λ s ks. no_acts };

    ghost hands = { λ s ks κs. no_hands };

    ghost changed = { λ s r. r };

    fn act<'a>(
        &self,
        _scope: &Scope<'a>,
        _rows: &mut Rows<'a>,
        _line: u32,
        _s: &'a Stmt,
        _top: u32,
    ) {}

    fn hand<'a>(
        &self,
        _scope: &Scope<'a>,
        _rows: &mut Rows<'a>,
        _line: u32,
        _s: &'a Stmt,
        _top: u32,
    ) -> bool {
        false
    }

    fn is_copied(&self) -> bool {
        false
    }

    fn change<'a>(&self, row: Row<'a>) -> Row<'a> {
        row
    }
}

/// Those of operations and of `main`, which heed no marks.
pub struct PlainBodies;

impl Bodies for PlainBodies {
    ghost acts = { λ s ks. all_acts ks };

    ghost hands = { λ s ks κs. no_hands };

    ghost changed = { λ s r. r };

    fn act<'a>(&self, scope: &Scope<'a>, rows: &mut Rows<'a>, line: u32, s: &'a Stmt, top: u32) {
        scope.act(rows, line, s, top);
    }

    fn hand<'a>(
        &self,
        _scope: &Scope<'a>,
        _rows: &mut Rows<'a>,
        _line: u32,
        _s: &'a Stmt,
        _top: u32,
    ) -> bool {
        false
    }

    fn is_copied(&self) -> bool {
        false
    }

    fn change<'a>(&self, row: Row<'a>) -> Row<'a> {
        row
    }
}
