//! Marks, and what says where they stand.

ghost use Rattle.std.specs.Prelude.{◌≡◌};
ghost use Rattle.ca_tree.specs.Plain.{Statement};
ghost use Rattle.ca_tree.specs.View.{statement_view};
ghost use Rattle.ca_canonical.specs.Marks.{Marking, front_view, mark_text, no_marks};

use ca_tree::{Place, StmtNode};

/// A mark, a comment that stands directly before a token.
#[derive(Clone, Copy, PartialEq, Eq)]
pub enum Mark {
    Lock,
    Unlock,
    Spawn,
    Parallel,
}

impl Mark {
    /// The text of the mark.
    pub fn text(self) -> &'static str
        ensures { result.now ≡ mark_text self }
    {
        match self {
            Mark::Lock => "/*@lock*/",
            Mark::Unlock => "/*@unlock*/",
            Mark::Spawn => "/*@spawn*/",
            Mark::Parallel => "/*@parallel*/",
        }
    }
}

/// What says which marks stand in a text.
///
/// A body is named by the place of its method's name, and that of `main` by none.
pub trait Marks {
    /// Which marks stand where.
    ghost marking: { Self → Marking };

    /// The marks before a statement of a body, with the statement in front of it in the same list; there is none at the
    /// beginning of a list, of a branch and of the body of a loop.
    fn before(&self, body: Option<Place>, front: Option<&StmtNode>, s: &StmtNode) -> &'static [Mark]
        ensures { result.now ≡ (marking self.now).before body (front_view front.entry) (statement_view s.now) };

    /// The marks behind the `{` of a method's body.
    fn opening(&self, body: Place) -> &'static [Mark]
        ensures { result.now ≡ (marking self.now).opening body };

    /// The marks before the `}` of a method's body.
    fn closing(&self, body: Place) -> &'static [Mark]
        ensures { result.now ≡ (marking self.now).closing body };
}

/// No mark anywhere.
pub struct NoMarks;

impl Marks for NoMarks {
    ghost marking = { λ marks. no_marks };

    fn before(
        &self,
        _body: Option<Place>,
        _front: Option<&StmtNode>,
        _s: &StmtNode,
    ) -> &'static [Mark] {
        &[]
    }

    fn opening(&self, _body: Place) -> &'static [Mark] {
        &[]
    }

    fn closing(&self, _body: Place) -> &'static [Mark] {
        &[]
    }
}
