//! From the places that run in parallel to the marks before each statement: `marking_by` of `specs/Annotations.antt`.

ghost use Rattle.std.specs.Prelude.{◌≡◌};
ghost use Rattle.ca_canonical.specs.declared.marks.Mark.TheVariants.{Lock, Unlock, Parallel};
ghost use Rattle.ca_canonical.specs.Marks.{front_view};
ghost use Rattle.ca_tree.specs.View.{statement_view};
ghost use Rattle.ca_emit.specs.Annotations.{before_call, before_site, call_marks, has_place, is_among, marking_by, marks_if};

use crate::places::Places;
use crate::receivers::follows;
use ca_canonical::{Mark, Marks};
use ca_tree::{Place, StmtKind, StmtNode};

/// The bodies of parallel operations that take a lock, those of all parallel operations, and the calls and loops of other
/// bodies that run in parallel.
#[derive(Drop)]
pub(crate) struct Marked {
    pub locked: Places,
    pub parallel: Places,
    pub sites: Places,
}

fn lock_if(marked: bool) -> &'static [Mark]
    ensures { result.now ≡ marks_if marked Lock }
{
    if marked { &[Mark::Lock] } else { &[] }
}

fn unlock_if(marked: bool) -> &'static [Mark]
    ensures { result.now ≡ marks_if marked Unlock }
{
    if marked { &[Mark::Unlock] } else { &[] }
}

fn parallel_if(marked: bool) -> &'static [Mark]
    ensures { result.now ≡ marks_if marked Parallel }
{
    if marked { &[Mark::Parallel] } else { &[] }
}

/// Before a call that is spawned, in an operation that takes a lock or in a free one.
fn call_marks(locked: bool) -> &'static [Mark]
    ensures { result.now ≡ call_marks locked }
{
    if locked {
        &[Mark::Unlock, Mark::Spawn]
    } else {
        &[Mark::Spawn]
    }
}

/// Before a statement of a parallel operation, with the statement in front of it.
fn before_call(locked: bool, front: Option<&StmtNode>, s: &StmtNode) -> &'static [Mark]
    ensures { result.now ≡ before_call locked (front_view front.entry) (statement_view s.now) }
{
    match &s.kind {
        StmtKind::Call(call) => {
            if follows(front, call) {
                &[]
            } else {
                call_marks(locked)
            }
        }
        _ => &[],
    }
}

/// Whether a body is among these.
fn is_among(bodies: &Places, body: Option<Place>) -> bool
    ensures { result ≡ is_among (has_place bodies.now) body }
{
    match body {
        None => false,
        Some(at) => bodies.has(at),
    }
}

impl Marked {
    /// Before a statement of another body.
    fn before_site(&self, s: &StmtNode) -> &'static [Mark]
        ensures { result.now ≡ before_site (has_place self.now.sites) (statement_view s.now) }
    {
        match &s.kind {
            StmtKind::Call(_) => parallel_if(self.sites.has(s.at)),
            StmtKind::For { .. } => parallel_if(self.sites.has(s.at)),
            _ => &[],
        }
    }
}

impl Marks for Marked {
    ghost marking = { λ m. marking_by (has_place m.locked) (has_place m.parallel) (has_place m.sites) };

    fn before(
        &self,
        body: Option<Place>,
        front: Option<&StmtNode>,
        s: &StmtNode,
    ) -> &'static [Mark] {
        if is_among(&self.locked, body) {
            before_call(true, front, s)
        } else if is_among(&self.parallel, body) {
            before_call(false, front, s)
        } else {
            self.before_site(s)
        }
    }

    fn opening(&self, body: Place) -> &'static [Mark] {
        lock_if(self.locked.has(body))
    }

    fn closing(&self, body: Place) -> &'static [Mark] {
        unlock_if(self.locked.has(body))
    }
}
