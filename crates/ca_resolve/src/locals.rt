//! The locals that are visible, from a name to its local: `find_local` of `specs/Scopes.antt`.

ghost use Rattle.std.specs.Prelude.{◌≡◌, ◌∷◌, [], drop, length, slice_get, IfOk};
ghost use Rattle.std.specs.Option.{option_map};
ghost use Rattle.ca_resolve.specs.Scopes.{find_local};
ghost use Rattle.ca_resolve.specs.LocalView.{local_view};

use crate::types::Ty;
use ca_program::LocalId;
use ca_tree::Name;
use std::alloc::{AllocError, Global};
use std::collections::BTreeMap;
use std::marker::Model;

/// A local that is visible.
#[derive(Clone, Copy)]
pub struct VisibleLocal<'a> {
    pub name: &'a Name,
    pub id: LocalId,
    pub ty: Ty<'a>,
}

/// A visible local, with the number of the local of its name that it hides.
#[derive(Clone, Copy)]
struct Shadow<'a> {
    local: VisibleLocal<'a>,
    hides: Option<usize>,
}

/// The locals that are visible, seen by contracts with the innermost first.
#[derive(Drop)]
pub struct Locals<'a> {
    all: Vec<Shadow<'a>>,
    innermost: BTreeMap<&'a [u8], usize>,
}

impl<'a> Model for Locals<'a> {
    ghost use Rattle.std.specs.Prelude.{List};
    ghost use Rattle.ca_resolve.specs.Scopes.{VisibleLocal as PlainLocal};

    ghost Value = { List PlainLocal };

    ghost use Rattle.ca_resolve.specs.clauses.Shadows.{innermost_first, FindsLocals};

    ghost view = { λ s. innermost_first s.all.items };

    ghost invariant = { λ s. FindsLocals s.innermost s.all.items };
}

impl<'a> Locals<'a> {
    /// No locals.
    pub fn new(alloc: Global) -> Locals<'a>
        ensures { result ≡ [] }
    {
        Locals {
            all: Vec::new(alloc),
            innermost: BTreeMap::new(alloc),
        }
    }

    /// How many are visible.
    pub fn len(&self) -> usize
        ensures { result ≡ length self.now }
    {
        self.all.len()
    }

    /// A local inside all others.
    pub fn push(&mut self, local: VisibleLocal<'a>) -> Result<(), AllocError>
        ensures { IfOk result (λ _. self.new ≡ local_view local.entry ∷ self.old) }
    {
        let name = local.name.as_bytes();
        let hides = self.innermost.get(name).copied();
        let number = self.all.len();
        self.all.push(Shadow { local, hides })?;
        if self.innermost.insert(name, number).is_err() {
            self.all.truncate(number);
            return Err(AllocError);
        }
        Ok(())
    }

    /// Leaves the innermost local.
    pub fn pop(&mut self)
        ensures { self.new ≡ drop 1 self.old }
    {
        if let Some(shadow) = self.all.pop() {
            let name = shadow.local.name.as_bytes();
            match shadow.hides {
                Some(number) => {
                    let _ = self.innermost.insert(name, number);
                }
                None => {
                    self.innermost.remove(name);
                }
            }
        }
    }

    /// The innermost local of the name.
    pub fn find(&self, name: &Name) -> Option<VisibleLocal<'a>>
        ensures { option_map local_view result ≡ find_local self.now name.now }
    {
        match self.innermost.get(name.as_bytes()) {
            Some(number) => local_at(&self.all, *number),
            None => None,
        }
    }
}

fn local_at<'a>(all: &[Shadow<'a>], number: usize) -> Option<VisibleLocal<'a>>
    ensures { result ≡ option_map (λ s. s.local) (slice_get all.now number) }
{
    if number < all.len() {
        Some(all[number].local)
    } else {
        None
    }
}
