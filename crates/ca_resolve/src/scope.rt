//! Where an expression stands.

ghost use Rattle.std.specs.Prelude.{◌≡◌};
ghost use Rattle.std.specs.Option.{option_map};
ghost use Rattle.ca_resolve.specs.Scopes.{own_member};
ghost use Rattle.ca_resolve.specs.View.{scope_view, meaning_view};

use crate::classes::{ClassTable, Meaning};
use crate::locals::Locals;
use ca_program::ClassId;
use ca_tree::Name;

/// Where an expression stands: among all classes, in a method of a class or in `main`, and behind
/// the locals that it sees.
#[derive(Clone, Copy)]
pub struct Scope<'s, 'a> {
    pub classes: &'s ClassTable<'a>,
    /// None in `main`.
    pub class: Option<ClassId>,
    pub locals: &'s Locals<'a>,
}

impl<'s, 'a> Scope<'s, 'a> {
    /// The member that a name alone means.
    pub(crate) fn own_member(&self, name: &Name) -> Option<&'s Meaning<'a>>
        ensures { option_map (λ m. meaning_view m.now) result ≡ own_member (scope_view self.now) name.now }
    {
        match self.class {
            Some(class) => self.classes.find_member(class, name),
            None => None,
        }
    }
}
