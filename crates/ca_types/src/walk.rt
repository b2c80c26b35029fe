//! Where a statement stands.

ghost use Rattle.std.specs.Prelude.{◌≡◌, ◌+◌, ◌∷◌, [], drop, length, map, IfOk, OnOk};
ghost use Rattle.std.specs.Option.{option_map};
ghost use Rattle.ca_resolve.specs.LocalView.{ty_view};
ghost use Rattle.ca_resolve.specs.View.{scope_view, classes_view};
ghost use Rattle.ca_resolve.specs.Judged.{Finds};
ghost use Rattle.ca_resolve.specs.Scopes.{find_local};
ghost use Rattle.ca_types.specs.Rules.{listed, local_once};
ghost use Rattle.ca_types.specs.Statements.{type_of, declare, enter_block, counted};
ghost use Rattle.ca_types.specs.Classes.{beginning};
ghost use Rattle.ca_types.specs.clauses.View.{env_view, left};

use crate::carried::add;
use crate::rules::{Answer, rule};
use ca_program::{ClassId, LocalId, LoopId, ValueType};
use ca_resolve::codes::LOCAL_TWICE;
use ca_resolve::{ClassTable, Locals, Scope, Ty, VisibleLocal};
use ca_tree::{Name, Place};
use std::alloc::{AllocError, Global};

/// How many locals are visible outside a block, and the number of the first local of the block round it.
#[derive(Clone, Copy)]
pub(crate) struct Outer {
    pub(crate) visible: usize,
    pub(crate) first: usize,
}

/// Where a statement stands in its body, and what the body and the program have before.
#[derive(Drop)]
pub(crate) struct Walk<'s, 'a> {
    pub(crate) classes: &'s ClassTable<'a>,
    /// None in `main`.
    pub(crate) class: Option<ClassId>,
    /// In a value method, the type of its result.
    pub(crate) result: Option<Ty<'a>>,
    pub(crate) visible: Locals<'a>,
    /// The number of the first local that is this block's.
    pub(crate) first: usize,
    /// The types of all locals of the body so far, parameters first.
    pub(crate) locals: Vec<ValueType>,
    /// How many `for` statements the program has before.
    pub(crate) loops: u32,
}

impl<'s, 'a> Walk<'s, 'a> {
    /// Where a body begins, behind so many `for` statements.
    pub(crate) fn new(
        alloc: Global,
        classes: &'s ClassTable<'a>,
        class: Option<ClassId>,
        loops: u32,
        returned: Option<Ty<'a>>,
    ) -> Walk<'s, 'a>
        ensures { env_view result ≡ beginning (classes_view classes.now) class loops (option_map ty_view returned.entry) }
    {
        Walk {
            classes,
            class,
            result: returned,
            visible: Locals::new(alloc),
            first: 0,
            locals: Vec::new(alloc),
            loops,
        }
    }

    /// What names mean here.
    pub(crate) fn scope(&self) -> Scope<'_, 'a>
        ensures { scope_view result ≡ (env_view self.now).scope }
    {
        Scope {
            classes: self.classes,
            class: self.class,
            locals: &self.visible,
        }
    }

    /// How many locals the body has declared.
    pub(crate) fn count(&self) -> usize
        ensures { result ≡ length (env_view self.now).locals }
    {
        self.locals.len()
    }

    /// The number of the next local; a body that has none is larger than any memory.
    pub(crate) fn next_local(&self) -> Result<LocalId, AllocError>
        ensures { IfOk result (λ l. l ≡ record { 0 = length (env_view self.now).locals }) }
    {
        let number = u32::try_from(self.count()).or(Err(AllocError))?;
        Ok(LocalId(number))
    }

    /// Declares a local.
    pub(crate) fn declare(&mut self, ty: Ty<'a>, name: &'a Name) -> Result<(), AllocError>
        ensures { OnOk result (env_view self.new ≡ declare (env_view self.old) (ty_view ty.entry) name.now) }
    {
        let id = self.next_local()?;
        self.visible.push(VisibleLocal { name, id, ty })?;
        add(&mut self.locals, type_of(&ty))
    }

    /// Begins a block, and gives what the block round it needs at its end.
    pub(crate) fn enter_block(&mut self) -> Outer
        ensures enter_block { env_view self.new ≡ enter_block (env_view self.old) }
        ensures visible { result.visible ≡ length (env_view self.old).scope.locals }
        ensures first { result.first ≡ (env_view self.old).first }
    {
        let outer = Outer {
            visible: self.visible.len(),
            first: self.first,
        };
        self.first = self.count();
        outer
    }

    /// Ends a block inside the other.
    pub(crate) fn leave_block(&mut self, outer: Outer)
        ensures { env_view self.new ≡ left (env_view self.old) outer.visible outer.first }
    {
        let declared = self.visible.len().saturating_sub(outer.visible);
        leave(&mut self.visible, declared);
        self.first = outer.first;
    }

    /// Counts a `for` statement, and gives its number.
    pub(crate) fn count_loop(&mut self) -> Result<LoopId, AllocError>
        ensures counted { OnOk result (env_view self.new ≡ counted (env_view self.old)) }
        ensures number { IfOk result (λ l. l.0 ≡ (env_view self.old).loops) }
    {
        let number = LoopId(self.loops);
        self.loops = self.loops.checked_add(1).ok_or(AllocError)?;
        Ok(number)
    }

    /// A local is declared once in its block.
    pub(crate) fn local_once(&self, name: &Name, at: Place) -> Answer<()>
        ensures { Finds result (listed (local_once (env_view self.now).first (find_local (env_view self.now).scope.locals name.now) at)) }
    {
        match self.visible.find(name) {
            Some(local) => rule(self.first <= local.id.0 as usize, at, LOCAL_TWICE),
            None => Ok(()),
        }
    }
}

/// The type of the values in a program; one that names no class stands in no program.
fn type_of(ty: &Ty) -> ValueType
    ensures { result ≡ type_of (ty_view ty.now) }
{
    match ty {
        Ty::Long | Ty::Undefined(_) | Ty::NoObject => ValueType::Long,
        Ty::Truth => ValueType::Bool,
        Ty::Pointer(class) => ValueType::Pointer(*class),
    }
}

/// Leaves so many of the innermost locals.
fn leave(visible: &mut Locals, count: usize)
    ensures { visible.new ≡ drop count visible.old }
{
    for _i in 0..count {
        visible.pop();
    }
}
