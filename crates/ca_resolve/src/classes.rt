//! The classes of a text and their members, each found by its name.

ghost use Rattle.std.specs.Prelude.{◌≡◌, IfOk, map, slice_get, Some};
ghost use Rattle.std.specs.Option.{option_copied, option_map};
ghost use Rattle.ca_tree.specs.View.{class_view};
ghost use Rattle.ca_resolve.specs.Scopes.{classes_of, find_member, find_among, ty_of, class_names};
ghost use Rattle.ca_resolve.specs.LocalView.{ty_view};
ghost use Rattle.ca_resolve.specs.View.{classes_view, members_view, meaning_view};

use crate::members::{Numbers, member_table};
use crate::names::Names;
use crate::types::{Callee, Ty};
use ca_program::{ClassId, FieldId};
use ca_tree::{ClassNode, Name, TypeNode};
use std::alloc::{AllocError, Global};

/// What the name of a member means: a field, which may be an array, with the type of its values; or
/// a method, with the types of its parameters.
#[derive(Drop)]
pub enum Meaning<'a> {
    Scalar(FieldId, Ty<'a>),
    Items(FieldId, Ty<'a>),
    Method(Callee<'a>, Vec<Ty<'a>>),
}

/// The members of a class in order.
#[derive(Drop)]
pub(crate) struct MemberTable<'a> {
    pub(crate) names: Names<'a>,
    pub(crate) meanings: Vec<Meaning<'a>>,
}

impl<'a> MemberTable<'a> {
    /// The first member of the name.
    fn find(&self, name: &Name) -> Option<&Meaning<'a>>
        ensures { option_map (λ m. meaning_view m.now) result ≡ find_among (Some (members_view self.now)) name.now }
    {
        match self.names.number(name) {
            Some(number) => at(&self.meanings, number as usize),
            None => None,
        }
    }
}

/// The classes of a text in order, and their members.
#[derive(Drop)]
pub struct ClassTable<'a> {
    names: Names<'a>,
    members: Vec<MemberTable<'a>>,
}

impl<'a> ClassTable<'a> {
    /// The classes of a text.
    pub fn new(alloc: Global, classes: &'a [ClassNode]) -> Result<ClassTable<'a>, AllocError>
        ensures { IfOk result (λ t. classes_view t ≡ classes_of (map class_view classes.now)) }
    {
        let names = names_of(alloc, classes)?;
        let mut members = Vec::new(alloc);
        let mut next = Numbers::new();
        for class in classes {
            let (table, after) = member_table(alloc, &names, next, &class.members)?;
            members.push(table)?;
            next = after;
        }
        Ok(ClassTable { names, members })
    }

    /// The names of the classes.
    pub fn names(&self) -> &Names<'a>
        ensures { result.now ≡ (classes_view self.now).names }
    {
        &self.names
    }

    /// The type of what is declared so.
    pub fn ty_of(&self, ty: &'a TypeNode) -> Ty<'a>
        ensures { ty_view result ≡ ty_of (classes_view self.now).names ty.now }
    {
        ty_of(&self.names, ty)
    }

    /// The first member of the name in the class.
    pub(crate) fn find_member(&self, class: ClassId, name: &Name) -> Option<&Meaning<'a>>
        ensures { option_map (λ m. meaning_view m.now) result ≡ find_member (classes_view self.now) class name.now }
    {
        match at(&self.members, class.0 as usize) {
            Some(members) => members.find(name),
            None => None,
        }
    }
}

fn at<T>(items: &[T], i: usize) -> Option<&T>
    ensures { option_copied result ≡ slice_get items.now i }
{
    if i < items.len() {
        Some(&items[i])
    } else {
        None
    }
}

/// The type of what is declared so, among classes of these names.
pub(crate) fn ty_of<'a>(names: &Names<'a>, ty: &'a TypeNode) -> Ty<'a>
    ensures { ty_view result ≡ ty_of names.now ty.now }
{
    match ty {
        TypeNode::Long => Ty::Long,
        TypeNode::Bool => Ty::Truth,
        TypeNode::Pointer(name, _) => match names.number(name) {
            Some(number) => Ty::Pointer(ClassId(number)),
            None => Ty::Undefined(name),
        },
    }
}

/// The names of the classes in order.
fn names_of<'a>(alloc: Global, classes: &'a [ClassNode]) -> Result<Names<'a>, AllocError>
    ensures { IfOk result (λ names. names ≡ class_names (map class_view classes.now)) }
{
    let mut all = Vec::new(alloc);
    for class in classes {
        all.push(&class.name)?;
    }
    Names::new(alloc, all)
}
