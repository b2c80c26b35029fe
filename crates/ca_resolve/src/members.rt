//! The members of a class, with their numbers.

ghost use Rattle.std.specs.Prelude.{◌≡◌, ◌+◌, IfOk, map, is_some};
ghost use Rattle.ca_tree.specs.View.{member_view};
ghost use Rattle.ca_resolve.specs.Scopes.{after_class, after_member, callee_meaning, field_meaning, meaning_of, meanings, member_name, ty_of};
ghost use Rattle.ca_resolve.specs.LocalView.{ty_view};
ghost use Rattle.ca_resolve.specs.View.{members_view, meaning_view, callee_view, numbers_view};

use crate::classes::{Meaning, MemberTable, ty_of};
use crate::names::Names;
use crate::types::{Callee, Ty};
use ca_program::{ClassId, FieldId, FunctionId, OpId};
use ca_tree::{FieldNode, Member, MethodNode, Name, ParamNode};
use std::alloc::{AllocError, Global};

/// The numbers that the next class, field, operation and value method have.
#[derive(Clone, Copy)]
pub struct Numbers {
    pub class: u32,
    pub field: u32,
    pub operation: u32,
    pub function: u32,
}

impl Numbers {
    /// Those of the first class.
    pub fn new() -> Numbers
        ensures class { result.class ≡ 0 }
        ensures field { result.field ≡ 0 }
        ensures operation { result.operation ≡ 0 }
        ensures function { result.function ≡ 0 }
    {
        Numbers {
            class: 0,
            field: 0,
            operation: 0,
            function: 0,
        }
    }

    /// The numbers behind the member.
    pub fn after(self, member: &Member) -> Result<Numbers, AllocError>
        ensures class { IfOk result (λ n. n.class ≡ self.class) }
        ensures numbers { IfOk result (λ n. numbers_view n ≡ after_member (numbers_view self) (member_view member.now)) }
    {
        let mut next = self;
        match member {
            Member::Field(_) => next.field = one_more(self.field)?,
            Member::Method(method) => {
                if method.result.is_some() {
                    next.function = one_more(self.function)?;
                } else {
                    next.operation = one_more(self.operation)?;
                }
            }
        }
        Ok(next)
    }
}

/// The next number; what has none is larger than any memory.
pub fn one_more(n: u32) -> Result<u32, AllocError>
    ensures { IfOk result (λ m. m ≡ n + 1) }
{
    n.checked_add(1).ok_or(AllocError)
}

/// The members of the next class, and the numbers behind it.
pub(crate) fn member_table<'a>(
    alloc: Global,
    classes: &Names<'a>,
    numbers: Numbers,
    members: &'a [Member],
) -> Result<(MemberTable<'a>, Numbers), AllocError>
    ensures table { IfOk result (λ p. members_view p.0 ≡ meanings classes.now numbers.class (numbers_view numbers) (map member_view members.now)) }
    ensures class { IfOk result (λ p. p.1.class ≡ numbers.class + 1) }
    ensures numbers { IfOk result (λ p. numbers_view p.1 ≡ after_class (numbers_view numbers) (map member_view members.now)) }
{
    let mut names = Vec::new(alloc);
    let mut meanings = Vec::new(alloc);
    let mut next = numbers;
    for member in members {
        names.push(member_name(member))?;
        meanings.push(meaning_of(alloc, classes, next, member)?)?;
        next = next.after(member)?;
    }
    let names = Names::new(alloc, names)?;
    let after = Numbers {
        class: one_more(next.class)?,
        field: 0,
        ..next
    };
    Ok((MemberTable { names, meanings }, after))
}

/// The name of the member.
pub fn member_name(member: &Member) -> &Name
    ensures { result.now ≡ member_name (member_view member.now) }
{
    match member {
        Member::Field(field) => &field.name,
        Member::Method(method) => &method.name,
    }
}

/// What the name of the member means, where it has these numbers.
fn meaning_of<'a>(
    alloc: Global,
    classes: &Names<'a>,
    numbers: Numbers,
    member: &'a Member,
) -> Result<Meaning<'a>, AllocError>
    ensures { IfOk result (λ m. meaning_view m ≡ meaning_of classes.now numbers.class (numbers_view numbers) (member_view member.now)) }
{
    match member {
        Member::Field(field) => Ok(field_meaning(classes, numbers, field)),
        Member::Method(method) => {
            let params = param_tys(alloc, classes, &method.params)?;
            Ok(Meaning::Method(callee_of(classes, numbers, method), params))
        }
    }
}

fn field_meaning<'a>(classes: &Names<'a>, numbers: Numbers, field: &'a FieldNode) -> Meaning<'a>
    ensures { meaning_view result ≡ field_meaning classes.now numbers.class (numbers_view numbers) field.now.ty (is_some field.now.length) }
{
    let id = FieldId {
        class: ClassId(numbers.class),
        field: numbers.field,
    };
    let ty = ty_of(classes, &field.ty);
    if field.length.is_some() {
        Meaning::Items(id, ty)
    } else {
        Meaning::Scalar(id, ty)
    }
}

fn callee_of<'a>(classes: &Names<'a>, numbers: Numbers, method: &'a MethodNode) -> Callee<'a>
    ensures { callee_view result ≡ callee_meaning classes.now (numbers_view numbers) method.now.result }
{
    match &method.result {
        None => Callee::Operation(OpId(numbers.operation)),
        Some(ty) => Callee::Function(FunctionId(numbers.function), ty_of(classes, ty)),
    }
}

fn param_tys<'a>(
    alloc: Global,
    classes: &Names<'a>,
    params: &'a [ParamNode],
) -> Result<Vec<Ty<'a>>, AllocError>
    ensures { IfOk result (λ v. map ty_view v.items ≡ map (λ p. ty_of classes.now p.ty) params.now) }
{
    let mut types = Vec::new(alloc);
    for param in params {
        types.push(ty_of(classes, &param.ty))?;
    }
    Ok(types)
}
