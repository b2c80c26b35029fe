//! The forms of pointers, and the parts that atoms, reads of other objects and results of value methods are.

ghost use Rattle.std.specs.Prelude.{◌≡◌, IfOk, OnOk};
ghost use Rattle.ca_sums.specs.Sums.{NoZero, AddsSum};
ghost use Rattle.ca_forms.specs.Plain.{variable, field_of, item_of, result_of, own_item, pointer_part, pointer_choice};
ghost use Rattle.ca_forms.specs.Rules.{is_pointer_sort, is_receiver_part, is_receiver, is_no_object, differ, unless_false, same_pointers, chosen_pointer};

use crate::parts::{both, let_go, one_box, two_boxes};
use crate::polynomial::{Monomial, Node, Part, Pointer, PointerNode, Polynomial, Scalars, Unary};
use crate::rules::{add_part, add_truth};
use crate::sort::Sort;
use std::alloc::{AllocError, Global};
use std::cmp::Ordering;
use std::collections::BTreeMap;

fn is_pointer_sort(sort: Sort) -> bool
    ensures { result ≡ is_pointer_sort sort }
{
    match sort {
        Sort::Pointer => true,
        _ => false,
    }
}

impl Part {
    /// An atom, by its sort, its group and its number there.
    pub fn atom(sort: Sort, group: u32, number: u32) -> Part
        ensures { result ≡ variable sort group number }
    {
        Node::Variable(sort, group, number).part()
    }

    /// A field of another object, by its sort, the object, and the field's class and number.
    pub fn field(sort: Sort, object: Pointer, class: u32, field: u32) -> Part
        ensures { result ≡ field_of sort object class field }
    {
        Node::Field(sort, object, class, field).part()
    }

    /// The item of such a field at an index.
    pub fn item(sort: Sort, object: Pointer, class: u32, field: u32, index: Polynomial) -> Part
        ensures { result ≡ item_of sort object class field index }
    {
        Node::Item(sort, object, class, field, index).part()
    }

    /// What a value method gives, by its sort, the method's number, the receiver and the arguments.
    pub fn call(sort: Sort, method: u32, receiver: Pointer, args: Scalars) -> Part
        ensures { result ≡ result_of sort method receiver args }
    {
        Node::Result(sort, method, receiver, args).part()
    }

    /// The item at an index of an array that is an atom, by its sort, and the atom's group and number.
    pub fn own_item(sort: Sort, group: u32, number: u32, index: Polynomial) -> Part
        ensures { result ≡ own_item sort group number index }
    {
        Node::Over(Unary::OwnItem(sort, group, number), index).part()
    }

    fn is_receiver(&self) -> bool
        ensures { result ≡ is_receiver_part self.now }
    {
        match &self.node {
            Node::Variable(sort, group, number) => {
                is_pointer_sort(*sort) && *group == 0 && *number == 0
            }
            _ => false,
        }
    }
}

impl Pointer {
    /// The form of a pointer that is a part.
    pub fn of(alloc: Global, part: Part) -> Result<Pointer, AllocError>
        ensures { IfOk result (λ p. p ≡ pointer_part part) }
    {
        let part = one_box(alloc, Ok(part))?;
        Ok(PointerNode::Part(part).pointer())
    }

    fn is_receiver(&self) -> bool
        ensures { result ≡ is_receiver self.now }
    {
        match &self.node {
            PointerNode::Null => false,
            PointerNode::Part(part) => part.is_receiver(),
            PointerNode::Choice(_, _, _) => false,
        }
    }

    fn is_null(&self) -> bool
        ensures { result ≡ is_no_object self.now }
    {
        match &self.node {
            PointerNode::Null => true,
            PointerNode::Part(_) => false,
            PointerNode::Choice(_, _, _) => false,
        }
    }
}

/// Whether one is null and the other the receiver, which isn't null.
fn differ(p: &Pointer, q: &Pointer) -> bool
    ensures { result ≡ differ p.now q.now }
{
    (p.is_null() && q.is_receiver()) || (p.is_receiver() && q.is_null())
}

/// Adds a truth value unless it is known not to hold, times the factor.
fn add_unless(
    alloc: Global,
    form: &mut BTreeMap<Monomial, u64>,
    known: bool,
    part: Part,
    factor: u64,
) -> Result<(), AllocError>
    requires { NoZero form.old.entries }
    ensures nonzero { NoZero form.new.entries }
    ensures added { OnOk result (AddsSum form.old.entries form.new.entries factor (unless_false known part)) }
{
    if known {
        let_go(part);
        Ok(())
    } else {
        add_part(alloc, form, part, factor)
    }
}

/// Adds whether two pointers are equal, times the factor.
#[inline(never)]
pub fn add_same_pointers(
    alloc: Global,
    form: &mut BTreeMap<Monomial, u64>,
    p: Pointer,
    q: Pointer,
    factor: u64,
) -> Result<(), AllocError>
    requires { NoZero form.old.entries }
    ensures nonzero { NoZero form.new.entries }
    ensures added { OnOk result (AddsSum form.old.entries form.new.entries factor (same_pointers p q)) }
{
    let known = differ(&p, &q);
    match p.compare(&q) {
        Ordering::Less => add_unless(alloc, form, known, Node::SamePointer(p, q).part(), factor),
        Ordering::Equal => {
            let_go(p);
            let_go(q);
            add_truth(alloc, form, true, factor)
        }
        Ordering::Greater => add_unless(alloc, form, known, Node::SamePointer(q, p).part(), factor),
    }
}

fn choice(
    alloc: Global,
    condition: Polynomial,
    first: Pointer,
    second: Pointer,
) -> Result<Pointer, AllocError>
    ensures { IfOk result (λ r. r ≡ pointer_choice condition first second) }
{
    let sides = two_boxes(alloc, Ok(first), Ok(second));
    let (condition, (first, second)) = both(one_box(alloc, Ok(condition)), sides)?;
    Ok(PointerNode::Choice(condition, first, second).pointer())
}

/// The first pointer where the condition holds, and else the second.
#[inline(never)]
pub fn chosen_pointer(
    alloc: Global,
    condition: Polynomial,
    first: Pointer,
    second: Pointer,
) -> Result<Pointer, AllocError>
    ensures { IfOk result (λ r. r ≡ chosen_pointer condition first second) }
{
    match first.compare(&second) {
        Ordering::Equal => {
            let_go(second);
            Ok(first)
        }
        _ => match condition.constant() {
            Some(n) => {
                if n == 0 {
                    let_go(first);
                    Ok(second)
                } else {
                    let_go(second);
                    Ok(first)
                }
            }
            None => choice(alloc, condition, first, second),
        },
    }
}
