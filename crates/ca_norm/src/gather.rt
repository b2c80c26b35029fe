//! The forms of a term: polynomials, gathered in an ordered map, pointers and arguments.

ghost use Rattle.std.specs.Prelude.{◌≡◌, ◌-◌, ◌*◌, ◌%◌, ◌^◌, map, IfOk, OnOk};
ghost use Rattle.ca_sums.specs.Sums.{NoZero, AddsSum};
ghost use Rattle.ca_forms.specs.Lists.{products_of};
ghost use Rattle.ca_norm.specs.Terms.{shape, terms_of};
ghost use Rattle.ca_forms.specs.Plain.{pointer_part};
ghost use Rattle.ca_forms.specs.Rules.{alone, gathered};
ghost use Rattle.ca_norm.specs.Forms.{expand, expand_if, is_linear, is_product, is_comparison, is_equation, is_choice, is_division, is_selection, is_folding, part_of, pointer_of, array_of, scalar_of, arguments_of};

use crate::items::{add_item_of, pointer_of_item};
use crate::term::{Term, item_sort};
use ca_forms::Sort;
use ca_forms::array::{Array, Span};
use ca_forms::array_rules::chosen_array;
use ca_forms::folds::fold_form;
use ca_forms::parts::{add, both};
use ca_forms::pointers::{add_same_pointers, chosen_pointer};
use ca_forms::polynomial::{Monomial, Part, Pointer, Polynomial, Scalar, Scalars};
use ca_forms::rules::{
    add_chosen, add_either, add_less, add_modulus, add_number, add_part, add_quotient, add_same,
    add_same_truths, add_truth,
};
use ca_forms::sums::{add_product_of, add_whole, finish};
use std::alloc::{AllocError, Global};
use std::collections::BTreeMap;

/// The factor of what is taken away.
pub fn opposite(factor: u64) -> u64
    ensures { result ≡ (factor * (2 ^ 64 - 1)) % 2 ^ 64 }
{
    factor.wrapping_mul(u64::MAX)
}

/// Adds a term's products, each times the factor. It recurses as deep as the term is, so kinds of terms that need
/// room for polynomials have functions of their own.
#[cycle(normal)]
#[inline(never)]
fn add_term(
    alloc: Global,
    form: &mut BTreeMap<Monomial, u64>,
    term: &Term,
    factor: u64,
) -> Result<(), AllocError>
    requires { NoZero form.old.entries }
    ensures nonzero { NoZero form.new.entries }
    ensures added { OnOk result (AddsSum form.old.entries form.new.entries factor (expand (shape term.now))) }
{
    match term {
        Term::Number(_) | Term::Truth(_) | Term::Add(_, _) | Term::Sub(_, _) => add_linear(
            alloc, form, term, factor,
        ),
        Term::Neg(_) | Term::Not(_) => add_linear(alloc, form, term, factor),
        Term::Mul(_, _) | Term::And(_, _) | Term::Or(_, _) => add_multiplied(
            alloc, form, term, factor,
        ),
        Term::Less(_, _) | Term::LessEqual(_, _) => add_compared(alloc, form, term, factor),
        Term::Same(_, _) => add_equated(alloc, form, term, factor),
        Term::Choose(_, _, _) => add_choice(alloc, form, term, factor),
        Term::Divide(_, _) | Term::Remainder(_, _) => add_divided(alloc, form, term, factor),
        Term::Atom(_, _, _) | Term::Read(_, _, _, _) => add_own_part(alloc, form, term, factor),
        Term::ReadAt(_, _, _, _, _) | Term::Result(_, _, _, _) => add_own_part(
            alloc, form, term, factor,
        ),
        Term::Select(_, _) => add_selected(alloc, form, term, factor),
        Term::Fold(_, _, _) => add_folded(alloc, form, term, factor),
        Term::Null | Term::Put(_, _, _) | Term::AddAt(_, _, _) | Term::Sweep(_, _, _, _) => Ok(()),
    }
}

/// Adds a literal, a sum or a difference, or what is negated, times the factor; nothing for any other term.
#[cycle(normal)]
#[inline(never)]
fn add_linear(
    alloc: Global,
    form: &mut BTreeMap<Monomial, u64>,
    term: &Term,
    factor: u64,
) -> Result<(), AllocError>
    requires { NoZero form.old.entries }
    ensures nonzero { NoZero form.new.entries }
    ensures added { OnOk result (AddsSum form.old.entries form.new.entries factor (expand_if (is_linear (shape term.now)) (shape term.now))) }
{
    let opposite = opposite(factor);
    match term {
        Term::Number(n) => add_number(alloc, form, n.cast_unsigned(), factor),
        Term::Truth(b) => add_truth(alloc, form, *b, factor),
        Term::Add(a, b) => {
            add_term(alloc, form, a, factor)?;
            add_term(alloc, form, b, factor)
        }
        Term::Sub(a, b) => {
            add_term(alloc, form, a, factor)?;
            add_term(alloc, form, b, opposite)
        }
        Term::Neg(a) => add_term(alloc, form, a, opposite),
        Term::Not(a) => {
            add_truth(alloc, form, true, factor)?;
            add_term(alloc, form, a, opposite)
        }
        _ => Ok(()),
    }
}

/// Adds a product, or two truth values of which both or one holds, times the factor; nothing for any other term.
#[cycle(normal)]
#[inline(never)]
fn add_multiplied(
    alloc: Global,
    form: &mut BTreeMap<Monomial, u64>,
    term: &Term,
    factor: u64,
) -> Result<(), AllocError>
    requires { NoZero form.old.entries }
    ensures nonzero { NoZero form.new.entries }
    ensures added { OnOk result (AddsSum form.old.entries form.new.entries factor (expand_if (is_product (shape term.now)) (shape term.now))) }
{
    match term {
        Term::Mul(a, b) => {
            let (f, g) = both(polynomial_of(alloc, a), polynomial_of(alloc, b))?;
            add_product_of(alloc, form, &f, &g, factor)
        }
        Term::And(a, b) => {
            let (f, g) = both(polynomial_of(alloc, a), polynomial_of(alloc, b))?;
            add_product_of(alloc, form, &f, &g, factor)
        }
        Term::Or(a, b) => {
            let (f, g) = both(polynomial_of(alloc, a), polynomial_of(alloc, b))?;
            add_either(alloc, form, &f, &g, factor)
        }
        _ => Ok(()),
    }
}

/// Adds whether a number is less than another, or at most it, times the factor; nothing for any other term.
#[cycle(normal)]
#[inline(never)]
fn add_compared(
    alloc: Global,
    form: &mut BTreeMap<Monomial, u64>,
    term: &Term,
    factor: u64,
) -> Result<(), AllocError>
    requires { NoZero form.old.entries }
    ensures nonzero { NoZero form.new.entries }
    ensures added { OnOk result (AddsSum form.old.entries form.new.entries factor (expand_if (is_comparison (shape term.now)) (shape term.now))) }
{
    match term {
        Term::Less(a, b) => {
            let (f, g) = both(polynomial_of(alloc, a), polynomial_of(alloc, b))?;
            add_less(alloc, form, f, g, factor)
        }
        Term::LessEqual(a, b) => {
            add_truth(alloc, form, true, factor)?;
            let (f, g) = both(polynomial_of(alloc, a), polynomial_of(alloc, b))?;
            add_less(alloc, form, g, f, opposite(factor))
        }
        _ => Ok(()),
    }
}

/// Adds whether two values are equal, times the factor; nothing for any other term.
#[cycle(normal)]
#[inline(never)]
fn add_equated(
    alloc: Global,
    form: &mut BTreeMap<Monomial, u64>,
    term: &Term,
    factor: u64,
) -> Result<(), AllocError>
    requires { NoZero form.old.entries }
    ensures nonzero { NoZero form.new.entries }
    ensures added { OnOk result (AddsSum form.old.entries form.new.entries factor (expand_if (is_equation (shape term.now)) (shape term.now))) }
{
    match term {
        Term::Same(a, b) => match a.sort() {
            Sort::Long => {
                let (f, g) = both(polynomial_of(alloc, a), polynomial_of(alloc, b))?;
                add_same(alloc, form, f, g, factor)
            }
            Sort::Bool => {
                let (f, g) = both(polynomial_of(alloc, a), polynomial_of(alloc, b))?;
                add_same_truths(alloc, form, &f, &g, factor)
            }
            Sort::Pointer => {
                let (p, q) = both(pointer_of(alloc, a), pointer_of(alloc, b))?;
                add_same_pointers(alloc, form, p, q, factor)
            }
            _ => Ok(()),
        },
        _ => Ok(()),
    }
}

/// Adds a choice of numbers or truth values, times the factor; nothing for any other term.
#[cycle(normal)]
#[inline(never)]
fn add_choice(
    alloc: Global,
    form: &mut BTreeMap<Monomial, u64>,
    term: &Term,
    factor: u64,
) -> Result<(), AllocError>
    requires { NoZero form.old.entries }
    ensures nonzero { NoZero form.new.entries }
    ensures added { OnOk result (AddsSum form.old.entries form.new.entries factor (expand_if (is_choice (shape term.now)) (shape term.now))) }
{
    match term {
        Term::Choose(c, a, b) => {
            let sides = both(polynomial_of(alloc, a), polynomial_of(alloc, b));
            let (f, (g, h)) = both(polynomial_of(alloc, c), sides)?;
            add_chosen(alloc, form, &f, &g, &h, factor)
        }
        _ => Ok(()),
    }
}

/// Adds a quotient, or what a division leaves, times the factor; nothing for any other term.
#[cycle(normal)]
#[inline(never)]
fn add_divided(
    alloc: Global,
    form: &mut BTreeMap<Monomial, u64>,
    term: &Term,
    factor: u64,
) -> Result<(), AllocError>
    requires { NoZero form.old.entries }
    ensures nonzero { NoZero form.new.entries }
    ensures added { OnOk result (AddsSum form.old.entries form.new.entries factor (expand_if (is_division (shape term.now)) (shape term.now))) }
{
    match term {
        Term::Divide(a, n) => {
            let f = polynomial_of(alloc, a)?;
            add_quotient(alloc, form, f, *n, factor)
        }
        Term::Remainder(a, n) => {
            let f = polynomial_of(alloc, a)?;
            add_modulus(alloc, form, f, *n, factor)
        }
        _ => Ok(()),
    }
}

/// Adds the item of an array of numbers or truth values, times the factor; nothing for any other term.
#[cycle(normal)]
#[inline(never)]
fn add_selected(
    alloc: Global,
    form: &mut BTreeMap<Monomial, u64>,
    term: &Term,
    factor: u64,
) -> Result<(), AllocError>
    requires { NoZero form.old.entries }
    ensures nonzero { NoZero form.new.entries }
    ensures added { OnOk result (AddsSum form.old.entries form.new.entries factor (expand_if (is_selection (shape term.now)) (shape term.now))) }
{
    match term {
        Term::Select(a, i) => {
            add_item_of(
                alloc,
                form,
                array_of(alloc, a),
                polynomial_of(alloc, i),
                factor,
            )
        }
        _ => Ok(()),
    }
}

/// Adds an operator whose operands may stand in any order, times the factor; nothing for any other term.
#[cycle(normal)]
#[inline(never)]
fn add_folded(
    alloc: Global,
    form: &mut BTreeMap<Monomial, u64>,
    term: &Term,
    factor: u64,
) -> Result<(), AllocError>
    requires { NoZero form.old.entries }
    ensures nonzero { NoZero form.new.entries }
    ensures added { OnOk result (AddsSum form.old.entries form.new.entries factor (expand_if (is_folding (shape term.now)) (shape term.now))) }
{
    match term {
        Term::Fold(op, a, b) => {
            let (f, g) = both(polynomial_of(alloc, a), polynomial_of(alloc, b))?;
            let whole = fold_form(alloc, *op, f, g)?;
            add_whole(form, whole, factor)
        }
        _ => Ok(()),
    }
}

/// Adds an atom, a read or a result, times the factor.
#[cycle(normal)]
#[inline(never)]
fn add_own_part(
    alloc: Global,
    form: &mut BTreeMap<Monomial, u64>,
    term: &Term,
    factor: u64,
) -> Result<(), AllocError>
    requires { NoZero form.old.entries }
    ensures nonzero { NoZero form.new.entries }
    ensures added { OnOk result (AddsSum form.old.entries form.new.entries factor (alone (part_of (shape term.now)))) }
{
    let part = part_of(alloc, term)?;
    add_part(alloc, form, part, factor)
}

/// The part that an atom, a read or a result is; some atom for any other term.
#[cycle(normal)]
#[inline(never)]
fn part_of(alloc: Global, term: &Term) -> Result<Part, AllocError>
    ensures { IfOk result (λ p. p ≡ part_of (shape term.now)) }
{
    match term {
        Term::Atom(sort, group, number) => Ok(Part::atom(*sort, *group, *number)),
        Term::Read(sort, p, class, field) => {
            let object = pointer_of(alloc, p)?;
            Ok(Part::field(*sort, object, *class, *field))
        }
        Term::ReadAt(sort, p, class, field, i) => {
            let (object, index) = both(pointer_of(alloc, p), polynomial_of(alloc, i))?;
            Ok(Part::item(*sort, object, *class, *field, index))
        }
        Term::Result(sort, method, p, args) => {
            let (receiver, args) = both(pointer_of(alloc, p), arguments_of(alloc, args))?;
            Ok(Part::call(*sort, *method, receiver, args))
        }
        _ => Ok(Part::atom(Sort::Long, 0, 0)),
    }
}

/// The polynomial of a term, which is to be a number or a truth value. It recurses as deep as the term is.
#[cycle(normal)]
#[inline(never)]
pub fn polynomial_of(alloc: Global, term: &Term) -> Result<Polynomial, AllocError>
    ensures { IfOk result (λ f. f ≡ gathered (expand (shape term.now))) }
{
    let mut form = BTreeMap::new(alloc);
    add_term(alloc, &mut form, term, 1)?;
    finish(alloc, form)
}

#[cycle(normal)]
#[inline(never)]
fn own_pointer(alloc: Global, term: &Term) -> Result<Pointer, AllocError>
    ensures { IfOk result (λ p. p ≡ pointer_part (part_of (shape term.now))) }
{
    let part = part_of(alloc, term)?;
    Pointer::of(alloc, part)
}

/// The form of a term that is to be a pointer. It recurses as deep as the term is.
#[cycle(normal)]
#[inline(never)]
pub fn pointer_of(alloc: Global, term: &Term) -> Result<Pointer, AllocError>
    ensures { IfOk result (λ p. p ≡ pointer_of (shape term.now)) }
{
    match term {
        Term::Choose(c, a, b) => {
            let sides = both(pointer_of(alloc, a), pointer_of(alloc, b));
            let (f, (p, q)) = both(polynomial_of(alloc, c), sides)?;
            chosen_pointer(alloc, f, p, q)
        }
        Term::Atom(_, _, _) => own_pointer(alloc, term),
        Term::Read(_, _, _, _) => own_pointer(alloc, term),
        Term::ReadAt(_, _, _, _, _) => own_pointer(alloc, term),
        Term::Result(_, _, _, _) => own_pointer(alloc, term),
        Term::Select(_, _) => item_pointer(alloc, term),
        _ => Ok(Pointer::null()),
    }
}

/// The item of an array of pointers. Each kind has a function of its own, so that the frames are small.
#[cycle(normal)]
#[inline(never)]
fn item_pointer(alloc: Global, term: &Term) -> Result<Pointer, AllocError>
    ensures { IfOk result (λ p. p ≡ pointer_of (shape term.now)) }
{
    match term {
        Term::Select(a, i) => pointer_of_item(alloc, array_of(alloc, a), polynomial_of(alloc, i)),
        _ => Err(AllocError),
    }
}

/// The form of a term that is to be an array. It recurses as deep as the term is.
#[cycle(normal)]
#[inline(never)]
pub fn array_of(alloc: Global, term: &Term) -> Result<Array, AllocError>
    ensures { IfOk result (λ a. a ≡ array_of (shape term.now)) }
{
    match term {
        Term::Atom(sort, group, number) => Ok(Array::atom(item_sort(*sort), *group, *number)),
        Term::Choose(_, _, _) => array_choice(alloc, term),
        Term::Put(_, _, _) => array_put(alloc, term),
        Term::AddAt(_, _, _) => array_added(alloc, term),
        Term::Sweep(_, _, _, _) => array_swept(alloc, term),
        _ => Ok(Array::atom(Sort::Long, 0, 0)),
    }
}

#[cycle(normal)]
#[inline(never)]
fn array_choice(alloc: Global, term: &Term) -> Result<Array, AllocError>
    ensures { IfOk result (λ a. a ≡ array_of (shape term.now)) }
{
    match term {
        Term::Choose(c, a, b) => {
            let sides = both(array_of(alloc, a), array_of(alloc, b));
            let (condition, (first, second)) = both(polynomial_of(alloc, c), sides)?;
            chosen_array(alloc, condition, first, second)
        }
        _ => Err(AllocError),
    }
}

#[cycle(normal)]
#[inline(never)]
fn array_put(alloc: Global, term: &Term) -> Result<Array, AllocError>
    ensures { IfOk result (λ a. a ≡ array_of (shape term.now)) }
{
    match term {
        Term::Put(a, i, x) => {
            let parts = both(polynomial_of(alloc, i), scalar_of(alloc, x));
            let (array, (index, item)) = both(array_of(alloc, a), parts)?;
            array.put(alloc, index, item)
        }
        _ => Err(AllocError),
    }
}

#[cycle(normal)]
#[inline(never)]
fn array_added(alloc: Global, term: &Term) -> Result<Array, AllocError>
    ensures { IfOk result (λ a. a ≡ array_of (shape term.now)) }
{
    match term {
        Term::AddAt(a, i, x) => {
            let parts = both(polynomial_of(alloc, i), polynomial_of(alloc, x));
            let (array, (index, addend)) = both(array_of(alloc, a), parts)?;
            array.added_at(alloc, Span::one(index), addend)
        }
        _ => Err(AllocError),
    }
}

#[cycle(normal)]
#[inline(never)]
fn array_swept(alloc: Global, term: &Term) -> Result<Array, AllocError>
    ensures { IfOk result (λ a. a ≡ array_of (shape term.now)) }
{
    match term {
        Term::Sweep(a, f, t, x) => {
            let bounds = both(polynomial_of(alloc, f), polynomial_of(alloc, t));
            let parts = both(bounds, polynomial_of(alloc, x));
            let (array, ((from, to), addend)) = both(array_of(alloc, a), parts)?;
            array.added_at(alloc, Span::range(from, to), addend)
        }
        _ => Err(AllocError),
    }
}

/// The form of a term that is to be a number, a truth value or a pointer.
#[cycle(normal)]
#[inline(never)]
pub fn scalar_of(alloc: Global, term: &Term) -> Result<Scalar, AllocError>
    ensures { IfOk result (λ x. x ≡ scalar_of (shape term.now)) }
{
    match term.sort() {
        Sort::Pointer => Ok(Scalar::pointer(pointer_of(alloc, term)?)),
        Sort::Bool => Ok(Scalar::truth(polynomial_of(alloc, term)?)),
        _ => Ok(Scalar::number(polynomial_of(alloc, term)?)),
    }
}

#[cycle(normal)]
#[inline(never)]
fn arguments_of(alloc: Global, terms: &[Term]) -> Result<Scalars, AllocError>
    ensures { IfOk result (λ xs. xs ≡ arguments_of (terms_of (map shape terms.now))) }
{
    let mut items = Vec::new(alloc);
    for term in terms {
        add(&mut items, scalar_of(alloc, term))?;
    }
    Ok(Scalars::of(items))
}
