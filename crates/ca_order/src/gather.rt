//! The forms of a term under an order, in one pass: polynomials, gathered in an ordered map, pointers and arguments.

ghost use Rattle.std.specs.Prelude.{◌≡◌, ◌-◌, ◌*◌, map, IfOk, OnOk};
ghost use Rattle.ca_sums.specs.Sums.{NoZero, AddsSum};
ghost use Rattle.ca_norm.specs.Terms.{shape, terms_of};
ghost use Rattle.ca_forms.specs.Plain.{pointer_part};
ghost use Rattle.ca_forms.specs.Rules.{alone, gathered};
ghost use Rattle.ca_norm.specs.Forms.{expand, expand_if, is_linear, is_product, is_comparison, is_equation, is_choice, is_division, is_selection, is_folding, part_of, pointer_of, array_of, scalar_of, arguments_of};
ghost use Rattle.ca_order.specs.Under.{under, all_under};

use crate::comparisons::{
    add_atom, add_less_equal_under, add_less_under, add_same_under, atom_array, atom_pointer,
};
use crate::places::Place;
use ca_forms::array::{Array, Span};
use ca_forms::array_rules::chosen_array;
use ca_forms::folds::fold_form;
use ca_forms::parts::{add, both};
use ca_forms::pointers::{add_same_pointers, chosen_pointer};
use ca_forms::polynomial::{Monomial, Part, Pointer, Polynomial, Scalar, Scalars};
use ca_forms::rules::{
    add_chosen, add_either, add_modulus, add_number, add_part, add_quotient, add_same_truths,
    add_truth,
};
use ca_forms::sums::{add_product_of, add_whole, finish};
use ca_norm::gather::opposite;
use ca_norm::items::{add_item_of, pointer_of_item};
use ca_norm::{Sort, Term};
use std::alloc::{AllocError, Global};
use std::collections::BTreeMap;

/// Adds a term's products, each times the factor. It recurses as deep as the term is, so kinds of terms that need
/// room for polynomials have functions of their own.
#[cycle(under)]
#[inline(never)]
fn add_term(
    alloc: Global,
    form: &mut BTreeMap<Monomial, u64>,
    places: &[Place],
    term: &Term,
    factor: u64,
) -> Result<(), AllocError>
    requires { NoZero form.old.entries }
    ensures nonzero { NoZero form.new.entries }
    ensures added { OnOk result (AddsSum form.old.entries form.new.entries factor (expand (under places.now (shape term.now)))) }
{
    match term {
        Term::Number(_) | Term::Truth(_) | Term::Add(_, _) | Term::Sub(_, _) => add_linear(
            alloc, form, places, term, factor,
        ),
        Term::Neg(_) | Term::Not(_) => add_linear(alloc, form, places, term, factor),
        Term::Mul(_, _) | Term::And(_, _) | Term::Or(_, _) => add_multiplied(
            alloc, form, places, term, factor,
        ),
        Term::Less(_, _) | Term::LessEqual(_, _) => add_compared(alloc, form, places, term, factor),
        Term::Same(_, _) => add_equated(alloc, form, places, term, factor),
        Term::Choose(_, _, _) => add_choice(alloc, form, places, term, factor),
        Term::Divide(_, _) | Term::Remainder(_, _) => add_divided(
            alloc, form, places, term, factor,
        ),
        Term::Atom(sort, group, number) => add_atom(
            alloc, form, places, *sort, *group, *number, factor,
        ),
        Term::Read(_, _, _, _) => add_own_part(alloc, form, places, term, factor),
        Term::ReadAt(_, _, _, _, _) | Term::Result(_, _, _, _) => add_own_part(
            alloc, form, places, term, factor,
        ),
        Term::Select(_, _) => add_selected(alloc, form, places, term, factor),
        Term::Fold(_, _, _) => add_folded(alloc, form, places, term, factor),
        Term::Null | Term::Put(_, _, _) | Term::AddAt(_, _, _) | Term::Sweep(_, _, _, _) => Ok(()),
    }
}

/// Adds a literal, a sum or a difference, or what is negated, times the factor; nothing for any other term.
#[cycle(under)]
#[inline(never)]
fn add_linear(
    alloc: Global,
    form: &mut BTreeMap<Monomial, u64>,
    places: &[Place],
    term: &Term,
    factor: u64,
) -> Result<(), AllocError>
    requires { NoZero form.old.entries }
    ensures nonzero { NoZero form.new.entries }
    ensures added { OnOk result (AddsSum form.old.entries form.new.entries factor (expand_if (is_linear (shape term.now)) (under places.now (shape term.now)))) }
{
    let opposite = opposite(factor);
    match term {
        Term::Number(n) => add_number(alloc, form, n.cast_unsigned(), factor),
        Term::Truth(b) => add_truth(alloc, form, *b, factor),
        Term::Add(a, b) => {
            add_term(alloc, form, places, a, factor)?;
            add_term(alloc, form, places, b, factor)
        }
        Term::Sub(a, b) => {
            add_term(alloc, form, places, a, factor)?;
            add_term(alloc, form, places, b, opposite)
        }
        Term::Neg(a) => add_term(alloc, form, places, a, opposite),
        Term::Not(a) => {
            add_truth(alloc, form, true, factor)?;
            add_term(alloc, form, places, a, opposite)
        }
        _ => Ok(()),
    }
}

/// Adds a product, or two truth values of which both or one holds, times the factor; nothing for any other term.
#[cycle(under)]
#[inline(never)]
fn add_multiplied(
    alloc: Global,
    form: &mut BTreeMap<Monomial, u64>,
    places: &[Place],
    term: &Term,
    factor: u64,
) -> Result<(), AllocError>
    requires { NoZero form.old.entries }
    ensures nonzero { NoZero form.new.entries }
    ensures added { OnOk result (AddsSum form.old.entries form.new.entries factor (expand_if (is_product (shape term.now)) (under places.now (shape term.now)))) }
{
    match term {
        Term::Mul(a, b) => {
            let (f, g) = both(
                polynomial_of(alloc, places, a),
                polynomial_of(alloc, places, b),
            )?;
            add_product_of(alloc, form, &f, &g, factor)
        }
        Term::And(a, b) => {
            let (f, g) = both(
                polynomial_of(alloc, places, a),
                polynomial_of(alloc, places, b),
            )?;
            add_product_of(alloc, form, &f, &g, factor)
        }
        Term::Or(a, b) => {
            let (f, g) = both(
                polynomial_of(alloc, places, a),
                polynomial_of(alloc, places, b),
            )?;
            add_either(alloc, form, &f, &g, factor)
        }
        _ => Ok(()),
    }
}

/// Adds whether a number is less than another, or at most it, times the factor; nothing for any other term.
#[cycle(under)]
#[inline(never)]
fn add_compared(
    alloc: Global,
    form: &mut BTreeMap<Monomial, u64>,
    places: &[Place],
    term: &Term,
    factor: u64,
) -> Result<(), AllocError>
    requires { NoZero form.old.entries }
    ensures nonzero { NoZero form.new.entries }
    ensures added { OnOk result (AddsSum form.old.entries form.new.entries factor (expand_if (is_comparison (shape term.now)) (under places.now (shape term.now)))) }
{
    match term {
        Term::Less(a, b) => {
            let (f, g) = both(
                polynomial_of(alloc, places, a),
                polynomial_of(alloc, places, b),
            )?;
            add_less_under(alloc, form, places, f, g, factor)
        }
        Term::LessEqual(a, b) => {
            let (f, g) = both(
                polynomial_of(alloc, places, a),
                polynomial_of(alloc, places, b),
            )?;
            add_less_equal_under(alloc, form, places, f, g, factor)
        }
        _ => Ok(()),
    }
}

/// Adds whether two values are equal, times the factor; nothing for any other term.
#[cycle(under)]
#[inline(never)]
fn add_equated(
    alloc: Global,
    form: &mut BTreeMap<Monomial, u64>,
    places: &[Place],
    term: &Term,
    factor: u64,
) -> Result<(), AllocError>
    requires { NoZero form.old.entries }
    ensures nonzero { NoZero form.new.entries }
    ensures added { OnOk result (AddsSum form.old.entries form.new.entries factor (expand_if (is_equation (shape term.now)) (under places.now (shape term.now)))) }
{
    match term {
        Term::Same(a, b) => match a.sort() {
            Sort::Long => {
                let (f, g) = both(
                    polynomial_of(alloc, places, a),
                    polynomial_of(alloc, places, b),
                )?;
                add_same_under(alloc, form, places, f, g, factor)
            }
            Sort::Bool => {
                let (f, g) = both(
                    polynomial_of(alloc, places, a),
                    polynomial_of(alloc, places, b),
                )?;
                add_same_truths(alloc, form, &f, &g, factor)
            }
            Sort::Pointer => {
                let (p, q) = both(pointer_of(alloc, places, a), pointer_of(alloc, places, b))?;
                add_same_pointers(alloc, form, p, q, factor)
            }
            _ => Err(AllocError),
        },
        _ => Ok(()),
    }
}

/// Adds a choice of numbers or truth values, times the factor; nothing for any other term.
#[cycle(under)]
#[inline(never)]
fn add_choice(
    alloc: Global,
    form: &mut BTreeMap<Monomial, u64>,
    places: &[Place],
    term: &Term,
    factor: u64,
) -> Result<(), AllocError>
    requires { NoZero form.old.entries }
    ensures nonzero { NoZero form.new.entries }
    ensures added { OnOk result (AddsSum form.old.entries form.new.entries factor (expand_if (is_choice (shape term.now)) (under places.now (shape term.now)))) }
{
    match term {
        Term::Choose(c, a, b) => {
            let sides = both(
                polynomial_of(alloc, places, a),
                polynomial_of(alloc, places, b),
            );
            let (f, (g, h)) = both(polynomial_of(alloc, places, c), sides)?;
            add_chosen(alloc, form, &f, &g, &h, factor)
        }
        _ => Ok(()),
    }
}

/// Adds a quotient, or what a division leaves, times the factor; nothing for any other term.
#[cycle(under)]
#[inline(never)]
fn add_divided(
    alloc: Global,
    form: &mut BTreeMap<Monomial, u64>,
    places: &[Place],
    term: &Term,
    factor: u64,
) -> Result<(), AllocError>
    requires { NoZero form.old.entries }
    ensures nonzero { NoZero form.new.entries }
    ensures added { OnOk result (AddsSum form.old.entries form.new.entries factor (expand_if (is_division (shape term.now)) (under places.now (shape term.now)))) }
{
    match term {
        Term::Divide(a, n) => {
            let f = polynomial_of(alloc, places, a)?;
            add_quotient(alloc, form, f, *n, factor)
        }
        Term::Remainder(a, n) => {
            let f = polynomial_of(alloc, places, a)?;
            add_modulus(alloc, form, f, *n, factor)
        }
        _ => Ok(()),
    }
}

/// Adds the item of an array of numbers or truth values, times the factor; nothing for any other term.
#[cycle(under)]
#[inline(never)]
fn add_selected(
    alloc: Global,
    form: &mut BTreeMap<Monomial, u64>,
    places: &[Place],
    term: &Term,
    factor: u64,
) -> Result<(), AllocError>
    requires { NoZero form.old.entries }
    ensures nonzero { NoZero form.new.entries }
    ensures added { OnOk result (AddsSum form.old.entries form.new.entries factor (expand_if (is_selection (shape term.now)) (under places.now (shape term.now)))) }
{
    match term {
        Term::Select(a, i) => {
            add_item_of(
                alloc,
                form,
                array_of(alloc, places, a),
                polynomial_of(alloc, places, i),
                factor,
            )
        }
        _ => Ok(()),
    }
}

/// Adds an operator whose operands may stand in any order, times the factor; nothing for any other term.
#[cycle(under)]
#[inline(never)]
fn add_folded(
    alloc: Global,
    form: &mut BTreeMap<Monomial, u64>,
    places: &[Place],
    term: &Term,
    factor: u64,
) -> Result<(), AllocError>
    requires { NoZero form.old.entries }
    ensures nonzero { NoZero form.new.entries }
    ensures added { OnOk result (AddsSum form.old.entries form.new.entries factor (expand_if (is_folding (shape term.now)) (under places.now (shape term.now)))) }
{
    match term {
        Term::Fold(op, a, b) => {
            let (f, g) = both(
                polynomial_of(alloc, places, a),
                polynomial_of(alloc, places, b),
            )?;
            let whole = fold_form(alloc, *op, f, g)?;
            add_whole(form, whole, factor)
        }
        _ => Ok(()),
    }
}

/// Adds an atom, a read or a result, times the factor.
#[cycle(under)]
#[inline(never)]
fn add_own_part(
    alloc: Global,
    form: &mut BTreeMap<Monomial, u64>,
    places: &[Place],
    term: &Term,
    factor: u64,
) -> Result<(), AllocError>
    requires { NoZero form.old.entries }
    ensures nonzero { NoZero form.new.entries }
    ensures added { OnOk result (AddsSum form.old.entries form.new.entries factor (alone (part_of (under places.now (shape term.now))))) }
{
    let part = part_of(alloc, places, term)?;
    add_part(alloc, form, part, factor)
}

/// The part that an atom, a read or a result is; some atom for any other term.
#[cycle(under)]
#[inline(never)]
fn part_of(alloc: Global, places: &[Place], term: &Term) -> Result<Part, AllocError>
    ensures { IfOk result (λ p. p ≡ part_of (under places.now (shape term.now))) }
{
    match term {
        Term::Read(sort, p, class, field) => {
            let object = pointer_of(alloc, places, p)?;
            Ok(Part::field(*sort, object, *class, *field))
        }
        Term::ReadAt(sort, p, class, field, i) => {
            let (object, index) = both(
                pointer_of(alloc, places, p),
                polynomial_of(alloc, places, i),
            )?;
            Ok(Part::item(*sort, object, *class, *field, index))
        }
        Term::Result(sort, method, p, args) => {
            let (receiver, args) = both(
                pointer_of(alloc, places, p),
                arguments_of(alloc, places, args),
            )?;
            Ok(Part::call(*sort, *method, receiver, args))
        }
        _ => Err(AllocError),
    }
}

/// The polynomial of a term, which is to be a number or a truth value. It recurses as deep as the term is.
#[cycle(under)]
#[inline(never)]
pub fn polynomial_of(alloc: Global, places: &[Place], term: &Term) -> Result<Polynomial, AllocError>
    ensures { IfOk result (λ f. f ≡ gathered (expand (under places.now (shape term.now)))) }
{
    let mut form = BTreeMap::new(alloc);
    add_term(alloc, &mut form, places, term, 1)?;
    finish(alloc, form)
}

#[cycle(under)]
#[inline(never)]
fn own_pointer(alloc: Global, places: &[Place], term: &Term) -> Result<Pointer, AllocError>
    ensures { IfOk result (λ p. p ≡ pointer_part (part_of (under places.now (shape term.now)))) }
{
    let part = part_of(alloc, places, term)?;
    Pointer::of(alloc, part)
}

/// The form of a term that is to be a pointer. It recurses as deep as the term is.
#[cycle(under)]
#[inline(never)]
pub fn pointer_of(alloc: Global, places: &[Place], term: &Term) -> Result<Pointer, AllocError>
    ensures { IfOk result (λ p. p ≡ pointer_of (under places.now (shape term.now))) }
{
    match term {
        Term::Choose(c, a, b) => {
            let sides = both(pointer_of(alloc, places, a), pointer_of(alloc, places, b));
            let (f, (p, q)) = both(polynomial_of(alloc, places, c), sides)?;
            chosen_pointer(alloc, f, p, q)
        }
        Term::Atom(sort, group, number) => atom_pointer(alloc, places, *sort, *group, *number),
        Term::Less(_, _) | Term::LessEqual(_, _) | Term::Same(_, _) => Ok(Pointer::null()),
        Term::Read(_, _, _, _) => own_pointer(alloc, places, term),
        Term::ReadAt(_, _, _, _, _) => own_pointer(alloc, places, term),
        Term::Result(_, _, _, _) => own_pointer(alloc, places, term),
        Term::Select(_, _) => item_pointer(alloc, places, term),
        _ => Ok(Pointer::null()),
    }
}

/// The item of an array of pointers. Each kind has a function of its own, so that the frames are small.
#[cycle(under)]
#[inline(never)]
fn item_pointer(alloc: Global, places: &[Place], term: &Term) -> Result<Pointer, AllocError>
    ensures { IfOk result (λ p. p ≡ pointer_of (under places.now (shape term.now))) }
{
    match term {
        Term::Select(a, i) => pointer_of_item(
            alloc,
            array_of(alloc, places, a),
            polynomial_of(alloc, places, i),
        ),
        _ => Err(AllocError),
    }
}

/// The form of a term that is to be an array. It recurses as deep as the term is.
#[cycle(under)]
#[inline(never)]
pub fn array_of(alloc: Global, places: &[Place], term: &Term) -> Result<Array, AllocError>
    ensures { IfOk result (λ a. a ≡ array_of (under places.now (shape term.now))) }
{
    match term {
        Term::Atom(sort, group, number) => atom_array(alloc, places, *sort, *group, *number),
        Term::Less(_, _) | Term::LessEqual(_, _) | Term::Same(_, _) => Ok(Array::atom(
            Sort::Long,
            0,
            0,
        )),
        Term::Choose(_, _, _) => array_choice(alloc, places, term),
        Term::Put(_, _, _) => array_put(alloc, places, term),
        Term::AddAt(_, _, _) => array_added(alloc, places, term),
        Term::Sweep(_, _, _, _) => array_swept(alloc, places, term),
        _ => Ok(Array::atom(Sort::Long, 0, 0)),
    }
}

#[cycle(under)]
#[inline(never)]
fn array_choice(alloc: Global, places: &[Place], term: &Term) -> Result<Array, AllocError>
    ensures { IfOk result (λ a. a ≡ array_of (under places.now (shape term.now))) }
{
    match term {
        Term::Choose(c, a, b) => {
            let sides = both(array_of(alloc, places, a), array_of(alloc, places, b));
            let (condition, (first, second)) = both(polynomial_of(alloc, places, c), sides)?;
            chosen_array(alloc, condition, first, second)
        }
        _ => Err(AllocError),
    }
}

#[cycle(under)]
#[inline(never)]
fn array_put(alloc: Global, places: &[Place], term: &Term) -> Result<Array, AllocError>
    ensures { IfOk result (λ a. a ≡ array_of (under places.now (shape term.now))) }
{
    match term {
        Term::Put(a, i, x) => {
            let parts = both(polynomial_of(alloc, places, i), scalar_of(alloc, places, x));
            let (array, (index, item)) = both(array_of(alloc, places, a), parts)?;
            array.put(alloc, index, item)
        }
        _ => Err(AllocError),
    }
}

#[cycle(under)]
#[inline(never)]
fn array_added(alloc: Global, places: &[Place], term: &Term) -> Result<Array, AllocError>
    ensures { IfOk result (λ a. a ≡ array_of (under places.now (shape term.now))) }
{
    match term {
        Term::AddAt(a, i, x) => {
            let parts = both(
                polynomial_of(alloc, places, i),
                polynomial_of(alloc, places, x),
            );
            let (array, (index, addend)) = both(array_of(alloc, places, a), parts)?;
            array.added_at(alloc, Span::one(index), addend)
        }
        _ => Err(AllocError),
    }
}

#[cycle(under)]
#[inline(never)]
fn array_swept(alloc: Global, places: &[Place], term: &Term) -> Result<Array, AllocError>
    ensures { IfOk result (λ a. a ≡ array_of (under places.now (shape term.now))) }
{
    match term {
        Term::Sweep(a, f, t, x) => {
            let bounds = both(
                polynomial_of(alloc, places, f),
                polynomial_of(alloc, places, t),
            );
            let parts = both(bounds, polynomial_of(alloc, places, x));
            let (array, ((from, to), addend)) = both(array_of(alloc, places, a), parts)?;
            array.added_at(alloc, Span::range(from, to), addend)
        }
        _ => Err(AllocError),
    }
}

/// The form of a term that is to be a number, a truth value or a pointer.
#[cycle(under)]
#[inline(never)]
pub fn scalar_of(alloc: Global, places: &[Place], term: &Term) -> Result<Scalar, AllocError>
    ensures { IfOk result (λ x. x ≡ scalar_of (under places.now (shape term.now))) }
{
    match term.sort() {
        Sort::Pointer => Ok(Scalar::pointer(pointer_of(alloc, places, term)?)),
        Sort::Bool => Ok(Scalar::truth(polynomial_of(alloc, places, term)?)),
        Sort::Long => Ok(Scalar::number(polynomial_of(alloc, places, term)?)),
        _ => Err(AllocError),
    }
}

#[cycle(under)]
#[inline(never)]
fn arguments_of(alloc: Global, places: &[Place], terms: &[Term]) -> Result<Scalars, AllocError>
    ensures { IfOk result (λ xs. xs ≡ arguments_of (all_under places.now (terms_of (map shape terms.now)))) }
{
    let mut items = Vec::new(alloc);
    for term in terms {
        add(&mut items, scalar_of(alloc, places, term))?;
    }
    Ok(Scalars::of(items))
}
