//! Normal forms of terms of which many stand under the same conditions.

ghost use Rattle.std.specs.Prelude.{◌≡◌, IfOk, IfSome, OnOk};
ghost use Rattle.ca_sums.specs.Sums.{NoZero, AddsSum};
ghost use Rattle.ca_forms.specs.Rules.{gathered};
ghost use Rattle.ca_forms.specs.Arrays.{one, range};
ghost use Rattle.ca_forms.specs.ArrayRules.{added_at};
ghost use Rattle.ca_norm.specs.Forms.{expand, norm, pointer_of, array_of};

use crate::light::{LightTerm, Node};
use ca_forms::array::{Array, Span};
use ca_forms::array_rules::chosen_array;
use ca_forms::parts::{add, both};
use ca_forms::pointers::chosen_pointer;
use ca_forms::polynomial::{Monomial, Pointer, Polynomial, Scalar};
use ca_forms::rules::add_chosen;
use ca_forms::sums::{add_polynomial, finish};
use ca_norm::{MOST_WEIGHT, Normal, Sort};
use std::alloc::{AllocError, Global};
use std::collections::BTreeMap;

/// What a condition weighs at least whose form is kept.
const LEAST_KEPT: u64 = 1_000;

/// A condition and its form.
#[derive(Drop)]
struct Kept {
    condition: LightTerm,
    form: Polynomial,
    ghost is_form: { form ≡ gathered (expand condition) },
}

/// Forms of heavy conditions, so that one over many targets is brought into its form once.
#[derive(Drop)]
pub struct Conditions {
    kept: Vec<Kept>,
    /// What they weigh, all together: at most `MOST_WEIGHT`.
    weight: u64,
}

/// The form that is kept of a condition.
fn known<'a>(kept: &'a [Kept], condition: &LightTerm) -> Option<&'a Polynomial>
    ensures { IfSome result (λ f. f.now ≡ gathered (expand condition.now)) }
{
    let weight = condition.measure.weight();
    for entry in kept {
        if entry.condition.measure.weight() == weight && entry.condition.is_same(condition) {
            return Some(&entry.form);
        }
    }
    None
}

/// An array's form with a sum more at an item. It has a function of its own, as `with_sweep` has, so that the frames of the
/// recursion are small.
#[inline(never)]
fn with_sum(
    alloc: Global,
    array: Array,
    index: &LightTerm,
    addend: &LightTerm,
) -> Result<Array, AllocError>
    ensures { IfOk result (λ a. a ≡ added_at array (one (gathered (expand index.now))) (gathered (expand addend.now))) }
{
    let (index, addend) = both(index.polynomial(alloc), addend.polynomial(alloc))?;
    array.added_at(alloc, Span::one(index), addend)
}

/// An array's form with a sum more at each item of a range.
#[inline(never)]
fn with_sweep(
    alloc: Global,
    array: Array,
    from: &LightTerm,
    to: &LightTerm,
    addend: &LightTerm,
) -> Result<Array, AllocError>
    ensures { IfOk result (λ a. a ≡ added_at array (range (gathered (expand from.now)) (gathered (expand to.now))) (gathered (expand addend.now))) }
{
    let bounds = both(from.polynomial(alloc), to.polynomial(alloc));
    let ((from, to), addend) = both(bounds, addend.polynomial(alloc))?;
    array.added_at(alloc, Span::range(from, to), addend)
}

impl Conditions {
    /// None.
    pub fn new(alloc: Global) -> Conditions {
        Conditions {
            kept: Vec::new(alloc),
            weight: 0,
        }
    }

    /// Keeps the form of a heavy condition, and lets the others go where there would be too many.
    fn keep(
        &mut self,
        alloc: Global,
        condition: &LightTerm,
        form: &Polynomial,
    ) -> Result<(), AllocError>
        requires { form.now ≡ gathered (expand condition.now) }
    {
        let weight = condition.measure.weight();
        if weight < LEAST_KEPT {
            return Ok(());
        }
        let (condition, form) = both(condition.share(), form.copy(alloc))?;
        let together = self.weight.saturating_add(weight);
        if together > MOST_WEIGHT {
            self.kept = Vec::new(alloc);
            self.weight = weight;
        } else {
            self.weight = together;
        }
        add(&mut self.kept, Ok(Kept { condition, form }))
    }

    /// The form of a condition.
    fn form(&mut self, alloc: Global, condition: &LightTerm) -> Result<Polynomial, AllocError>
        ensures { IfOk result (λ f. f ≡ gathered (expand condition.now)) }
    {
        if let Some(form) = known(self.kept.as_slice(), condition) {
            return form.copy(alloc);
        }
        let form = condition.polynomial(alloc)?;
        self.keep(alloc, condition, &form)?;
        Ok(form)
    }
}

impl LightTerm {
    /// As `normal`; what stands in choices under heavy conditions is brought into its form by those that are kept.
    pub fn normal_under(
        &self,
        alloc: Global,
        conditions: &mut Conditions,
    ) -> Result<Normal, AllocError>
        ensures { IfOk result (λ n. n ≡ norm self.now) }
    {
        match self.sort() {
            Sort::Long => Ok(Normal::Scalar(Scalar::number(self.polynomial_under(
                alloc, conditions,
            )?))),
            Sort::Bool => Ok(Normal::Scalar(Scalar::truth(self.polynomial_under(
                alloc, conditions,
            )?))),
            Sort::Pointer => Ok(Normal::Scalar(Scalar::pointer(self.pointer_under(
                alloc, conditions,
            )?))),
            _ => Ok(Normal::Array(self.array_under(alloc, conditions)?)),
        }
    }

    /// Adds the products of a number or a truth value, each times the factor. It recurses as deep as the term is.
    #[cycle(under)]
    #[inline(never)]
    fn add_under(
        &self,
        alloc: Global,
        form: &mut BTreeMap<Monomial, u64>,
        factor: u64,
        conditions: &mut Conditions,
    ) -> Result<(), AllocError>
        requires { NoZero form.old.entries }
        ensures nonzero { NoZero form.new.entries }
        ensures added { OnOk result (AddsSum form.old.entries form.new.entries factor (expand self.now)) }
    {
        match &*self.node {
            Node::Add(a, b) => {
                a.add_under(alloc, form, factor, conditions)?;
                b.add_under(alloc, form, factor, conditions)
            }
            Node::Sub(a, b) => {
                let opposite = factor.wrapping_mul(u64::MAX);
                a.add_under(alloc, form, factor, conditions)?;
                b.add_under(alloc, form, opposite, conditions)
            }
            Node::Choose(_, _, _) => self.add_choice_under(alloc, form, factor, conditions),
            _ => {
                let own = self.polynomial(alloc)?;
                add_polynomial(alloc, form, &own, factor)
            }
        }
    }

    /// Adds the products of a choice of numbers or truth values, each times the factor. It has a function of its own, so
    /// that the frames are small.
    #[cycle(under)]
    #[inline(never)]
    fn add_choice_under(
        &self,
        alloc: Global,
        form: &mut BTreeMap<Monomial, u64>,
        factor: u64,
        conditions: &mut Conditions,
    ) -> Result<(), AllocError>
        requires { NoZero form.old.entries }
        ensures nonzero { NoZero form.new.entries }
        ensures added { OnOk result (AddsSum form.old.entries form.new.entries factor (expand self.now)) }
    {
        match &*self.node {
            Node::Choose(c, a, b) => {
                let first = a.polynomial_under(alloc, conditions);
                let second = b.polynomial_under(alloc, conditions);
                let sides = both(first, second);
                let (f, (g, h)) = both(conditions.form(alloc, c), sides)?;
                add_chosen(alloc, form, &f, &g, &h, factor)
            }
            _ => Err(AllocError),
        }
    }

    /// As `polynomial`.
    #[cycle(under)]
    #[inline(never)]
    fn polynomial_under(
        &self,
        alloc: Global,
        conditions: &mut Conditions,
    ) -> Result<Polynomial, AllocError>
        ensures { IfOk result (λ f. f ≡ gathered (expand self.now)) }
    {
        let mut form = BTreeMap::new(alloc);
        self.add_under(alloc, &mut form, 1, conditions)?;
        finish(alloc, form)
    }

    /// The form of a pointer. It recurses as deep as choices stand in sides of choices.
    #[inline(never)]
    fn pointer_under(
        &self,
        alloc: Global,
        conditions: &mut Conditions,
    ) -> Result<Pointer, AllocError>
        ensures { IfOk result (λ p. p ≡ pointer_of self.now) }
    {
        match &*self.node {
            Node::Choose(c, a, b) => {
                let first = a.pointer_under(alloc, conditions);
                let second = b.pointer_under(alloc, conditions);
                let sides = both(first, second);
                let (condition, (first, second)) = both(conditions.form(alloc, c), sides)?;
                chosen_pointer(alloc, condition, first, second)
            }
            _ => self.pointer(alloc),
        }
    }

    /// The form of an array. It recurses as deep as the term is.
    #[inline(never)]
    fn array_under(&self, alloc: Global, conditions: &mut Conditions) -> Result<Array, AllocError>
        ensures { IfOk result (λ a. a ≡ array_of self.now) }
    {
        match &*self.node {
            Node::Choose(c, a, b) => {
                let first = a.array_under(alloc, conditions);
                let second = b.array_under(alloc, conditions);
                let sides = both(first, second);
                let (condition, (first, second)) = both(conditions.form(alloc, c), sides)?;
                chosen_array(alloc, condition, first, second)
            }
            Node::AddAt(a, i, x) => {
                let array = a.array_under(alloc, conditions)?;
                with_sum(alloc, array, i, x)
            }
            Node::Sweep(a, f, t, x) => {
                let array = a.array_under(alloc, conditions)?;
                with_sweep(alloc, array, f, t, x)
            }
            _ => self.array(alloc),
        }
    }
}
