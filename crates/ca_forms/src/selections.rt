//! Items of arrays by their normal forms.

ghost use Rattle.std.specs.Prelude.{◌≡◌, IfOk, IsOkAnd, OnOk};
ghost use Rattle.ca_sums.specs.Sums.{NoZero, AddsSum};
ghost use Rattle.ca_sums.specs.Products.{product};
ghost use Rattle.ca_forms.specs.Lists.{products_of};
ghost use Rattle.ca_forms.specs.Products.{times};
ghost use Rattle.ca_forms.specs.Rules.{alone, gathered, negated, less_sum, chosen, chosen_pointer};
ghost use Rattle.ca_forms.specs.Plain.{own_item, pointer_part};
ghost use Rattle.ca_forms.specs.ArrayRules.{same_index, lies_in, rows_at, products_in, pointer_in, selected, selected_pointer};

use crate::array::{Array, ArrayNode, Row, Span, SpanNode};
use crate::parts::{both, let_go};
use crate::pointers::chosen_pointer;
use crate::polynomial::{Monomial, Part, Pointer, Polynomial, Scalar, ScalarNode};
use crate::rules::{add_chosen, add_less, add_part, add_same, add_truth};
use crate::sort::Sort;
use crate::sums::{add_product_of, finish};
use std::alloc::{AllocError, Global};
use std::collections::BTreeMap;

/// Whether two indexes are equal.
#[inline(never)]
fn same_index(alloc: Global, i: &Polynomial, j: &Polynomial) -> Result<Polynomial, AllocError>
    ensures { IfOk result (λ f. f ≡ gathered (same_index i.now j.now)) }
{
    let (i, j) = both(i.copy(alloc), j.copy(alloc))?;
    let mut form = BTreeMap::new(alloc);
    add_same(alloc, &mut form, i, j, 1)?;
    finish(alloc, form)
}

/// Whether a number is less than another.
#[inline(never)]
fn less(alloc: Global, f: &Polynomial, g: &Polynomial) -> Result<Polynomial, AllocError>
    ensures { IfOk result (λ h. h ≡ gathered (less_sum f.now g.now)) }
{
    let (f, g) = both(f.copy(alloc), g.copy(alloc))?;
    let mut form = BTreeMap::new(alloc);
    add_less(alloc, &mut form, f, g, 1)?;
    finish(alloc, form)
}

/// Whether a number is not less than another.
#[inline(never)]
fn not_less(alloc: Global, f: &Polynomial, g: &Polynomial) -> Result<Polynomial, AllocError>
    ensures { IfOk result (λ h. h ≡ gathered (negated (less_sum f.now g.now))) }
{
    let (f, g) = both(f.copy(alloc), g.copy(alloc))?;
    let mut form = BTreeMap::new(alloc);
    add_truth(alloc, &mut form, true, 1)?;
    add_less(alloc, &mut form, f, g, u64::MAX)?;
    finish(alloc, form)
}

/// Whether an index lies in a range.
#[inline(never)]
fn in_range(
    alloc: Global,
    from: &Polynomial,
    to: &Polynomial,
    index: &Polynomial,
) -> Result<Polynomial, AllocError>
    ensures { IfOk result (λ h. h ≡ gathered (product times (negated (less_sum index.now from.now)) (less_sum index.now to.now))) }
{
    let (low, high) = both(not_less(alloc, index, from), less(alloc, index, to))?;
    let mut form = BTreeMap::new(alloc);
    add_product_of(alloc, &mut form, &low, &high, 1)?;
    finish(alloc, form)
}

/// Whether an index lies in a span.
#[inline(never)]
fn lies_in(alloc: Global, span: &Span, index: &Polynomial) -> Result<Polynomial, AllocError>
    ensures { IfOk result (λ h. h ≡ gathered (lies_in span.now index.now)) }
{
    match &span.node {
        SpanNode::One(i) => same_index(alloc, i, index),
        SpanNode::Range(f, t) => in_range(alloc, f, t, index),
    }
}

/// Adds what a row adds to the item at an index, times the factor.
#[inline(never)]
fn add_row_at(
    alloc: Global,
    form: &mut BTreeMap<Monomial, u64>,
    row: &Row,
    index: &Polynomial,
    factor: u64,
) -> Result<(), AllocError>
    requires { NoZero form.old.entries }
    ensures nonzero { NoZero form.new.entries }
    ensures added { OnOk result (AddsSum form.old.entries form.new.entries factor (product times (lies_in row.now.0 index.now) (products_of row.now.1))) }
{
    let lies = lies_in(alloc, &row.span, index)?;
    add_product_of(alloc, form, &lies, &row.addend, factor)
}

/// Adds what rows add to the item at an index, times the factor.
#[inline(never)]
fn add_rows_at(
    alloc: Global,
    form: &mut BTreeMap<Monomial, u64>,
    rows: &[Row],
    index: &Polynomial,
    factor: u64,
) -> Result<(), AllocError>
    requires { NoZero form.old.entries }
    ensures nonzero { NoZero form.new.entries }
    ensures added { OnOk result (AddsSum form.old.entries form.new.entries factor (rows_at index.now rows.now)) }
{
    for row in rows {
        add_row_at(alloc, form, row, index, factor)?;
    }
    Ok(())
}

/// Adds the item that was put where the condition holds, and else another, times the factor.
#[inline(never)]
fn add_put(
    alloc: Global,
    form: &mut BTreeMap<Monomial, u64>,
    condition: &Polynomial,
    item: &Scalar,
    other: &Polynomial,
    factor: u64,
) -> Result<(), AllocError>
    requires { NoZero form.old.entries }
    ensures nonzero { NoZero form.new.entries }
    ensures added { OnOk result (AddsSum form.old.entries form.new.entries factor (chosen (products_of condition.now) (products_in item.now) (products_of other.now))) }
{
    match &item.node {
        ScalarNode::Number(f) => add_chosen(alloc, form, condition, f, other, factor),
        ScalarNode::Truth(f) => add_chosen(alloc, form, condition, f, other, factor),
        ScalarNode::Pointer(_) => {
            let none = Polynomial {
                products: Vec::new(alloc),
            };
            add_chosen(alloc, form, condition, &none, other, factor)
        }
    }
}

/// The same, of a condition and an other item that were made for it.
#[inline(never)]
fn add_put_of(
    alloc: Global,
    form: &mut BTreeMap<Monomial, u64>,
    parts: Result<(Polynomial, Polynomial), AllocError>,
    item: &Scalar,
    factor: u64,
) -> Result<(), AllocError>
    requires { NoZero form.old.entries }
    ensures nonzero { NoZero form.new.entries }
    ensures added { OnOk result (IsOkAnd parts (λ p. AddsSum form.old.entries form.new.entries factor (chosen (products_of p.0) (products_in item.now) (products_of p.1)))) }
{
    let (same, other) = parts?;
    add_put(alloc, form, &same, item, &other, factor)
}

/// Adds the first of two items that were made for it where the condition holds, and else the second, times the factor.
#[inline(never)]
fn add_sides(
    alloc: Global,
    form: &mut BTreeMap<Monomial, u64>,
    condition: &Polynomial,
    sides: Result<(Polynomial, Polynomial), AllocError>,
    factor: u64,
) -> Result<(), AllocError>
    requires { NoZero form.old.entries }
    ensures nonzero { NoZero form.new.entries }
    ensures added { OnOk result (IsOkAnd sides (λ s. AddsSum form.old.entries form.new.entries factor (chosen (products_of condition.now) (products_of s.0) (products_of s.1)))) }
{
    let (first, second) = sides?;
    add_chosen(alloc, form, condition, &first, &second, factor)
}

/// Adds the item of an atom at an index, times the factor.
#[inline(never)]
fn add_own_item(
    alloc: Global,
    form: &mut BTreeMap<Monomial, u64>,
    sort: Sort,
    group: u32,
    number: u32,
    index: &Polynomial,
    factor: u64,
) -> Result<(), AllocError>
    requires { NoZero form.old.entries }
    ensures nonzero { NoZero form.new.entries }
    ensures added { OnOk result (AddsSum form.old.entries form.new.entries factor (alone (own_item sort group number index.now))) }
{
    let index = index.copy(alloc)?;
    add_part(
        alloc,
        form,
        Part::own_item(sort, group, number, index),
        factor,
    )
}

/// The item of an atom at an index, of an array of pointers.
#[inline(never)]
fn own_pointer(
    alloc: Global,
    sort: Sort,
    group: u32,
    number: u32,
    index: Result<Polynomial, AllocError>,
) -> Result<Pointer, AllocError>
    ensures { IfOk result (λ p. IsOkAnd index (λ i. p ≡ pointer_part (own_item sort group number i))) }
{
    let index = index?;
    Pointer::of(alloc, Part::own_item(sort, group, number, index))
}

/// The first of two pointers where the condition holds, and else the second, if there are all three.
#[inline(never)]
fn pointer_of_sides(
    alloc: Global,
    condition: Result<Polynomial, AllocError>,
    sides: Result<(Pointer, Pointer), AllocError>,
) -> Result<Pointer, AllocError>
    ensures { IfOk result (λ p. IsOkAnd condition (λ c. IsOkAnd sides (λ s. p ≡ chosen_pointer c s.0 s.1))) }
{
    let (condition, (first, second)) = both(condition, sides)?;
    chosen_pointer(alloc, condition, first, second)
}

impl Array {
    /// Adds the item at an index, of an array of numbers or truth values, times the factor. It recurses as deep as the
    /// array has steps.
    #[cycle(items)]
    #[inline(never)]
    pub fn add_item(
        &self,
        alloc: Global,
        form: &mut BTreeMap<Monomial, u64>,
        index: &Polynomial,
        factor: u64,
    ) -> Result<(), AllocError>
        requires { NoZero form.old.entries }
        ensures nonzero { NoZero form.new.entries }
        ensures added { OnOk result (AddsSum form.old.entries form.new.entries factor (selected self.now index.now)) }
    {
        match &self.node {
            ArrayNode::Items(s, g, n) => add_own_item(alloc, form, *s, *g, *n, index, factor),
            ArrayNode::Put(a, i, x) => {
                let parts = both(same_index(alloc, i, index), a.item(alloc, index));
                add_put_of(alloc, form, parts, x, factor)
            }
            ArrayNode::Sums(a, rows) => {
                let before = a.add_item(alloc, form, index, factor);
                before.and(add_rows_at(alloc, form, &rows.items, index, factor))
            }
            ArrayNode::Choice(c, a, b) => {
                let sides = both(a.item(alloc, index), b.item(alloc, index));
                add_sides(alloc, form, c, sides, factor)
            }
        }
    }

    #[cycle(items)]
    #[inline(never)]
    fn item(&self, alloc: Global, index: &Polynomial) -> Result<Polynomial, AllocError>
        ensures { IfOk result (λ f. f ≡ gathered (selected self.now index.now)) }
    {
        let mut form = BTreeMap::new(alloc);
        self.add_item(alloc, &mut form, index, 1)?;
        finish(alloc, form)
    }

    /// The item at an index, of an array of pointers. It recurses as deep as the array has steps.
    #[cycle(pointers)]
    #[inline(never)]
    pub fn pointer_at(&self, alloc: Global, index: &Polynomial) -> Result<Pointer, AllocError>
        ensures { IfOk result (λ p. p ≡ selected_pointer self.now index.now) }
    {
        match &self.node {
            ArrayNode::Items(s, g, n) => own_pointer(alloc, *s, *g, *n, index.copy(alloc)),
            ArrayNode::Put(a, i, x) => {
                let sides = both(x.pointer_in(alloc), a.pointer_at(alloc, index));
                pointer_of_sides(alloc, same_index(alloc, i, index), sides)
            }
            ArrayNode::Sums(a, _) => a.pointer_at(alloc, index),
            ArrayNode::Choice(c, a, b) => {
                let sides = both(a.pointer_at(alloc, index), b.pointer_at(alloc, index));
                pointer_of_sides(alloc, c.copy(alloc), sides)
            }
        }
    }
}

impl Array {
    /// Adds the item at an index, times the factor. The index goes into the part, where the array is an atom, so that an
    /// index of an index of many isn't copied at each.
    #[inline(never)]
    pub fn add_item_at(
        &self,
        alloc: Global,
        form: &mut BTreeMap<Monomial, u64>,
        index: Polynomial,
        factor: u64,
    ) -> Result<(), AllocError>
        requires { NoZero form.old.entries }
        ensures nonzero { NoZero form.new.entries }
        ensures added { OnOk result (AddsSum form.old.entries form.new.entries factor (selected self.now index)) }
    {
        match &self.node {
            ArrayNode::Items(s, g, n) => {
                let part = Part::own_item(*s, *g, *n, index);
                add_part(alloc, form, part, factor)
            }
            _ => {
                let added = self.add_item(alloc, form, &index, factor);
                let_go(index);
                added
            }
        }
    }

    /// The item at an index, which goes into the part likewise, of an array of pointers.
    #[inline(never)]
    pub fn pointer_item_at(&self, alloc: Global, index: Polynomial) -> Result<Pointer, AllocError>
        ensures { IfOk result (λ p. p ≡ selected_pointer self.now index) }
    {
        match &self.node {
            ArrayNode::Items(s, g, n) => own_pointer(alloc, *s, *g, *n, Ok(index)),
            _ => {
                let pointer = self.pointer_at(alloc, &index);
                let_go(index);
                pointer
            }
        }
    }
}

impl Scalar {
    /// The pointer that it is; null for any other form.
    #[inline(never)]
    fn pointer_in(&self, alloc: Global) -> Result<Pointer, AllocError>
        ensures { IfOk result (λ p. p ≡ pointer_in self.now) }
    {
        match &self.node {
            ScalarNode::Number(_) => Ok(Pointer::null()),
            ScalarNode::Truth(_) => Ok(Pointer::null()),
            ScalarNode::Pointer(p) => p.copy(alloc),
        }
    }
}
