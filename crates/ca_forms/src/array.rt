//! The forms of arrays: their types, their order and their copies. Each stands on the array before its last step, so
//! functions on them recurse as deep as an array has steps.

ghost use Rattle.std.specs.Prelude.{◌≡◌, ◌↔◌, IfOk, IsOkAnd, IsTrue};
ghost use Rattle.std.specs.Cmp.Lexicographic.{slice_cmp};
ghost use Rattle.ca_forms.specs.Arrays.{one, range, span_cmp, own_items, put_item, item_cmp, row_cmp, rows_cmp, array_cmp};
ghost use Rattle.ca_forms.specs.ArraysSeen.{array_of, span_of};
ghost use Rattle.ca_forms.specs.ArrayRules.{is_empty};

use crate::order::names;
use crate::parts::{add, both, one_box};
use crate::polynomial::{Polynomial, Scalar};
use crate::sort::Sort;
use std::alloc::{AllocError, Global};
use std::cmp::Ordering;
use std::marker::Model;

/// Where a row adds.
#[derive(Drop)]
pub struct Span {
    pub(crate) node: SpanNode,
}

#[derive(Drop)]
pub(crate) enum SpanNode {
    /// At an index.
    One(Polynomial),
    /// From a number up to but not including another.
    Range(Polynomial, Polynomial),
}

/// What is added to the items of a span.
#[derive(Drop)]
pub struct Row {
    pub(crate) span: Span,
    pub(crate) addend: Polynomial,
}

/// Rows by rising spans, in which nothing that is added is zero.
#[derive(Drop)]
pub struct Rows {
    pub(crate) items: Vec<Row>,
}

/// The form of an array.
#[cycle(array)]
#[derive(Drop)]
pub struct Array {
    pub(crate) node: ArrayNode,
}

#[cycle(array)]
#[derive(Drop)]
pub(crate) enum ArrayNode {
    /// An atom, by the sort of its items, its group and its number there.
    Items(Sort, u32, u32),
    /// Another item at an index.
    Put(Box<Array>, Polynomial, Scalar),
    /// A gathered sum, which stands on no other.
    Sums(Box<Array>, Rows),
    /// The first array where the truth value holds, and else the second.
    Choice(Polynomial, Box<Array>, Box<Array>),
}

impl Model for Span {
    ghost use Rattle.ca_forms.specs.Arrays.{PlainSpan, coded_span};

    ghost Value = { PlainSpan };

    ghost coded = { coded_span };

    ghost use Rattle.ca_forms.specs.ArraysSeen.{span_of};

    ghost view = { λ a. span_of a.node };
}

impl Model for Row {
    ghost use Rattle.ca_forms.specs.Plain.{PlainPolynomial};
    ghost use Rattle.ca_forms.specs.Arrays.{PlainSpan, coded_row};

    ghost Value = { PlainSpan × PlainPolynomial };

    ghost coded = { coded_row };

    ghost view = { λ a. (a.span, a.addend) };
}

impl Model for Rows {
    ghost use Rattle.ca_forms.specs.Arrays.{PlainRows, coded_rows};

    ghost Value = { PlainRows };

    ghost coded = { coded_rows };

    ghost view = { λ a. a.items.items };
}

impl Model for Array {
    ghost use Rattle.ca_forms.specs.Arrays.{PlainArray, coded_array};

    ghost Value = { PlainArray };

    ghost coded = { coded_array };

    ghost use Rattle.ca_forms.specs.Arrays.{array_size};
    ghost use Rattle.ca_forms.specs.ArraysSeen.{array_of};

    ghost view = { λ a. array_of a.node };

    ghost size = { array_size };

    ghost use Rattle.ca_forms.specs.ArrayFalls.{array_falls};

    ghost size_decreases = { λ a h. array_falls a.node };
}

impl ArrayNode {
    pub(crate) fn array(self) -> Array
        ensures { result ≡ array_of self }
    {
        Array { node: self }
    }
}

impl Array {
    /// The form of an atom, by the sort of its items, its group and its number there.
    pub fn atom(sort: Sort, group: u32, number: u32) -> Array
        ensures { result ≡ own_items sort group number }
    {
        ArrayNode::Items(sort, group, number).array()
    }

    /// With another item at an index.
    #[inline(never)]
    pub fn put(self, alloc: Global, index: Polynomial, item: Scalar) -> Result<Array, AllocError>
        ensures { IfOk result (λ a. a ≡ put_item self index item) }
    {
        let (before, (index, item)) = both(one_box(alloc, Ok(self)), Ok((index, item)))?;
        Ok(ArrayNode::Put(before, index, item).array())
    }

    /// Whether two forms are equal. It takes no memory.
    pub fn same(&self, other: &Array) -> bool
        ensures { IsTrue result ↔ (self.now ≡ other.now) }
    {
        self.compare(other) == Ordering::Equal
    }

    /// By the order of their codes.
    #[cycle(compare_arrays)]
    #[inline(never)]
    pub fn compare(&self, other: &Array) -> Ordering
        ensures { result ≡ array_cmp self.now other.now }
    {
        match &self.node {
            ArrayNode::Items(s, g, n) => match &other.node {
                ArrayNode::Items(t, h, m) => names(*s, *g, *n, *t, *h, *m),
                ArrayNode::Put(_, _, _) | ArrayNode::Sums(_, _) | ArrayNode::Choice(_, _, _) =>
                    Ordering::Less,
            },
            ArrayNode::Put(a, i, x) => match &other.node {
                ArrayNode::Items(_, _, _) => Ordering::Greater,
                ArrayNode::Put(b, j, y) => match a.compare(b) {
                    Ordering::Equal => compare_items(i, x, j, y),
                    order => order,
                },
                ArrayNode::Sums(_, _) | ArrayNode::Choice(_, _, _) => Ordering::Less,
            },
            ArrayNode::Sums(a, rows) => match &other.node {
                ArrayNode::Items(_, _, _) | ArrayNode::Put(_, _, _) => Ordering::Greater,
                ArrayNode::Sums(b, others) => match a.compare(b) {
                    Ordering::Equal => rows.compare(others),
                    order => order,
                },
                ArrayNode::Choice(_, _, _) => Ordering::Less,
            },
            ArrayNode::Choice(c, a, b) => match &other.node {
                ArrayNode::Items(_, _, _) | ArrayNode::Put(_, _, _) | ArrayNode::Sums(_, _) =>
                    Ordering::Greater,
                ArrayNode::Choice(d, x, y) => match c.compare(d) {
                    Ordering::Equal => match a.compare(x) {
                        Ordering::Equal => b.compare(y),
                        order => order,
                    },
                    order => order,
                },
            },
        }
    }

    /// The same form once more.
    #[cycle(copy_arrays)]
    #[inline(never)]
    pub fn copy(&self, alloc: Global) -> Result<Array, AllocError>
        ensures { IfOk result (λ a. a ≡ self.now) }
    {
        match &self.node {
            ArrayNode::Items(s, g, n) => Ok(ArrayNode::Items(*s, *g, *n).array()),
            ArrayNode::Put(_, _, _) => self.copy_put(alloc),
            ArrayNode::Sums(_, _) => self.copy_sums(alloc),
            ArrayNode::Choice(_, _, _) => self.copy_choice(alloc),
        }
    }

    /// A put once more. Each kind of step has a function of its own, so that `copy`, which recurses, keeps no forms in
    /// its frame.
    #[cycle(copy_arrays)]
    #[inline(never)]
    fn copy_put(&self, alloc: Global) -> Result<Array, AllocError>
        ensures { IfOk result (λ a. a ≡ self.now) }
    {
        match &self.node {
            ArrayNode::Put(a, i, x) => {
                let parts = both(i.copy(alloc), x.copy(alloc));
                let (before, (index, item)) = both(one_box(alloc, a.copy(alloc)), parts)?;
                Ok(ArrayNode::Put(before, index, item).array())
            }
            _ => Err(AllocError),
        }
    }

    #[cycle(copy_arrays)]
    #[inline(never)]
    fn copy_sums(&self, alloc: Global) -> Result<Array, AllocError>
        ensures { IfOk result (λ a. a ≡ self.now) }
    {
        match &self.node {
            ArrayNode::Sums(a, rows) => {
                let (before, rows) = both(one_box(alloc, a.copy(alloc)), rows.copy(alloc))?;
                Ok(ArrayNode::Sums(before, rows).array())
            }
            _ => Err(AllocError),
        }
    }

    #[cycle(copy_arrays)]
    #[inline(never)]
    fn copy_choice(&self, alloc: Global) -> Result<Array, AllocError>
        ensures { IfOk result (λ a. a ≡ self.now) }
    {
        match &self.node {
            ArrayNode::Choice(c, a, b) => {
                let sides = both(one_box(alloc, a.copy(alloc)), one_box(alloc, b.copy(alloc)));
                let (condition, (first, second)) = both(c.copy(alloc), sides)?;
                Ok(ArrayNode::Choice(condition, first, second).array())
            }
            _ => Err(AllocError),
        }
    }
}

impl SpanNode {
    pub(crate) fn span(self) -> Span
        ensures { result ≡ span_of self }
    {
        Span { node: self }
    }
}

/// A range of two bounds that were made for it.
#[inline(never)]
fn range_of(bounds: Result<(Polynomial, Polynomial), AllocError>) -> Result<Span, AllocError>
    ensures { IfOk result (λ s. IsOkAnd bounds (λ b. s ≡ range b.0 b.1)) }
{
    let (from, to) = bounds?;
    Ok(SpanNode::Range(from, to).span())
}

/// An index that was made for it.
#[inline(never)]
fn one_of(index: Result<Polynomial, AllocError>) -> Result<Span, AllocError>
    ensures { IfOk result (λ s. IsOkAnd index (λ i. s ≡ one i)) }
{
    let index = index?;
    Ok(SpanNode::One(index).span())
}

impl Span {
    /// The item at an index.
    pub fn one(index: Polynomial) -> Span
        ensures { result ≡ one index }
    {
        SpanNode::One(index).span()
    }

    /// The items from a number up to but not including another.
    pub fn range(from: Polynomial, to: Polynomial) -> Span
        ensures { result ≡ range from to }
    {
        SpanNode::Range(from, to).span()
    }

    /// Whether it is a range whose bounds are equal.
    pub(crate) fn is_empty(&self) -> bool
        ensures { result ≡ is_empty self.now }
    {
        match &self.node {
            SpanNode::One(_) => false,
            SpanNode::Range(from, to) => from.compare(to) == Ordering::Equal,
        }
    }

    /// By the order of their codes.
    #[inline(never)]
    pub(crate) fn compare(&self, other: &Span) -> Ordering
        ensures { result ≡ span_cmp self.now other.now }
    {
        match &self.node {
            SpanNode::One(i) => match &other.node {
                SpanNode::One(j) => i.compare(j),
                SpanNode::Range(_, _) => Ordering::Less,
            },
            SpanNode::Range(f, t) => match &other.node {
                SpanNode::One(_) => Ordering::Greater,
                SpanNode::Range(g, u) => match f.compare(g) {
                    Ordering::Equal => t.compare(u),
                    order => order,
                },
            },
        }
    }

    /// The same span once more.
    #[inline(never)]
    pub(crate) fn copy(&self, alloc: Global) -> Result<Span, AllocError>
        ensures { IfOk result (λ s. s ≡ self.now) }
    {
        match &self.node {
            SpanNode::One(i) => one_of(i.copy(alloc)),
            SpanNode::Range(f, t) => range_of(both(f.copy(alloc), t.copy(alloc))),
        }
    }
}

impl Row {
    #[inline(never)]
    fn compare(&self, other: &Row) -> Ordering
        ensures { result ≡ row_cmp self.now other.now }
    {
        match self.span.compare(&other.span) {
            Ordering::Equal => self.addend.compare(&other.addend),
            order => order,
        }
    }

    #[inline(never)]
    fn copy(&self, alloc: Global) -> Result<Row, AllocError>
        ensures { IfOk result (λ r. r ≡ self.now) }
    {
        let (span, addend) = both(self.span.copy(alloc), self.addend.copy(alloc))?;
        Ok(Row { span, addend })
    }
}

impl Rows {
    #[inline(never)]
    fn compare(&self, other: &Rows) -> Ordering
        ensures { result ≡ rows_cmp self.now other.now }
    {
        compare_rows(&self.items, &other.items)
    }

    #[inline(never)]
    fn copy(&self, alloc: Global) -> Result<Rows, AllocError>
        ensures { IfOk result (λ rs. rs ≡ self.now) }
    {
        let items = copy_rows(alloc, &self.items)?;
        Ok(Rows { items })
    }
}

/// By the index of a put, and then by its item.
#[inline(never)]
fn compare_items(i: &Polynomial, x: &Scalar, j: &Polynomial, y: &Scalar) -> Ordering
    ensures { result ≡ item_cmp i.now x.now j.now y.now }
{
    match i.compare(j) {
        Ordering::Equal => x.compare(y),
        order => order,
    }
}

fn compare_rows(a: &[Row], b: &[Row]) -> Ordering
    ensures { result ≡ slice_cmp row_cmp a.now b.now }
{
    let count = a.len().min(b.len());
    for i in 0..count {
        match a[i].compare(&b[i]) {
            Ordering::Equal => {}
            order => return order,
        }
    }
    a.len().cmp(&b.len())
}

/// The same rows once more.
#[inline(never)]
pub(crate) fn copy_rows(alloc: Global, rows: &[Row]) -> Result<Vec<Row>, AllocError>
    ensures { IfOk result (λ v. v.items ≡ rows.now) }
{
    let mut copies = Vec::with_capacity(alloc, rows.len())?;
    for row in rows {
        add(&mut copies, row.copy(alloc))?;
    }
    Ok(copies)
}
