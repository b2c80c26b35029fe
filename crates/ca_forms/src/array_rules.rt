//! The rules of normal forms of arrays: sums at items are gathered, and choices are taken at each index.

ghost use Rattle.std.specs.Prelude.{◌≡◌, ◌≤◌, ◌<◌, ◌++◌, ℕ, suc, true, length, take, drop, IfOk, IsOkAnd};
ghost use Rattle.ca_forms.specs.Arrays.{array_choice};
ghost use Rattle.ca_forms.specs.ArrayRules.{row_if, row_at, joined_rows, put_row, put_sum, put_weighed, rest_of, last_rows, summed, added_at, agree, chosen_rows, chosen_if, chosen_array};
ghost use Rattle.ca_forms.specs.clauses.Places.{IsPlace, is_nothing};

use crate::array::{Array, ArrayNode, Row, Rows, Span, copy_rows};
use crate::parts::{both, let_go, one_box};
use crate::polynomial::Polynomial;
use crate::sums::{together, weighed};
use std::alloc::{AllocError, Global};
use std::cmp::Ordering;

/// Where a row of a span stands, or is to stand.
pub(crate) enum Place {
    At(usize),
    Before(usize),
}

fn place_of(rows: &[Row], span: &Span) -> Place
    ensures { IsPlace result span.now rows.now }
{
    for i in 0..rows.len() {
        let row = &rows[i];
        match span.compare(&row.span) {
            Ordering::Less => return Place::Before(i),
            Ordering::Equal => return Place::At(i),
            Ordering::Greater => {}
        }
    }
    Place::Before(rows.len())
}

impl Polynomial {
    /// Whether the polynomial is zero.
    fn is_nothing(&self) -> bool
        ensures { result ≡ is_nothing self.now }
    {
        self.products.len() == 0
    }
}

/// A row more before what stands at a place, unless nothing is added there.
#[inline(never)]
fn put_before(
    rows: Vec<Row>,
    place: usize,
    span: Span,
    addend: Polynomial,
) -> Result<Vec<Row>, AllocError>
    requires { place ≤ length rows.items }
    ensures { IfOk result (λ v. v.items ≡ take place rows.items ++ row_if span addend (drop place rows.items)) }
{
    let mut all = rows;
    if addend.is_nothing() {
        return Ok(all);
    }
    all.insert(place, Row { span, addend })?;
    Ok(all)
}

/// What is added at an index, joined to the row that stands at a place.
#[inline(never)]
fn join_at(
    alloc: Global,
    rows: Vec<Row>,
    place: usize,
    span: Span,
    addend: Polynomial,
) -> Result<Vec<Row>, AllocError>
    requires { place < length rows.items }
    ensures { IfOk result (λ v. v.items ≡ take place rows.items ++ row_if span (joined_rows (row_at rows.items place) addend) (drop (suc place) rows.items)) }
{
    let mut others = rows;
    let Row {
        span: _,
        addend: old,
    } = others.remove(place);
    let sum = together(alloc, old, addend)?;
    put_before(others, place, span, sum)
}

/// One sum more in a span.
#[inline(never)]
fn put_row(
    alloc: Global,
    rows: Vec<Row>,
    span: Span,
    addend: Polynomial,
) -> Result<Vec<Row>, AllocError>
    ensures { IfOk result (λ v. v.items ≡ put_row span addend rows.items) }
{
    match place_of(&rows, &span) {
        Place::At(place) => join_at(alloc, rows, place, span, addend),
        Place::Before(place) => put_before(rows, place, span, addend),
    }
}

/// One sum more, unless nothing lies in its span.
#[inline(never)]
fn put_sum(
    alloc: Global,
    rows: Vec<Row>,
    span: Span,
    addend: Polynomial,
) -> Result<Vec<Row>, AllocError>
    ensures { IfOk result (λ v. v.items ≡ put_sum span addend rows.items) }
{
    if span.is_empty() {
        Ok(rows)
    } else {
        put_row(alloc, rows, span, addend)
    }
}

/// Each of the other rows, the factor times the condition times what it adds, put to the rows.
#[inline(never)]
fn put_weighed(
    alloc: Global,
    rows: Vec<Row>,
    condition: &Polynomial,
    others: &[Row],
    factor: u64,
) -> Result<Vec<Row>, AllocError>
    ensures { IfOk result (λ v. v.items ≡ put_weighed factor condition.now others.now rows.items) }
{
    let mut all = rows;
    for other in others {
        let addend = weighed(alloc, condition, &other.addend, factor);
        let (span, addend) = both(other.span.copy(alloc), addend)?;
        all = put_sum(alloc, all, span, addend)?;
    }
    Ok(all)
}

/// At each index the choice of what is added there.
#[inline(never)]
fn chosen_rows(
    alloc: Global,
    condition: Polynomial,
    first: Vec<Row>,
    second: Vec<Row>,
) -> Result<Vec<Row>, AllocError>
    ensures { IfOk result (λ v. v.items ≡ chosen_rows condition first.items second.items) }
{
    let minus = copy_rows(alloc, &second);
    let more = put_weighed(alloc, second, &condition, &first, 1);
    let (more, minus) = both(more, minus)?;
    put_weighed(alloc, more, &condition, &minus, u64::MAX)
}

/// The array with a last gathered sum, if that has a row.
#[inline(never)]
fn summed(
    alloc: Global,
    array: Array,
    rows: Result<Vec<Row>, AllocError>,
) -> Result<Array, AllocError>
    ensures { IfOk result (λ a. IsOkAnd rows (λ v. a ≡ summed array v.items)) }
{
    let (array, rows) = both(Ok(array), rows)?;
    if rows.len() == 0 {
        return Ok(array);
    }
    let before = one_box(alloc, Ok(array))?;
    Ok(ArrayNode::Sums(before, Rows { items: rows }).array())
}

impl Rows {
    fn into_items(self) -> Vec<Row>
        ensures { result.items ≡ self }
    {
        self.items
    }
}

impl Array {
    /// The array but for a last gathered sum, and that sum's rows.
    #[inline(never)]
    fn parted(self, alloc: Global) -> (Array, Vec<Row>)
        ensures rest { result.0 ≡ rest_of self }
        ensures rows { result.1.items ≡ last_rows self }
    {
        match self.node {
            ArrayNode::Sums(before, rows) => (Box::into_inner(before), rows.into_items()),
            ArrayNode::Items(s, g, n) => (ArrayNode::Items(s, g, n).array(), Vec::new(alloc)),
            ArrayNode::Put(a, i, x) => (ArrayNode::Put(a, i, x).array(), Vec::new(alloc)),
            ArrayNode::Choice(c, a, b) => (ArrayNode::Choice(c, a, b).array(), Vec::new(alloc)),
        }
    }

    /// With a sum more in a span.
    #[inline(never)]
    pub fn added_at(
        self,
        alloc: Global,
        span: Span,
        addend: Polynomial,
    ) -> Result<Array, AllocError>
        ensures { IfOk result (λ a. a ≡ added_at self span addend) }
    {
        let (rest, rows) = self.parted(alloc);
        summed(alloc, rest, put_sum(alloc, rows, span, addend))
    }

    /// Whether both agree but for a last gathered sum.
    #[inline(never)]
    fn agrees(&self, other: &Array) -> bool
        ensures { result ≡ agree self.now other.now }
    {
        let order = match &self.node {
            ArrayNode::Sums(a, _) => match &other.node {
                ArrayNode::Sums(b, _) => a.compare(b),
                _ => a.compare(other),
            },
            _ => match &other.node {
                ArrayNode::Sums(b, _) => self.compare(b),
                _ => self.compare(other),
            },
        };
        order == Ordering::Equal
    }
}

#[inline(never)]
fn kept_choice(
    alloc: Global,
    condition: Polynomial,
    first: Array,
    second: Array,
) -> Result<Array, AllocError>
    ensures { IfOk result (λ a. a ≡ array_choice condition first second) }
{
    let (first, second) = both(one_box(alloc, Ok(first)), one_box(alloc, Ok(second)))?;
    Ok(ArrayNode::Choice(condition, first, second).array())
}

/// The choice of two arrays that agree but for a last gathered sum.
#[inline(never)]
fn taken_choice(
    alloc: Global,
    condition: Polynomial,
    first: Array,
    second: Array,
) -> Result<Array, AllocError>
    ensures { IfOk result (λ a. a ≡ chosen_if true condition first second) }
{
    let (gone, others) = first.parted(alloc);
    let_go(gone);
    let (rest, rows) = second.parted(alloc);
    summed(alloc, rest, chosen_rows(alloc, condition, others, rows))
}

/// The first array where the condition holds, and else the second.
#[inline(never)]
pub fn chosen_array(
    alloc: Global,
    condition: Polynomial,
    first: Array,
    second: Array,
) -> Result<Array, AllocError>
    ensures { IfOk result (λ a. a ≡ chosen_array condition first second) }
{
    if first.agrees(&second) {
        taken_choice(alloc, condition, first, second)
    } else {
        kept_choice(alloc, condition, first, second)
    }
}
