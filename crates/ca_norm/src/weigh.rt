//! From a term to its weight: `weight_of` of `specs/Weights.antt`, by the measures of `specs/Measures.antt`.

ghost use Rattle.std.specs.Prelude.{◌≡◌, ℕ, ◌+◌, ◌-◌, ◌*◌, ◌^◌, List, [], ◌∷◌, ◌++◌, map, max, min};
ghost use Rattle.ca_forms.specs.declared.sort.Sort.{Sort};
ghost use Rattle.ca_norm.specs.Terms.{PlainTerm, PlainTerms, null, no_terms, add, neg, mul, not, or, same, choose, read_at, result as call_result, select, put, add_at, sweep, shape, sort_of, terms_of};
ghost use Rattle.ca_norm.specs.Weights.{same_spread, weight_of};
ghost use Rattle.ca_norm.specs.Measures.{Counts, Measures, MeasuresAll};

use crate::term::Term;
use ca_forms::Sort;

/// What the weight is made of, each at most `u64::MAX`.
#[derive(Clone, Copy)]
pub struct Measure {
    spread: u64,
    nodes: u64,
    depth: u64,
    /// How many products an item has, of an array.
    share: u64,
}

/// That of a term of one node.
const LEAF: Measure = Measure {
    spread: 1,
    nodes: 1,
    depth: 1,
    share: 1,
};

/// That of no terms.
const NOTHING: Measure = Measure {
    spread: 0,
    nodes: 0,
    depth: 0,
    share: 1,
};

fn times(a: u64, b: u64) -> u64
    ensures { (x y : ℕ) → Counts a x → Counts b y → Counts result (x * y) }
{
    a.saturating_mul(b)
}

/// What the products of two sides of this sort come to, from their sum and their product.
fn same_spread(sort: Sort, sum: u64, product: u64) -> u64
    ensures { (x y : ℕ) → Counts sum (x + y) → Counts product (x * y) → Counts result (same_spread sort x y) }
{
    match sort {
        Sort::Bool => sum.saturating_add(product).saturating_add(1),
        _ => sum,
    }
}

impl Measure {
    /// Of a term of one node.
    pub fn leaf() -> Measure
        ensures { Measures result null }
    {
        LEAF
    }

    /// Of no terms.
    pub fn nothing() -> Measure
        ensures { MeasuresAll result no_terms }
    {
        NOTHING
    }

    /// Of terms with one more behind them.
    pub fn along(self, last: Measure) -> Measure
        ensures { (xs : List PlainTerm) (x : PlainTerm) → MeasuresAll self (terms_of xs) → Measures last x → MeasuresAll result (terms_of (xs ++ x ∷ [])) }
    {
        self.beside(last)
    }

    /// The weight of the term, at most `u64::MAX`: the largest of its spread, the number of its nodes and 16 times its
    /// depth.
    pub fn weight(self) -> u64
        ensures { (x : PlainTerm) → Measures self x → result ≡ min (weight_of x) (2 ^ 64 - 1) }
    {
        let size = self.spread.max(self.nodes);
        size.max(self.depth.saturating_mul(16))
    }

    /// Of terms that stand side by side.
    fn beside(self, other: Measure) -> Measure
        ensures spread { result.spread ≡ min (self.spread + other.spread) (2 ^ 64 - 1) }
        ensures nodes { result.nodes ≡ min (self.nodes + other.nodes) (2 ^ 64 - 1) }
        ensures depth { result.depth ≡ max self.depth other.depth }
    {
        Measure {
            spread: self.spread.saturating_add(other.spread),
            nodes: self.nodes.saturating_add(other.nodes),
            depth: self.depth.max(other.depth),
            share: 1,
        }
    }

    /// Of a term over these parts, which has this spread and this share.
    fn over(self, spread: u64, share: u64) -> Measure
        ensures spread { result.spread ≡ spread }
        ensures nodes { result.nodes ≡ min (1 + self.nodes) (2 ^ 64 - 1) }
        ensures depth { result.depth ≡ min (1 + self.depth) (2 ^ 64 - 1) }
        ensures share { result.share ≡ share }
    {
        Measure {
            spread,
            nodes: self.nodes.saturating_add(1),
            depth: self.depth.saturating_add(1),
            share,
        }
    }

    /// Of a negated number.
    pub fn negated(self) -> Measure
        ensures { (x : PlainTerm) → Measures self x → Measures result (neg x) }
    {
        self.over(self.spread, 1)
    }

    /// Of a quotient, a remainder, a negated truth value, or a read.
    pub fn single(self) -> Measure
        ensures { (x : PlainTerm) → Measures self x → Measures result (not x) }
    {
        self.over(self.spread.saturating_add(1), 1)
    }

    /// Of a sum, a difference, or a comparison of numbers.
    pub fn sum(self, other: Measure) -> Measure
        ensures { (x y : PlainTerm) → Measures self x → Measures other y → Measures result (add x y) }
    {
        let parts = self.beside(other);
        parts.over(parts.spread, 1)
    }

    /// Of a product, or of two truth values that both hold.
    pub fn product(self, other: Measure) -> Measure
        ensures { (x y : PlainTerm) → Measures self x → Measures other y → Measures result (mul x y) }
    {
        self.beside(other).over(times(self.spread, other.spread), 1)
    }

    /// Of two truth values of which one holds.
    pub fn either(self, other: Measure) -> Measure
        ensures { (x y : PlainTerm) → Measures self x → Measures other y → Measures result (or x y) }
    {
        let parts = self.beside(other);
        let spread = parts
            .spread
            .saturating_add(times(self.spread, other.spread));
        parts.over(spread, 1)
    }

    /// Of the test whether two values of this sort are equal.
    pub fn same(self, other: Measure, sort: Sort) -> Measure
        ensures { (x y : PlainTerm) → Measures self x → Measures other y → sort ≡ sort_of x → Measures result (same x y) }
    {
        let parts = self.beside(other);
        let spread = same_spread(sort, parts.spread, times(self.spread, other.spread));
        parts.over(spread, 1)
    }

    /// Of a choice of two, by this condition.
    pub fn choice(self, yes: Measure, no: Measure) -> Measure
        ensures { (t x y : PlainTerm) → Measures self t → Measures yes x → Measures no y → Measures result (choose t x y) }
    {
        let sides = times(self.spread, yes.spread.saturating_add(no.spread));
        let items = times(self.spread, yes.share.saturating_add(no.share));
        let spread = no.spread.saturating_add(sides);
        let share = no.share.saturating_add(items);
        let parts = self.beside(yes).beside(no);
        parts.over(spread, share)
    }

    /// Of the read of an item of another object.
    pub fn item(self, index: Measure) -> Measure
        ensures { (sort : Sort) (c f : ℕ) (x i : PlainTerm) → Measures self x → Measures index i → Measures result (read_at sort x c f i) }
    {
        let parts = self.beside(index);
        parts.over(parts.spread.saturating_add(1), 1)
    }

    /// Of a call of a value method, with these arguments.
    pub fn call(self, args: Measure) -> Measure
        ensures { (sort : Sort) (m : ℕ) (x : PlainTerm) (ts : PlainTerms) → Measures self x → MeasuresAll args ts → Measures result (call_result sort m x ts) }
    {
        let parts = self.beside(args);
        parts.over(parts.spread.saturating_add(1), 1)
    }

    /// Of the item of an array at an index.
    pub fn selection(self, index: Measure) -> Measure
        ensures { (x i : PlainTerm) → Measures self x → Measures index i → Measures result (select x i) }
    {
        let spread = times(index.spread, self.share);
        self.beside(index).over(spread.saturating_add(1), 1)
    }

    /// Of an array with an addend at an index.
    pub fn increased(self, index: Measure, addend: Measure) -> Measure
        ensures { (x i v : PlainTerm) → Measures self x → Measures index i → Measures addend v → Measures result (add_at x i v) }
    {
        let share = times(index.spread, addend.spread);
        let parts = self.beside(index).beside(addend);
        parts.over(parts.spread, self.share.saturating_add(share))
    }

    /// Of an array with an addend at each item from a number up to but not including another.
    pub fn swept(self, from: Measure, to: Measure, addend: Measure) -> Measure
        ensures { (x f t v : PlainTerm) → Measures self x → Measures from f → Measures to t → Measures addend v → Measures result (sweep x f t v) }
    {
        let share = times(times(from.spread, to.spread), addend.spread);
        let parts = self.beside(from).beside(to).beside(addend);
        parts.over(parts.spread, self.share.saturating_add(share))
    }

    /// Of an array with another item at an index.
    pub fn replaced(self, index: Measure, item: Measure) -> Measure
        ensures { (x i v : PlainTerm) → Measures self x → Measures index i → Measures item v → Measures result (put x i v) }
    {
        let share = times(index.spread, item.spread);
        let parts = self.beside(index).beside(item);
        let twice = self.share.saturating_add(self.share);
        parts.over(parts.spread, twice.saturating_add(share))
    }
}

#[cycle(measure)]
fn measure_of(term: &Term) -> Measure
    ensures { Measures result (shape term.now) }
{
    match term {
        Term::Number(_) | Term::Truth(_) | Term::Null | Term::Atom(_, _, _) => LEAF,
        Term::Neg(a) => measure_of(a).negated(),
        Term::Divide(a, _) | Term::Remainder(a, _) | Term::Not(a) => measure_of(a).single(),
        Term::Read(_, p, _, _) => measure_of(p).single(),
        Term::Add(a, b) => measure_of(a).sum(measure_of(b)),
        Term::Sub(a, b) => measure_of(a).sum(measure_of(b)),
        Term::Less(a, b) => measure_of(a).sum(measure_of(b)),
        Term::LessEqual(a, b) => measure_of(a).sum(measure_of(b)),
        Term::Fold(_, a, b) => measure_of(a).sum(measure_of(b)),
        Term::Mul(a, b) => measure_of(a).product(measure_of(b)),
        Term::And(a, b) => measure_of(a).product(measure_of(b)),
        Term::Or(a, b) => measure_of(a).either(measure_of(b)),
        Term::Same(a, b) => measure_of(a).same(measure_of(b), a.sort()),
        Term::Choose(c, a, b) => measure_of(c).choice(measure_of(a), measure_of(b)),
        Term::ReadAt(_, p, _, _, i) => measure_of(p).item(measure_of(i)),
        Term::Result(_, _, p, args) => measure_of(p).call(measure_of_all(args)),
        Term::Select(a, i) => measure_of(a).selection(measure_of(i)),
        Term::Put(a, i, v) => measure_of(a).replaced(measure_of(i), measure_of(v)),
        Term::AddAt(a, i, v) => measure_of(a).increased(measure_of(i), measure_of(v)),
        Term::Sweep(a, f, t, v) => {
            measure_of(a).swept(measure_of(f), measure_of(t), measure_of(v))
        }
    }
}

#[cycle(measure)]
fn measure_of_all(terms: &[Term]) -> Measure
    ensures { MeasuresAll result (terms_of (map shape terms.now)) }
{
    let mut all = NOTHING;
    for term in terms {
        all = all.along(measure_of(term));
    }
    all
}

/// The weight of a term, at most `u64::MAX`: the largest of its spread, the number of its nodes and
/// 16 times its depth. It takes no memory. It recurses as deep as the term is, so whoever builds a
/// term step by step stops at the first that is too heavy.
pub fn weight(term: &Term) -> u64
    ensures { result ≡ min (weight_of (shape term.now)) (2 ^ 64 - 1) }
{
    measure_of(term).weight()
}
