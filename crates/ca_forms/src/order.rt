//! The order of forms, by their codes.

ghost use Rattle.std.specs.Prelude.{◌≡◌};
ghost use Rattle.std.specs.Cmp.Lexicographic.{slice_cmp};
ghost use Rattle.std.specs.Ordering.{is_eq, as_partial_cmp};
ghost use Rattle.std.specs.Cmp.{partial_equiv_from_equiv, partial_order_from_agreeing_total};
ghost use Rattle.std.proofs.lemmas.Cmp.{eq_by_cmp_equiv};
ghost use Rattle.std.proofs.Common.{refl};
ghost use Rattle.ca_forms.specs.Plain.{sort_number};
ghost use Rattle.ca_forms.specs.clauses.Heads.{head, head_cmp, unary_head, word_of};
ghost use Rattle.ca_forms.specs.Compare.{part_cmp, power_cmp, product_cmp, polynomial_cmp, monomial_cmp, pointer_cmp, scalar_cmp, scalars_cmp, name_cmp, monomial_total};

use crate::polynomial::{
    Monomial, Node, Operands, Part, Pointer, PointerNode, Polynomial, Power, Product, Scalar,
    ScalarNode, Scalars, Unary,
};
use crate::sort::Sort;
use std::cmp::Ordering;

impl Part {
    /// By the order of their codes.
    #[cycle(compare)]
    #[inline(never)]
    pub fn compare(&self, other: &Part) -> Ordering
        ensures { result ≡ part_cmp self.now other.now }
    {
        match heads(self, other) {
            Ordering::Equal => {}
            order => return order,
        }
        match (&self.node, &other.node) {
            (Node::Over(f, a), Node::Over(g, c)) => match a.compare(c) {
                Ordering::Equal => f.word().cmp(&g.word()),
                order => order,
            },
            (Node::Less(a, b), Node::Less(c, d)) => match a.compare(c) {
                Ordering::Equal => b.compare(d),
                order => order,
            },
            (Node::SamePointer(a, b), Node::SamePointer(c, d)) => match a.compare(c) {
                Ordering::Equal => b.compare(d),
                order => order,
            },
            (Node::Field(_, a, _, _), Node::Field(_, c, _, _)) => a.compare(c),
            (Node::Item(_, a, _, _, i), Node::Item(_, c, _, _, j)) => match a.compare(c) {
                Ordering::Equal => i.compare(j),
                order => order,
            },
            (Node::Result(_, _, a, b), Node::Result(_, _, c, d)) => match a.compare(c) {
                Ordering::Equal => b.compare(d),
                order => order,
            },
            (Node::Fold(_, w, a), Node::Fold(_, v, c)) => match w.cmp(v) {
                Ordering::Equal => a.compare(c),
                order => order,
            },
            _ => Ordering::Equal,
        }
    }

    /// The place of its kind among the kinds, and its name: a sort and two numbers. A part that has none has the least.
    fn head(&self) -> (u32, Sort, u32, u32)
        ensures { result ≡ head self.now }
    {
        match &self.node {
            Node::Variable(s, g, n) => (0, *s, *g, *n),
            Node::Over(f, _) => f.head(),
            Node::Less(_, _) => (1, Sort::Long, 0, 0),
            Node::SamePointer(_, _) => (3, Sort::Long, 0, 0),
            Node::Field(s, _, c, f) => (6, *s, *c, *f),
            Node::Item(s, _, c, f, _) => (7, *s, *c, *f),
            Node::Result(s, m, _, _) => (8, *s, *m, 0),
            Node::Fold(o, _, _) => (10, Sort::Long, o.number(), 0),
        }
    }
}

impl Unary {
    /// The same of what stands over a number.
    fn head(self) -> (u32, Sort, u32, u32)
        ensures { result ≡ unary_head self }
    {
        match self {
            Unary::Zero => (2, Sort::Long, 0, 0),
            Unary::Quotient(_) => (4, Sort::Long, 0, 0),
            Unary::Modulus(_) => (5, Sort::Long, 0, 0),
            Unary::OwnItem(s, g, n) => (9, s, g, n),
        }
    }

    /// What the number is divided by, if it is.
    fn word(self) -> u64
        ensures { result ≡ word_of self }
    {
        match self {
            Unary::Zero => 0,
            Unary::Quotient(n) => n,
            Unary::Modulus(n) => n,
            Unary::OwnItem(_, _, _) => 0,
        }
    }
}

/// By the kinds of two parts, and then by their names.
#[inline(never)]
fn heads(a: &Part, b: &Part) -> Ordering
    ensures { result ≡ head_cmp a.now b.now }
{
    let (i, s, g, n) = a.head();
    let (j, t, h, m) = b.head();
    match i.cmp(&j) {
        Ordering::Equal => names(s, g, n, t, h, m),
        order => order,
    }
}

/// The place of a sort among the sorts.
fn number_of(sort: Sort) -> u32
    ensures { result ≡ sort_number sort }
{
    match sort {
        Sort::Long => 0,
        Sort::Bool => 1,
        Sort::Pointer => 2,
        Sort::LongArray => 3,
        Sort::BoolArray => 4,
        Sort::PointerArray => 5,
    }
}

/// A sort and two numbers, by the sort and then by the numbers.
pub(crate) fn names(s: Sort, g: u32, n: u32, t: Sort, h: u32, m: u32) -> Ordering
    ensures { result ≡ name_cmp s g n t h m }
{
    match number_of(s).cmp(&number_of(t)) {
        Ordering::Equal => match g.cmp(&h) {
            Ordering::Equal => n.cmp(&m),
            order => order,
        },
        order => order,
    }
}

impl Power {
    #[cycle(compare)]
    fn compare(&self, other: &Power) -> Ordering
        ensures { result ≡ power_cmp self.now other.now }
    {
        match self.part.compare(&other.part) {
            Ordering::Equal => self.exponent.cmp(&other.exponent),
            order => order,
        }
    }
}

impl Product {
    #[cycle(compare)]
    fn compare(&self, other: &Product) -> Ordering
        ensures { result ≡ product_cmp self.now other.now }
    {
        match self.monomial.compare(&other.monomial) {
            Ordering::Equal => self.coefficient.cmp(&other.coefficient),
            order => order,
        }
    }
}

impl Monomial {
    /// By the order of their codes.
    #[cycle(compare)]
    pub fn compare(&self, other: &Monomial) -> Ordering
        ensures { result ≡ monomial_cmp self.now other.now }
    {
        compare_powers(&self.powers, &other.powers)
    }
}

#[cycle(compare)]
fn compare_powers(a: &[Power], b: &[Power]) -> Ordering
    ensures { result ≡ slice_cmp power_cmp a.now b.now }
{
    let count = a.len().min(b.len());
    for i in 0..count {
        match a[i].compare(&b[i]) {
            Ordering::Equal => {}
            order => return order,
        }
    }
    a.len().cmp(&b.len())
}

impl Polynomial {
    /// By the order of their codes.
    #[cycle(compare)]
    pub fn compare(&self, other: &Polynomial) -> Ordering
        ensures { result ≡ polynomial_cmp self.now other.now }
    {
        compare_products(&self.products, &other.products)
    }
}

#[cycle(compare)]
fn compare_products(a: &[Product], b: &[Product]) -> Ordering
    ensures { result ≡ slice_cmp product_cmp a.now b.now }
{
    let count = a.len().min(b.len());
    for i in 0..count {
        match a[i].compare(&b[i]) {
            Ordering::Equal => {}
            order => return order,
        }
    }
    a.len().cmp(&b.len())
}

impl PartialEq for Monomial {
    ghost eq = { λ a b. is_eq (monomial_cmp a b) };

    ghost laws = { partial_equiv_from_equiv (eq_by_cmp_equiv monomial_total) };

    fn eq(&self, other: &Monomial) -> bool {
        self.compare(other) == Ordering::Equal
    }
}

impl Eq for Monomial {
    ghost laws = { eq_by_cmp_equiv monomial_total };
}

impl PartialOrd for Monomial {
    ghost partial_cmp = { as_partial_cmp monomial_cmp };

    ghost laws = { partial_order_from_agreeing_total monomial_cmp monomial_total (λ x y. refl) (λ x y. refl) };

    fn partial_cmp(&self, other: &Monomial) -> Option<Ordering> {
        Some(self.compare(other))
    }
}

impl Ord for Monomial {
    ghost cmp = { monomial_cmp };

    ghost total = { monomial_total };

    ghost matches_partial_cmp = { λ x y. refl };

    ghost matches_eq = { λ x y. refl };

    fn cmp(&self, other: &Monomial) -> Ordering {
        self.compare(other)
    }
}

impl Pointer {
    /// By the order of their codes.
    #[cycle(compare)]
    #[inline(never)]
    pub fn compare(&self, other: &Pointer) -> Ordering
        ensures { result ≡ pointer_cmp self.now other.now }
    {
        match &self.node {
            PointerNode::Null => match &other.node {
                PointerNode::Null => Ordering::Equal,
                PointerNode::Part(_) => Ordering::Less,
                PointerNode::Choice(_, _, _) => Ordering::Less,
            },
            PointerNode::Part(p) => match &other.node {
                PointerNode::Null => Ordering::Greater,
                PointerNode::Part(q) => p.compare(q),
                PointerNode::Choice(_, _, _) => Ordering::Less,
            },
            PointerNode::Choice(a, p, q) => match &other.node {
                PointerNode::Null => Ordering::Greater,
                PointerNode::Part(_) => Ordering::Greater,
                PointerNode::Choice(b, r, s) => match a.compare(b) {
                    Ordering::Equal => match p.compare(r) {
                        Ordering::Equal => q.compare(s),
                        order => order,
                    },
                    order => order,
                },
            },
        }
    }
}

impl Scalar {
    /// By the order of their codes.
    #[cycle(compare)]
    #[inline(never)]
    pub fn compare(&self, other: &Scalar) -> Ordering
        ensures { result ≡ scalar_cmp self.now other.now }
    {
        match &self.node {
            ScalarNode::Number(a) => match &other.node {
                ScalarNode::Number(b) => a.compare(b),
                ScalarNode::Truth(_) => Ordering::Less,
                ScalarNode::Pointer(_) => Ordering::Less,
            },
            ScalarNode::Truth(a) => match &other.node {
                ScalarNode::Number(_) => Ordering::Greater,
                ScalarNode::Truth(b) => a.compare(b),
                ScalarNode::Pointer(_) => Ordering::Less,
            },
            ScalarNode::Pointer(p) => match &other.node {
                ScalarNode::Number(_) => Ordering::Greater,
                ScalarNode::Truth(_) => Ordering::Greater,
                ScalarNode::Pointer(q) => p.compare(q),
            },
        }
    }
}

impl Scalars {
    /// By the order of their codes.
    #[cycle(compare)]
    fn compare(&self, other: &Scalars) -> Ordering
        ensures { result ≡ scalars_cmp self.now other.now }
    {
        compare_scalars(&self.items, &other.items)
    }
}

impl Operands {
    /// By the order of their codes.
    #[cycle(compare)]
    fn compare(&self, other: &Operands) -> Ordering
        ensures { result ≡ scalars_cmp self.now other.now }
    {
        compare_scalars(&self.items, &other.items)
    }
}

/// Form by form, and a list before its longer ones.
#[cycle(compare)]
#[inline(never)]
pub fn compare_scalars(a: &[Scalar], b: &[Scalar]) -> Ordering
    ensures { result ≡ slice_cmp scalar_cmp a.now b.now }
{
    let count = a.len().min(b.len());
    for i in 0..count {
        match a[i].compare(&b[i]) {
            Ordering::Equal => {}
            order => return order,
        }
    }
    a.len().cmp(&b.len())
}
