//! Terms that are not too heavy, shared by all that they stand in.

ghost use Rattle.std.specs.Prelude.{◌≡◌, false, true, IfOk};
ghost use Rattle.ca_forms.specs.declared.sort.Sort.{Sort};
ghost use Rattle.ca_norm.specs.Terms.{number, truth, null, atom, add, sub, neg, mul, divide, remainder, less, less_equal, same, not, and, or, choose, read, read_at, result as call_result, select, put, add_at, fold, sweep, sort_of, terms_of};
ghost use Rattle.ca_norm.specs.Measures.{Measures, MeasuresAll};
ghost use Rattle.ca_shared_terms.specs.Nodes.{node_of};
ghost use Rattle.ca_shared_terms.specs.Heavy.{is_heavy};

use crate::errors::ExecutionError;
use ca_folds::FoldOp;
use ca_forms::parts::let_go;
use ca_norm::{MOST_WEIGHT, Measure, Sort, item_sort};
use std::alloc::{AllocError, Global};
use std::marker::Model;
use std::rc::Rc;

/// A term of at most `MOST_WEIGHT`, shared by all that it stands in, so that a copy takes no memory. What its weight is
/// made of is kept beside it and never counted again.
#[cycle(light)]
#[derive(Drop)]
pub struct LightTerm {
    pub(crate) node: Rc<Node>,
    pub(crate) measure: Measure,
}

/// The arguments of a call.
#[cycle(light)]
#[derive(Drop)]
pub(crate) struct Arguments {
    pub(crate) items: Vec<LightTerm>,
}

/// As `ca_norm::Term` has them.
#[cycle(light)]
#[derive(Drop)]
pub(crate) enum Node {
    Number(i64),
    Truth(bool),
    Null,
    Atom(Sort, u32, u32),
    Add(LightTerm, LightTerm),
    Sub(LightTerm, LightTerm),
    Neg(LightTerm),
    Mul(LightTerm, LightTerm),
    Divide(LightTerm, i64),
    Remainder(LightTerm, i64),
    Less(LightTerm, LightTerm),
    LessEqual(LightTerm, LightTerm),
    Same(LightTerm, LightTerm),
    Not(LightTerm),
    And(LightTerm, LightTerm),
    Or(LightTerm, LightTerm),
    Choose(LightTerm, LightTerm, LightTerm),
    Read(Sort, LightTerm, u32, u32),
    ReadAt(Sort, LightTerm, u32, u32, LightTerm),
    Result(Sort, u32, LightTerm, Arguments),
    Select(LightTerm, LightTerm),
    Put(LightTerm, LightTerm, LightTerm),
    AddAt(LightTerm, LightTerm, LightTerm),
    Fold(FoldOp, LightTerm, LightTerm),
    Sweep(LightTerm, LightTerm, LightTerm, LightTerm),
}

impl Model for LightTerm {
    ghost use Rattle.ca_norm.specs.Terms.{PlainTerm};
    ghost use Rattle.ca_shared_terms.specs.Codes.{coded_term};

    ghost Value = { PlainTerm };

    ghost coded = { coded_term };

    ghost use Rattle.std.specs.Prelude.{◌≤◌};
    ghost use Rattle.ca_norm.specs.Weights.{weight_of};
    ghost use Rattle.ca_norm.specs.Measures.{Measures};
    ghost use Rattle.ca_shared_terms.specs.Sizes.{term_size};
    ghost use Rattle.ca_shared_terms.specs.Nodes.{node_of};

    ghost view = { λ a. node_of a.node.value };

    ghost invariant = { λ a. Measures a.measure (node_of a.node.value) × (weight_of (node_of a.node.value) ≤ 65536) };

    ghost size = { term_size };

    ghost use Rattle.ca_shared_terms.specs.NodeFalls.{node_falls};

    ghost size_decreases = { λ a h. node_falls a.node.value };
}

impl Model for Arguments {
    ghost use Rattle.ca_norm.specs.Terms.{PlainTerms, terms_of};
    ghost use Rattle.ca_shared_terms.specs.Codes.{coded_terms};
    ghost use Rattle.ca_shared_terms.specs.Sizes.{terms_size, most_terms};

    ghost Value = { PlainTerms };

    ghost coded = { coded_terms };

    ghost view = { λ a. terms_of a.items.items };

    ghost size = { terms_size };

    ghost use Rattle.std.proofs.Common.{arith};

    ghost size_decreases = { λ a h. omega (arith, most_terms a.items.items) };
}

/// The node, shared by all that it is to stand in. Where memory runs out it is dropped here, for nodes of all types.
#[inline(never)]
fn shared<T: Drop>(alloc: Global, node: T) -> Result<Rc<T>, AllocError>
    ensures { IfOk result (λ r. r.value ≡ node) }
{
    Ok(Rc::new(alloc, node)?)
}

/// What the measures of terms that stand side by side come to.
fn measure_of_all(terms: &[LightTerm]) -> Measure
    ensures { MeasuresAll result (terms_of terms.now) }
{
    let mut all = Measure::nothing();
    for term in terms {
        all = all.along(term.measure);
    }
    all
}

impl LightTerm {
    /// The node as a term, unless it is too heavy.
    fn made(alloc: Global, node: Node, measure: Measure) -> Result<LightTerm, ExecutionError>
        requires { Measures measure (node_of node) }
        ensures made { IfOk result (λ t. t ≡ node_of node) }
        ensures light { IfOk result (λ _. is_heavy (node_of node) ≡ false) }
        ensures large { result ≡ Err ExecutionError.Large → is_heavy (node_of node) ≡ true }
    {
        let heavy = measure.weight() > MOST_WEIGHT;
        if heavy {
            let_go(node);
            return Err(ExecutionError::Large);
        }
        let node = shared(alloc, node)?;
        Ok(LightTerm { node, measure })
    }

    /// The term of a number.
    pub fn number(alloc: Global, n: i64) -> Result<LightTerm, AllocError>
        ensures { IfOk result (λ t. t ≡ number n) }
    {
        let node = Rc::new(alloc, Node::Number(n))?;
        let measure = Measure::leaf();
        Ok(LightTerm { node, measure })
    }

    /// That of a truth value.
    pub fn truth(alloc: Global, b: bool) -> Result<LightTerm, AllocError>
        ensures { IfOk result (λ t. t ≡ truth b) }
    {
        let node = Rc::new(alloc, Node::Truth(b))?;
        let measure = Measure::leaf();
        Ok(LightTerm { node, measure })
    }

    /// That of null.
    pub fn null(alloc: Global) -> Result<LightTerm, AllocError>
        ensures { IfOk result (λ t. t ≡ null) }
    {
        let node = Rc::new(alloc, Node::Null)?;
        let measure = Measure::leaf();
        Ok(LightTerm { node, measure })
    }

    /// An atom, by its group and its number there.
    pub fn atom(alloc: Global, sort: Sort, group: u32, number: u32) -> Result<LightTerm, AllocError>
        ensures { IfOk result (λ t. t ≡ atom sort group number) }
    {
        let node = Rc::new(alloc, Node::Atom(sort, group, number))?;
        let measure = Measure::leaf();
        Ok(LightTerm { node, measure })
    }

    /// The negative of a number.
    pub fn negated(self, alloc: Global) -> Result<LightTerm, ExecutionError>
        ensures made { IfOk result (λ t. t ≡ neg self) }
        ensures light { IfOk result (λ _. is_heavy (neg self) ≡ false) }
        ensures large { result ≡ Err ExecutionError.Large → is_heavy (neg self) ≡ true }
    {
        let measure = self.measure.negated();
        LightTerm::made(alloc, Node::Neg(self), measure)
    }

    /// The opposite of a truth value.
    pub fn opposite(self, alloc: Global) -> Result<LightTerm, ExecutionError>
        ensures made { IfOk result (λ t. t ≡ not self) }
        ensures light { IfOk result (λ _. is_heavy (not self) ≡ false) }
        ensures large { result ≡ Err ExecutionError.Large → is_heavy (not self) ≡ true }
    {
        let measure = self.measure.single();
        LightTerm::made(alloc, Node::Not(self), measure)
    }

    /// A number divided by a literal.
    pub fn quotient(self, alloc: Global, n: i64) -> Result<LightTerm, ExecutionError>
        ensures made { IfOk result (λ t. t ≡ divide self n) }
        ensures light { IfOk result (λ _. is_heavy (divide self n) ≡ false) }
        ensures large { result ≡ Err ExecutionError.Large → is_heavy (divide self n) ≡ true }
    {
        let measure = self.measure.single();
        LightTerm::made(alloc, Node::Divide(self, n), measure)
    }

    /// What that leaves.
    pub fn modulus(self, alloc: Global, n: i64) -> Result<LightTerm, ExecutionError>
        ensures made { IfOk result (λ t. t ≡ remainder self n) }
        ensures light { IfOk result (λ _. is_heavy (remainder self n) ≡ false) }
        ensures large { result ≡ Err ExecutionError.Large → is_heavy (remainder self n) ≡ true }
    {
        let measure = self.measure.single();
        LightTerm::made(alloc, Node::Remainder(self, n), measure)
    }

    /// A field of this object, by its sort, its class and its number there.
    pub fn field(
        self,
        alloc: Global,
        sort: Sort,
        class: u32,
        field: u32,
    ) -> Result<LightTerm, ExecutionError>
        ensures made { IfOk result (λ t. t ≡ read sort self class field) }
        ensures light { IfOk result (λ _. is_heavy (read sort self class field) ≡ false) }
        ensures large { result ≡ Err ExecutionError.Large → is_heavy (read sort self class field) ≡ true }
    {
        let measure = self.measure.single();
        LightTerm::made(alloc, Node::Read(sort, self, class, field), measure)
    }

    /// A sum.
    pub fn plus(alloc: Global, a: LightTerm, b: LightTerm) -> Result<LightTerm, ExecutionError>
        ensures made { IfOk result (λ t. t ≡ add a b) }
        ensures light { IfOk result (λ _. is_heavy (add a b) ≡ false) }
        ensures large { result ≡ Err ExecutionError.Large → is_heavy (add a b) ≡ true }
    {
        let measure = a.measure.sum(b.measure);
        LightTerm::made(alloc, Node::Add(a, b), measure)
    }

    /// A difference.
    pub fn minus(alloc: Global, a: LightTerm, b: LightTerm) -> Result<LightTerm, ExecutionError>
        ensures made { IfOk result (λ t. t ≡ sub a b) }
        ensures light { IfOk result (λ _. is_heavy (sub a b) ≡ false) }
        ensures large { result ≡ Err ExecutionError.Large → is_heavy (sub a b) ≡ true }
    {
        let measure = a.measure.sum(b.measure);
        LightTerm::made(alloc, Node::Sub(a, b), measure)
    }

    /// A product.
    pub fn times(alloc: Global, a: LightTerm, b: LightTerm) -> Result<LightTerm, ExecutionError>
        ensures made { IfOk result (λ t. t ≡ mul a b) }
        ensures light { IfOk result (λ _. is_heavy (mul a b) ≡ false) }
        ensures large { result ≡ Err ExecutionError.Large → is_heavy (mul a b) ≡ true }
    {
        let measure = a.measure.product(b.measure);
        LightTerm::made(alloc, Node::Mul(a, b), measure)
    }

    /// Whether the first is less than the second.
    pub fn less(alloc: Global, a: LightTerm, b: LightTerm) -> Result<LightTerm, ExecutionError>
        ensures made { IfOk result (λ t. t ≡ less a b) }
        ensures light { IfOk result (λ _. is_heavy (less a b) ≡ false) }
        ensures large { result ≡ Err ExecutionError.Large → is_heavy (less a b) ≡ true }
    {
        let measure = a.measure.sum(b.measure);
        LightTerm::made(alloc, Node::Less(a, b), measure)
    }

    /// Whether it is less or equal.
    pub fn less_equal(
        alloc: Global,
        a: LightTerm,
        b: LightTerm,
    ) -> Result<LightTerm, ExecutionError>
        ensures made { IfOk result (λ t. t ≡ less_equal a b) }
        ensures light { IfOk result (λ _. is_heavy (less_equal a b) ≡ false) }
        ensures large { result ≡ Err ExecutionError.Large → is_heavy (less_equal a b) ≡ true }
    {
        let measure = a.measure.sum(b.measure);
        LightTerm::made(alloc, Node::LessEqual(a, b), measure)
    }

    /// Whether both hold.
    pub fn and(alloc: Global, a: LightTerm, b: LightTerm) -> Result<LightTerm, ExecutionError>
        ensures made { IfOk result (λ t. t ≡ and a b) }
        ensures light { IfOk result (λ _. is_heavy (and a b) ≡ false) }
        ensures large { result ≡ Err ExecutionError.Large → is_heavy (and a b) ≡ true }
    {
        let measure = a.measure.product(b.measure);
        LightTerm::made(alloc, Node::And(a, b), measure)
    }

    /// Whether one of them holds.
    pub fn or(alloc: Global, a: LightTerm, b: LightTerm) -> Result<LightTerm, ExecutionError>
        ensures made { IfOk result (λ t. t ≡ or a b) }
        ensures light { IfOk result (λ _. is_heavy (or a b) ≡ false) }
        ensures large { result ≡ Err ExecutionError.Large → is_heavy (or a b) ≡ true }
    {
        let measure = a.measure.either(b.measure);
        LightTerm::made(alloc, Node::Or(a, b), measure)
    }

    /// Whether two values of one sort are equal.
    pub fn same(alloc: Global, a: LightTerm, b: LightTerm) -> Result<LightTerm, ExecutionError>
        ensures made { IfOk result (λ t. t ≡ same a b) }
        ensures light { IfOk result (λ _. is_heavy (same a b) ≡ false) }
        ensures large { result ≡ Err ExecutionError.Large → is_heavy (same a b) ≡ true }
    {
        let sort = a.sort();
        let measure = a.measure.same(b.measure, sort);
        LightTerm::made(alloc, Node::Same(a, b), measure)
    }

    /// The first where the condition holds, and else the second.
    pub fn choice(
        alloc: Global,
        condition: LightTerm,
        yes: LightTerm,
        no: LightTerm,
    ) -> Result<LightTerm, ExecutionError>
        ensures made { IfOk result (λ t. t ≡ choose condition yes no) }
        ensures light { IfOk result (λ _. is_heavy (choose condition yes no) ≡ false) }
        ensures large { result ≡ Err ExecutionError.Large → is_heavy (choose condition yes no) ≡ true }
    {
        let measure = condition.measure.choice(yes.measure, no.measure);
        LightTerm::made(alloc, Node::Choose(condition, yes, no), measure)
    }

    /// An item of a field of this object.
    pub fn field_item(
        self,
        alloc: Global,
        sort: Sort,
        class: u32,
        field: u32,
        index: LightTerm,
    ) -> Result<LightTerm, ExecutionError>
        ensures made { IfOk result (λ t. t ≡ read_at sort self class field index) }
        ensures light { IfOk result (λ _. is_heavy (read_at sort self class field index) ≡ false) }
        ensures large { result ≡ Err ExecutionError.Large → is_heavy (read_at sort self class field index) ≡ true }
    {
        let measure = self.measure.item(index.measure);
        LightTerm::made(
            alloc,
            Node::ReadAt(sort, self, class, field, index),
            measure,
        )
    }

    /// What a value method of this object gives.
    pub fn called(
        self,
        alloc: Global,
        sort: Sort,
        method: u32,
        args: Vec<LightTerm>,
    ) -> Result<LightTerm, ExecutionError>
        ensures made { IfOk result (λ t. t ≡ call_result sort method self (terms_of args.items)) }
        ensures light { IfOk result (λ _. is_heavy (call_result sort method self (terms_of args.items)) ≡ false) }
        ensures large { result ≡ Err ExecutionError.Large → is_heavy (call_result sort method self (terms_of args.items)) ≡ true }
    {
        let all = measure_of_all(&args);
        let measure = self.measure.call(all);
        let args = Arguments { items: args };
        LightTerm::made(alloc, Node::Result(sort, method, self, args), measure)
    }

    /// The item of this array at an index.
    pub fn item(self, alloc: Global, index: LightTerm) -> Result<LightTerm, ExecutionError>
        ensures made { IfOk result (λ t. t ≡ select self index) }
        ensures light { IfOk result (λ _. is_heavy (select self index) ≡ false) }
        ensures large { result ≡ Err ExecutionError.Large → is_heavy (select self index) ≡ true }
    {
        let measure = self.measure.selection(index.measure);
        LightTerm::made(alloc, Node::Select(self, index), measure)
    }

    /// This array with another item at an index.
    pub fn with_item(
        self,
        alloc: Global,
        index: LightTerm,
        item: LightTerm,
    ) -> Result<LightTerm, ExecutionError>
        ensures made { IfOk result (λ t. t ≡ put self index item) }
        ensures light { IfOk result (λ _. is_heavy (put self index item) ≡ false) }
        ensures large { result ≡ Err ExecutionError.Large → is_heavy (put self index item) ≡ true }
    {
        let measure = self.measure.replaced(index.measure, item.measure);
        LightTerm::made(alloc, Node::Put(self, index, item), measure)
    }

    /// This array with an addend at an index.
    pub fn with_addend(
        self,
        alloc: Global,
        index: LightTerm,
        addend: LightTerm,
    ) -> Result<LightTerm, ExecutionError>
        ensures made { IfOk result (λ t. t ≡ add_at self index addend) }
        ensures light { IfOk result (λ _. is_heavy (add_at self index addend) ≡ false) }
        ensures large { result ≡ Err ExecutionError.Large → is_heavy (add_at self index addend) ≡ true }
    {
        let measure = self.measure.increased(index.measure, addend.measure);
        LightTerm::made(alloc, Node::AddAt(self, index, addend), measure)
    }

    /// An operator on two numbers, of those whose operands may stand in any order.
    pub fn folded(
        alloc: Global,
        operator: FoldOp,
        a: LightTerm,
        b: LightTerm,
    ) -> Result<LightTerm, ExecutionError>
        ensures made { IfOk result (λ t. t ≡ fold operator a b) }
        ensures light { IfOk result (λ _. is_heavy (fold operator a b) ≡ false) }
        ensures large { result ≡ Err ExecutionError.Large → is_heavy (fold operator a b) ≡ true }
    {
        let measure = a.measure.sum(b.measure);
        LightTerm::made(alloc, Node::Fold(operator, a, b), measure)
    }

    /// This array with an addend at each index from a number up to but not including another.
    pub fn swept(
        self,
        alloc: Global,
        from: LightTerm,
        to: LightTerm,
        addend: LightTerm,
    ) -> Result<LightTerm, ExecutionError>
        ensures made { IfOk result (λ t. t ≡ sweep self from to addend) }
        ensures light { IfOk result (λ _. is_heavy (sweep self from to addend) ≡ false) }
        ensures large { result ≡ Err ExecutionError.Large → is_heavy (sweep self from to addend) ≡ true }
    {
        let measure = self.measure.swept(from.measure, to.measure, addend.measure);
        LightTerm::made(alloc, Node::Sweep(self, from, to, addend), measure)
    }

    /// The same term once more, which takes no memory; it fails where it is shared too often to be counted.
    pub fn share(&self) -> Result<LightTerm, AllocError>
        ensures same { IfOk result (λ t. t ≡ self.now) }
        ensures light { is_heavy self.now ≡ false }
    {
        let node = self.node.clone()?;
        Ok(LightTerm {
            node,
            measure: self.measure,
        })
    }

    /// The sort of what the term stands for.
    pub fn sort(&self) -> Sort
        ensures { result ≡ sort_of self.now }
    {
        match &*self.node {
            Node::Number(_) | Node::Neg(_) | Node::Divide(_, _) | Node::Remainder(_, _) =>
                Sort::Long,
            Node::Add(_, _) | Node::Sub(_, _) | Node::Mul(_, _) | Node::Fold(_, _, _) => Sort::Long,
            Node::Truth(_) | Node::Not(_) | Node::And(_, _) | Node::Or(_, _) => Sort::Bool,
            Node::Less(_, _) | Node::LessEqual(_, _) | Node::Same(_, _) => Sort::Bool,
            Node::Null => Sort::Pointer,
            Node::Atom(sort, _, _) => *sort,
            Node::Read(sort, _, _, _) => *sort,
            Node::ReadAt(sort, _, _, _, _) => *sort,
            Node::Result(sort, _, _, _) => *sort,
            Node::Choose(_, a, _) => a.sort(),
            Node::Put(a, _, _) => a.sort(),
            Node::AddAt(a, _, _) => a.sort(),
            Node::Sweep(a, _, _, _) => a.sort(),
            Node::Select(a, _) => item_sort(a.sort()),
        }
    }
}
