//! Normal forms of numbers, truth values and pointers: their types. Each stands in parts of others, so functions
//! on them recurse as deep as they nest.

ghost use Rattle.std.specs.Prelude.{◌≡◌, length};
ghost use Rattle.ca_forms.specs.Plain.{number_form, truth_form, pointer_form, no_object};
ghost use Rattle.ca_forms.specs.Lists.{longest, polynomial_of, powers_of, scalars_of};
ghost use Rattle.ca_forms.specs.Seen.{part_of, pointer_of, scalar_of};

use crate::sort::Sort;
use ca_folds::FoldOp;
use std::marker::Model;

/// What isn't taken apart in a normal form. Parts are compared and copied as deep as they nest.
#[cycle(polynomial)]
#[derive(Drop)]
pub struct Part {
    pub(crate) node: Node,
}

#[cycle(polynomial)]
#[derive(Drop)]
pub(crate) enum Node {
    /// An atom, by its sort, its group and its number there.
    Variable(Sort, u32, u32),
    /// What stands over one number.
    Over(Unary, Polynomial),
    /// Whether the first is less than the second.
    Less(Polynomial, Polynomial),
    /// Whether both are equal.
    SamePointer(Pointer, Pointer),
    /// A field of another object: its sort, the object, the field's class and number.
    Field(Sort, Pointer, u32, u32),
    /// The item of such a field at an index.
    Item(Sort, Pointer, u32, u32, Polynomial),
    /// What a value method gives: its sort, its number, the receiver and the arguments.
    Result(Sort, u32, Pointer, Scalars),
    /// An operator on operands that may stand in any order: the word that those which are words come to, and the
    /// others.
    Fold(FoldOp, u64, Operands),
}

/// What is asked of one number.
#[derive(Clone, Copy)]
pub(crate) enum Unary {
    /// Whether it is zero.
    Zero,
    /// What it is divided by a word that is read as a signed number, and rounded towards zero.
    Quotient(u64),
    /// What that leaves, with the sign of what is divided.
    Modulus(u64),
    /// The item at it of an array that is an atom: its sort, and the atom's group and number.
    OwnItem(Sort, u32, u32),
}

/// A part several times over.
#[cycle(polynomial)]
#[derive(Drop)]
pub struct Power {
    pub(crate) part: Part,
    pub(crate) exponent: u64,
}

/// A product of powers, by rising parts. A truth value stands in it once at most.
#[cycle(polynomial)]
#[derive(Drop)]
pub struct Monomial {
    pub(crate) powers: Vec<Power>,
}

/// A monomial with its coefficient, modulo 2^64.
#[cycle(polynomial)]
#[derive(Drop)]
pub struct Product {
    pub(crate) monomial: Monomial,
    pub(crate) coefficient: u64,
}

/// A sum of products, by rising monomials, in which no coefficient is zero.
#[cycle(polynomial)]
#[derive(Drop)]
pub struct Polynomial {
    pub(crate) products: Vec<Product>,
}

/// The form of a pointer.
#[cycle(polynomial)]
#[derive(Drop)]
pub struct Pointer {
    pub(crate) node: PointerNode,
}

#[cycle(polynomial)]
#[derive(Drop)]
pub(crate) enum PointerNode {
    Null,
    Part(Box<Part>),
    /// The first pointer where the truth value holds, and else the second.
    Choice(Box<Polynomial>, Box<Pointer>, Box<Pointer>),
}

/// The form of a number, a truth value or a pointer.
#[cycle(polynomial)]
#[derive(Drop)]
pub struct Scalar {
    pub(crate) node: ScalarNode,
}

#[cycle(polynomial)]
#[derive(Drop)]
pub(crate) enum ScalarNode {
    Number(Polynomial),
    Truth(Polynomial),
    Pointer(Pointer),
}

/// The forms of the arguments of a call.
#[cycle(polynomial)]
#[derive(Drop)]
pub struct Scalars {
    pub(crate) items: Vec<Scalar>,
}

/// The operands of an operator in order, each once.
#[cycle(polynomial)]
#[derive(Drop)]
pub(crate) struct Operands {
    pub(crate) items: Vec<Scalar>,
}

impl Model for Part {
    ghost use Rattle.ca_forms.specs.Plain.{PlainPart, coded_part};

    ghost Value = { PlainPart };

    ghost coded = { coded_part };

    ghost use Rattle.ca_forms.specs.Lists.{part_size};
    ghost use Rattle.ca_forms.specs.Lists.{scalars_of};
    ghost use Rattle.ca_forms.specs.Seen.{part_of};

    ghost view = { λ a. part_of a.node };

    ghost size = { part_size };

    ghost use Rattle.ca_forms.specs.Falls.{part_falls};

    ghost size_decreases = { λ a h. part_falls a.node };
}

impl Model for Power {
    ghost use Rattle.std.specs.Prelude.{ℕ};
    ghost use Rattle.ca_forms.specs.Plain.{PlainPart};
    ghost use Rattle.ca_forms.specs.Lists.{coded_power, power_size};

    ghost Value = { PlainPart × ℕ };

    ghost coded = { coded_power };

    ghost view = { λ a. (a.part, a.exponent) };

    ghost size = { power_size };

    ghost use Rattle.std.proofs.Common.{arith};

    ghost size_decreases = { λ a h. omega arith };
}

impl Model for Monomial {
    ghost use Rattle.ca_forms.specs.Plain.{PlainMonomial, coded_monomial};
    ghost use Rattle.ca_forms.specs.Lists.{monomial_of, monomial_size, most_powers};

    ghost Value = { PlainMonomial };

    ghost coded = { coded_monomial };

    ghost view = { λ a. monomial_of a.powers.items };

    ghost size = { monomial_size };

    ghost use Rattle.std.proofs.Common.{arith};

    ghost size_decreases = { λ a h. omega (arith, most_powers a.powers.items) };
}

impl Model for Product {
    ghost use Rattle.std.specs.Prelude.{ℕ};
    ghost use Rattle.ca_forms.specs.Plain.{PlainMonomial};
    ghost use Rattle.ca_forms.specs.Lists.{coded_product, product_size};

    ghost Value = { PlainMonomial × ℕ };

    ghost coded = { coded_product };

    ghost view = { λ a. (a.monomial, a.coefficient) };

    ghost size = { product_size };

    ghost use Rattle.std.proofs.Common.{arith};

    ghost size_decreases = { λ a h. omega arith };
}

impl Model for Polynomial {
    ghost use Rattle.ca_forms.specs.Plain.{PlainPolynomial, coded_polynomial};
    ghost use Rattle.ca_forms.specs.Lists.{polynomial_of, polynomial_size, most_products};

    ghost Value = { PlainPolynomial };

    ghost coded = { coded_polynomial };

    ghost view = { λ a. polynomial_of a.products.items };

    ghost size = { polynomial_size };

    ghost use Rattle.std.proofs.Common.{arith};

    ghost size_decreases = { λ a h. omega (arith, most_products a.products.items) };
}

impl Model for Pointer {
    ghost use Rattle.ca_forms.specs.Plain.{PlainPointer, coded_pointer};

    ghost Value = { PlainPointer };

    ghost coded = { coded_pointer };

    ghost use Rattle.ca_forms.specs.Lists.{pointer_size};
    ghost use Rattle.ca_forms.specs.Seen.{pointer_of};

    ghost view = { λ a. pointer_of a.node };

    ghost size = { pointer_size };

    ghost use Rattle.ca_forms.specs.Falls.{pointer_falls};

    ghost size_decreases = { λ a h. pointer_falls a.node };
}

impl Model for Scalar {
    ghost use Rattle.ca_forms.specs.Plain.{PlainScalar, coded_scalar};

    ghost Value = { PlainScalar };

    ghost coded = { coded_scalar };

    ghost use Rattle.ca_forms.specs.Lists.{scalar_size};
    ghost use Rattle.ca_forms.specs.Seen.{scalar_of};

    ghost view = { λ a. scalar_of a.node };

    ghost size = { scalar_size };

    ghost use Rattle.ca_forms.specs.Falls.{scalar_falls};

    ghost size_decreases = { λ a h. scalar_falls a.node };
}

impl Model for Scalars {
    ghost use Rattle.ca_forms.specs.Plain.{PlainScalars, coded_scalars};
    ghost use Rattle.ca_forms.specs.Lists.{scalars_of, scalars_size, most_scalars};

    ghost Value = { PlainScalars };

    ghost coded = { coded_scalars };

    ghost view = { λ a. scalars_of a.items.items };

    ghost size = { scalars_size };

    ghost use Rattle.std.proofs.Common.{arith};

    ghost size_decreases = { λ a h. omega (arith, most_scalars a.items.items) };
}

impl Model for Operands {
    ghost use Rattle.ca_folds.proofs.Rising.{Rising};
    ghost use Rattle.ca_forms.specs.Plain.{PlainScalars, coded_scalars};
    ghost use Rattle.ca_forms.specs.Lists.{scalars_of, scalars_size, most_scalars};
    ghost use Rattle.ca_forms.specs.Compare.{scalar_cmp};

    ghost Value = { PlainScalars };

    ghost coded = { coded_scalars };

    ghost view = { λ a. scalars_of a.items.items };

    ghost invariant = { λ a. Rising scalar_cmp a.items.items };

    ghost size = { scalars_size };

    ghost use Rattle.std.proofs.Common.{arith};

    ghost size_decreases = { λ a h. omega (arith, most_scalars a.items.items) };
}

impl Node {
    pub(crate) fn part(self) -> Part
        ensures { result ≡ part_of self }
    {
        Part { node: self }
    }
}

impl PointerNode {
    pub(crate) fn pointer(self) -> Pointer
        ensures { result ≡ pointer_of self }
    {
        Pointer { node: self }
    }
}

impl ScalarNode {
    pub(crate) fn scalar(self) -> Scalar
        ensures { result ≡ scalar_of self }
    {
        Scalar { node: self }
    }
}

impl Scalar {
    /// The form of a number.
    pub fn number(polynomial: Polynomial) -> Scalar
        ensures { result ≡ number_form polynomial }
    {
        ScalarNode::Number(polynomial).scalar()
    }

    /// The form of a truth value.
    pub fn truth(polynomial: Polynomial) -> Scalar
        ensures { result ≡ truth_form polynomial }
    {
        ScalarNode::Truth(polynomial).scalar()
    }

    /// The form of a pointer.
    pub fn pointer(pointer: Pointer) -> Scalar
        ensures { result ≡ pointer_form pointer }
    {
        ScalarNode::Pointer(pointer).scalar()
    }
}

impl Pointer {
    /// The form of null.
    pub fn null() -> Pointer
        ensures { result ≡ no_object }
    {
        PointerNode::Null.pointer()
    }
}

impl Scalars {
    /// The forms of arguments, one by one.
    pub fn of(items: Vec<Scalar>) -> Scalars
        ensures { result ≡ scalars_of items.items }
    {
        Scalars { items }
    }
}

impl Polynomial {
    /// How many powers the monomial has that has the most of them.
    pub fn longest(&self) -> usize
        ensures { result ≡ longest self.now }
    {
        longest_of(&self.products)
    }
}

fn longest_of(products: &[Product]) -> usize
    ensures { result ≡ longest (polynomial_of products.now) }
{
    let mut most = 0;
    for product in products {
        most = most.max(product.monomial.count());
    }
    most
}

impl Monomial {
    /// How many powers it has.
    fn count(&self) -> usize
        ensures { result ≡ length (powers_of self.now) }
    {
        self.powers.len()
    }
}
