//! Laws of normal forms.

ghost use Rattle.std.specs.Prelude.{◌≡◌, ℤ, false};
ghost use Rattle.ca_folds.specs.declared.operator.FoldOp.{FoldOp};
ghost use Rattle.ca_folds.specs.Operators.{cancels};
ghost use Rattle.ca_norm.specs.Terms.{PlainTerm, add_at, fold, sweep, IsWord, IsArray, IsOf, sort_of};
ghost use Rattle.ca_norm.specs.Forms.{norm, SamePolynomial, IsPolynomialOf};
ghost use Rattle.ca_norm.specs.Meanings.{Valuation, mean, item_mean, form_mean, form_item};

/// A normal form means what its term means, whatever the atoms stand for.
pub fn form_means()
    ensures { (v : Valuation) (t : PlainTerm) → IsOf (sort_of t) t → form_mean v (norm t) ≡ mean v t }
{}

/// An array's normal form has the items of its term at every number.
pub fn items_mean()
    ensures { (v : Valuation) (t : PlainTerm) (k : ℤ) → IsArray (sort_of t) → IsOf (sort_of t) t → form_item v (norm t) k ≡ item_mean v t k }
{}

/// The form of a number or a truth value is its formal polynomial.
pub fn form_is_polynomial()
    ensures { (t : PlainTerm) → IsWord (sort_of t) → IsPolynomialOf (norm t) t }
{}

/// Terms of one formal polynomial have one normal form, however they are written.
pub fn same_polynomials()
    ensures { (t u : PlainTerm) → IsWord (sort_of t) → sort_of t ≡ sort_of u → SamePolynomial t u → norm t ≡ norm u }
{}

/// Terms of one normal form mean the same, whatever the atoms stand for.
pub fn same_forms()
    ensures { (v : Valuation) (t u : PlainTerm) → IsOf (sort_of t) t → IsOf (sort_of u) u → norm t ≡ norm u → mean v t ≡ mean v u }
{}

/// Arrays of one normal form have the same items at every number.
pub fn same_items()
    ensures { (v : Valuation) (t u : PlainTerm) (k : ℤ) → IsArray (sort_of t) → IsArray (sort_of u) → IsOf (sort_of t) t → IsOf (sort_of u) u → norm t ≡ norm u → item_mean v t k ≡ item_mean v u k }
{}

/// Two sums at items have one normal form in either order, whatever the indexes are.
pub fn sums_commute()
    ensures { (a i x j y : PlainTerm) → norm (add_at (add_at a i x) j y) ≡ norm (add_at (add_at a j y) i x) }
{}

/// The operands of an operator whose operands may stand in any order have one normal form in either order.
pub fn folds_commute()
    ensures { (o : FoldOp) (a b : PlainTerm) → norm (fold o a b) ≡ norm (fold o b a) }
{}

/// However they are nested, they have one normal form.
pub fn folds_associate()
    ensures { (o : FoldOp) (a b c : PlainTerm) → norm (fold o (fold o a b) c) ≡ norm (fold o a (fold o b c)) }
{}

/// An operand that stands twice stands once, where two equal ones don't cancel.
pub fn repeats_vanish()
    ensures { (o : FoldOp) (t a : PlainTerm) → cancels o ≡ false → norm (fold o (fold o t a) a) ≡ norm (fold o t a) }
{}

/// Two sweeps have one normal form in either order, whatever their bounds are.
pub fn sweeps_commute()
    ensures { (a f t x g u y : PlainTerm) → norm (sweep (sweep a f t x) g u y) ≡ norm (sweep (sweep a g u y) f t x) }
{}

/// So have a sweep and a sum at an item.
pub fn sweep_and_item()
    ensures { (a f t x j y : PlainTerm) → norm (add_at (sweep a f t x) j y) ≡ norm (sweep (add_at a j y) f t x) }
{}
