//! Laws of the grammar: tokens have at most one tree, and at most one answer.

ghost use Rattle.std.specs.Prelude.{◌≡◌, ℕ, List};
ghost use Rattle.ca_descent.specs.Whole.{FirstWrong, FirstDeep};
ghost use Rattle.ca_tree.specs.declared.token.Token.{Token};
ghost use Rattle.ca_tree.specs.Plain.{TextTree};
ghost use Rattle.ca_parse.specs.Grammar.{DerivesFree, DerivesWithin};

/// Tokens derive at most one tree, whatever limits are asked.
pub fn one_tree()
    ensures { (ts : List Token) (free other : ℕ) (x y : TextTree) → DerivesFree free ts x → DerivesFree other ts y → x ≡ y }
{}

/// Tokens have at most one of these: one first wrong token, one first token past a limit, or a tree
/// within the limits.
pub fn one_answer()
    ensures one_wrong { (ts : List Token) (k j : ℕ) → FirstWrong DerivesFree ts k → FirstWrong DerivesFree ts j → k ≡ j }
    ensures one_deep { (ts : List Token) (k j : ℕ) → FirstDeep DerivesFree ts k → FirstDeep DerivesFree ts j → k ≡ j }
    ensures wrong_or_deep { (ts : List Token) (k j : ℕ) → FirstWrong DerivesFree ts k → FirstDeep DerivesFree ts j → ⊥ }
    ensures wrong_or_derived { (ts : List Token) (k : ℕ) (x : TextTree) → FirstWrong DerivesFree ts k → DerivesWithin ts x → ⊥ }
    ensures deep_or_derived { (ts : List Token) (k : ℕ) (x : TextTree) → FirstDeep DerivesFree ts k → DerivesWithin ts x → ⊥ }
{}
