//! The laws of recursive descent with one token of lookahead, for any tokens and any grammar.
//!
//! There is no code here. `specs/Exact.antt` says what it means that the answer of a parsing
//! function is exact: what it read derives the tree, what it refused begins something and no
//! longer, and tokens that agree up to there are answered alike. A grammar may ask limits of its
//! tokens; the first token past one is told from the first wrong one. The lemmas of `proofs/` take
//! exactness from the parts of a rule to the rule, one lemma for each kind of step that a parser
//! takes (`Exact`, `Parts`, `Many`, `Separated`), to a part of so many tokens at most (`Short`),
//! and to a whole text (`Whole`), of which each has one answer (`OneAnswer`).
//!
//! Whoever reads the public clauses must believe each file of `specs/`.
#![tactic(auto)]
