//! Formal sums: lists of products, each a monomial and its coefficient modulo 2^64, with a proof that like
//! products are gathered to one form. What a monomial is stands open; an order of monomials is given.
//! Definitions and lemmas alone: `specs/Sums.antt`, products of sums (`Products.antt`) and sums by rows
//! (`Rows.antt`).
//!
//! Whoever reads the public clauses must believe `Products` and `Sums` of `specs/`; what stands in `specs/clauses/`
//! serves clauses within the crate alone.
#![tactic(auto)]
