//! How deep comparisons stand in comparisons. What a term compares is found by a walk that forms the sides of each comparison
//! anew, so it is asked only of terms that nest few: it only saves work.

use ca_norm::Term;

/// How often comparisons may stand in comparisons where classes of orders are kept.
pub(crate) const MOST_NESTED: u32 = 8;

/// One less, and 0 for none.
fn one_less(most: u32) -> u32 {
    most.saturating_sub(1)
}

/// Whether comparisons stand in comparisons more than so often. It recurses as deep as the term is.
#[cycle(deep)]
#[inline(never)]
pub(crate) fn is_deep(term: &Term, most: u32) -> bool {
    match term {
        Term::Number(_) | Term::Truth(_) | Term::Null | Term::Atom(_, _, _) => false,
        Term::Neg(a) => is_deep(a, most),
        Term::Not(a) => is_deep(a, most),
        Term::Divide(a, _) => is_deep(a, most),
        Term::Remainder(a, _) => is_deep(a, most),
        Term::Read(_, a, _, _) => is_deep(a, most),
        Term::Add(a, b) => is_deep(a, most) || is_deep(b, most),
        Term::Sub(a, b) => is_deep(a, most) || is_deep(b, most),
        Term::Mul(a, b) => is_deep(a, most) || is_deep(b, most),
        Term::And(a, b) => is_deep(a, most) || is_deep(b, most),
        Term::Or(a, b) => is_deep(a, most) || is_deep(b, most),
        Term::Select(a, b) => is_deep(a, most) || is_deep(b, most),
        Term::Fold(_, a, b) => is_deep(a, most) || is_deep(b, most),
        Term::ReadAt(_, a, _, _, b) => is_deep(a, most) || is_deep(b, most),
        Term::Less(a, b) => most == 0 || is_deep(a, one_less(most)) || is_deep(b, one_less(most)),
        Term::LessEqual(a, b) => most == 0
            || is_deep(a, one_less(most))
            || is_deep(b, one_less(most)),
        Term::Same(a, b) => most == 0 || is_deep(a, one_less(most)) || is_deep(b, one_less(most)),
        Term::Choose(a, b, c) => is_deep(a, most) || is_deep(b, most) || is_deep(c, most),
        Term::Put(a, b, c) => is_deep(a, most) || is_deep(b, most) || is_deep(c, most),
        Term::AddAt(a, b, c) => is_deep(a, most) || is_deep(b, most) || is_deep(c, most),
        Term::Sweep(a, b, c, d) => is_deep(a, most)
            || is_deep(b, most)
            || is_deep(c, most)
            || is_deep(d, most),
        Term::Result(_, _, p, args) => is_deep(p, most) || is_any_deep(args.as_slice(), most),
    }
}

/// The same of the arguments of a call.
#[cycle(deep)]
#[inline(never)]
fn is_any_deep(terms: &[Term], most: u32) -> bool {
    for term in terms {
        if is_deep(term, most) {
            return true;
        }
    }
    false
}
