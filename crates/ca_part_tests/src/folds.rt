//! Normal forms of operators whose operands may stand in any order: the greatest, the least, and the bit operators.

use crate::sources::{let_go, program};
use crate::terms::{hold, hold_for_each};
use ca_folds::FoldOp;
use ca_norm::Sort;
use ca_program::OpId;
use ca_shared_terms::{ExecutionError, LightTerm};
use ca_symbolic::{Demands, Side, SymState, symbolic};
use std::process::Abort;

/// The letters of the operators.
const OPERATORS: &str = "G
K
B
T
^";

/// The operands may change places and be nested in any way, and other operands make another form.
const ALL: &str = "alike 0p1p$ 1p0p$
alike 0p1p$2p$ 2p1p0p$$
alike 0p1p$2p3p$$ 3p1p$0p$2p$
alike 0p1p$2n*0p* 1p0p$0p*2n*
differ 0p1p$ 0p2p$
differ 0p1p$0p1p$* 0p1p$
differ 0p1p$2n*2p$ 0p1p$2p$";

/// An operand that stands twice stands once.
const REPEATED: &str = "alike 0p0p$ 0p
alike 0p1p$0p$ 0p1p$
alike 0p1p$1p0p$$ 0p1p$
alike 0p1p+1p0p+$ 0p1p+";

const ROWS: &str = "// of exclusive or it goes with its like
alike 0p0p^ 0n
alike 0p1p^1p^ 0p
alike 0p1p^1p0p^^ 0n
alike 0p1p^0p^1p2p^^ 2p
differ 0p1p^1p^ 0p1p^
differ 0p0p^ 0p
// numbers become one number
alike 6n3nB 2n
alike 6n3nT 7n
alike 6n3n^ 5n
alike 1m2nG 2n
alike 1m2nK 1m
alike 0p6nB3nB 2n0pB
alike 0p6nT1p3nTT 7n1pT0pT
alike 6n0p^1p3n^^ 0p1p^5n^
differ 0p6nB 0p3nB
differ 0p5nG 0p
// the number that changes no other is dropped
alike 0p9223372036854775808mG 0p
alike 0p9223372036854775807nK 0p
alike 0p1mB 0p
alike 0p0nT 0p
alike 0p0n^ 0p
alike 0p6n^6n^ 0p
differ 0p0nB 0p
differ 0p1mT 0p
differ 0p0nG 0p
// a number that absorbs all others stands alone
alike 0p9223372036854775807nG1pG 9223372036854775807n
alike 0p9223372036854775808mK1pK 9223372036854775808m
alike 0p6nB1p1nBB 0n
alike 0p1mT1pT 1m
differ 0p1m^ 1m
// an operand that another operator made is taken for one
alike 0p1pK2pG 2p1p0pKG
differ 0p1pK2pG 0p1pG2pG
differ 0p1pK2pG 0p1p2pGK
differ 0p1pT2pB 0p1pB2pT";

#[test]
fn operators_have_forms(rt: HostRuntime) {
    hold_for_each(&rt, OPERATORS, ALL);
    hold_for_each(&rt, "G\nK\nB\nT", REPEATED);
    hold(&rt, ROWS);
}

/// It weighs as a sum: a term of depth 4,096, and sixteen of two operands multiplied, are the heaviest.
const WEIGHTS: &str = "heaviest 0f,4095:0p$
large 0f,4095:0p$,1n$
heaviest 0p1p$,15:0p1p$*
formed 0p1p$,15:0p1p$*
large 0p1p$,15:0p1p$*,1n+";

/// Four thousand times one field, 500 fields and 4,000 fields that are nested from the left and from the right, operators inside
/// indexes and inside sums: each has a form.
const CHAINS: &str = "formed 0f,4000:0f$
alike 0f,499:1if$ 500:0if,499:$
alike 0f,3999:1if$ 4000:0if,3999:$
formed 0f,2000:0p$0sxS
formed 0f,2000:0p$1p+";

/// Terms of 6,000 levels of two operators that alternate are past the limit, and have forms all the same.
const DEEP: &str = "past 0f,3000:0pG1pK
scalar 0f,3000:0pG1pK
past 0f,3000:0p^1pB
scalar 0f,3000:0p^1pB";

#[test]
fn heavy_operators_have_forms(rt: HostRuntime) {
    hold_for_each(&rt, OPERATORS, WEIGHTS);
    hold_for_each(&rt, OPERATORS, CHAINS);
    hold(&rt, DEEP);
}

/// The field 0 as a shared term.
fn field<R: AllocGlobal + Abort>(rt: &R) -> LightTerm {
    LightTerm::atom(rt.alloc(), Sort::Long, 3, 0).expect(rt, "a field")
}

/// What the operator gives for a term and the same term.
fn twice<R: AllocGlobal + Abort>(
    rt: &R,
    operator: FoldOp,
    term: LightTerm,
) -> Result<LightTerm, ExecutionError> {
    let again = term.share().expect(rt, "a term");
    LightTerm::folded(rt.alloc(), operator, term, again)
}

/// Whether two shared terms have one form.
fn are_alike<R: AllocGlobal + Abort>(rt: &R, one: &LightTerm, other: &LightTerm) -> bool {
    let first = one.scalar(rt.alloc()).expect(rt, "a form");
    let second = other.scalar(rt.alloc()).expect(rt, "a form");
    let answer = first.same(&second);
    let_go(first);
    let_go(second);
    answer
}

/// The greatest of a field and itself, fifteen times over, is a term of 65,535 nodes and has the field's form; once more is too heavy.
#[test]
fn shares_operands(rt: HostRuntime) {
    let mut term = field(&rt);
    for _ in 0..15 {
        term = twice(&rt, FoldOp::Max, term).expect(&rt, "a term");
    }
    let one = field(&rt);
    assert!(rt; are_alike(&rt, &term, &one));
    assert!(rt; term.is_same(&term));
    assert!(rt; !term.is_same(&one));
    let_go(one);
    let heavier = twice(&rt, FoldOp::Max, term);
    assert!(rt; matches!(&heavier, Err(ExecutionError::Large)));
    let_go(heavier);
}

/// A field that no statement puts keeps the heaviest term that there is, and the run isn't Large: a heavier one can't be made.
#[test]
fn heaviest_field_stays(rt: HostRuntime) {
    let mut heavy = field(&rt);
    for _ in 0..15 {
        heavy = twice(&rt, FoldOp::Max, heavy).expect(&rt, "a term");
    }
    let mut fields = Vec::new(rt.alloc());
    fields.push(heavy).expect(&rt, "a field");
    let mut state = SymState::of(fields, Vec::new(rt.alloc()));
    let mut demands = Demands::new(rt.alloc()).expect(&rt, "demands");
    let program = program(
        &rt,
        "class A { public: long x; void m() { } }; int main() { }",
    );
    assert!(rt; program.ops.len() == 1);
    let ran = symbolic(
        rt.alloc(),
        program,
        &[],
        OpId(0),
        Side::First,
        &mut state,
        &mut demands,
    );
    assert!(rt; matches!(ran, Ok(())));
    let_go(state);
    let_go(demands);
}
