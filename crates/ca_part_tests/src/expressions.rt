//! Expressions, chains and names.

use crate::sources::{let_go, tokens};
use ca_expressions::{is_call, is_target, parse_chain, parse_expression, take_name};
use ca_tree::{BinaryOp, ExprKind, ExprNode};

/// Whether the nodes of the difference have the places of the text below.
fn is_placed(last: &ExprNode) -> bool {
    let ExprKind::Binary(BinaryOp::Minus, first, field) = &last.kind else {
        return false;
    };
    let ExprKind::Binary(BinaryOp::Minus, name, inner) = &first.kind else {
        return false;
    };
    last.at.column == 8
        && first.at.column == 2
        && name.at.column == 1
        && inner.at.column == 5
        && field.at.column == 10
}

#[test]
fn gives_each_node_its_place(rt: HostRuntime) {
    let alloc = rt.alloc();
    let tokens = tokens(&rt, "a-(b-c)-d->e;");
    let parsed = parse_expression(alloc, tokens);
    let is_right = match &parsed {
        Ok((last, left)) => is_placed(last) && left.len() == 1,
        Err(_) => false,
    };
    let_go(parsed);
    assert!(rt; is_right);
}

/// Whether the nodes have the places of the text below: that of `max` is its word.
fn are_bits_placed(last: &ExprNode) -> bool {
    let ExprKind::Binary(BinaryOp::BitOr, name, and) = &last.kind else {
        return false;
    };
    let ExprKind::Binary(BinaryOp::BitAnd, greatest, other) = &and.kind else {
        return false;
    };
    let ExprKind::Binary(BinaryOp::Max, first, second) = &greatest.kind else {
        return false;
    };
    last.at.column == 2
        && name.at.column == 1
        && and.at.column == 11
        && greatest.at.column == 3
        && first.at.column == 7
        && second.at.column == 9
        && other.at.column == 12
}

#[test]
fn gives_bits_and_the_greatest_their_places(rt: HostRuntime) {
    let tokens = tokens(&rt, "a|max(b,c)&d;");
    let parsed = parse_expression(rt.alloc(), tokens);
    let is_right = match &parsed {
        Ok((last, left)) => are_bits_placed(last) && left.len() == 1,
        Err(_) => false,
    };
    let_go(parsed);
    assert!(rt; is_right);
}

#[test]
fn reads_a_chain_and_a_name(rt: HostRuntime) {
    let alloc = rt.alloc();
    let tokens = tokens(&rt, "a()->b[1] = 7");
    let parsed = parse_chain(alloc, tokens);
    let is_chain = match &parsed {
        Ok((chain, left)) => is_target(chain) && !is_call(chain) && left.len() == 2,
        Err(_) => false,
    };
    let_go(parsed);
    let taken = take_name(alloc, tokens);
    let is_name = match &taken {
        Ok(((name, _), left)) => name.as_bytes() == b"a".as_slice() && left.len() == 9,
        Err(_) => false,
    };
    let_go(taken);
    assert!(rt; is_chain && is_name);
}
