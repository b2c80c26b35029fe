//! Trees of whole texts.

use crate::sources::tree;
use ca_tree::{AssignOp, ClassNode, Member, StmtKind, StmtNode};

/// Whether the branches of the `if` have the places of the text below.
fn are_branches_placed(statement: &StmtNode) -> bool {
    let StmtKind::If {
        yes,
        no: Some(other),
        ..
    } = &statement.kind
    else {
        return false;
    };
    let StmtKind::Assign {
        target,
        op: AssignOp::Sub,
        ..
    } = &yes.kind
    else {
        return false;
    };
    yes.at.column == 46 && target.at.column == 47 && other.at.column == 58
}

/// Whether the class and its members do.
fn is_class_placed(class: &ClassNode) -> bool {
    let [
        Member::Field(first),
        Member::Field(second),
        Member::Method(method),
    ] = class.members.as_slice()
    else {
        return false;
    };
    let [statement] = method.body.as_slice() else {
        return false;
    };
    class.at.column == 7
        && first.at.column == 18
        && second.at.column == 21
        && method.at.column == 31
        && statement.at.column == 41
        && are_branches_placed(statement)
}

#[test]
fn gives_each_part_its_place(rt: HostRuntime) {
    let text = "class A{public:B*b,*c[1];void f(long n)\
        {if(n)b->n--;else d=new A;}};int main(){A*a;}";
    let tree = tree(&rt, text);
    let is_placed = match (tree.classes.as_slice(), tree.main.as_slice()) {
        ([class], [local]) => is_class_placed(class) && local.at.column == 80,
        _ => false,
    };
    assert!(rt; is_placed);
}
