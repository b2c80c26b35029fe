//! The nodes of a tree, as the grammar makes them.

use crate::name::{Name, Place};

/// The tree of a whole text.
#[derive(Drop)]
pub struct Tree {
    pub classes: Vec<ClassNode>,
    pub main: Vec<StmtNode>,
}

/// A class; its place is that of its name.
#[derive(Drop)]
pub struct ClassNode {
    pub name: Name,
    pub at: Place,
    pub members: Vec<Member>,
}

/// A member of a class, each by itself: `long a, b;` is two fields.
#[derive(Drop)]
pub enum Member {
    Field(FieldNode),
    Method(MethodNode),
}

/// A field, or an array of so many items; its place is that of its name.
#[derive(Drop)]
pub struct FieldNode {
    pub ty: TypeNode,
    pub name: Name,
    pub at: Place,
    pub length: Option<i64>,
}

/// A type as it is written; a pointer has the name of its class and this name's place.
#[derive(Drop)]
pub enum TypeNode {
    Long,
    Bool,
    Pointer(Name, Place),
}

/// A method, an operation where it has no result; its place is that of its name.
#[derive(Drop)]
pub struct MethodNode {
    pub result: Option<TypeNode>,
    pub name: Name,
    pub at: Place,
    pub params: Vec<ParamNode>,
    pub body: Vec<StmtNode>,
}

/// A parameter; its place is that of its name.
#[derive(Drop)]
pub struct ParamNode {
    pub ty: TypeNode,
    pub name: Name,
    pub at: Place,
}

/// A statement; its place is that of its first token.
#[cycle(stmt)]
#[derive(Drop)]
pub struct StmtNode {
    pub at: Place,
    pub kind: StmtKind,
}

/// What a statement is. The parser makes the first part of a `for` a local or an assignment, its next
/// part an assignment, a target a name, a field or an index, and a call a call or a method.
#[cycle(stmt)]
#[derive(Drop)]
pub enum StmtKind {
    Empty,
    Block(Vec<StmtNode>),
    Local {
        ty: TypeNode,
        name: Name,
        name_at: Place,
        value: Option<Right>,
    },
    Assign {
        target: ExprNode,
        op: AssignOp,
        right: Right,
    },
    Call(ExprNode),
    If {
        cond: ExprNode,
        yes: Box<StmtNode>,
        no: Option<Box<StmtNode>>,
    },
    While {
        cond: ExprNode,
        body: Box<StmtNode>,
    },
    For {
        first: Box<StmtNode>,
        cond: ExprNode,
        next: Box<StmtNode>,
        body: Box<StmtNode>,
    },
    Return(ExprNode),
    Print(ExprNode),
}

/// `=`, `+=`, `-=`, `*=`, `&=`, `|=` and `^=`; `x++` is `x += 1`, and `x--` is `x -= 1`.
#[derive(Clone, Copy, PartialEq, Eq)]
pub enum AssignOp {
    Put,
    Add,
    Sub,
    Mul,
    BitAnd,
    BitOr,
    BitXor,
}

/// What a target is put to: a value, or a new object of the class that is named at the place.
#[derive(Drop)]
pub enum Right {
    Value(ExprNode),
    New(Name, Place),
}

/// An expression. Its place is the operator's of a unary or binary node, be it a sign or a key word,
/// the `->` of a field or a method, the `[` of an index, and else its first token.
#[cycle(expr)]
#[derive(Drop)]
pub struct ExprNode {
    pub at: Place,
    pub kind: ExprKind,
}

/// What an expression is. A call names a method of the class that it stands in; a field, a method and
/// an index begin with the object or the array that they are of.
#[cycle(expr)]
#[derive(Drop)]
pub enum ExprKind {
    Number(i64),
    Truth(bool),
    Null,
    This,
    Named(Name),
    Call(Name, Vec<ExprNode>),
    Field(Box<ExprNode>, Name),
    Method(Box<ExprNode>, Name, Vec<ExprNode>),
    Index(Box<ExprNode>, Box<ExprNode>),
    Unary(UnaryOp, Box<ExprNode>),
    Binary(BinaryOp, Box<ExprNode>, Box<ExprNode>),
}

/// The prefix `-` and `!`.
#[derive(Clone, Copy, PartialEq, Eq)]
pub enum UnaryOp {
    Minus,
    Not,
}

/// The binary operators; `operators.rt` says how tightly each binds, and how it is written.
#[derive(Clone, Copy, PartialEq, Eq)]
pub enum BinaryOp {
    Or,
    And,
    Equal,
    NotEqual,
    Less,
    Greater,
    LessEqual,
    GreaterEqual,
    Plus,
    Minus,
    Times,
    Divide,
    Remainder,
    BitAnd,
    BitOr,
    BitXor,
    Max,
    Min,
}
