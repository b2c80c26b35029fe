//! Classes, methods, statements and expressions of a program.

ghost use Rattle.std.specs.Prelude.{◌≡◌, ◌<◌, length, slice_get, Some};
ghost use Rattle.ca_program.specs.Fields.{same_field};

use ca_tree::{AssignOp, BinaryOp, Name, UnaryOp};

/// The number of a class.
#[derive(Clone, Copy, PartialEq, Eq)]
pub struct ClassId(pub u32);

/// The number of an operation.
#[derive(Clone, Copy, PartialEq, Eq)]
pub struct OpId(pub u32);

/// The number of a value method.
#[derive(Clone, Copy, PartialEq, Eq)]
pub struct FunctionId(pub u32);

/// The number of a `for` statement.
#[derive(Clone, Copy, PartialEq, Eq)]
pub struct LoopId(pub u32);

/// The number of a local in its body.
#[derive(Clone, Copy, PartialEq, Eq)]
pub struct LocalId(pub u32);

/// A field, by its class and its place among the fields of the class.
#[derive(Clone, Copy, PartialEq, Eq)]
pub struct FieldId {
    pub class: ClassId,
    pub field: u32,
}

impl FieldId {
    /// Whether the other one is this field.
    pub fn same(self, other: FieldId) -> bool
        ensures { result ≡ same_field self other }
    {
        self.class.0 == other.class.0 && self.field == other.field
    }
}

/// The type of a value.
#[derive(Clone, Copy, PartialEq, Eq)]
pub enum ValueType {
    Long,
    Bool,
    Pointer(ClassId),
}

/// A field's name and type, and its length where it is an array.
#[derive(Drop)]
pub struct FieldInfo {
    pub name: Name,
    pub ty: ValueType,
    pub length: Option<u32>,
}

/// A class: its name, and its fields in order.
#[derive(Drop)]
pub struct Class {
    pub name: Name,
    pub fields: Vec<FieldInfo>,
}

/// An operation, or a value method where it has a result.
#[derive(Drop)]
pub struct Method {
    pub class: ClassId,
    pub name: Name,
    /// How many of the body's locals are parameters: the first ones.
    pub params: u32,
    pub body: Body,
    pub result: Option<ValueType>,
}

/// The types of all locals, parameters first, and the statements.
#[derive(Drop)]
pub struct Body {
    pub locals: Vec<ValueType>,
    pub stmts: Vec<Stmt>,
}

/// A statement, with the line of its first token.
#[cycle(stmt)]
#[derive(Drop)]
pub struct Stmt {
    pub line: u32,
    pub kind: StmtForm,
}

/// What the first part of a `for` does with its local.
#[derive(Clone, Copy, PartialEq, Eq)]
pub enum FirstPart {
    Declares,
    Assigns,
}

/// What a statement does. A put or a creation begins with its target, with the index behind an array
/// field. A call has its receiver, the operation and the arguments. An `if` has its condition and two
/// branches. A `for` has its number, what its first part does, and then the first part, the condition,
/// the last part and the body.
#[cycle(stmt)]
#[derive(Drop)]
pub enum StmtForm {
    Block(Vec<Stmt>),
    PutLocal(LocalId, AssignOp, Expr),
    PutField(FieldId, AssignOp, Expr),
    PutItem(FieldId, Expr, AssignOp, Expr),
    NewLocal(LocalId, ClassId),
    NewField(FieldId, ClassId),
    NewItem(FieldId, Expr, ClassId),
    Invoke(Expr, OpId, Vec<Expr>),
    If(Expr, Box<Stmt>, Box<Stmt>),
    While(Expr, Box<Stmt>),
    For(LoopId, FirstPart, Box<Stmt>, Expr, Box<Stmt>, Box<Stmt>),
    Return(Expr),
    Print(Expr),
}

/// An expression. `Own` fields are those of the receiver, `Read` ones those of the object in front; an
/// item has its index last. `Value` calls a value method of the object in front.
#[derive(Drop)]
pub enum Expr {
    Number(i64),
    Truth(bool),
    Null,
    This,
    Local(LocalId),
    Own(FieldId),
    OwnItem(FieldId, Box<Expr>),
    Read(Box<Expr>, FieldId),
    ReadItem(Box<Expr>, FieldId, Box<Expr>),
    Value(Box<Expr>, FunctionId, Vec<Expr>),
    Unary(UnaryOp, Box<Expr>),
    Binary(BinaryOp, Box<Expr>, Box<Expr>),
}

/// A whole program. Each id is a place in its list.
#[derive(Drop)]
pub struct Program {
    pub classes: Vec<Class>,
    pub ops: Vec<Method>,
    pub functions: Vec<Method>,
    pub main: Body,
}

impl Program {
    /// The class of this number.
    pub fn class(&self, id: ClassId) -> &Class
        requires { id.0 < length self.now.classes.items }
        ensures { slice_get self.now.classes.items id.0 ≡ Some result.now }
    {
        &self.classes[id.0 as usize]
    }

    /// The operation of this number.
    pub fn op(&self, id: OpId) -> &Method
        requires { id.0 < length self.now.ops.items }
        ensures { slice_get self.now.ops.items id.0 ≡ Some result.now }
    {
        &self.ops[id.0 as usize]
    }

    /// The value method of this number.
    pub fn function(&self, id: FunctionId) -> &Method
        requires { id.0 < length self.now.functions.items }
        ensures { slice_get self.now.functions.items id.0 ≡ Some result.now }
    {
        &self.functions[id.0 as usize]
    }
}
