//! The resolved program: names are numbers, and every statement knows its line.
//!
//! The checker makes a program from a tree without violations, and everything behind it (the
//! serial meaning, the extents, the analysis) reads it. Classes, operations, value methods and
//! `for` statements are numbered in source order, and parameters are the first locals.
//! `specs/Plain.antt` has the program as numbers, variants and lists, which is what definitions
//! speak of, and `specs/View.antt` the one function from a program in memory to it. How a program is laid out as
//! instructions is said in `specs/Kinds.antt`, `Instructions.antt` and `Layout.antt`.
//!
//! Whoever reads the public clauses must believe each file of `specs/`.
#![tactic(auto)]

pub mod program;

pub use ca_tree::{AssignOp, BinaryOp, Name, UnaryOp};
pub use program::{
    Body, Class, ClassId, Expr, FieldId, FieldInfo, FirstPart, FunctionId, LocalId, LoopId, Method,
    OpId, Program, Stmt, StmtForm, ValueType,
};
