//! What a source text is made of: places, names, tokens, and the tree of its classes, statements
//! and expressions.
//!
//! The lexer makes the tokens, the parser the tree, and the checker reads it. A clause never
//! compares two nodes as they lie in memory: `specs/Plain.antt` has the tree as numbers, variants
//! and lists, and `specs/View.antt` the one function from a node to it. Tokens are plain already.
//!
//! How key words and signs are spelled, and at which level each operator binds and by which sign it
//! is written, stands here once: `specs/Spellings.antt` and `specs/Operators.antt`, with the code
//! beside them. The lexer, the grammar, the parser and the writer of canonical texts are made from
//! these tables, so a further operator is rows in them.
//!
//! Whoever reads the public clauses must believe each file of `specs/`.
#![tactic(auto)]

pub mod name;
pub mod operators;
pub mod spellings;
pub mod token;
pub mod tree;

pub use name::{Name, Place};
pub use operators::{LEVELS, Writing};
pub use token::{Keyword, Kind, Sign, Token};
pub use tree::{
    AssignOp, BinaryOp, ClassNode, ExprKind, ExprNode, FieldNode, Member, MethodNode, ParamNode,
    Right, StmtKind, StmtNode, Tree, TypeNode, UnaryOp,
};
