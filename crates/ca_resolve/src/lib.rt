//! What names mean in a tree, and what its expressions resolve to.
//!
//! `check_value`, `check_for`, `check_call` and `check_target` promise the checker of statements
//! that each answer is right for what the definitions judge an expression in its scope to be
//! (`specs/Values.antt`): the resolved expression and its type, or the least violation in it, by
//! place and then by code. Out of memory alone is free. The rules are told in `specs/Rules.antt`,
//! one for each code, what names mean in `specs/Scopes.antt`, and how violations are joined in
//! `specs/Judged.antt`. `both`, `and_one` and `lesser` join answers as the definitions join what
//! is judged, so that no walk stops at its first violation. Classes and members are found in a
//! time that grows as the logarithm of their number.
//!
//! Whoever reads the public clauses must believe `Judged`, `LocalView`, `Rules`, `Scopes`, `Values` and `View` of
//! `specs/`; what stands in `specs/clauses/` serves clauses within the crate alone.
#![tactic(auto)]

mod calls;
mod classes;
pub mod codes;
mod errors;
mod found;
mod locals;
mod members;
mod names;
mod nodes;
mod scope;
mod targets;
mod types;
mod values;

pub use calls::check_call;
pub use classes::{ClassTable, Meaning};
pub use errors::{CheckError, Code, and_one, both, lesser, let_go, limit, violation};
pub use found::{Found, Invocation, Target};
pub use locals::{Locals, VisibleLocal};
pub use members::{Numbers, member_name, one_more};
pub use names::Names;
pub use scope::Scope;
pub use targets::check_target;
pub use types::{Callee, Ty};
pub use values::{check_for, check_value};
