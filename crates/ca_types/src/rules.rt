//! Rules of nodes, and the types and classes that are named.

ghost use Rattle.std.specs.Prelude.{◌≡◌, false};
ghost use Rattle.ca_resolve.specs.Judged.{Answers, Finds, broken_if, is_limit};
ghost use Rattle.ca_resolve.specs.View.{classes_view};
ghost use Rattle.ca_types.specs.Rules.{listed};
ghost use Rattle.ca_types.specs.Statements.{class_defined, judge_type};

use ca_program::{ClassId, ValueType};
use ca_resolve::codes::UNKNOWN_CLASS;
use ca_resolve::{CheckError, ClassTable, violation};
use ca_tree::{Name, Place, TypeNode};

/// What a part resolves to, or its least violation.
pub(crate) type Answer<T> = Result<T, CheckError>;

/// A rule of a node's own, which may be broken.
pub(crate) fn rule(is_broken: bool, at: Place, code: u32) -> Answer<()>
    requires { is_limit code ≡ false }
    ensures { Finds result (listed (broken_if is_broken at code)) }
{
    if is_broken {
        Err(violation(at, code))
    } else {
        Ok(())
    }
}

/// The class that is named.
pub(crate) fn class_defined(classes: &ClassTable, name: &Name, at: Place) -> Answer<ClassId>
    ensures { Answers (λ c. c) result (class_defined (classes_view classes.now).names name.now at) }
{
    match classes.names().number(name) {
        Some(number) => Ok(ClassId(number)),
        None => Err(violation(at, UNKNOWN_CLASS)),
    }
}

/// The type that is written.
pub(crate) fn check_type(classes: &ClassTable, ty: &TypeNode) -> Answer<ValueType>
    ensures { Answers (λ t. t) result (judge_type (classes_view classes.now).names ty.now) }
{
    match ty {
        TypeNode::Long => Ok(ValueType::Long),
        TypeNode::Bool => Ok(ValueType::Bool),
        TypeNode::Pointer(name, at) => {
            let class = class_defined(classes, name, *at)?;
            Ok(ValueType::Pointer(class))
        }
    }
}
