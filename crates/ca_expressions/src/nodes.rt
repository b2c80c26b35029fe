//! Nodes that are made of the nodes below them.

ghost use Rattle.std.specs.Prelude.{◌≡◌, ◌++◌, ◌∷◌, [], IfOk, map};
ghost use Rattle.ca_tree.specs.Plain.{unary as unary_tree, binary as binary_tree, field as field_tree, method as method_tree, index as index_tree};
ghost use Rattle.ca_tree.specs.View.{expression_view};
ghost use Rattle.ca_expressions.specs.Grammar.{expressions};
ghost use Rattle.ca_expressions.specs.Readers.{node_view};

use ca_tree::{BinaryOp, ExprKind, ExprNode, Name, Place, UnaryOp};
use std::alloc::{AllocError, Global};

/// The value in a box. Without memory it is dropped here, in one function for values of all types.
pub fn boxed<T: Drop>(alloc: Global, value: T) -> Result<Box<T>, AllocError>
    ensures { IfOk result (λ b. b.value ≡ value) }
{
    Ok(Box::new(alloc, value)?)
}

/// Puts what is in the box behind the list. Without memory it is dropped here, as in `boxed`.
pub fn add<T: Drop>(list: &mut Vec<T>, item: Box<T>) -> Result<(), AllocError>
    ensures { IfOk result (λ _. list.new.items ≡ list.old.items ++ item.value ∷ []) }
{
    list.push(Box::into_inner(item))?;
    Ok(())
}

/// The node of this kind. Nodes are handed on in boxes, so that an early end drops a box alone.
pub fn node(alloc: Global, at: Place, kind: ExprKind) -> Result<Box<ExprNode>, AllocError>
    ensures { IfOk result (λ n. n.value ≡ record { at = at; kind = kind }) }
{
    boxed(alloc, ExprNode { at, kind })
}

/// The operator on the expression.
pub fn unary(
    alloc: Global,
    op: UnaryOp,
    at: Place,
    inner: Box<ExprNode>,
) -> Result<Box<ExprNode>, AllocError>
    ensures { IfOk result (λ e. node_view e ≡ unary_tree at op (node_view inner)) }
{
    let made = node(alloc, at, ExprKind::Unary(op, inner))?;
    Ok(made)
}

/// The operator on the two expressions.
pub fn binary(
    alloc: Global,
    op: BinaryOp,
    at: Place,
    left: Box<ExprNode>,
    right: Box<ExprNode>,
) -> Result<Box<ExprNode>, AllocError>
    ensures { IfOk result (λ e. node_view e ≡ binary_tree at op (node_view left) (node_view right)) }
{
    let made = node(alloc, at, ExprKind::Binary(op, left, right))?;
    Ok(made)
}

/// The field of the object.
pub fn field(
    alloc: Global,
    at: Place,
    object: Box<ExprNode>,
    name: Name,
) -> Result<Box<ExprNode>, AllocError>
    ensures { IfOk result (λ e. node_view e ≡ field_tree at (node_view object) name) }
{
    let made = node(alloc, at, ExprKind::Field(object, name))?;
    Ok(made)
}

/// The call of the object's method.
pub fn method(
    alloc: Global,
    at: Place,
    object: Box<ExprNode>,
    name: Name,
    args: Vec<ExprNode>,
) -> Result<Box<ExprNode>, AllocError>
    ensures { IfOk result (λ e. node_view e
        ≡ method_tree at (node_view object) name (expressions (map expression_view args.items))) }
{
    let made = node(alloc, at, ExprKind::Method(object, name, args))?;
    Ok(made)
}

/// The item of the array.
pub fn index(
    alloc: Global,
    at: Place,
    array: Box<ExprNode>,
    item: Box<ExprNode>,
) -> Result<Box<ExprNode>, AllocError>
    ensures { IfOk result (λ e. node_view e ≡ index_tree at (node_view array) (node_view item)) }
{
    let made = node(alloc, at, ExprKind::Index(array, item))?;
    Ok(made)
}
