//! Parts of a term or a form, in boxes and in lists. Where memory runs out they are dropped here, in functions for values
//! of all types, since a drop written out for a term or a form takes in each of its kinds.

ghost use Rattle.std.specs.Prelude.{◌≡◌, ◌++◌, ◌∷◌, [], false, Ok, IfOk, OnOk, IsOkAnd, IfSome, IfNone, IsTrue, box_value};

use std::alloc::{AllocError, Global};

/// The part in a box.
#[inline(never)]
pub fn one_box<T: Drop>(alloc: Global, part: Result<T, AllocError>) -> Result<Box<T>, AllocError>
    ensures { IfOk result (λ b. part ≡ Ok (box_value b)) }
{
    let part = part?;
    Ok(Box::new(alloc, part)?)
}

/// Both, or what is missing.
#[inline(never)]
pub fn both<T: Drop, U: Drop>(
    first: Result<T, AllocError>,
    second: Result<U, AllocError>,
) -> Result<(T, U), AllocError>
    ensures first { IfOk result (λ p. first ≡ Ok p.0) }
    ensures second { IfOk result (λ p. second ≡ Ok p.1) }
{
    let first = first?;
    let second = second?;
    Ok((first, second))
}

/// Each of the two in a box.
#[inline(never)]
pub fn two_boxes<T: Drop>(
    alloc: Global,
    first: Result<T, AllocError>,
    second: Result<T, AllocError>,
) -> Result<(Box<T>, Box<T>), AllocError>
    ensures first { IfOk result (λ p. first ≡ Ok (box_value p.0)) }
    ensures second { IfOk result (λ p. second ≡ Ok (box_value p.1)) }
{
    both(one_box(alloc, first), one_box(alloc, second))
}

/// One item more behind the others, if it is there.
pub fn add<T: Drop>(items: &mut Vec<T>, item: Result<T, AllocError>) -> Result<(), AllocError>
    ensures { OnOk result (IsOkAnd item (λ x. items.new.items ≡ items.old.items ++ x ∷ [])) }
{
    let item = item?;
    items.push(item)?;
    Ok(())
}

/// What isn't needed any more.
#[inline(never)]
pub fn let_go<T: Drop>(_part: T) {}

/// The items and one more behind them.
#[inline(never)]
pub fn longer<T: Drop>(items: Vec<T>, item: T) -> Result<Vec<T>, AllocError>
    ensures { IfOk result (λ v. v.items ≡ items.items ++ item ∷ []) }
{
    let mut more = items;
    more.push(item)?;
    Ok(more)
}

/// Two values, unless they are alike.
#[inline(never)]
pub fn unless<T: Drop>(alike: bool, one: T, other: T) -> Option<(T, T)>
    ensures first { IfSome result (λ p. p.0 ≡ one) }
    ensures second { IfSome result (λ p. p.1 ≡ other) }
    ensures differ { IfSome result (λ _. alike ≡ false) }
    ensures same { IfNone result (IsTrue alike) }
{
    if alike { None } else { Some((one, other)) }
}
