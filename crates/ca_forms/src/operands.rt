//! Operands that rise, and how those of two sides become one list. A few are put among the others, each at its place,
//! so a chain of operands takes no look at all that stand there already.

ghost use Rattle.std.specs.Prelude.{◌≡◌, ◌++◌, ◌<◌, ◌+◌, ◌∷◌, [], List, length, reverse, drop, IfOk, OnOk};
ghost use Rattle.ca_folds.specs.Operators.{cancels};
ghost use Rattle.ca_folds.specs.Operands.{merge};
ghost use Rattle.ca_folds.proofs.Rising.{Rising};
ghost use Rattle.ca_forms.specs.Plain.{no_scalars};
ghost use Rattle.ca_forms.specs.Lists.{scalars_of};
ghost use Rattle.ca_forms.specs.Compare.{scalar_cmp};
ghost use Rattle.ca_forms.specs.Folds.{items_of};
ghost use Rattle.ca_forms.specs.clauses.Among.{IsPlaceAmong, is_first};

use crate::parts::let_go;
use crate::polynomial::{Operands, Scalar};
use ca_folds::FoldOp;
use std::alloc::{AllocError, Global};
use std::cmp::Ordering;

/// How many are put one by one.
const FEW: usize = 32;

impl Operands {
    pub(crate) fn empty(alloc: Global) -> Operands
        ensures { result ≡ no_scalars }
    {
        Operands {
            items: Vec::new(alloc),
        }
    }

    pub(crate) fn rising(items: Vec<Scalar>) -> Operands
        requires { Rising scalar_cmp items.items }
        ensures { result ≡ scalars_of items.items }
    {
        Operands { items }
    }

    pub(crate) fn into_items(self) -> Vec<Scalar>
        ensures items { result.items ≡ items_of self }
        ensures rising { Rising scalar_cmp result.items }
    {
        self.items
    }

    pub(crate) fn count(&self) -> usize
        ensures { result ≡ length (items_of self.now) }
    {
        self.items.len()
    }
}

/// The last of some items behind others.
fn move_last<T: Drop>(all: &mut Vec<T>, from: &mut Vec<T>) -> Result<(), AllocError>
    ensures rest { (us : List T) (x : T) → from.old.items ≡ us ++ x ∷ [] → from.new.items ≡ us }
    ensures moved { OnOk result ((us : List T) (x : T) → from.old.items ≡ us ++ x ∷ [] → all.new.items ≡ all.old.items ++ x ∷ []) }
{
    if let Some(item) = from.pop() {
        all.push(item)?;
    }
    Ok(())
}

/// The last of some items goes.
fn drop_last<T: Drop>(from: &mut Vec<T>)
    ensures { (us : List T) (x : T) → from.old.items ≡ us ++ x ∷ [] → from.new.items ≡ us }
{
    let _ = from.pop();
}

/// All of some items behind others, the last one first.
fn move_all<T: Drop>(all: &mut Vec<T>, items: Vec<T>) -> Result<(), AllocError>
    ensures { OnOk result (all.new.items ≡ all.old.items ++ reverse items.items) }
{
    let mut from = items;
    while let Some(item) = from.pop() {
        all.push(item)?;
    }
    Ok(())
}

/// What comes first of two lists of operands, which stand the other way round; one of two equal ones, or none.
fn merge_first(
    op: FoldOp,
    all: &mut Vec<Scalar>,
    first: &mut Vec<Scalar>,
    second: &mut Vec<Scalar>,
) -> Result<(), AllocError>
    requires { (0 < length first.old.items) × (0 < length second.old.items) }
    ensures fewer { length first.new.items + length second.new.items < length first.old.items + length second.old.items }
    ensures merged { OnOk result (all.new.items ++ merge (cancels op) scalar_cmp (reverse first.new.items) (reverse second.new.items) ≡ all.old.items ++ merge (cancels op) scalar_cmp (reverse first.old.items) (reverse second.old.items)) }
{
    match first[first.len() - 1].compare(&second[second.len() - 1]) {
        Ordering::Less => move_last(all, first),
        Ordering::Greater => move_last(all, second),
        Ordering::Equal => {
            drop_last(second);
            if op.cancels() {
                drop_last(first);
                Ok(())
            } else {
                move_last(all, first)
            }
        }
    }
}

/// Two lists of operands in one, item by item.
fn merged(
    alloc: Global,
    op: FoldOp,
    first: Vec<Scalar>,
    second: Vec<Scalar>,
) -> Result<Vec<Scalar>, AllocError>
    ensures { IfOk result (λ v. v.items ≡ merge (cancels op) scalar_cmp first.items second.items) }
{
    let mut all = Vec::new(alloc);
    let mut xs = first;
    let mut ys = second;
    xs.reverse();
    ys.reverse();
    while xs.len() > 0 && ys.len() > 0 {
        merge_first(op, &mut all, &mut xs, &mut ys)?;
    }
    let one = move_all(&mut all, xs);
    let both = one.and(move_all(&mut all, ys));
    both.and(Ok(all))
}

/// How many come before an operand.
fn place_of(items: &[Scalar], operand: &Scalar) -> usize
    requires { Rising scalar_cmp items.now }
    ensures { IsPlaceAmong scalar_cmp operand.now items.now result }
{
    let mut low = 0;
    let mut high = items.len();
    'halving: while low < high {
        let middle = low + (high - low) / 2;
        match items[middle].compare(operand) {
            Ordering::Less => low = middle + 1,
            _ => high = middle,
        }
    }
    low
}

/// Whether the operand at a place is like another.
fn stands_at(items: &[Scalar], place: usize, operand: &Scalar) -> bool
    ensures { result ≡ is_first scalar_cmp operand.now (drop place items.now) }
{
    if place >= items.len() {
        return false;
    }
    match items[place].compare(operand) {
        Ordering::Equal => true,
        _ => false,
    }
}

/// One operand more; one of two equal ones, or none.
fn put_operand(op: FoldOp, items: &mut Vec<Scalar>, operand: Scalar) -> Result<(), AllocError>
    requires { Rising scalar_cmp items.old.items }
    ensures { OnOk result (items.new.items ≡ merge (cancels op) scalar_cmp items.old.items (operand ∷ [])) }
{
    let place = place_of(items, &operand);
    let there = stands_at(items, place, &operand);
    if !there {
        items.insert(place, operand)?;
        return Ok(());
    }
    let_go(operand);
    let gone = op.cancels();
    if gone {
        let_go(items.remove(place));
        return Ok(());
    }
    Ok(())
}

/// Operands put among others one by one.
fn put_all(op: FoldOp, items: Vec<Scalar>, more: Vec<Scalar>) -> Result<Vec<Scalar>, AllocError>
    requires { Rising scalar_cmp items.items × Rising scalar_cmp more.items }
    ensures { IfOk result (λ v. v.items ≡ merge (cancels op) scalar_cmp items.items more.items) }
{
    let mut all = items;
    let mut rest = more;
    'operands: while let Some(operand) = rest.pop() {
        put_operand(op, &mut all, operand)?;
    }
    Ok(all)
}

/// Two lists of operands in one.
fn joined_items(
    alloc: Global,
    op: FoldOp,
    first: Vec<Scalar>,
    second: Vec<Scalar>,
) -> Result<Vec<Scalar>, AllocError>
    requires { Rising scalar_cmp first.items × Rising scalar_cmp second.items }
    ensures { IfOk result (λ v. v.items ≡ merge (cancels op) scalar_cmp first.items second.items) }
{
    let few_behind = second.len() <= FEW;
    if few_behind {
        return put_all(op, first, second);
    }
    let few_before = first.len() <= FEW;
    if few_before {
        return put_all(op, second, first);
    }
    merged(alloc, op, first, second)
}

/// The operands of both sides.
pub(crate) fn joined(
    alloc: Global,
    op: FoldOp,
    first: Operands,
    second: Operands,
) -> Result<Operands, AllocError>
    ensures { IfOk result (λ s. items_of s ≡ merge (cancels op) scalar_cmp (items_of first) (items_of second)) }
{
    let xs = first.into_items();
    let ys = second.into_items();
    let all = joined_items(alloc, op, xs, ys)?;
    Ok(Operands::rising(all))
}
