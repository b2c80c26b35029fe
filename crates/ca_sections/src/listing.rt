//! Calls that a section lists.

ghost use Rattle.std.specs.Prelude.{◌≡◌, ◌<◌, ◌+◌, ◌++◌, ◌∷◌, [], IfOk, IfSome, OnErr, Some, length, map, slice_get, vec_capacity, vec_len};
ghost use Rattle.ca_code.specs.Seen.{kind_seen};
ghost use Rattle.ca_code_laws.specs.Machine.{row};
ghost use Rattle.ca_code_laws.specs.Words.{read_as};
ghost use Rattle.ca_steps.specs.Stands.{seen};

use crate::desk::Desk;
use ca_base::Memory;
use ca_code::Kind;
use ca_model::Value;
use ca_parallel::{Arguments, HELD, Op};
use ca_program::OpId;
use ca_steps::read_as;
use std::alloc::Global;

/// The number in a slot.
#[inline(always)]
fn number_at(slots: &[i64], place: usize) -> i64
    requires { place < length slots.now }
    ensures { result ≡ seen slots.now place }
{
    slots[place]
}

/// The value in the slot so many behind one.
#[inline(always)]
fn value_at(slots: &[i64], first: usize, a: usize, kind: Kind) -> Option<Value>
    ensures { IfSome result (λ v. v ≡ read_as (kind_seen kind) (seen slots.now (first + a))) }
{
    if first >= slots.len() || a >= slots.len() - first {
        return None;
    }
    let n = number_at(slots, first + a);
    read_as(kind, n)
}

/// Adds the values of slots from one on, of these kinds.
#[inline(always)]
fn add_values(
    slots: &[i64],
    first: usize,
    kinds: &[Kind],
    into: &mut Arguments,
) -> Result<(), Memory>
    ensures { IfOk result (λ _. into.new ≡ into.old ++ row (seen slots.now) first (map kind_seen kinds.now)) }
{
    let mut a: usize = 0;
    'values: for kind in kinds {
        let Some(value) = value_at(slots, first, a, *kind) else {
            return Err(Memory);
        };
        into.push(value)?;
        a += 1;
    }
    Ok(())
}

/// The arguments of a call, which stand in slots from one on.
#[inline(always)]
fn arguments_of(
    alloc: Global,
    spare: &mut Vec<Op>,
    kinds: &[Kind],
    slots: &[i64],
    first: usize,
) -> Result<Arguments, Memory>
    ensures { IfOk result (λ args. args ≡ row (seen slots.now) first (map kind_seen kinds.now)) }
{
    let mut args = Desk::no_values(spare, alloc, kinds.len())?;
    add_values(slots, first, kinds, &mut args)?;
    Ok(args)
}

/// The kind at a place.
#[inline(always)]
fn kind_in(kinds: &[Kind], place: usize) -> Kind
    requires { place < length kinds.now }
    ensures { slice_get kinds.now place ≡ Some result }
{
    kinds[place]
}

/// The argument at a place of a call.
#[inline(always)]
fn argument(kinds: &[Kind], slots: &[i64], first: usize, place: usize) -> Option<Value>
    requires { place < length kinds.now }
    ensures { IfSome result (λ v. slice_get (row (seen slots.now) first (map kind_seen kinds.now)) place ≡ Some v) }
{
    let kind = kind_in(kinds, place);
    value_at(slots, first, place, kind)
}

/// One argument. It takes no memory of its own.
#[inline(always)]
fn one_of(alloc: Global, value: Value) -> Result<Arguments, Memory>
    ensures { IfOk result (λ args. args ≡ value ∷ []) }
{
    let mut args = Arguments::new(alloc);
    args.push(value)?;
    Ok(args)
}

/// Two arguments. They take no memory of their own.
#[inline(always)]
fn two_of(alloc: Global, first: Value, second: Value) -> Result<Arguments, Memory>
    ensures { IfOk result (λ args. args ≡ first ∷ second ∷ []) }
{
    let mut args = Arguments::new(alloc);
    args.push(first)?;
    args.push(second)?;
    Ok(args)
}

/// Lists a call without arguments.
#[inline(always)]
fn list_none(alloc: Global, listed: &mut Vec<Op>, op: OpId, receiver: u32)
    requires { vec_len listed.old < vec_capacity listed.old }
    ensures { listed.new.items ≡ listed.old.items ++ record { receiver = receiver; op = op; args = [] } ∷ [] }
{
    let args = Arguments::new(alloc);
    listed.push_reserved(Op { receiver, op, args });
}

/// Lists a call with one argument, which stands in a slot.
#[inline(always)]
fn list_one(
    alloc: Global,
    listed: &mut Vec<Op>,
    op: OpId,
    receiver: u32,
    kinds: &[Kind],
    slots: &[i64],
    first: usize,
) -> Result<(), Memory>
    requires room { vec_len listed.old < vec_capacity listed.old }
    requires many { length kinds.now ≡ 1 }
    ensures listed { IfOk result (λ _. listed.new.items ≡ listed.old.items ++ record { receiver = receiver; op = op; args = row (seen slots.now) first (map kind_seen kinds.now) } ∷ []) }
    ensures kept { OnErr result (listed.new.items ≡ listed.old.items) }
{
    let Some(value) = argument(kinds, slots, first, 0) else {
        return Err(Memory);
    };
    let args = one_of(alloc, value)?;
    listed.push_reserved(Op { receiver, op, args });
    Ok(())
}

/// Lists a call with two arguments, which stand in slots from one on.
#[inline(never)]
fn list_two(
    alloc: Global,
    listed: &mut Vec<Op>,
    op: OpId,
    receiver: u32,
    kinds: &[Kind],
    slots: &[i64],
    first: usize,
) -> Result<(), Memory>
    requires room { vec_len listed.old < vec_capacity listed.old }
    requires many { length kinds.now ≡ 2 }
    ensures listed { IfOk result (λ _. listed.new.items ≡ listed.old.items ++ record { receiver = receiver; op = op; args = row (seen slots.now) first (map kind_seen kinds.now) } ∷ []) }
    ensures kept { OnErr result (listed.new.items ≡ listed.old.items) }
{
    let Some(value) = argument(kinds, slots, first, 0) else {
        return Err(Memory);
    };
    let Some(other) = argument(kinds, slots, first, 1) else {
        return Err(Memory);
    };
    let args = two_of(alloc, value, other)?;
    listed.push_reserved(Op { receiver, op, args });
    Ok(())
}

/// Lists a call with arguments of these kinds, which stand in slots from one on.
#[inline(never)]
fn list_many(
    alloc: Global,
    spare: &mut Vec<Op>,
    listed: &mut Vec<Op>,
    op: OpId,
    receiver: u32,
    kinds: &[Kind],
    slots: &[i64],
    first: usize,
) -> Result<(), Memory>
    ensures listed { IfOk result (λ _. listed.new.items ≡ listed.old.items ++ record { receiver = receiver; op = op; args = row (seen slots.now) first (map kind_seen kinds.now) } ∷ []) }
    ensures kept { OnErr result (listed.new.items ≡ listed.old.items) }
{
    let args = arguments_of(alloc, spare, kinds, slots, first)?;
    listed.push(Op { receiver, op, args })?;
    Ok(())
}

/// Lists a call of an operation on an object. Few arguments go into its place in the list one by one, where there is room for it.
#[inline(never)]
pub(crate) fn list_in(
    alloc: Global,
    spare: &mut Vec<Op>,
    listed: &mut Vec<Op>,
    op: OpId,
    receiver: u32,
    kinds: &[Kind],
    slots: &[i64],
    first: usize,
) -> Result<(), Memory>
    ensures listed { IfOk result (λ _. listed.new.items ≡ listed.old.items ++ record { receiver = receiver; op = op; args = row (seen slots.now) first (map kind_seen kinds.now) } ∷ []) }
    ensures kept { OnErr result (listed.new.items ≡ listed.old.items) }
{
    if listed.len() >= listed.capacity() || kinds.len() > HELD {
        return list_many(alloc, spare, listed, op, receiver, kinds, slots, first);
    }
    if kinds.len() == 0 {
        list_none(alloc, listed, op, receiver);
        return Ok(());
    }
    if kinds.len() == 1 {
        return list_one(alloc, listed, op, receiver, kinds, slots, first);
    }
    list_two(alloc, listed, op, receiver, kinds, slots, first)
}
