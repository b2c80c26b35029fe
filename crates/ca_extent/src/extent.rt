//! From operations to their extent, all that they may reach: `ExtentOf` of `ca_parallel/specs/ExtentsOf.antt`.

ghost use Rattle.std.specs.Prelude.{◌≡◌, ◌↔◌, ◌++◌, List, IfOk, IsTrue, Contains, map, flat_map};
ghost use Rattle.ca_program.specs.View.{method_view, program_view};
ghost use Rattle.ca_parallel.specs.ExtentsOf.{ExtentOf};
ghost use Rattle.ca_extent.specs.declared.numbers.Callees.TheVariants.{Functions};
ghost use Rattle.ca_extent.specs.clauses.Reached.{calls_at};
ghost use Rattle.ca_extent.specs.clauses.Targets.{written_at};
ghost use Rattle.ca_extent.specs.clauses.Ids.{op_number, op_of, function_of, field_of};

use crate::numbers::{Callees, add_all_numbers};
use crate::reached::{body_at, reached};
use crate::rising::rise_pairs;
use crate::targets::add_all_targets;
use ca_base::Memory;
use ca_program::{ClassId, FieldId, FunctionId, Method, OpId, Program};
use std::alloc::Global;
use std::marker::Model;

/// The operations that some operations may invoke, directly or indirectly, themselves included; the
/// value methods that these call; and the fields that they write. Each list rises: operations and value
/// methods by their numbers, fields by class and then by place. All other fields are the extent's constants.
#[derive(Drop)]
pub struct Extent {
    ops: Vec<OpId>,
    functions: Vec<FunctionId>,
    written: Vec<FieldId>,
}

impl Model for Extent {
    ghost use Rattle.ca_parallel.specs.Extents.{Extent as PlainExtent};

    ghost Value = { PlainExtent };

    ghost view = { λ x. record { ops = x.ops.items; functions = x.functions.items; written = x.written.items } };
}

impl Extent {
    /// The operations, by number.
    pub fn ops(&self) -> &[OpId]
        ensures { result.now ≡ self.now.ops }
    {
        self.ops.as_slice()
    }

    /// The value methods, by number.
    pub fn functions(&self) -> &[FunctionId]
        ensures { result.now ≡ self.now.functions }
    {
        self.functions.as_slice()
    }

    /// The fields that are written, by class and then by place.
    pub fn written(&self) -> &[FieldId]
        ensures { result.now ≡ self.now.written }
    {
        self.written.as_slice()
    }

    /// Whether no operation of the extent writes the field.
    pub fn is_constant(&self, field: FieldId) -> bool
        ensures { IsTrue result ↔ ¬ Contains self.now.written field }
    {
        for f in &self.written {
            if *f == field {
                return false;
            }
        }
        true
    }
}

/// The numbers of operations.
fn numbers_of_ops(alloc: Global, ops: &[OpId]) -> Result<Vec<u32>, Memory>
    ensures { IfOk result (λ ns. ns.items ≡ map op_number ops.now) }
{
    let mut numbers = Vec::new(alloc);
    for op in ops {
        numbers.push(op.0)?;
    }
    Ok(numbers)
}

/// The operations of these numbers.
fn ops_of(alloc: Global, numbers: &[u32]) -> Result<Vec<OpId>, Memory>
    ensures { IfOk result (λ ops. ops.items ≡ map op_of numbers.now) }
{
    let mut ops = Vec::new(alloc);
    for n in numbers {
        ops.push(OpId(*n))?;
    }
    Ok(ops)
}

/// The value methods of these numbers.
fn functions_of(alloc: Global, numbers: &[u32]) -> Result<Vec<FunctionId>, Memory>
    ensures { IfOk result (λ ms. ms.items ≡ map function_of numbers.now) }
{
    let mut functions = Vec::new(alloc);
    for n in numbers {
        functions.push(FunctionId(*n))?;
    }
    Ok(functions)
}

/// The fields of these pairs of a class's number and a place.
fn fields_of(alloc: Global, pairs: &[(u32, u32)]) -> Result<Vec<FieldId>, Memory>
    ensures { IfOk result (λ fs. fs.items ≡ map field_of pairs.now) }
{
    let mut fields = Vec::new(alloc);
    for pair in pairs {
        fields.push(FieldId {
            class: ClassId(pair.0),
            field: pair.1,
        })?;
    }
    Ok(fields)
}

/// The value methods that the bodies of these operations call.
fn values_called(alloc: Global, methods: &[Method], ops: &[u32]) -> Result<Vec<u32>, Memory>
    ensures { IfOk result (λ ns. ns.items ≡ flat_map (calls_at Functions (map method_view methods.now)) ops.now) }
{
    let mut numbers = Vec::new(alloc);
    for n in ops {
        add_all_numbers(Callees::Functions, body_at(methods, *n), &mut numbers)?;
    }
    Ok(numbers)
}

/// The fields that the bodies of these operations write, in order and each once.
fn fields_written(alloc: Global, methods: &[Method], ops: &[u32]) -> Result<Vec<(u32, u32)>, Memory>
    ensures { IfOk result (λ ps. ps.items ≡ flat_map (written_at (map method_view methods.now)) ops.now) }
{
    let mut pairs = Vec::new(alloc);
    for n in ops {
        add_all_targets(body_at(methods, *n), &mut pairs)?;
    }
    Ok(pairs)
}

/// The extent of the roots: all that they may invoke, the value methods that this calls, and the fields that it
/// writes. A number that names no operation has an empty body. Each body is read once for each of these.
pub fn extent_of(alloc: Global, program: &Program, roots: &[OpId]) -> Result<Extent, Memory>
    ensures { IfOk result (λ x. ExtentOf (program_view program.now) roots.now x) }
{
    let start = numbers_of_ops(alloc, roots)?;
    let ops = reached(alloc, Callees::Operations, &program.ops, start)?;
    let called = values_called(alloc, &program.ops, &ops)?;
    let functions = reached(alloc, Callees::Functions, &program.functions, called)?;
    let mut pairs = fields_written(alloc, &program.ops, &ops)?;
    rise_pairs(&mut pairs);
    Ok(Extent {
        ops: ops_of(alloc, &ops)?,
        functions: functions_of(alloc, &functions)?,
        written: fields_of(alloc, &pairs)?,
    })
}
