//! Type preservation: a well typed program keeps a typed heap typed.

ghost use Rattle.std.specs.Prelude.{ℕ, List, [], slice_get};
ghost use Rattle.ca_program.specs.declared.program.ClassId.{ClassId};
ghost use Rattle.ca_program.specs.declared.program.OpId.{OpId};
ghost use Rattle.ca_program.specs.declared.program.ValueType.{ValueType};
ghost use Rattle.ca_program.specs.declared.program.ValueType.TheVariants.{Pointer};
ghost use Rattle.ca_program.specs.Plain.{PlainProgram, Expression, Expressions, Statement};
ghost use Rattle.ca_model.specs.declared.value.Value.{Value as Datum};
ghost use Rattle.ca_model.specs.declared.value.Value.TheVariants.{Null};
ghost use Rattle.ca_model.specs.declared.value.Object.{Object};
ghost use Rattle.ca_model.specs.Typed.{HasType, TypedHeap};
ghost use Rattle.ca_meaning.specs.Expressions.{Place, eval, Invocation, invocation, due};
ghost use Rattle.ca_meaning.specs.Flows.{exec};
ghost use Rattle.ca_meaning.specs.Functions.{functions_of};
ghost use Rattle.ca_meaning.specs.Serial.{World, serial_parts, serial_ops, main_run};
ghost use Rattle.ca_meaning.specs.Sections.{Section, section, section_parts};
ghost use Rattle.ca_meaning.specs.WellTyped.{IsTypedObject};
ghost use Rattle.ca_meaning.specs.WellTyped.{ValuesTyped, WellTyped, AllWellTyped, IsMethodOf};
ghost use Rattle.ca_meaning.specs.ProgramTyped.{Scope, IsOperation, ExpressionTyped, ExpressionsTyped, StatementTyped, main_scope, ProgramTyped};
ghost use Rattle.ca_meaning_laws.specs.Typed.{Yields, IsReceiver, PlaceTyped, FlowTyped, KeepsHeap, WorldTyped, SectionTyped, SectionLeaves, heap_of, frozen_heap};

/// An expression has a value of its type, if it has one.
pub fn expressions_have_their_types()
    ensures { (p : PlainProgram) → ProgramTyped p → (s : Scope) (q : Place) → PlaceTyped p s q → (e : Expression) (ty : ValueType) → ExpressionTyped p s e ty → (k : ℕ) → Yields (λ v. HasType q.heap v ty) (eval (functions_of p.functions q.heap).call q e k) }
{}

/// The call that a call statement makes is well typed: its receiver and its arguments are.
pub fn calls_are_well_typed()
    ensures { (p : PlainProgram) → ProgramTyped p → (s : Scope) (q : Place) → PlaceTyped p s q → (e : Expression) (op : OpId) (es : Expressions) (c : ClassId) (tys : List ValueType) → IsOperation (slice_get p.ops op.0) c tys → ExpressionTyped p s e (Pointer c) → ExpressionsTyped p s es tys → (k : ℕ) → Yields (λ i. WellTyped p q.heap i) (due (functions_of p.functions q.heap).call q e op es k) }
{}

/// A statement of a serial run keeps the heap, the receiver and the locals typed.
pub fn statements_keep_types()
    ensures { (p : PlainProgram) → ProgramTyped p → (s : Scope) (this : Datum) (line : ℕ) (ls : List Datum) (w : World) (x : Statement) (k : ℕ) → WorldTyped p s this w → ValuesTyped w.heap ls s.locals → StatementTyped p s x → FlowTyped heap_of (WorldTyped p s this) s w.heap (exec (serial_parts p this) line ls w x k) }
{}

/// The run of well typed operations in order keeps the heap typed.
pub fn operations_keep_types()
    ensures { (p : PlainProgram) → ProgramTyped p → (is : List Invocation) (w : World) (k : ℕ) → TypedHeap p w.heap → AllWellTyped p w.heap is → KeepsHeap p w.heap (serial_ops p is w k) }
{}

/// The heap of the run of `main` is typed, however the run ends.
pub fn runs_are_typed()
    ensures { (p : PlainProgram) → ProgramTyped p → (k : ℕ) → KeepsHeap p [] (main_run p k) }
{}

/// The section of a well typed call on a typed object leaves a typed object of its class, and lists well
/// typed calls.
pub fn sections_keep_types()
    ensures { (p : PlainProgram) → ProgramTyped p → (h : List Object) → TypedHeap p h → (r : ℕ) (o : Object) (op : OpId) (vs : List Datum) (budget : ℕ) (c : ClassId) → WellTyped p h (invocation r op vs) → IsMethodOf (slice_get p.ops op.0) c → IsTypedObject p h c o → SectionLeaves p h c (section p h r o op vs budget) }
{}

/// A statement of a section keeps the own slots and the locals typed, and lists well typed calls.
pub fn section_statements_keep_types()
    ensures { (p : PlainProgram) → ProgramTyped p → (h : List Object) → TypedHeap p h → (s : Scope) (this : Datum) → IsReceiver h s.class this → (line : ℕ) (ls : List Datum) (x : Section) (y : Statement) (k : ℕ) → SectionTyped p h s x → ValuesTyped h ls s.locals → StatementTyped p s y → FlowTyped (frozen_heap h) (SectionTyped p h s) s h (exec (section_parts p h this) line ls x y k) }
{}
