//! Runs don't depend on budgets that are great enough.

ghost use Rattle.std.specs.Prelude.{◌≡◌, ℕ, ◌+◌, List};
ghost use Rattle.ca_program.specs.Plain.{PlainProgram, PlainMethod, Expression, Statement, Statements};
ghost use Rattle.ca_program.specs.declared.program.FunctionId.{FunctionId};
ghost use Rattle.ca_model.specs.declared.value.Value.{Value as Datum};
ghost use Rattle.ca_model.specs.declared.value.Object.{Object};
ghost use Rattle.ca_model.specs.declared.value.Slot.{Slot};
ghost use Rattle.ca_model.specs.declared.value.Trap.{Trap};
ghost use Rattle.ca_meaning.specs.Expressions.{gives, traps, Place, eval, Invocation};
ghost use Rattle.ca_meaning.specs.Flows.{stops, exec, exec_all};
ghost use Rattle.ca_meaning.specs.Functions.{functions_of};
ghost use Rattle.ca_meaning.specs.Serial.{World, serial_parts, serial_ops};
ghost use Rattle.ca_meaning.specs.Sections.{Section, section_run, loop_run};
ghost use Rattle.ca_meaning_laws.specs.Budgets.{Taken, End, flow_at, Reached};

/// An expression takes as many steps to its value within every budget that has them, and
/// what traps within a budget traps alike within every greater one.
pub fn expressions_are_steady()
    ensures ends { (ms : List PlainMethod) (h : List Object) (q : Place) (e : Expression) (v : Datum) (k j : ℕ) → eval (functions_of ms h).call q e k ≡ gives v j → Taken (λ k. eval (functions_of ms h).call q e k) v k j }
    ensures traps { (ms : List PlainMethod) (h : List Object) (q : Place) (e : Expression) (t : Trap) (k : ℕ) → eval (functions_of ms h).call q e k ≡ traps t → (i : ℕ) → eval (functions_of ms h).call q e (k + i) ≡ traps t }
{}

/// So does a call of a value method.
pub fn value_calls_are_steady()
    ensures ends { (ms : List PlainMethod) (h : List Object) (m : FunctionId) (r : ℕ) (vs : List Datum) (v : Datum) (k j : ℕ) → (functions_of ms h).call m r vs k ≡ gives v j → Taken (λ k. (functions_of ms h).call m r vs k) v k j }
    ensures traps { (ms : List PlainMethod) (h : List Object) (m : FunctionId) (r : ℕ) (vs : List Datum) (t : Trap) (k : ℕ) → (functions_of ms h).call m r vs k ≡ traps t → (i : ℕ) → (functions_of ms h).call m r vs (k + i) ≡ traps t }
{}

/// So does a statement of a serial run, also a loop.
pub fn statements_are_steady()
    ensures ends { (p : PlainProgram) (this : Datum) (line : ℕ) (ls : List Datum) (w : World) (x : Statement) (e : End World) (k j : ℕ) → exec (serial_parts p this) line ls w x k ≡ flow_at e j → Reached (λ k. exec (serial_parts p this) line ls w x k) e k j }
    ensures traps { (p : PlainProgram) (this : Datum) (line : ℕ) (ls : List Datum) (w : World) (x : Statement) (t : Trap) (after : World) (k : ℕ) → exec (serial_parts p this) line ls w x k ≡ stops t after → (i : ℕ) → exec (serial_parts p this) line ls w x (k + i) ≡ stops t after }
{}

/// So does a list of statements, such as the body of an operation or of `main`.
pub fn bodies_are_steady()
    ensures ends { (p : PlainProgram) (this : Datum) (ls : List Datum) (w : World) (xs : Statements) (e : End World) (k j : ℕ) → exec_all (serial_parts p this) ls w xs k ≡ flow_at e j → Reached (λ k. exec_all (serial_parts p this) ls w xs k) e k j }
    ensures traps { (p : PlainProgram) (this : Datum) (ls : List Datum) (w : World) (xs : Statements) (t : Trap) (after : World) (k : ℕ) → exec_all (serial_parts p this) ls w xs k ≡ stops t after → (i : ℕ) → exec_all (serial_parts p this) ls w xs (k + i) ≡ stops t after }
{}

/// So does the run of operations in order.
pub fn operations_are_steady()
    ensures ends { (p : PlainProgram) (is : List Invocation) (w : World) (e : End World) (k j : ℕ) → serial_ops p is w k ≡ flow_at e j → Reached (λ k. serial_ops p is w k) e k j }
    ensures traps { (p : PlainProgram) (is : List Invocation) (w : World) (t : Trap) (after : World) (k : ℕ) → serial_ops p is w k ≡ stops t after → (i : ℕ) → serial_ops p is w (k + i) ≡ stops t after }
{}

/// So does the section of an operation.
pub fn sections_are_steady()
    ensures ends { (p : PlainProgram) (h : List Object) (i : Invocation) (own : List Slot) (e : End Section) (k j : ℕ) → section_run p h i own k ≡ flow_at e j → Reached (λ k. section_run p h i own k) e k j }
    ensures traps { (p : PlainProgram) (h : List Object) (i : Invocation) (own : List Slot) (t : Trap) (after : Section) (k : ℕ) → section_run p h i own k ≡ stops t after → (more : ℕ) → section_run p h i own (k + more) ≡ stops t after }
{}

/// So does the section of a loop of serial code.
pub fn loop_sections_are_steady()
    ensures ends { (p : PlainProgram) (h : List Object) (this : Datum) (ls : List Datum) (line : ℕ) (loop : Statement) (e : End Section) (k j : ℕ) → loop_run p h this ls line loop k ≡ flow_at e j → Reached (λ k. loop_run p h this ls line loop k) e k j }
    ensures traps { (p : PlainProgram) (h : List Object) (this : Datum) (ls : List Datum) (line : ℕ) (loop : Statement) (t : Trap) (after : Section) (k : ℕ) → loop_run p h this ls line loop k ≡ stops t after → (i : ℕ) → loop_run p h this ls line loop (k + i) ≡ stops t after }
{}
