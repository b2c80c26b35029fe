//! Laws of the serial meaning, in which no bound on the nesting of calls and turns occurs, and of multisets.

ghost use Rattle.std.specs.Prelude.{◌≡◌, ◌≤◌, ℕ, Bool, List, slice_get, count_by};
ghost use Rattle.ca_program.specs.declared.program.FunctionId.{FunctionId};
ghost use Rattle.ca_program.specs.Plain.{PlainProgram, PlainMethod, Expression, Statement, Statements, while_loop};
ghost use Rattle.ca_model.specs.declared.value.Value.{Value as Datum};
ghost use Rattle.ca_model.specs.declared.value.Value.TheVariants.{Ref};
ghost use Rattle.ca_model.specs.declared.value.Object.{Object};
ghost use Rattle.ca_meaning.specs.Expressions.{gives, take_step, Place, eval, Invocation};
ghost use Rattle.ca_meaning.specs.Flows.{goes_on, and_on, with, choose, line_of, exec, exec_all, turn};
ghost use Rattle.ca_meaning.specs.Functions.{body_of, locals_of, value_of_body, function_parts, functions_of, value_in};
ghost use Rattle.ca_meaning.specs.Serial.{World, came_back, operations_of, run_call, serial_parts};
ghost use Rattle.ca_meaning.specs.Multisets.{SameItems};
ghost use Rattle.ca_meaning.specs.Sections.{Section, loops_of, section_parts};

/// A call of a value method means its body.
pub fn value_call_runs_body()
    ensures { (ms : List PlainMethod) (h : List Object) (m : FunctionId) (r : ℕ) (vs : List Datum) (k : ℕ) → (functions_of ms h).call m r vs k ≡ value_of_body (exec_all (function_parts (functions_of ms h) h (Ref r)) (locals_of (slice_get ms m.0) vs) tt (body_of (slice_get ms m.0)) k) }
{}

/// A loop in a value method that comes again means itself from its condition on.
pub fn function_loop_comes_again()
    ensures { (ms : List PlainMethod) (h : List Object) (this : Datum) (line : ℕ) (ls : List Datum) (loop : Statement) (k : ℕ) → (functions_of ms h).again this line ls tt loop k ≡ turn (function_parts (functions_of ms h) h this) line ls tt loop k }
{}

/// A call of an operation means its body.
pub fn operation_call_runs_body()
    ensures { (p : PlainProgram) (i : Invocation) (w : World) (k : ℕ) → (operations_of p).invoke i w k ≡ exec_all (serial_parts p (Ref i.receiver)) (locals_of (slice_get p.ops i.op.0) i.arguments) w (body_of (slice_get p.ops i.op.0)) k }
{}

/// A loop in an operation or in `main` that comes again means itself from its condition on.
pub fn serial_loop_comes_again()
    ensures { (p : PlainProgram) (this : Datum) (line : ℕ) (ls : List Datum) (w : World) (loop : Statement) (k : ℕ) → (operations_of p).again this line ls w loop k ≡ turn (serial_parts p this) line ls w loop k }
{}

/// A `while` means its condition, a step where that is true, its body, and the `while` again.
pub fn while_means_its_turns()
    ensures { (p : PlainProgram) (this : Datum) (line own : ℕ) (ls : List Datum) (w : World) (c : Expression) (b : Statement) (k : ℕ) → exec (serial_parts p this) line ls w (while_loop own c b) k ≡ with (value_in p.functions w.heap this line ls c k) w (λ v k. choose v (with (take_step k) w (λ _ k. and_on (exec (serial_parts p this) (line_of b) ls w b k) (λ ls w k. exec (serial_parts p this) line ls w (while_loop own c b) k))) (goes_on ls w k)) }
{}

/// A call of an operation takes a step and then means its body, in a frame of its own.
pub fn call_means_a_step_and_its_body()
    ensures { (p : PlainProgram) (ls : List Datum) (i : Invocation) (w : World) (k : ℕ) → run_call (operations_of p) ls i w k ≡ with (take_step k) w (λ _ k. came_back ls (exec_all (serial_parts p (Ref i.receiver)) (locals_of (slice_get p.ops i.op.0) i.arguments) w (body_of (slice_get p.ops i.op.0)) k)) }
{}

/// A loop in a section that comes again means itself from its condition on.
pub fn section_loop_comes_again()
    ensures { (p : PlainProgram) (h : List Object) (this : Datum) (line : ℕ) (ls : List Datum) (s : Section) (loop : Statement) (k : ℕ) → loops_of p h this line ls s loop k ≡ turn (section_parts p h this) line ls s loop k }
{}

/// No expression leaves more steps than it was given.
pub fn expression_gives_no_steps_back()
    ensures { (ms : List PlainMethod) (h : List Object) (q : Place) (e : Expression) (k j : ℕ) (v : Datum) → eval (functions_of ms h).call q e k ≡ gives v j → j ≤ k }
{}

/// No list of statements of a serial run leaves more steps than it was given.
pub fn statements_give_no_steps_back()
    ensures { (p : PlainProgram) (this : Datum) (xs : Statements) (ls after : List Datum) (w x : World) (k j : ℕ) → exec_all (serial_parts p this) ls w xs k ≡ goes_on after x j → j ≤ k }
{}

/// Lists in which every test counts as many items are the same multiset: nothing has to be weighed.
pub fn tests_count_weights<T>()
    ensures same { (xs ys : List T) → ((test : T → Bool) → count_by test xs ≡ count_by test ys) → SameItems xs ys }
    ensures counted { (xs ys : List T) → SameItems xs ys → (test : T → Bool) → count_by test xs ≡ count_by test ys }
{}
