//! The laws of laid-out programs.

ghost use Rattle.std.specs.Prelude.{◌≡◌, ℕ, ◌-◌, Bool, Contains, List, [], ◌∷◌, length, suc, None, Some, slice_get, false, true};
ghost use Rattle.ca_program.specs.declared.program.ClassId.{ClassId};
ghost use Rattle.ca_program.specs.declared.program.FieldId.{FieldId};
ghost use Rattle.ca_program.specs.declared.program.FunctionId.{FunctionId};
ghost use Rattle.ca_program.specs.declared.program.OpId.{OpId};
ghost use Rattle.ca_program.specs.declared.program.ValueType.{ValueType};
ghost use Rattle.ca_program.specs.Plain.{PlainMethod, PlainProgram, Statement, Statements};
ghost use Rattle.ca_program.specs.Kinds.{as_pointer, kinds_in, param_kind, result_kind};
ghost use Rattle.ca_program.specs.Instructions.{Begin, Code, Hand, Handed, HasAt};
ghost use Rattle.ca_program.specs.Layout.{FunctionsLaidOut, MainLaidOut, all_acts, no_hands, statement_code};
ghost use Rattle.ca_model.specs.declared.value.Value.{Value as Datum};
ghost use Rattle.ca_model.specs.declared.value.Value.TheVariants.{Ref};
ghost use Rattle.ca_model.specs.declared.value.Object.{Object};
ghost use Rattle.ca_model.specs.Typed.{TypedHeap};
ghost use Rattle.ca_meaning.specs.Expressions.{Invocation, invocation};
ghost use Rattle.ca_meaning.specs.Functions.{own_of, functions_of};
ghost use Rattle.ca_meaning.specs.Serial.{World, operations_of, main_run, serial};
ghost use Rattle.ca_meaning.specs.Sections.{LoopOutcome, Section, loop_done, loop_section, section, section_start, section_run, loop_run};
ghost use Rattle.ca_meaning.specs.WellTyped.{ValuesTyped, CallTyped, WellTyped, IsMethodOf, IsTypedObject};
ghost use Rattle.ca_meaning.specs.ProgramTyped.{Scope, StatementTyped, StatementsTyped, ProgramTyped};
ghost use Rattle.ca_meaning_laws.specs.Typed.{IsReceiver};
ghost use Rattle.ca_parallel.specs.Bodies.{fors_in_all};
ghost use Rattle.ca_parallel.specs.Lists.{PlainMarks, no_marks, note, noted, noted_run, world_after};
ghost use Rattle.ca_parallel.specs.Loops.{IsCallLoop};
ghost use Rattle.ca_parallel.specs.Marks.{SoundMarks};
ghost use Rattle.ca_parallel.specs.Separable.{IsSeparated, Separable};
ghost use Rattle.ca_note_laws.specs.Listing.{CallLoopsPutNothing, listing_run, puts_nothing};
ghost use Rattle.ca_code_laws.specs.Fitting.{FitsMethod, FitsStatement, FunctionsFit};
ghost use Rattle.ca_code_laws.specs.Heeding.{HeedingLaidOut, MainHeeds};
ghost use Rattle.ca_code_laws.specs.Known.{HandsNothing, IsKnown, KnowsLoop, Wrong, loop_alone};
ghost use Rattle.ca_code_laws.specs.Machine.{Store, Back, Accesses, State, Outcome, Comes, Ends, call_of, row, slot};
ghost use Rattle.ca_code_laws.specs.Noted.{EndsNoted};
ghost use Rattle.ca_code_laws.specs.Runs.{Into, run_access, run_into, section_access, section_outcome, sectioned_as, beginning, outcome_of, ended_as};
ghost use Rattle.ca_code_laws.specs.Told.{IsLaidOut, Holds, Returned, Came, Passed, Front, notes_in};

/// A typed call of a value method comes back with its value, whatever world it runs in and however that is accessed, as long as
/// the heap is typed and the method reads its receiver there.
pub fn value_methods_come_back<S>()
    ensures { (access : Accesses S) (code : Code) (p : PlainProgram) → ProgramTyped p → FunctionsLaidOut p code → ((b : Back) (bs : List Back) (w : S) (me : Datum) → access.own (b ∷ bs) w me ≡ own_of (access.heap w) me) → (w : S) → TypedHeap p (access.heap w) → (m : FunctionId) (r : ℕ) (vs : List Datum) → CallTyped (access.heap w) (slice_get p.functions m.0) r vs → (start base k : ℕ) (b : Back) (bs : List Back) (f : Store) → b.wants ≡ true → slice_get code.functions m.0 ≡ Some start → Holds (λ i. param_kind (slice_get p.functions m.0) i) f base vs → Returned access code (result_kind (slice_get p.functions m.0)) (record { at = start; base = base; left = k; this = Ref r; below = b ∷ bs; slots = f; world = w }) b bs ((functions_of p.functions (access.heap w)).call m r vs k) }
{}

/// A well typed call of an operation comes back to whatever is below, in the world that it leaves.
pub fn operations_come_back()
    ensures { (p : PlainProgram) → ProgramTyped p → (code : Code) → IsLaidOut p code → (i : Invocation) (x : World) → TypedHeap p x.heap → WellTyped p x.heap i → (start base k : ℕ) (b : Back) (bs : List Back) (f : Store) → b.wants ≡ false → slice_get code.ops i.op.0 ≡ Some start → Holds (λ j. param_kind (slice_get p.ops i.op.0) j) f base i.arguments → Came p code (record { at = start; base = base; left = k; this = Ref i.receiver; below = b ∷ bs; slots = f; world = x }) b bs ((operations_of p).invoke i x k) }
{}

/// Whoever runs the body of a well typed call with none below to its end knows what the call means.
pub fn whoever_ends_a_call_knows_it()
    ensures { (p : PlainProgram) → ProgramTyped p → (code : Code) → IsLaidOut p code → (i : Invocation) (x : World) → TypedHeap p x.heap → WellTyped p x.heap i → (start base k : ℕ) (f : Store) → slice_get code.ops i.op.0 ≡ Some start → Holds (λ j. param_kind (slice_get p.ops i.op.0) j) f base i.arguments → (o : Outcome World) → Ends (run_access p) code (record { at = start; base = base; left = k; this = Ref i.receiver; below = []; slots = f; world = x }) o → o ≡ outcome_of ((operations_of p).invoke i x k) }
{}

/// The machine runs `main` to the end that the serial run has: the same heap, prints, trap and steps.
pub fn laid_out_runs()
    ensures { (p : PlainProgram) → ProgramTyped p → (code : Code) → IsLaidOut p code → (at k : ℕ) → MainLaidOut p code at → Ends (run_access p) code (beginning at k) (outcome_of (main_run p k)) }
{}

/// Whoever comes from the beginning to a state that ends knows how the serial run ends.
pub fn whoever_ends_ends_serially()
    ensures { (p : PlainProgram) → ProgramTyped p → (code : Code) → IsLaidOut p code → (at budget : ℕ) → MainLaidOut p code at → (s : State World) (o : Outcome World) → Comes (run_access p) code (beginning at budget) s → Ends (run_access p) code s o → serial p budget ≡ ended_as budget o }
{}

/// Where marked calls and loops are handed on, or gone into, it ends as the run that lists the calls of a loop first, with the same
/// notes.
pub fn marked_code_lists_first()
    ensures { (p : PlainProgram) → ProgramTyped p → (code : Code) → IsLaidOut p code → (marks : PlainMarks) → HeedingLaidOut marks p code → (into : Into) (at k : ℕ) → MainHeeds marks p code at → Ends (run_into into p) code (beginning at k) (outcome_of (listing_run into p marks k)) }
{}

/// Whoever hands marked calls and loops on, or goes into them, knows how the serial run ends, where the marks are sound.
pub fn whoever_hands_on_ends_serially()
    ensures { (p : PlainProgram) → ProgramTyped p → (marks : PlainMarks) → SoundMarks p marks → CallLoopsPutNothing → (code : Code) → IsLaidOut p code → HeedingLaidOut marks p code → (at budget : ℕ) → MainHeeds marks p code at → (into : Into) (s : State World) (o : Outcome World) → Comes (run_into into p) code (beginning at budget) s → Ends (run_into into p) code s o → serial p budget ≡ ended_as budget o }
{}

/// Code that heeds marks does what the run with marks does, where they are sound, whatever of what is handed on is gone into.
pub fn marked_code_ends_noted()
    ensures { (p : PlainProgram) → ProgramTyped p → (marks : PlainMarks) → SoundMarks p marks → CallLoopsPutNothing → (code : Code) → IsLaidOut p code → HeedingLaidOut marks p code → (at : ℕ) → MainHeeds marks p code at → EndsNoted p marks code at }
{}

/// Where nothing is marked the plain code does.
pub fn plain_code_ends_noted()
    ensures { (p : PlainProgram) → ProgramTyped p → (code : Code) → IsLaidOut p code → (at : ℕ) → MainLaidOut p code at → EndsNoted p no_marks code at }
{}

/// Whoever runs code that does what the run with marks does ends as that, with its notes, and hands marked calls and loops on.
pub fn whoever_hands_on_ends_noted()
    ensures { (p : PlainProgram) (marks : PlainMarks) (code : Code) (at budget : ℕ) → EndsNoted p marks code at → (into : Into) (s : State World) (o : Outcome World) → Comes (run_into into p) code (beginning at budget) s → Ends (run_into into p) code s o → o ≡ outcome_of (noted_run p marks budget) }
{}

/// What was printed and noted up to a state stands at the front of what the whole run prints and notes.
pub fn prints_and_notes_only_grow()
    ensures { (p : PlainProgram) (marks : PlainMarks) (code : Code) (at budget : ℕ) → EndsNoted p marks code at → (into : Into) (s : State World) → Comes (run_into into p) code (beginning at budget) s → Front s.world (world_after (noted_run p marks budget)) }
{}

/// The note of a call that is about to be handed on stands in the whole run's, behind those that were taken.
pub fn calls_handed_on_are_noted()
    ensures { (p : PlainProgram) (marks : PlainMarks) (code : Code) (at budget : ℕ) → EndsNoted p marks code at → (into : Into) (s : State World) → Comes (run_into into p) code (beginning at budget) s → (op : OpId) (first r : ℕ) → slice_get code.items s.at ≡ Some (Hand op first) → slot s as_pointer first ≡ Ref r → Front (noted s.world (note s.world.heap (call_of code s op first r ∷ []) s.left)) (world_after (noted_run p marks budget)) }
{}

/// So does that of the calls which a loop lists that is about to be handed on.
pub fn loops_handed_on_are_noted()
    ensures { (p : PlainProgram) (marks : PlainMarks) (code : Code) (at budget : ℕ) → EndsNoted p marks code at → (into : Into) (s : State World) → Comes (run_into into p) code (beginning at budget) s → (n line : ℕ) (h : Handed) (m : LoopOutcome) → slice_get code.items s.at ≡ Some (Begin n) → slice_get code.lines s.at ≡ Some line → slice_get code.loops s.at ≡ Some (Some h) → puts_nothing h.loop ≡ true → loop_section p s.world.heap s.this (row s.slots s.base h.locals) line h.loop s.left ≡ loop_done m → Front (noted s.world (note s.world.heap m.listed (s.left - m.steps))) (world_after (noted_run p marks budget)) }
{}

/// What notes nothing comes to the same state, whatever of what is handed on is gone into.
pub fn what_notes_nothing_comes_alike()
    ensures { (p : PlainProgram) (code : Code) (into : Into) (s t : State World) → Comes (run_access p) code s t → t.world.notes ≡ s.world.notes → Comes (run_into into p) code s t }
{}

/// So it ends.
pub fn what_notes_nothing_ends_alike()
    ensures { (p : PlainProgram) (code : Code) (into : Into) (s : State World) (o : Outcome World) → Ends (run_access p) code s o → notes_in o ≡ Some s.world.notes → Ends (run_into into p) code s o }
{}

/// The same instructions, with own accesses in hand and calls listed, run the section of a separable operation, behind the step
/// of its call: of a well typed call on a typed object, in a typed heap.
pub fn sections_run_the_same_code()
    ensures { (p : PlainProgram) → ProgramTyped p → (code : Code) → IsLaidOut p code → (frozen : List Object) → TypedHeap p frozen → (written : List FieldId) (op : OpId) → Separable p written op → (r : ℕ) (vs : List Datum) → WellTyped p frozen (invocation r op vs) → (c : ClassId) → IsMethodOf (slice_get p.ops op.0) c → (object : Object) → IsTypedObject p frozen c object → (start base k : ℕ) (f : Store) → slice_get code.ops op.0 ≡ Some start → Holds (λ i. param_kind (slice_get p.ops op.0) i) f base vs → Ends (section_access frozen) code (record { at = start; base = base; left = k; this = Ref r; below = []; slots = f; world = section_start object.slots }) (section_outcome (section_run p frozen (invocation r op vs) object.slots (suc k))) }
{}

/// Whoever runs the body of such an operation so to its end knows the section.
pub fn whoever_runs_the_body_knows_the_section()
    ensures { (p : PlainProgram) → ProgramTyped p → (code : Code) → IsLaidOut p code → (frozen : List Object) → TypedHeap p frozen → (written : List FieldId) (op : OpId) → Separable p written op → (r : ℕ) (vs : List Datum) → WellTyped p frozen (invocation r op vs) → (c : ClassId) → IsMethodOf (slice_get p.ops op.0) c → (object : Object) → IsTypedObject p frozen c object → (start base k : ℕ) (f : Store) → slice_get code.ops op.0 ≡ Some start → Holds (λ i. param_kind (slice_get p.ops op.0) i) f base vs → (o : Outcome Section) → Ends (section_access frozen) code (record { at = start; base = base; left = k; this = Ref r; below = []; slots = f; world = section_start object.slots }) o → section p frozen r object op vs (suc k) ≡ sectioned_as object.class (suc k) o }
{}

/// They run the section of a call loop, wherever its code stands, with a typed heap and typed locals.
pub fn sections_of_loops_run_the_same_code()
    ensures { (p : PlainProgram) → ProgramTyped p → (code : Code) → IsLaidOut p code → (frozen : List Object) → TypedHeap p frozen → (s : Scope) (me : Datum) → IsReceiver frozen s.class me → (loop : Statement) → StatementTyped p s loop → IsCallLoop loop → (line : ℕ) (ls : List Datum) → ValuesTyped frozen ls s.locals → (at base k : ℕ) (f : Store) → HasAt code at (statement_code (kinds_in p s.locals) (all_acts (kinds_in p s.locals)) no_hands line loop (length s.locals)) → Holds (kinds_in p s.locals).locals f base ls → Passed (kinds_in p s.locals).locals frozen code (record { at = at; base = base; left = k; this = me; below = []; slots = f; world = section_start (own_of frozen me) }) (length (statement_code (kinds_in p s.locals) (all_acts (kinds_in p s.locals)) no_hands line loop (length s.locals))) (loop_run p frozen me ls line loop k) }
{}

/// A loop of a typed body is typed.
pub fn loops_are_typed()
    ensures { (p : PlainProgram) (s : Scope) (xs : Statements) → StatementsTyped p s xs → (loop : Statement) → Contains (fors_in_all xs) loop → StatementTyped p s loop }
{}

/// A body that fits its layout wants memory, or runs the section of its operation: in any heap, on any slots, with as many arguments
/// as parameters, of their kinds. Whoever runs it to another end knows the section.
pub fn fitting_bodies_know_their_sections()
    ensures { (p : PlainProgram) → FunctionsFit p → (code : Code) → IsLaidOut p code → (frozen : List Object) (op : OpId) (m : PlainMethod) → slice_get p.ops op.0 ≡ Some m → FitsMethod p true m → (r : ℕ) (vs : List Datum) → m.params ≡ length vs → (object : Object) (start base k : ℕ) (f : Store) → slice_get code.ops op.0 ≡ Some start → Holds (λ i. param_kind (Some m) i) f base vs → (o : Outcome Section) → IsKnown o → Ends (section_access frozen) code (record { at = start; base = base; left = k; this = Ref r; below = []; slots = f; world = section_start object.slots }) o → section p frozen r object op vs (suc k) ≡ sectioned_as object.class (suc k) o }
{}

/// The bodies of a typed program fit their layout: those of value methods, of separable operations, which make and print nothing,
/// and loops that are handed on. So whoever asks a checked program's text whether it fits is told that it does.
pub fn typed_texts_fit()
    ensures functions { (p : PlainProgram) → ProgramTyped p → FunctionsFit p }
    ensures operations { (p : PlainProgram) → ProgramTyped p → (written : List FieldId) (op : OpId) → Separable p written op → (m : PlainMethod) → slice_get p.ops op.0 ≡ Some m → FitsMethod p true m }
    ensures loops { (p : PlainProgram) → ProgramTyped p → (s : Scope) → s.result ≡ None → (written : List FieldId) (after : Bool) (loop : Statement) → StatementTyped p s loop → IsSeparated p written after loop → FitsStatement p s.locals true as_pointer loop }
{}

/// So does a loop whose code stands on its own, with an end: who comes to its end has the loop's locals in the first slots.
pub fn fitting_loops_know_their_sections()
    ensures { (p : PlainProgram) → FunctionsFit p → (code : Code) → IsLaidOut p code → (frozen : List Object) (tys : List ValueType) (loop : Statement) → FitsStatement p tys true as_pointer loop → (me : Datum) (line : ℕ) (ls : List Datum) → length ls ≡ length tys → (at base k : ℕ) (f : Store) → HasAt code at (loop_alone p tys line loop) → Holds (kinds_in p tys).locals f base ls → KnowsLoop p frozen code tys me line loop ls at base k f }
{}

/// A machine of a typed program wants no memory and is never stuck, wherever it has come to: a run of `main`, one that hands marked calls
/// on, a well typed call, and the section of a separable operation.
pub fn typed_machines_want_nothing()
    ensures runs { (p : PlainProgram) → ProgramTyped p → (code : Code) → IsLaidOut p code → (at budget : ℕ) → MainLaidOut p code at → (s : State World) (o : Outcome World) → Comes (run_access p) code (beginning at budget) s → Ends (run_access p) code s o → IsKnown o }
    ensures marked { (p : PlainProgram) (marks : PlainMarks) (code : Code) (at budget : ℕ) → EndsNoted p marks code at → (into : Into) (s : State World) (o : Outcome World) → Comes (run_into into p) code (beginning at budget) s → Ends (run_into into p) code s o → IsKnown o }
    ensures calls { (p : PlainProgram) → ProgramTyped p → (code : Code) → IsLaidOut p code → (i : Invocation) (x : World) → TypedHeap p x.heap → WellTyped p x.heap i → (start base k : ℕ) (f : Store) → slice_get code.ops i.op.0 ≡ Some start → Holds (λ j. param_kind (slice_get p.ops i.op.0) j) f base i.arguments → (o : Outcome World) → Ends (run_access p) code (record { at = start; base = base; left = k; this = Ref i.receiver; below = []; slots = f; world = x }) o → IsKnown o }
    ensures sections { (p : PlainProgram) → ProgramTyped p → (code : Code) → IsLaidOut p code → (frozen : List Object) → TypedHeap p frozen → (written : List FieldId) (op : OpId) → Separable p written op → (r : ℕ) (vs : List Datum) → WellTyped p frozen (invocation r op vs) → (c : ClassId) → IsMethodOf (slice_get p.ops op.0) c → (object : Object) → IsTypedObject p frozen c object → (start base k : ℕ) (f : Store) → slice_get code.ops op.0 ≡ Some start → Holds (λ i. param_kind (slice_get p.ops op.0) i) f base vs → (o : Outcome Section) → Ends (section_access frozen) code (record { at = start; base = base; left = k; this = Ref r; below = []; slots = f; world = section_start object.slots }) o → IsKnown o }
{}

/// So where it hands marked calls on, it never comes to a state, by what notes nothing, in which an instruction wants memory or none stands.
pub fn typed_runs_are_never_wrong()
    ensures { (p : PlainProgram) (marks : PlainMarks) (code : Code) (at budget : ℕ) → EndsNoted p marks code at → (into : Into) (s u : State World) → Comes (run_into into p) code (beginning at budget) s → Comes (run_access p) code s u → u.world.notes ≡ s.world.notes → HandsNothing (slice_get code.items u.at) → Wrong (run_access p) code u → ⊥ }
{}
