//! Laws of extents, marks and runs of operations in order.

ghost use Rattle.std.specs.Prelude.{◌≡◌, ℕ, List, Contains};
ghost use Rattle.ca_program.specs.declared.program.OpId.{OpId};
ghost use Rattle.ca_program.specs.Plain.{PlainProgram};
ghost use Rattle.ca_model.specs.declared.value.Value.{Value as Datum};
ghost use Rattle.ca_meaning.specs.Expressions.{Invocation};
ghost use Rattle.ca_meaning.specs.Serial.{World, ended, serial, serial_ops};
ghost use Rattle.ca_parallel.specs.Calls.{behind_prints, run_behind_prints};
ghost use Rattle.ca_parallel.specs.Extents.{Extent, IsExtentOf};
ghost use Rattle.ca_parallel.specs.ExtentsOf.{ExtentOf};
ghost use Rattle.ca_parallel.specs.Lists.{PlainMarks, no_marks, noted_run};
ghost use Rattle.ca_parallel.specs.Marks.{SoundMarks};
ghost use Rattle.ca_parallel.specs.Parallel.{Parallel};

/// No marks are sound marks, for whatever program.
pub fn no_marks_are_sound()
    ensures { (p : PlainProgram) → SoundMarks p no_marks }
{}

/// The extent of operations of a parallel extent is parallel, so a verdict on the whole serves each of its calls.
pub fn smaller_extents_are_parallel()
    ensures { (p : PlainProgram) (roots ops : List OpId) (x y : Extent) → IsExtentOf p roots x → Parallel p x → ((op : OpId) → Contains ops op → Contains x.ops op) → IsExtentOf p ops y → Parallel p y }
{}

/// An extent as rising lists is one value, so who computes it and who compares it mean the same.
pub fn one_extent()
    ensures { (p : PlainProgram) (roots : List OpId) (x y : Extent) → ExtentOf p roots x → ExtentOf p roots y → x ≡ y }
{}

/// Marks add notes to a run and change nothing else: it ends as the serial run does.
pub fn notes_change_nothing()
    ensures { (p : PlainProgram) (marks : PlainMarks) (budget : ℕ) → ended budget (noted_run p marks budget) ≡ serial p budget }
{}

/// A serial run of operations prints only at the end: behind other prints it does the same and leaves these in front.
pub fn prints_are_appended()
    ensures { (p : PlainProgram) (prints : List Datum) (is : List Invocation) (w : World) (k : ℕ) → serial_ops p is (behind_prints prints w) k ≡ run_behind_prints prints (serial_ops p is w k) }
{}
