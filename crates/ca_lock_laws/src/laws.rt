//! The laws of locks, and of calls and loops that are paired.

ghost use Rattle.std.specs.Prelude.{◌≡◌, Bool, Contains, List, [], None, Option};
ghost use Rattle.ca_tree.specs.Plain as tree;
ghost use Rattle.ca_tree.specs.Plain.{TextTree};
ghost use Rattle.ca_program.specs.declared.program.FieldId.{FieldId};
ghost use Rattle.ca_program.specs.declared.program.OpId.{OpId};
ghost use Rattle.ca_program.specs.Plain.{PlainProgram, Statements};
ghost use Rattle.ca_meaning.specs.ProgramTyped.{ProgramTyped};
ghost use Rattle.ca_parallel.specs.Extents.{Extent, IsExtentOf, operation_body};
ghost use Rattle.ca_parallel.specs.Free.{IsFree};
ghost use Rattle.ca_parallel.specs.Lists.{PlainMarks};
ghost use Rattle.ca_parallel.specs.Marks.{SoundMarks};
ghost use Rattle.ca_parallel.specs.Separable.{Separable};
ghost use Rattle.ca_lock_laws.specs.Events.{Event};
ghost use Rattle.ca_lock_laws.specs.Paths.{Paths, Through, Way};
ghost use Rattle.ca_lock_laws.specs.Discipline.{Disciplined};
ghost use Rattle.ca_lock_laws.specs.Guarded.{Begins, KeepsLock, free_guards, locked_guards};
ghost use Rattle.ca_lock_laws.specs.Resolves.{AllResolve, ProgramResolves};
ghost use Rattle.ca_lock_laws.specs.Courses.{AllHeadsStand, Courses, unmarked};
ghost use Rattle.ca_lock_laws.specs.Sites.{ProgramSites};

/// Each path through a separable operation with the marks of a parallel one keeps the lock discipline, whichever receivers count
/// as the same; with the marks of a free one so does each path through a separable operation that is free.
pub fn separable_bodies_keep_the_lock()
    ensures locked { (p : PlainProgram) → ProgramTyped p → (written : List FieldId) (op : OpId) → Separable p written op → (same : tree.Expression → tree.Expression → Bool) (ss : tree.Statements) (es : List Event) → Through (locked_guards same) ss (operation_body p op) es → Disciplined p written es }
    ensures free { (p : PlainProgram) → ProgramTyped p → (written : List FieldId) (op : OpId) → Separable p written op → IsFree p written op → (same : tree.Expression → tree.Expression → Bool) (ss : tree.Statements) (es : List Event) → Through (free_guards same) ss (operation_body p op) es → Disciplined p written es }
{}

/// With sound marks so does each path through whatever a marked call or loop may reach, in the extent of that call or loop; with the
/// marks of a free operation where it is free in each such extent.
pub fn parallel_bodies_keep_the_lock()
    ensures locked { (p : PlainProgram) → ProgramTyped p → (marks : PlainMarks) → SoundMarks p marks → (same : tree.Expression → tree.Expression → Bool) (op : OpId) (ss : tree.Statements) → KeepsLock p marks op (locked_guards same) ss }
    ensures free { (p : PlainProgram) → ProgramTyped p → (marks : PlainMarks) → SoundMarks p marks → (same : tree.Expression → tree.Expression → Bool) (op : OpId) → ((roots : List OpId) → Begins p marks roots → (x : Extent) → IsExtentOf p roots x → Contains x.ops op → IsFree p x.written op) → (ss : tree.Statements) → KeepsLock p marks op (free_guards same) ss }
{}

/// A program that stands for a tree has the tree's calls and loops, on the same lines in the order of the text, body by body.
pub fn calls_and_loops_are_paired()
    ensures { (t : TextTree) (p : PlainProgram) → ProgramResolves t p → ProgramSites t p }
{}

/// Whatever course a body may take as its program has it, with whatever marks before its statements, is a path through its
/// text: no path is left out that the discipline would speak of.
pub fn no_path_is_left_out()
    ensures { (before : Option tree.Statement → tree.Statement → List Event) → ((front : Option tree.Statement) (s : tree.Statement) → unmarked (before front s) ≡ []) → (ss : tree.Statements) (xs : Statements) → AllResolve ss xs → AllHeadsStand ss → (es : List Event) (w : Way) → Courses xs es w → (fs : List Event) × Paths before None ss xs fs w × (unmarked fs ≡ es) }
{}
