//! The laws of shapes.

ghost use Rattle.std.specs.Prelude.{◌≡◌, ℕ, List};
ghost use Rattle.ca_tree.specs.declared.token.Token.{Token};
ghost use Rattle.ca_tree.specs.Plain.{TextTree};
ghost use Rattle.ca_program.specs.Plain.{PlainProgram};
ghost use Rattle.ca_parse.specs.Grammar.{DerivesFree};
ghost use Rattle.ca_lock_laws.specs.Courses.{TreeHeadsStand};
ghost use Rattle.ca_lock_laws.specs.Resolves.{ProgramResolves};
ghost use Rattle.ca_resolve.specs.Judged.{fine};
ghost use Rattle.ca_types.specs.Classes.{judge};

/// The operations and `main` of a program that a tree resolves to are those of the tree in the order of the text, statement
/// by statement.
pub fn programs_stand_for_their_trees()
    ensures { (tree : TextTree) (p : PlainProgram) → judge tree ≡ fine p → ProgramResolves tree p }
{}

/// In the tree that tokens derive, the first and the last part of each `for` are declarations or assignments, as a path
/// through its text has them.
pub fn heads_are_lines()
    ensures { (free : ℕ) (tokens : List Token) (tree : TextTree) → DerivesFree free tokens tree → TreeHeadsStand tree }
{}
