//! Programs of texts without violations are well typed, their loops are numbered, counters stay in their loops, and names are
//! given once and are letters, digits and underscores; and which
//! numbers the codes of rules and the limits on texts are.

ghost use Rattle.std.specs.Prelude.{◌≡◌, ℕ, List};
ghost use Rattle.ca_tree.specs.declared.token.Token.{Token};
ghost use Rattle.ca_tree.specs.Plain.{TextTree};
ghost use Rattle.ca_program.specs.Plain.{PlainProgram};
ghost use Rattle.ca_lex.specs.Tokens.{Tokens};
ghost use Rattle.ca_parse.specs.Grammar.{DerivesFree};
ghost use Rattle.ca_resolve.specs.Judged.{fine};
ghost use Rattle.ca_types.specs.Classes.{judge};
ghost use Rattle.ca_meaning.specs.ProgramTyped.{ProgramTyped};
ghost use Rattle.ca_parallel.specs.Scoped.{OperationsScoped};
ghost use Rattle.ca_typing.specs.Loops.{LoopsNumbered};
ghost use Rattle.ca_typing.specs.Names.{NamedOnce, NamesSpelled};
ghost use Rattle.ca_typing.specs.Numbers.{AreCodesOfRules, AreCodesOfLimits, AreLimits};

/// The program of a text whose tree breaks no rule is well typed, also where the tree is nested past the limits.
pub fn resolved_programs_are_typed()
    ensures { (text : List ℕ) (tokens : List Token) (free : ℕ) (tree : TextTree) (p : PlainProgram) → Tokens text tokens → DerivesFree free tokens tree → judge tree ≡ fine p → ProgramTyped p }
{}

/// The loops of a program that a tree resolves to have numbers of their own, which rise in the order of the text: whoever
/// marks a loop by its number marks that loop alone.
pub fn loop_numbers_are_different()
    ensures { (tree : TextTree) (p : PlainProgram) → judge tree ≡ fine p → LoopsNumbered p }
{}

/// In an operation of a program that a tree resolves to, the local that a `for` declares is named by that loop's condition,
/// last part and body alone: whoever runs a loop of calls at once may leave its counter as it was.
pub fn counters_stay_in_their_loops()
    ensures { (tree : TextTree) (p : PlainProgram) → judge tree ≡ fine p → OperationsScoped p }
{}

/// In a program that a tree resolves to no two classes have one name, and no two operations of a class: whoever names an
/// operation by the two names it from the program.
pub fn names_are_given_once()
    ensures { (tree : TextTree) (p : PlainProgram) → judge tree ≡ fine p → NamedOnce p }
{}

/// The names of classes and operations of a text's program are letters, digits and underscores alone.
pub fn names_are_spelled_so()
    ensures { (text : List ℕ) (tokens : List Token) (free : ℕ) (tree : TextTree) (p : PlainProgram) → Tokens text tokens → DerivesFree free tokens tree → judge tree ≡ fine p → NamesSpelled p }
{}

/// The codes of rules and of limits, and the limits on texts, are these numbers: whoever changes one changes the language.
pub fn codes_and_limits_are_these()
    ensures rules { AreCodesOfRules }
    ensures limits { AreCodesOfLimits }
    ensures most { AreLimits }
{}
