//! Laws of texts that are accepted, and of replies, and the numbers of codes and statuses.

ghost use Rattle.std.specs.Prelude.{◌≡◌, ◌≤◌, ◌++◌, ℕ, List, Option, length};
ghost use Rattle.ca_program.specs.Plain.{PlainProgram};
ghost use Rattle.ca_meaning.specs.Output.{Reply};
ghost use Rattle.ca_meaning.specs.ProgramTyped.{ProgramTyped};
ghost use Rattle.ca_words.specs.declared.PlanCommand.TheVariants.{Emit};
ghost use Rattle.ca_emit.specs.Locks.{KeptText, MarkedText};
ghost use Rattle.ca_app.specs.Accepted.{Accepted};
ghost use Rattle.ca_app.specs.Numbers.{AreCodesOfTexts, AreStatuses, IsMostOfText};
ghost use Rattle.ca_app.specs.Reply.{Replies};
ghost use Rattle.ca_app.specs.Told.{CommandTold};
ghost use Rattle.ca_app.specs.Traced.{TraceReplies};
ghost use Rattle.ca_app.specs.Verified.{VerifyReplies, most_with_schedule, yes_reply};

/// The program of an accepted text is well typed.
pub fn accepted_programs_are_typed()
    ensures { (text : List ℕ) (p : PlainProgram) → Accepted text p → ProgramTyped p }
{}

/// Words and a text have one reply at most.
pub fn one_reply()
    ensures { (words : List (List ℕ)) (text : List ℕ) (r s : Reply) → Replies words text r → Replies words text s → r ≡ s }
{}

/// What `trace` replies to a text that is accepted, behind that text, is verified with the same budget, where it isn't too
/// long.
pub fn traces_are_verified()
    ensures { (text : List ℕ) (p : PlainProgram) (budget : ℕ) (reply : Reply) → Accepted text p → TraceReplies budget text reply → length (text ++ reply.bytes) ≤ most_with_schedule → VerifyReplies budget (text ++ reply.bytes) yes_reply }
{}

/// Where `emit` tells the plan of a text, what was written keeps the lock discipline (`locks`), and has a mark for each call and
/// each loop that runs in parallel, in `main` and in each operation that is in no extent of a marked call or loop (`sites`).
pub fn annotated_texts_keep_the_lock()
    ensures locks { (text : List ℕ) (old now : Option (List ℕ)) (it : CommandTold Emit text old now) → KeptText it.program it.told.plan it.accepted.tree it.told.bytes }
    ensures sites { (text : List ℕ) (old now : Option (List ℕ)) (it : CommandTold Emit text old now) → MarkedText it.program it.told.plan it.accepted.tree it.told.bytes }
{}

/// The codes that the checker doesn't tell, the statuses, and the limit on a text are these numbers: whoever changes one
/// changes what the program writes.
pub fn codes_and_statuses_are_these()
    ensures codes { AreCodesOfTexts }
    ensures statuses { AreStatuses }
    ensures most { IsMostOfText }
{}
