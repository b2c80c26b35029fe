//! Laws of annotated texts, and of equal receivers.

ghost use Rattle.std.specs.Prelude.{◌≡◌, ◌↔◌, true};
ghost use Rattle.ca_tree.specs.Plain.{Expression, TextTree};
ghost use Rattle.ca_canonical.specs.Bare.{bare_expression};
ghost use Rattle.ca_program.specs.Plain.{PlainProgram};
ghost use Rattle.ca_plan.specs.Plans.{PlainPlan, PlanOf};
ghost use Rattle.ca_emit.specs.Annotations.{annotated_text};
ghost use Rattle.ca_emit.specs.Receivers.{same_expression};

/// Two plans of a program annotate a tree alike.
pub fn one_annotated_text()
    ensures { (p : PlainProgram) (t : TextTree) (x y : PlainPlan) → PlanOf p x → PlanOf p y → annotated_text p x t ≡ annotated_text p y t }
{}

/// Receivers are equal exactly where they are the same expression but for its places.
pub fn equal_but_for_places()
    ensures { (d e : Expression) → (same_expression d e ≡ true) ↔ (bare_expression d ≡ bare_expression e) }
{}
