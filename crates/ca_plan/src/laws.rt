//! Laws of plans: all plans of a program (`specs/Plans.antt`) have one list of marks, and one text each of
//! `specs/Texts.antt`.

ghost use Rattle.std.specs.Prelude.{◌≡◌};
ghost use Rattle.ca_program.specs.Plain.{PlainProgram};
ghost use Rattle.ca_plan.specs.Plans.{PlainPlan, PlanOf};
ghost use Rattle.ca_plan.specs.Texts.{pairs_text, plan_text};

/// Two plans of a program write one text each, also where they name different demands that differ, and have one list of
/// marks.
pub fn one_text()
    ensures pairs { (p : PlainProgram) (x y : PlainPlan) → PlanOf p x → PlanOf p y → pairs_text p x ≡ pairs_text p y }
    ensures plan { (p : PlainProgram) (x y : PlainPlan) → PlanOf p x → PlanOf p y → plan_text p x ≡ plan_text p y }
    ensures marks { (p : PlainProgram) (x y : PlainPlan) → PlanOf p x → PlanOf p y → x.marks ≡ y.marks }
{}
