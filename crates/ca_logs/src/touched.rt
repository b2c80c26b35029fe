//! Histories that stand with the numbers of their objects: `specs/Touched.antt`.

ghost use Rattle.std.specs.Prelude.{◌≡◌, ◌++◌, [], ◌∷◌, length, IfNone, IfSome};

use crate::log::CellLog;

/// Takes the last of these numbers, with the history that stands at its place.
pub fn last_touched(numbers: &mut Vec<u32>, logs: &mut Vec<CellLog>) -> Option<(u32, CellLog)>
    requires { length logs.old.items ≡ length numbers.old.items }
    ensures last { IfSome result (λ r. (numbers.old.items ≡ numbers.new.items ++ r.0 ∷ []) × (logs.old.items ≡ logs.new.items ++ r.1 ∷ [])) }
    ensures none { IfNone result (numbers.old.items ≡ []) }
{
    let number = numbers.pop()?;
    let Some(log) = logs.pop() else {
        unreachable!();
    };
    Some((number, log))
}
