//! From a seed and a size to a large text: `generated` of `ca_gen/specs/Generated.antt`, which is accepted and runs to its
//! end.

ghost use Rattle.std.specs.Prelude.{◌≡◌, ◌≤◌, ◌+◌, ◌*◌, IfOk};
ghost use Rattle.ca_program.specs.Plain.{PlainProgram};
ghost use Rattle.ca_meaning.specs.Serial.{serial};
ghost use Rattle.ca_gen.specs.Generated.{generated};
ghost use Rattle.ca_app.specs.Accepted.{Accepted};
ghost use Rattle.ca_app.specs.Causes.{IsDone};

use ca_base::Memory;
use ca_gen::generated_text;
use std::alloc::Global;

/// The text of a seed and a size, of 1 to 20,000 nodes: it is accepted, and its serial run is done within
/// `5 * size + 2` steps.
///
/// Errors: out of memory.
pub fn generate(alloc: Global, seed: u64, size: u32) -> Result<Vec<u8>, Memory>
    requires { (1 ≤ size) × (size ≤ 20000) }
    ensures text { IfOk result (λ text. text.items ≡ generated seed size) }
    ensures runs { IfOk result (λ text. (p : PlainProgram) × Accepted text.items p × IsDone (serial p (5 * size + 2))) }
{
    let text = generated_text(alloc, seed, size)?;
    Ok(text)
}
