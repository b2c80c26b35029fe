//! Laws of generated texts.

ghost use Rattle.std.specs.Prelude.{ℕ, ◌≤◌, ◌+◌, ◌*◌};
ghost use Rattle.ca_gen.specs.Generated.{generated};
ghost use Rattle.ca_gen_laws.specs.Runs.{RunsWithin};

/// The text of a seed and a size is accepted, and its serial run is done within `5 * size + 2` steps.
pub fn generated_texts_run()
    ensures { (seed size : ℕ) → 1 ≤ size → size ≤ 20000 → RunsWithin 1048576 (5 * size + 2) (generated seed size) }
{}
