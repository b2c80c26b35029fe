//! Runs all workers side by side, each its part of the round (`specs/Parts.antt`).

ghost use Rattle.std.specs.Prelude.{◌≡◌, map};
ghost use Rattle.ca_program.specs.View.{program_view};
ghost use Rattle.ca_logs.specs.Entries.{task_after};
ghost use Rattle.ca_deques.specs.Settings.{AllFit};
ghost use Rattle.ca_replica.specs.Applied.{IsRound};
ghost use Rattle.ca_sum_pool.specs.Parts.{setting_of};

use crate::part::Part;
use crate::performing::Sums;
use ca_base::Gate;
use ca_deques::Round;
use ca_extent::Extent;
use ca_model::Heap;
use ca_parallel::Op;
use ca_sections::Coded;
use std::thread::{self, Threads};

/// Runs the workers side by side, where threads can be made: their list is halved until each has one thread.
pub fn run_all<N: Round + Send + Sync, K: Sums + Send + Sync, R: Threads + Sync, G: Gate + Sync>(
    rt: &R,
    program: &Coded<'_>,
    extent: &Extent,
    frozen: &Heap,
    gate: &G,
    listed: &[Op],
    parts: &mut [Part<N, K>],
)
    requires picked { K.extent ≡ extent.now }
    requires listed { K.listed ≡ listed.now }
    requires calls { AllFit N.setting (map (task_after 0) listed.now) }
    requires round { IsRound (program_view program.now) extent.now frozen.now }
    requires setting { N.setting ≡ setting_of (program_view program.now) extent.now frozen.now }
    ensures { parts.new ≡ parts.old }
{
    let workers = parts.len();
    if workers == 0 {
        return;
    }
    let run = |_: usize, part: &mut Part<N, K>|
        requires picked { K.extent ≡ extent.now }
        requires listed { K.listed ≡ listed.now }
        requires calls { AllFit N.setting (map (task_after 0) listed.now) }
        requires round { IsRound (program_view program.now) extent.now frozen.now }
        requires setting { N.setting ≡ setting_of (program_view program.now) extent.now frozen.now }
        ensures { part.exit.now ≡ part.entry.now }
    { part.run(program, extent, frozen, gate, listed) };
    thread::for_each_mut(rt, parts, workers, &run);
}
