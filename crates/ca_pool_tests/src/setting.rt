//! What rounds over counting objects begin with. Where memory runs out the test ends, so that nothing lives where a function may end
//! early.

ghost use Rattle.std.specs.Prelude.{◌≡◌, ◌<◌, ◌≤◌, [], length};
ghost use Rattle.ca_program.specs.View.{program_view};
ghost use Rattle.ca_beside.specs.Beside.{present};
ghost use Rattle.ca_cells.specs.Rounds.{IsRound, extent_of, frozen_of, now_of, program_of};
ghost use Rattle.ca_cells.specs.Seats.{AreAll, all_of, cells_key, loose_of, notes_of};
ghost use Rattle.ca_counters.specs.Counters.{IsSetFor, counters, operation, starts};

use ca_beside::Beside;
use ca_cells::{Cells, Seat};
use ca_code::{PlainBodies, lay_out_with};
use ca_counters::{heap, program};
use ca_extent::{Extent, extent_of};
use ca_model::Heap;
use ca_program::OpId;
use ca_sections::Coded;
use ca_steps::Laid;
use std::process::Abort;

/// Lends a value for good. What is lent has no owner in a test, so nobody drops it.
fn lent<'a, R: AllocGlobal + Abort, T: Drop + 'a>(rt: &R, value: T) -> &'a T
    ensures { result.now ≡ value }
{
    let lent = Box::leak(Box::new(rt.alloc(), value).expect(rt, "a box"));
    &*lent
}

/// The program and its code, lent for good.
pub fn coded<'a, R: AllocGlobal + Abort>(rt: &R) -> &'a Coded<'a>
    ensures { program_view result.now ≡ counters }
{
    let alloc = rt.alloc();
    let Ok(program) = program(alloc) else {
        panic!(rt; "no program");
    };
    let program = lent(rt, program);
    let Ok(code) = lay_out_with(alloc, program, &PlainBodies) else {
        panic!(rt; "no code");
    };
    let Ok(laid) = Laid::of(alloc, code) else {
        panic!(rt; "nothing to run");
    };
    let laid = lent(rt, laid);
    let Ok(coded) = Coded::of(alloc, program, laid) else {
        panic!(rt; "no bodies that fit");
    };
    lent(rt, coded)
}

/// So many objects that have counted nothing.
pub fn objects<R: AllocGlobal + Abort>(rt: &R, program: &Coded<'_>, count: u32) -> Heap
    requires { program_view program.now ≡ counters }
    ensures { result ≡ starts count }
{
    match heap(rt.alloc(), program.program(), count) {
        Ok(heap) => heap,
        Err(_) => panic!(rt; "no objects"),
    }
}

/// So many objects that have counted nothing, cells over them whose extent is that of an operation, and a seat for each worker.
pub fn set<R: AllocGlobal + Abort>(
    rt: &R,
    program: &Coded<'_>,
    op: u32,
    count: u32,
    workers: u32,
    keeps: bool,
) -> (Extent, Heap, Beside, Cells, Vec<Seat>)
    requires program { program_view program.now ≡ counters }
    requires workers { (0 < workers) × (workers ≤ 64) }
    ensures objects { result.1 ≡ starts count }
    ensures given { (program_of (cells_key result.3) ≡ program_view program.now) × (frozen_of (cells_key result.3) ≡ result.1) × (now_of (cells_key result.3) ≡ present result.1 result.2) × (extent_of (cells_key result.3) ≡ result.0) }
    ensures set { IsSetFor (operation op) (cells_key result.3) count }
    ensures round { IsRound (cells_key result.3) }
    ensures seats { AreAll result.3 result.4.items × (length result.4.items ≡ workers) × (all_of notes_of result.4.items ≡ []) × (all_of loose_of result.4.items ≡ []) }
{
    let alloc = rt.alloc();
    let plain = program.program();
    let roots = [OpId(op)];
    let Ok(extent) = extent_of(alloc, plain, &roots) else {
        panic!(rt; "no extent");
    };
    let heap = objects(rt, program, count);
    let beside = Beside::new(alloc);
    let Ok((cells, seats)) = Cells::make(alloc, plain, &extent, &heap, &beside, workers, keeps, 0)
    else {
        panic!(rt; "no cells");
    };
    (extent, heap, beside, cells, seats)
}
