//! Replies byte by byte: each read and each write fails in turn.

ghost use Rattle.std.specs.Prelude.{◌<◌};

use crate::generated::OF_SEED_7;
use crate::pieces::{Row, call};
use crate::sources::{FIRST, GRAPH_HEAP, GRAPH_VISIT, PRINTED, PRINTS};
use std::process::Abort;
use std::sync::Wait;
use std::thread::Threads;

/// Runs that are done, spent or trap, what is told of plans, a refusal of each kind, schedules that are recorded and read, and what
/// reads nothing: the command line, the
/// text, the status and what is written, with `$` for the end of a line. A text with a name stands for itself by its name.
const ROWS: &str = "run 1 100@visit@0@heap
run 2 100@visit@0@heap
run 4 6@visit@0@heap
run 1 5@visit@4@spent 5$
run 2 5@visit@4@spent 5$
run 1 9@prints@0@printed
run 1 1@int main() { print(1); long z = 0; print(5 / z); }@3@1$trap 1 ZeroDivisor$
pairs@first@0@extent Acc::add$Acc::add Acc::add commutes$extent Acc::tie$Acc::tie Acc::tie unproved FieldDiffers peer$
plan@visit@0@op Graph::init serial$op Graph::visit parallel$
plan@int main() { print(1); }@0@
run 1 100@int main() { print(1 # 2); }@1@error 1:22 E01$
pairs@int main() { x = ; }@1@error 1:18 E10$
plan@int main() { y = 1; }@1@error 1:14 E24$
run 1 1@class A { public: long a[1000001]; }; int main() { }@8@limit 1:24 E56$
pairs@@1@error 1:1 E10$
gen 7 3@first@0@seed 7
trace 1 1@int main() { print(1); }@0@$/*schedule$done 0$*/$
trace 2 2@class A { public: long n; void add(long v) { n += v; } void one(long v) { add(v); } }; int main() { A *a = new A(); a->one(-3); }@0@$/*schedule$block$#0 A::one(-3)$#0 A::add(-3)$end$done 2$*/$
trace 64 5@visit@4@$/*schedule$declined$spent 5$*/$
trace 1 1@int main() { print(1); long z = 0; print(5 / z); }@3@$/*schedule$trap 1 ZeroDivisor$*/$
trace 2 1@int main() { print(1 # 2); }@1@error 1:22 E01$
trace 1 1@class A { public: long a[1000001]; }; int main() { }@8@limit 1:24 E56$
verify 1@int main() { print(1); }$/*schedule$done 0$*/$@0@yes$
verify 1@int main() { print(1); }$/*schedule$done 1$*/$@9@no 2$
verify 1@int main() { print(1); }$/*schedule$done 0$*/@1@error 3:1 E61$
verify 1@int main() { print(1); }@1@error 0:0 E60$
verify 1@int main() { print( }$/*schedule$@1@error 1:21 E10$
run 1 0@first@2@usage: commute run WORKERS BUDGET | pairs | plan | emit | gen SEED SIZE | load SEED SIZE WORKERS | trace WORKERS BUDGET | verify BUDGET$";

/// The text of a name.
fn named<'a>(name: &'a str) -> &'a str {
    match name {
        "first" => FIRST,
        "visit" => GRAPH_VISIT,
        "prints" => PRINTS,
        "heap" => GRAPH_HEAP,
        "printed" => PRINTED,
        "seed 7" => OF_SEED_7,
        text => text,
    }
}

/// A field of a row as a text.
fn told<R: AllocGlobal + Abort>(rt: &R, field: &str) -> String {
    named(field)
        .replace(rt.alloc(), "$", "\n")
        .expect(rt, "a text")
}

/// The call of a row.
fn row_of<'a, R: AllocGlobal + Abort>(rt: &R, row: &'a str) -> Row<'a> {
    let (line, rest) = row.split_once('@').expect(rt, "a line");
    let (text, rest) = rest.split_once('@').expect(rt, "a text");
    let (status, written) = rest.split_once('@').expect(rt, "a status");
    Row {
        line,
        text: told(rt, text),
        status: status.parse().expect(rt, "a number"),
        written: told(rt, written),
    }
}

/// Ends the test unless a call of a row leaves this status and so many right bytes.
fn leaves<R: AllocGlobal + Threads + Wait + Sync + Abort>(
    rt: &R,
    row: &Row,
    piece: usize,
    failing: (u64, u64),
    status: u8,
    len: usize,
)
    requires { 0 < piece }
{
    let (answer, wrote, begun) = call(rt, row, piece, failing);
    let (read, write) = failing;
    assert!(rt;
        begun && answer == status && wrote == len,
        "{} by {piece}, {read} and {write}",
        row.line
    );
}

/// With pieces of any length the reply is the same.
#[test]
fn replies_by_pieces(rt: HostRuntime) {
    for row in ROWS.lines() {
        let row = row_of(&rt, row);
        for piece in 1..4 {
            leaves(&rt, &row, piece, (0, 0), row.status, row.written.len());
        }
    }
}

/// Byte by byte, where a write fails, there are as many bytes of the reply as writes went before.
#[test]
fn each_write_fails(rt: HostRuntime) {
    for row in ROWS.lines() {
        let row = row_of(&rt, row);
        for before in 0..row.written.len() {
            leaves(&rt, &row, 1, (0, before as u64 + 1), 7, before);
        }
    }
}

/// How many reads a call by single bytes makes: one for each byte, and one that finds the end.
fn reads_of(row: &Row) -> u64 {
    if row.line.starts_with("gen") || row.line == "run 1 0" {
        0
    } else {
        row.text.len() as u64 + 1
    }
}

/// Where a read fails, nothing is written.
#[test]
fn each_read_fails(rt: HostRuntime) {
    for row in ROWS.lines() {
        let row = row_of(&rt, row);
        let reads = reads_of(&row);
        for before in 0..reads {
            leaves(&rt, &row, 1, (before + 1, 0), 6, 0);
        }
        let none = (reads.saturating_add(1), 0);
        leaves(&rt, &row, 1, none, row.status, row.written.len());
    }
}
