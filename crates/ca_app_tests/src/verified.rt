//! Sources with schedules behind them. What is due was written by hand.

use crate::calls::{Call, add, add_lines};
use crate::sources::GRAPH_VISIT;
use std::process::Abort;
use std::sync::Wait;
use std::thread::Threads;

/// A schedule of the visit of two objects.
const ORDER: &str =
    "$/*schedule$block$#0 Graph::visit(1)$#1 Graph::visit(3)$#0 Graph::visit(5)$#1 Graph::visit(3)$end$done 6$*/$";

/// Schedules behind the visit, and what `verify 100` replies. A status stands before each reply.
const ROWS: &str =
    "$/*schedule$block$#0 Graph::visit(1)$#1 Graph::visit(3)$#0 Graph::visit(5)$#1 Graph::visit(3)$end$done 6$*/$@0@yes$
$/*schedule$block$#0 Graph::visit(1)$#1 Graph::visit(3)$#1 Graph::visit(3)$#0 Graph::visit(5)$end$done 6$*/$@0@yes$
$/*schedule$block$#0 Graph::visit(1)$#1 Graph::visit(3)$#0 Graph::visit(5)$end$done 6$*/$@9@no 6$
$/*schedule$block$#1 Graph::visit(3)$#0 Graph::visit(1)$#0 Graph::visit(5)$#1 Graph::visit(3)$end$done 6$*/$@9@no 3$
$/*schedule$block$#0 Graph::visit(1)$#1 Graph::visit(3)$#0 Graph::visit(5)$#1 Graph::visit(3)$end$done 7$*/$@9@no 8$
$/*schedule$block$#0 Graph::go(1)$#1 Graph::visit(3)$#0 Graph::visit(5)$#1 Graph::visit(3)$end$done 6$*/$@1@error 3:1 E61$
@1@error 0:0 E60$
$/*schedule$declined$done 6$*/$@9@no 2$
$/*schedule$@9@no 2$
$/*schedule@1@error 1:1 E61$
$/*schedule x$@1@error 0:0 E60$
$/*schedule$block$@9@no 3$
$/*schedule$block$#0 Graph::visit(1)$#1 Graph::visit(3)$#0 Graph::visit(5)$#1 Graph::visit(3)$end$done 6$*/$*/$@9@no 10$
$/*schedule$block$#0 Graph::visit(1)$#1 Graph::visit(3)$#0 Graph::visit(5)$#1 Graph::visit(3)$end$done 6$@9@no 9$
$/*schedule$block$#0 Graph::visit(1)$#1 Graph::visit(3)$#0 Graph::visit(5)$#1 Graph::visit(3)$end$done 6$*/@1@error 9:1 E61$
$/*schedule$block$#0 Graph::visit(01)$@1@error 3:1 E61$
$/*schedule$block$#0 Graph::visit(true)$@1@error 3:1 E61$
$/*schedule$block$#0 Graph::visit(1,2)$@1@error 3:1 E61$
$/*schedule$block$#4294967296 Graph::visit(1)$@1@error 3:1 E61$
$/*schedule$block$#4294967295 Graph::visit(1)$@9@no 3$
$/*schedule$block$#0 Graph::visit(9223372036854775808)$@1@error 3:1 E61$
$/*schedule$block$#0 Graph::visit(-9223372036854775808)$@9@no 3$
$/*schedule$block$#0 Graph::init(1,null,#7)$@9@no 3$
$/*schedule$block$#0 Graph::init(1,null,#07)$@1@error 3:1 E61$
$/*schedule$block$#0 Graph::visit(2)$@9@no 3$
$/*schedule$block$#0 Graph::visit(1) $@1@error 3:1 E61$
$/*schedule$ block$@1@error 2:1 E61$
$/*schedule$trap 4294967296 NullPointer$@1@error 2:1 E61$
$/*schedule$trap 1 NullPointer$@9@no 2$
$/*schedule$done 18446744073709551616$@1@error 2:1 E61$
$/*schedule$spent 100$@9@no 2$";

/// The visit with this behind it.
fn with<R: AllocGlobal + Abort>(rt: &R, schedule: &str) -> Vec<u8> {
    let mut text = Vec::new(rt.alloc());
    add(rt, &mut text, GRAPH_VISIT.as_bytes());
    add_lines(rt, &mut text, schedule);
    text
}

/// Ends the test unless the words on the visit with this behind it end so. Of the reads and writes the one of this number
/// fails, where it is not 0.
fn verifies_failing<R: AllocGlobal + Threads + Wait + Sync + Abort>(
    rt: &R,
    failing: (u64, u64),
    line: &str,
    schedule: &str,
    status: u8,
    reply: &str,
) {
    let text = with(rt, schedule);
    let reply = reply.replace(rt.alloc(), "$", "\n").expect(rt, "a reply");
    let call = Call {
        failing,
        ..Call::of_bytes(line, &text)
    };
    let (reads, writes) = failing;
    assert!(rt;
        call.ends(rt, status, reply.as_bytes()),
        "{line} of {schedule}, {reads} and {writes}"
    );
}

/// The same over devices that don't fail.
fn verifies<R: AllocGlobal + Threads + Wait + Sync + Abort>(
    rt: &R,
    line: &str,
    schedule: &str,
    status: u8,
    reply: &str,
) {
    verifies_failing(rt, (0, 0), line, schedule, status, reply);
}

#[test]
fn tells_whether_lines_follow(rt: HostRuntime) {
    for row in ROWS.lines() {
        let (schedule, rest) = row.split_once('@').expect(&rt, "a schedule");
        let (status, reply) = rest.split_once('@').expect(&rt, "a reply");
        let status: u8 = status.parse().expect(&rt, "a number");
        verifies(&rt, "verify 100", schedule, status, reply);
    }
}

/// Within a budget that the visit passes the list isn't done.
#[test]
fn asks_for_the_budget(rt: HostRuntime) {
    verifies(&rt, "verify 6", ORDER, 0, "yes$");
    verifies(&rt, "verify 5", ORDER, 9, "no 2$");
    verifies(
        &rt,
        "verify 5",
        "$/*schedule$declined$spent 5$*/$",
        0,
        "yes$",
    );
    verifies(
        &rt,
        "verify 5",
        "$/*schedule$declined$spent 6$*/$",
        9,
        "no 3$",
    );
    verifies(&rt, "verify 2", "$/*schedule$spent 2$*/$", 9, "no 2$");
}

/// A first line of a schedule in a comment of the source is none where another one follows.
#[test]
fn takes_the_last_first_line(rt: HostRuntime) {
    let mut text = Vec::new(rt.alloc());
    add_lines(
        &rt,
        &mut text,
        "/*$/*schedule$*/ int main() { }$/*schedule$done 0$*/$",
    );
    assert!(rt; Call::of_bytes("verify 1", &text).ends(&rt, 0, b"yes\n"));
}

/// Whether `verify 1` tells this of a source with so many bytes.
fn tells_of_length<R: AllocGlobal + Threads + Wait + Sync + Abort>(
    rt: &R,
    bytes: usize,
    status: u8,
    reply: &str,
) -> bool {
    let mut text = Vec::new(rt.alloc());
    add(rt, &mut text, b"int main() { }");
    for _ in 14..bytes {
        add(rt, &mut text, b" ");
    }
    add_lines(rt, &mut text, "$/*schedule$done 0$*/$");
    Call::of_bytes("verify 1", &text).ends(rt, status, reply.as_bytes())
}

/// The longest source, and one that is longer.
#[test]
fn tells_where_the_source_is_too_long(rt: HostRuntime) {
    assert!(rt; tells_of_length(&rt, 1_048_576, 0, "yes\n"));
    assert!(rt; tells_of_length(&rt, 1_048_577, 8, "limit 0:0 E04\n"));
}

/// Ends the test unless a failed read leaves nothing and status 6, and a failed write nothing and status 7.
fn gives_way<R: AllocGlobal + Threads + Wait + Sync + Abort>(
    rt: &R,
    schedule: &str,
    status: u8,
    reply: &str,
) {
    verifies_failing(rt, (1, 0), "verify 100", schedule, 6, "");
    verifies_failing(rt, (2, 0), "verify 100", schedule, 6, "");
    verifies_failing(rt, (3, 0), "verify 100", schedule, status, reply);
    verifies_failing(rt, (0, 1), "verify 100", schedule, 7, "");
    verifies_failing(rt, (0, 2), "verify 100", schedule, status, reply);
}

/// Each read and each write fails in turn, over a right schedule, a bad one and one that is refused.
#[test]
fn gives_way_to_faults(rt: HostRuntime) {
    gives_way(&rt, ORDER, 0, "yes$");
    gives_way(&rt, "$/*schedule$declined$", 9, "no 2$");
    gives_way(&rt, "$/*schedule$x$", 1, "error 2:1 E61$");
    gives_way(&rt, "", 1, "error 0:0 E60$");
}

/// Where the lines don't follow, each beginning of a right schedule that ends behind a line tells the number behind its last one.
#[test]
fn tells_where_it_ends_early(rt: HostRuntime) {
    let full = ORDER.as_bytes();
    let mut next = 1u32;
    for end in 1..full.len() {
        if full[end] == b'$' {
            next = next.wrapping_add(1);
            let begun = str::from_utf8(&full[..end + 1]).expect(&rt, "a text");
            let reply = format!(in rt.alloc(); "no {}$", next).expect(&rt, "a reply");
            if next < 10 {
                verifies(&rt, "verify 100", begun, 9, reply.as_str());
            }
        }
    }
}
