//! Texts that are refused: where, and by which code.

use crate::calls::{Call, add, add_lines};
use crate::ends::refuses_beginnings;
use crate::refused::REFUSED;
use crate::sources::GRAPH_VISIT;
use std::alloc::Global;
use std::process::Abort;
use std::sync::Wait;
use std::thread::Threads;

/// Whether a line and its end were written with the status of such a line; nothing with status 0 for an empty line.
fn is_told(status: u8, written: &[u8], line: &str) -> bool {
    if line == "" {
        return status == 0 && written.is_empty();
    }
    let is_due = status == if line.starts_with("limit") { 8 } else { 1 };
    is_due && written.strip_suffix(b"\n") == Some(line.as_bytes())
}

/// Whether a text is refused by this line, by `run` and by `trace`.
fn is_refused<R: AllocGlobal + Threads + Wait + Sync + Abort>(
    rt: &R,
    text: &str,
    line: &str,
) -> bool {
    let (status, written) = Call::new("run 1 1", text).run(rt);
    let (traced, recorded) = Call::new("trace 2 1", text).run(rt);
    is_told(status, &written, line) && is_told(traced, &recorded, line)
}

/// Each code at its place, and which of several is told.
#[test]
fn tells_the_first_fault(rt: HostRuntime) {
    for row in REFUSED.lines() {
        let (text, line) = row.split_once(" => ").expect(&rt, "a row");
        assert!(rt; is_refused(&rt, text, line), "of {row}");
    }
    assert!(rt; is_refused(&rt, "", "error 1:1 E10"));
    assert!(rt; is_refused(&rt, "\n", "error 2:1 E10"));
    let later = "class A { public: long n; };\nint main() { A *a = new A(); a->n = 1; }";
    assert!(rt; is_refused(&rt, later, "error 2:31 E27"));
}

/// Texts that reach a limit of names and types with so many parts, what one part more is told, and the text, which has one part in
/// brackets, with `#` for its number, from 0 on, and `$` for the end of a line. In the fourth row one part more is named like a
/// field, of which nothing is told.
const LIMITED: &str = "256 => limit 257:7 E50 => [class C# { public: };$]int main() { }
256 => limit 258:6 E51 => class A { public:$[long f#;$]}; int main() { }
256 => limit 258:6 E52 => class A { public:$[void m#() { }$]}; int main() { }
256 => limit 258:6 E52 => class A { public: long m256;$[void m#() { }$]}; int main() { }
256 => limit 258:6 E53 => class A { public:$[long v#() { return 0; }$]}; int main() { }
31 => limit 33:8 E54 => class A { public: void m(long p$[, long q#$]) { } }; int main() { }
256 => limit 258:6 E55 => int main() {$[long x#;$]}
256 => limit 258:1 E57 => int main() { long x;$[for (x = 0; false; x = #) ;$]}
255 => limit 258:6 E52 => class B { public: void m() { } };$class A { public:$[void m#() { }$]}; int main() { }
254 => limit 256:8 E55 => class A { public: void m(long p, long q) {$[{ long x#; }$]} }; int main() { }
255 => limit 258:1 E57 => class A { public: void m() { for (long i; false; i++) ; } };$int main() { long x;$[for (x = 0; false; x = #) ;$]}";

/// The text of a row with so many parts.
fn parts<R: Abort>(rt: &R, alloc: Global, row: &str, count: u32) -> Vec<u8> {
    let (front, rest) = row.split_once('[').expect(rt, "a front");
    let (part, back) = rest.split_once(']').expect(rt, "a back");
    let (before, behind) = part.split_once('#').expect(rt, "a number");
    let mut text = Vec::new(alloc);
    add_lines(rt, &mut text, front);
    for number in 0..count {
        let name = format!(in alloc; "{before}{number}").expect(rt, "a name");
        add(rt, &mut text, name.as_bytes());
        add_lines(rt, &mut text, behind);
    }
    add_lines(rt, &mut text, back);
    text
}

/// Whether a row with so many parts is accepted, or is told this.
fn tells_of_parts<R: AllocGlobal + Threads + Wait + Sync + Abort>(
    rt: &R,
    row: &str,
    count: u32,
    told: &str,
) -> bool {
    let text = parts(rt, rt.alloc(), row, count);
    let (status, written) = Call::of_bytes("run 1 1", &text).run(rt);
    is_told(status, &written, told)
}

/// At each limit a text is accepted, and one past it refused.
#[test]
fn tells_each_passed_limit(rt: HostRuntime) {
    for row in LIMITED.lines() {
        let (most, rest) = row.split_once(" => ").expect(&rt, "a number");
        let (told, text) = rest.split_once(" => ").expect(&rt, "a text");
        let most: u32 = most.parse().expect(&rt, "a number");
        let is_accepted = tells_of_parts(&rt, text, most, "");
        let is_refused = tells_of_parts(&rt, text, most.saturating_add(1), told);
        assert!(rt; is_accepted && is_refused, "of {row}");
    }
    let accepted = "class A { public: long a[1000000]; }; int main() { }";
    assert!(rt; Call::new("run 1 1", accepted).ends(&rt, 0, b""));
}

/// A front, then a middle so many times, then a back.
fn repeated<R: Abort>(
    rt: &R,
    alloc: Global,
    front: &str,
    middle: &str,
    times: usize,
    back: &str,
) -> Vec<u8> {
    let mut text = Vec::new(alloc);
    add(rt, &mut text, front.as_bytes());
    for _ in 0..times {
        add(rt, &mut text, middle.as_bytes());
    }
    add(rt, &mut text, back.as_bytes());
    text
}

/// Texts at limits of bytes, tokens and nesting: a front, what is repeated, how often, a back, the status, and what is told.
const LONG: &str = "| |1048576||1|error 1:1048577 E10
| |1048577||8|limit 0:0 E04
|;|262144||1|error 1:1 E10
|;|262145||8|limit 1:262145 E03
|;|262144|007|1|error 1:262145 E01
|;|262144|12ab|8|limit 1:262145 E03
int main() {|{|200||8|limit 1:212 E11
int main() { print(1|+1|500|); }|8|limit 1:1020 E11
int main() { print(1|+1|499|); }|0|500";

/// Whether a row is told.
fn tells_row<R: AllocGlobal + Threads + Wait + Sync + Abort>(rt: &R, row: &str) -> bool {
    let mut fields = row.split('|');
    let front = fields.next().expect(rt, "a front");
    let middle = fields.next().expect(rt, "a middle");
    let times: usize = fields
        .next()
        .expect(rt, "a field")
        .parse()
        .expect(rt, "a number");
    let back = fields.next().expect(rt, "a back");
    let status: u8 = fields
        .next()
        .expect(rt, "a field")
        .parse()
        .expect(rt, "a status");
    let told = fields.next().expect(rt, "what is told");
    let text = repeated(rt, rt.alloc(), front, middle, times, back);
    let (answer, written) = Call::of_bytes("run 1 1", &text).run(rt);
    let (traced, recorded) = Call::of_bytes("trace 1 1", &text).run(rt);
    if status != 0 && (traced != status || recorded != written) {
        return false;
    }
    answer == status && written.strip_suffix(b"\n") == Some(told.as_bytes())
}

/// Limits of bytes, tokens and nesting.
#[test]
fn tells_long_and_deep_texts(rt: HostRuntime) {
    for row in LONG.lines() {
        assert!(rt; tells_row(&rt, row), "of {row}");
    }
    let mut nested = repeated(&rt, rt.alloc(), "int main() ", "{", 200, "");
    for _ in 0..200 {
        add(&rt, &mut nested, b"}");
    }
    assert!(rt; Call::of_bytes("run 1 1", &nested).ends(&rt, 0, b""));
}

/// Each front of a program is refused by the grammar, and so are its first lines.
#[test]
fn wants_a_whole_program(rt: HostRuntime) {
    refuses_beginnings(&rt, "run 1 1");
    let mut lines = Vec::new(rt.alloc());
    for line in GRAPH_VISIT.lines().take(14) {
        add(&rt, &mut lines, line.as_bytes());
        add(&rt, &mut lines, b"\n");
    }
    assert!(rt; Call::of_bytes("run 1 100", &lines).ends(&rt, 1, b"error 15:1 E10\n"));
}
