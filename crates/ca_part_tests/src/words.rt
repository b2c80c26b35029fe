//! Words that name a command. Those that name none are rows of `ca_app_tests`.

use ca_words::{Command, LoneCommand, PlanCommand, TextCommand, command_of, usage_line};
use std::alloc::{AllocError, Global};
use std::process::Abort;

/// Words that name a command.
const NAMED: &str = "pairs
plan
emit
run 1 100
run 64 5
gen 7 3
gen 18446744073709551615 20000
load 7 3 4
trace 1 1
trace 64 1000000000
verify 1
verify 1000000000";

/// The command that the words of a line name.
fn named<R: AllocGlobal + Abort>(rt: &R, line: &str) -> Option<Command> {
    let mut words = Vec::new(rt.alloc());
    for word in line.split_whitespace() {
        let word = String::from_str(rt.alloc(), word).expect(rt, "a word");
        words.push(word).expect(rt, "words");
    }
    command_of(&words)
}

/// The words of a command on a source.
fn words_on_text(alloc: Global, command: TextCommand) -> Result<String, AllocError> {
    match command {
        TextCommand::Run { workers, budget } => format!(in alloc; "run {workers} {budget}"),
        TextCommand::Tell(PlanCommand::Pairs) => String::from_str(alloc, "pairs"),
        TextCommand::Tell(PlanCommand::Plan) => String::from_str(alloc, "plan"),
        TextCommand::Tell(PlanCommand::Emit) => String::from_str(alloc, "emit"),
    }
}

/// The words of a command without a source.
fn words_alone(alloc: Global, command: LoneCommand) -> Result<String, AllocError> {
    match command {
        LoneCommand::Gen { seed, size } => format!(in alloc; "gen {seed} {size}"),
        LoneCommand::Load {
            seed,
            size,
            workers,
        } => format!(in alloc; "load {seed} {size} {workers}"),
    }
}

/// The words of a command, or none.
fn words_of<R: AllocGlobal + Abort>(rt: &R, command: Option<Command>) -> String {
    let alloc = rt.alloc();
    let words = match command {
        Some(Command::OnText(command)) => words_on_text(alloc, command),
        Some(Command::Alone(command)) => words_alone(alloc, command),
        Some(Command::Trace { workers, budget }) => format!(in alloc; "trace {workers} {budget}"),
        Some(Command::Verify { budget }) => format!(in alloc; "verify {budget}"),
        None => String::from_str(alloc, ""),
    };
    words.expect(rt, "words")
}

/// Whether the words of a line name the command that has these words, and whether it reads a text.
fn is_named<R: AllocGlobal + Abort>(rt: &R, line: &str, reads: bool) -> bool {
    let command = named(rt, line);
    let is_read = match command {
        Some(command) => command.reads(),
        None => false,
    };
    words_of(rt, command).as_str() == line && is_read == reads
}

#[test]
fn names_commands(rt: HostRuntime) {
    for line in NAMED.lines() {
        let reads = !line.starts_with("gen") && !line.starts_with("load");
        assert!(rt; is_named(&rt, line, reads), "{line}");
    }
    assert!(rt; usage_line().starts_with(b"usage: "));
}
