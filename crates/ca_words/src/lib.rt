//! What the words of the command line name: a command, or nothing.
//!
//! `command_of` answers the command exactly where the words name one. The caller answers every
//! other list of words, `--help` too, with the usage line. The words of a command are a function
//! of it, `words_of` of `specs/Words.antt`, so each command has one list of words, and
//! `names_one_command` says that a list of words names one command at most. Nothing here takes
//! memory, so a faulty command line is told from out of memory whatever is left.
//!
//! Whoever reads the public clauses must believe `Words` of `specs/`.
#![tactic(auto)]

ghost use Rattle.std.specs.Prelude.{◌≡◌, ◌∷◌, [], ℕ, ◌<◌, ◌≤◌, List, IfSome, IfNone, codes, decimal};
ghost use Rattle.ca_words.specs.declared.Command.{Command};
ghost use Rattle.ca_words.specs.Words.{texts, Names, reads, usage_text};

/// What the words name.
#[derive(Clone, Copy, PartialEq, Eq)]
pub enum Command {
    /// A command that reads a source and nothing behind it, and has one reply.
    OnText(TextCommand),
    /// A command that reads nothing.
    Alone(LoneCommand),
    /// `trace WORKERS BUDGET`: runs the source as `run` does, and writes the order in which the operations of its parallel
    /// extents ran.
    Trace { workers: u32, budget: u32 },
    /// `verify BUDGET`: tells whether a run of the source, for a budget of 1 to 1,000,000,000 steps, can have the order of the
    /// schedule behind it.
    Verify { budget: u32 },
}

/// What is asked of a source.
#[derive(Clone, Copy, PartialEq, Eq)]
pub enum TextCommand {
    /// `run WORKERS BUDGET`: runs the source with 1 to 64 workers, for a budget of 1 to 1,000,000,000 steps.
    Run { workers: u32, budget: u32 },
    /// What is told of its plan.
    Tell(PlanCommand),
}

/// What is told of the plan of a source.
#[derive(Clone, Copy, PartialEq, Eq)]
pub enum PlanCommand {
    /// `pairs`: the verdicts on the pairs of each extent.
    Pairs,
    /// `plan`: which operations and loops run in parallel.
    Plan,
    /// `emit`: the annotated source.
    Emit,
}

/// What is asked without a source.
#[derive(Clone, Copy, PartialEq, Eq)]
pub enum LoneCommand {
    /// `gen SEED SIZE`: writes the text that any seed gives, with 1 to 20,000 nodes.
    Gen { seed: u64, size: u32 },
    /// `load SEED SIZE WORKERS`: runs that text with 1 to 64 workers, and tells the sum of what it leaves.
    Load { seed: u64, size: u32, workers: u32 },
}

impl Command {
    const MOST_WORKERS: u32 = 64;

    const MOST_BUDGET: u32 = 1_000_000_000;

    const MOST_SIZE: u32 = 20_000;

    /// Whether it reads its source.
    pub fn reads(self) -> bool
        ensures { result ≡ reads self }
    {
        match self {
            Command::OnText(_) | Command::Trace { .. } | Command::Verify { .. } => true,
            Command::Alone(_) => false,
        }
    }
}

/// The command that the words, without the program's name, name; `None` where they name none.
pub fn command_of(words: &[String]) -> Option<Command>
    ensures named { IfSome result (Names (texts words.now)) }
    ensures only { IfNone result ((c : Command) → Names (texts words.now) c → ⊥) }
{
    match words {
        [name] => alone(name.as_str()),
        [name, budget] => with_one(name.as_str(), budget.as_str()),
        [name, first, second] => with_two(name.as_str(), first.as_str(), second.as_str()),
        [name, seed, size, workers] => with_three(
            name.as_str(),
            seed.as_str(),
            size.as_str(),
            workers.as_str(),
        ),
        _ => None,
    }
}

// The command that one word names.
fn alone(name: &str) -> Option<Command>
    ensures named { IfSome result (Names (name.now ∷ [])) }
    ensures only { IfNone result ((c : Command) → Names (name.now ∷ []) c → ⊥) }
{
    if name == "pairs" {
        return Some(Command::OnText(TextCommand::Tell(PlanCommand::Pairs)));
    }
    if name == "plan" {
        return Some(Command::OnText(TextCommand::Tell(PlanCommand::Plan)));
    }
    if name == "emit" {
        return Some(Command::OnText(TextCommand::Tell(PlanCommand::Emit)));
    }
    None
}

// The command that two words name.
fn with_one(name: &str, budget: &str) -> Option<Command>
    ensures named { IfSome result (Names (name.now ∷ budget.now ∷ [])) }
    ensures only { IfNone result ((c : Command) → Names (name.now ∷ budget.now ∷ []) c → ⊥) }
{
    if name == "verify" {
        return verify_of(budget);
    }
    None
}

// The command that three words name.
fn with_two(name: &str, first: &str, second: &str) -> Option<Command>
    ensures named { IfSome result (Names (name.now ∷ first.now ∷ second.now ∷ [])) }
    ensures only { IfNone result ((c : Command) → Names (name.now ∷ first.now ∷ second.now ∷ []) c → ⊥) }
{
    if name == "run" {
        return run_of(first, second);
    }
    if name == "gen" {
        return gen_of(first, second);
    }
    if name == "trace" {
        return trace_of(first, second);
    }
    None
}

// The command that four words name.
fn with_three(name: &str, seed: &str, size: &str, workers: &str) -> Option<Command>
    ensures named { IfSome result (Names (name.now ∷ seed.now ∷ size.now ∷ workers.now ∷ [])) }
    ensures only { IfNone result ((c : Command) → Names (name.now ∷ seed.now ∷ size.now ∷ workers.now ∷ []) c → ⊥) }
{
    if name == "load" {
        return load_of(seed, size, workers);
    }
    None
}

// The run that the words behind its name name.
fn run_of(workers: &str, budget: &str) -> Option<Command>
    ensures named { IfSome result (Names (codes "run" ∷ workers.now ∷ budget.now ∷ [])) }
    ensures only { IfNone result ((c : Command) → Names (codes "run" ∷ workers.now ∷ budget.now ∷ []) c → ⊥) }
{
    let workers = count_of(workers, Command::MOST_WORKERS)?;
    let budget = count_of(budget, Command::MOST_BUDGET)?;
    Some(Command::OnText(TextCommand::Run { workers, budget }))
}

// The text that the words behind its name name.
fn gen_of(seed: &str, size: &str) -> Option<Command>
    ensures named { IfSome result (Names (codes "gen" ∷ seed.now ∷ size.now ∷ [])) }
    ensures only { IfNone result ((c : Command) → Names (codes "gen" ∷ seed.now ∷ size.now ∷ []) c → ⊥) }
{
    let seed = number_of(seed, 0, u64::MAX)?;
    let size = count_of(size, Command::MOST_SIZE)?;
    Some(Command::Alone(LoneCommand::Gen { seed, size }))
}

// The run of a text that the words behind its name name.
fn load_of(seed: &str, size: &str, workers: &str) -> Option<Command>
    ensures named { IfSome result (Names (codes "load" ∷ seed.now ∷ size.now ∷ workers.now ∷ [])) }
    ensures only { IfNone result ((c : Command) → Names (codes "load" ∷ seed.now ∷ size.now ∷ workers.now ∷ []) c → ⊥) }
{
    let seed = number_of(seed, 0, u64::MAX)?;
    let size = count_of(size, Command::MOST_SIZE)?;
    let workers = count_of(workers, Command::MOST_WORKERS)?;
    Some(Command::Alone(LoneCommand::Load {
        seed,
        size,
        workers,
    }))
}

// The recorded run that the words behind its name name.
fn trace_of(workers: &str, budget: &str) -> Option<Command>
    ensures named { IfSome result (Names (codes "trace" ∷ workers.now ∷ budget.now ∷ [])) }
    ensures only { IfNone result ((c : Command) → Names (codes "trace" ∷ workers.now ∷ budget.now ∷ []) c → ⊥) }
{
    let workers = count_of(workers, Command::MOST_WORKERS)?;
    let budget = count_of(budget, Command::MOST_BUDGET)?;
    Some(Command::Trace { workers, budget })
}

// The check of a schedule that the word behind its name names.
fn verify_of(budget: &str) -> Option<Command>
    ensures named { IfSome result (Names (codes "verify" ∷ budget.now ∷ [])) }
    ensures only { IfNone result ((c : Command) → Names (codes "verify" ∷ budget.now ∷ []) c → ⊥) }
{
    let budget = count_of(budget, Command::MOST_BUDGET)?;
    Some(Command::Verify { budget })
}

/// Words name one command at most.
pub fn names_one_command()
    ensures { (words : List (List ℕ)) (c d : Command) → Names words c → Names words d → c ≡ d }
{}

/// The line that answers words which name no command, with its line feed.
pub fn usage_line() -> &'static [u8]
    ensures { result.now ≡ usage_text }
{
    b"usage: commute run WORKERS BUDGET | pairs | plan | emit | gen SEED SIZE | load SEED SIZE WORKERS | trace WORKERS BUDGET | verify BUDGET\n"
}

/// The number from `least` to `most` that the word is. A number is its decimal digits, with no sign and
/// no leading zero.
pub fn number_of(word: &str, least: u64, most: u64) -> Option<u64>
    ensures some { IfSome result (λ n. (word.now ≡ decimal n) × (least ≤ n) × (n ≤ most)) }
    ensures none { IfNone result ((n : ℕ) → least ≤ n → n ≤ most → word.now ≡ decimal n → ⊥) }
{
    match number_in(word) {
        Some(number) if least <= number && number <= most => Some(number),
        _ => None,
    }
}

// The number below 2^64 that the word is.
fn number_in(word: &str) -> Option<u64>
    ensures some { IfSome result (λ n. word.now ≡ decimal n) }
    ensures none { IfNone result ((n : ℕ) → n < 18446744073709551616 → word.now ≡ decimal n → ⊥) }
{
    if word == "0" {
        return Some(0);
    }
    match word.as_bytes() {
        // `parse` alone would take a plus and leading zeros, which no number has.
        [b'1'..=b'9', ..] => match word.parse::<u64>() {
            Ok(number) => Some(number),
            Err(_) => None,
        },
        _ => None,
    }
}

// The number from 1 to `most` that the word is.
fn count_of(word: &str, most: u32) -> Option<u32>
    ensures some { IfSome result (λ n. (word.now ≡ decimal n) × (1 ≤ n) × (n ≤ most)) }
    ensures none { IfNone result ((n : ℕ) → 1 ≤ n → n ≤ most → word.now ≡ decimal n → ⊥) }
{
    let number = number_of(word, 1, u64::from(most))?;
    Some(number as u32)
}
