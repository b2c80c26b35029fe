//! All numbers that decide how a marked list is run, each with what it was measured by. Each choice is sound: whatever is chosen, a run
//! that returns writes what the serial run does. So they only decide how long it takes, and they may be changed without a proof, but for
//! `MOST_COPIED`, which the clause of `may_copy` names.
//!
//! There is no clock among the handles of this project. What runs is counted instead: in *parts*, a statement, an operator, a read or a
//! local of a body, and in *steps*, a call or a turn of a loop. A part takes some 2.5 nanoseconds, a step has 3 to 50 parts.
//!
//! Costs are those of four workers. By fewer each of them stands for more: `of_workers`.

// ---- What the text tells

/// What a step, a call or a turn of a loop, takes by itself, in parts: the instructions of a call of an operation over those of a read.
pub const STEP: u32 = 6;

/// What a call of a value method takes by itself.
pub const VALUE: u32 = 5;

/// What a further step takes at least: a turn that works on locals, and reads.
pub const FAR: u32 = 3;

/// What an operation weighs of which nothing is known.
pub const UNKNOWN: u32 = 24;

/// What a loop weighs whose turns list nothing, and a value method that calls others: their text doesn't tell how long they take.
pub const HEAVY: u32 = 1_048_576;

/// Operations of more parts may gain by rounds. Of one with fewer the section, the lock or the copy, and the way from list to worker take as
/// long as a run of it in the heap itself: some 0.3 microseconds, by the clock.
pub const LIGHT: u32 = 120;

/// A worker of a round of sums runs a call whole up to so many steps, and section by section past them. Small operations gain only where
/// their calls are run whole.
pub const WHOLE: usize = 16_384;

/// Nothing is known of marked loops with greater numbers: 64 KB of flags.
pub const MOST_LOOPS: usize = 65_536;

/// How often what value methods take is handed on to those that call them: a chain of more calls counts as a call.
pub const PASSES: usize = 3;

// ---- The first calls of a loop

/// A loop whose calls aren't listed within so many steps is listed whole only where it gains by those that were. Listing them takes some
/// 0.1 milliseconds and 230 KB.
pub const FIRST_STEPS: u64 = 4_096;

/// A loop of which the last list had fewer calls is listed whole at once.
pub const SHORT: usize = 1_024;

// ---- What is tried of a list

/// So many operations are tried at most, about a millisecond of light ones,
pub const TRIED: u64 = 4_096;

/// on a heap of few objects so many, and two for each object, so that a sample never takes long beside the heap's making,
pub const TRIED_OF_FEW: u64 = 512;

/// and until they weigh so much, some 0.1 milliseconds: a list that takes no longer gains little by anything.
pub const TRIED_PARTS: u64 = 40_000;

/// A single operation that weighs so much tells enough of a list: it may be one of few, each a tenth of a second long.
pub const TRIED_BY_ONE: u64 = 160_000;

/// An object that has a field of more items isn't copied, for a sample or for a list of few calls: a copy takes 1 MB, and as long as the
/// whole sample.
pub const LARGE_ARRAY: u32 = 65_536;

/// A list of more calls than these is tried at so many places, since turns of a loop may grow or shrink.
pub const PLACES: usize = 8;

/// Where a call listed so many, what those took that ran tells what the others will.
pub const WIDE: usize = 16;

// ---- What a round costs, in parts

/// An operation of a round of sums that isn't run whole: 1 microsecond, by the clock.
pub const SUM_TASK: u64 = 300;

/// An operation in cells that takes a lock, with its claim and its entry: 0.3 microseconds,
pub const LOCKED_TASK: u64 = 100;

/// and one that takes none: 0.15 microseconds.
pub const FREE_TASK: u64 = 60;

/// An object that a round in cells comes to for the first time, with its copy and its history: 1.2 microseconds on a heap of 20,000
/// objects, 2.6 on one of 90,000.
pub const FRESH_OBJECT: u64 = 700;

/// Calls that lead to fewer operations aren't worth the copies of a round of sums where these are light.
pub const LEADS: u64 = 8;

/// Calls that lead to so many operations for each object that there is come to the same objects again and again, whatever they do.
pub const OFTEN: u64 = 64;

/// The most values that the copies of all workers hold: four times those of the largest heap.
pub const MOST_COPIED: u64 = 16_000_000;

// ---- What a round's start is worth

/// Lists of fewer steps aren't worth a round's start: threads take some 0.1 milliseconds to start.
pub const WORTH: u64 = 16_384;

/// Lists of so many steps begin with one at once, where their calls were tried: what would run ahead of rounds goes by sections, and takes
/// more on the calling thread than all workers together take for it.
pub const WORTH_AT_ONCE: u64 = 65_536;

/// Where two operations or more come first on a heap of fewer objects, a round begins at once, since it costs what it touches.
pub const FEW_OBJECTS: u32 = 16;

/// Lists of more operations run alone first in any case,
pub const MOST_AT_ONCE: usize = 256;

/// and so many lists at most do behind one that wasn't worth a round.
pub const MOST_ALONE: u32 = 65_536;

// ---- A way back

/// What has begun rounds goes on in order where one cost more than so many times what it ran: by four workers that took three quarters of what
/// one worker takes, at three times its processor time.
pub const TOO_DEAR: u64 = 2;

// ---- What is learned

/// So many operations have to be tried before it is believed of all lists to come that they gain nothing.
pub const SEEN: u32 = 256;

// ---- How long the calling thread runs operations before the first round

/// As long as a single operation waits, and until what it ran weighs so much, about ten times what a round's start is worth,
pub const ALONE: u64 = 34_000;

/// and so much for each object, since light work on many objects gains nothing by rounds in cells.
pub const ALONE_AN_OBJECT: u64 = 72;

/// Where the operations only sum, a round costs what it touches, and so much for each object will do.
pub const ALONE_AN_OBJECT_OF_SUMS: u64 = 6;

/// In cells, on a heap of so many objects twice as much has to run or wait, on one of twice as many three times as much, and so on: who
/// takes an object there looks for it among many.
pub const MANY_OBJECTS: u32 = 32_768;

/// By the clock a round's start takes about as long as one worker takes for half of this: where nothing waits that was listed, so much has
/// to be left, by the steps of those that ran.
pub const REST: u64 = 272_000;

/// The most neighbours that pass one gate, as many as a worker of a round claims an object for at once.
pub const MOST_NEIGHBOURS: u32 = 16;

/// What something costs by so many workers that costs so much by four or more: a share of it is taken from the work of fewer.
pub fn of_workers(cost: u64, workers: u32) -> u64 {
    if workers == 0 || workers >= 4 {
        return cost;
    }
    cost.saturating_mul(4) / u64::from(workers)
}
