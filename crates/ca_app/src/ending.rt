//! How what a call does with a text ends: with the status of a reply that was written whole, or before that: `ended` of
//! `specs/clauses/Ended.antt`.

ghost use Rattle.std.specs.Prelude.{◌≡◌};
ghost use Rattle.ca_app.specs.clauses.Ended.{ended, finished, number_of};

use crate::serving::{
    DONE, GOES_WRONG, NO_MEMORY, PAST_LIMIT, REFUSED, SPENT, TRAPPED, WRITE_FAULT,
};
use ca_base::Failed;

/// The status of a reply.
#[derive(Clone, Copy, PartialEq, Eq)]
pub enum Status {
    /// No refusal.
    Done,
    /// The text is refused by a rule.
    Refused,
    /// The run trapped.
    Trapped,
    /// The budget was spent.
    Spent,
    /// The text is refused by a limit.
    PastLimit,
    /// A schedule doesn't follow.
    GoesWrong,
}

/// Why a reply wasn't written whole, where nothing is read.
#[derive(Clone, Copy, PartialEq, Eq)]
pub enum Unwritten {
    /// Memory ran out.
    Memory,
    /// A write failed.
    Write,
}

/// The number of a status.
fn number_of(status: Status) -> u8
    ensures { result ≡ number_of status }
{
    match status {
        Status::Done => DONE,
        Status::Refused => REFUSED,
        Status::Trapped => TRAPPED,
        Status::Spent => SPENT,
        Status::PastLimit => PAST_LIMIT,
        Status::GoesWrong => GOES_WRONG,
    }
}

/// The exit status.
pub fn exit_status(answer: Result<Status, Unwritten>) -> u8
    ensures { result ≡ ended answer }
{
    match answer {
        Ok(status) => number_of(status),
        Err(Unwritten::Memory) => NO_MEMORY,
        Err(Unwritten::Write) => WRITE_FAULT,
    }
}

/// The status where the reply was written.
pub fn finish(written: Result<(), Failed>, status: Status) -> Result<Status, Unwritten>
    ensures { result ≡ finished written status }
{
    match written {
        Ok(()) => Ok(status),
        Err(_) => Err(Unwritten::Write),
    }
}
