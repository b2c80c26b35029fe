//! Verdicts on pairs of operations, and the reasons: the values that `VerdictOf` of `specs/Verdicts.antt` speaks of.

use ca_forms::polynomial::Scalars;
use ca_norm::Normal;
use ca_program::{FieldId, OpId};
use ca_section::Why;
use ca_symbolic::DemandKind;

/// What is said of two operations of one class.
#[derive(Drop)]
pub enum Verdict {
    /// They commute.
    Commutes,
    /// Nothing is claimed.
    Unproved(Reason),
}

/// Why a pair has no proof: the first reason that there is, in this order.
#[derive(Drop)]
pub enum Reason {
    /// The first of the two that isn't separable, the line of its first offence, and what offends.
    NotSeparable {
        op: OpId,
        line: u32,
        why: Why,
    },
    /// The line of the first loop that is neither a call loop nor a sweep, of the first operation that has one.
    LoopForm(u32),
    /// A term made in one of the two orders is too heavy.
    Large,
    /// The first field in the order of declaration whose normal forms after the two orders differ,
    /// and the two forms.
    FieldDiffers {
        field: FieldId,
        first: Normal,
        second: Normal,
    },
    /// What is demanded, by its kind and the forms of its parts, and the two sums of the conditions under
    /// which the orders do so. Which of the demands that differ is told is left open.
    DemandsDiffer {
        kind: DemandKind,
        parts: Scalars,
        first: Normal,
        second: Normal,
    },
}
