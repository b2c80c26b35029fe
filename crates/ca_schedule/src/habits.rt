//! Which lists of operations begin with a round, by how the lists before them ended. No clause speaks of it.

use crate::policy::{MOST_ALONE, MOST_AT_ONCE};

/// How many of the next lists run alone first, and how many will behind the next list that isn't worth a round.
#[derive(Clone, Copy)]
pub struct Habit {
    alone: u32,
    next: u32,
}

impl Habit {
    /// None runs alone yet.
    pub fn new() -> Habit {
        Habit { alone: 0, next: 1 }
    }

    /// Whether the list that comes now, of so many operations, runs alone first.
    pub fn goes_alone(&mut self, count: usize) -> bool {
        if count > MOST_AT_ONCE {
            return true;
        }
        if self.alone == 0 {
            return false;
        }
        self.alone -= 1;
        true
    }

    /// Whether a list of so many operations would, if it came now; of one of which nobody knows how many it has, as of a long one that
    /// may be short.
    pub fn would_go_alone(&self, count: usize) -> bool {
        let long = count > MOST_AT_ONCE && count < usize::MAX;
        count < 2 || long || self.alone > 0
    }

    /// A list ended within rounds, and alone it would not have outlasted what runs first: as many lists run alone first as were to,
    /// and twice as many behind the next such list.
    pub fn was_small(&mut self) {
        self.alone = self.next;
        self.next = self.next.saturating_mul(2).min(MOST_ALONE);
    }

    /// A list outlasted its run alone: the next ones begin with a round again.
    pub fn was_large(&mut self) {
        *self = Habit::new();
    }
}
