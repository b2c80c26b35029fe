//! The gate of the tests. All calls have this one and sources and sinks of one kind, so that `top` is compiled once for them.

use ca_base::Gate;
use std::sync::atomic::{AtomicU64, Ordering};

/// How often a section looks for another one.
pub const MOST_TURNS: u32 = 1_000_000_000;

/// What a gate does with who comes to it.
#[derive(Clone, Copy)]
enum Watching {
    /// It lets all pass.
    Nobody,
    /// It counts how often worker 0 passes with the objects 0, 1 and 2, and who passes otherwise.
    Each,
    /// It holds the section on each of two objects until the one on the other is inside.
    Pair(u32, u32),
    /// The same, and any third section until one of the two is inside.
    Stolen(u32, u32),
    /// It holds the first section on an object until another one on it is inside, which another worker runs, for so many turns of
    /// looking.
    Shared(u32, u32),
    /// It holds the first section of worker 0 on an object behind this one, and the first of any other worker, until both are inside.
    Workers(u32),
}

/// A gate, and four counts of who came to it.
#[derive(Drop)]
pub struct Watch {
    watching: Watching,
    first: AtomicU64,
    second: AtomicU64,
    third: AtomicU64,
    fourth: AtomicU64,
}

impl Watch {
    fn new(watching: Watching) -> Watch {
        Watch {
            watching,
            first: AtomicU64::new(0),
            second: AtomicU64::new(0),
            third: AtomicU64::new(0),
            fourth: AtomicU64::new(0),
        }
    }

    /// A gate that holds nobody.
    pub fn open() -> Watch {
        Watch::new(Watching::Nobody)
    }

    /// One that counts how often worker 0 passes it with the objects 0, 1 and 2, and who passes it otherwise.
    pub fn counting() -> Watch {
        Watch::new(Watching::Each)
    }

    /// One that holds the section on each of two objects until the one on the other is inside. It counts the sections that were
    /// inside, on the one object, the other and any third, and those that waited in vain.
    pub fn meeting(one: u32, other: u32) -> Watch {
        Watch::new(Watching::Pair(one, other))
    }

    /// The same where a worker has both objects and another one comes to a third: that one is held until one of the two sections is
    /// inside, so that the other can be stolen.
    pub fn stealing(one: u32, other: u32) -> Watch {
        Watch::new(Watching::Stolen(one, other))
    }

    /// One that holds the first section on an object until another one on it is inside, for so many turns of looking. It counts
    /// the sections on it that were inside, of these those of workers other than 0, the sections on other objects, and those that
    /// waited in vain.
    pub fn sharing(object: u32, turns: u32) -> Watch {
        Watch::new(Watching::Shared(object, turns))
    }

    /// One that holds the first section of worker 0 on an object behind this one, and the first of any other worker, until both are
    /// inside. It counts the sections of worker 0 on objects behind it, those of other workers, those of worker 0 before, which the
    /// calling thread may run ahead of a round, and those that waited in vain.
    pub fn working(last: u32) -> Watch {
        Watch::new(Watching::Workers(last))
    }

    pub fn counts(&self) -> (u64, u64, u64, u64) {
        (
            self.first.load(Ordering::SeqCst),
            self.second.load(Ordering::SeqCst),
            self.third.load(Ordering::SeqCst),
            self.fourth.load(Ordering::SeqCst),
        )
    }

    /// Waits until more sections than so many are counted.
    fn wait(&self, inside: &AtomicU64, few: u64, turns: u32) {
        for _ in 0..turns {
            if inside.load(Ordering::SeqCst) > few {
                return;
            }
        }
        self.fourth.fetch_add(1, Ordering::SeqCst);
    }

    fn count(&self, worker: u32, object: u32) {
        let counter = match (worker, object) {
            (0, 0) => &self.first,
            (0, 1) => &self.second,
            (0, 2) => &self.third,
            _ => &self.fourth,
        };
        counter.fetch_add(1, Ordering::SeqCst);
    }

    fn meet(&self, one: u32, other: u32, object: u32) {
        if object == one {
            self.first.fetch_add(1, Ordering::SeqCst);
            self.wait(&self.second, 0, MOST_TURNS);
        } else if object == other {
            self.second.fetch_add(1, Ordering::SeqCst);
            self.wait(&self.first, 0, MOST_TURNS);
        } else {
            self.third.fetch_add(1, Ordering::SeqCst);
        }
    }

    /// Waits until a section on one of two objects is inside.
    fn wait_for_either(&self) {
        for _ in 0..MOST_TURNS {
            if self.first.load(Ordering::SeqCst) > 0 || self.second.load(Ordering::SeqCst) > 0 {
                return;
            }
        }
        self.fourth.fetch_add(1, Ordering::SeqCst);
    }

    fn share(&self, shared: u32, turns: u32, worker: u32, object: u32) {
        if object != shared {
            self.third.fetch_add(1, Ordering::SeqCst);
            return;
        }
        if worker > 0 {
            self.second.fetch_add(1, Ordering::SeqCst);
        }
        if self.first.fetch_add(1, Ordering::SeqCst) == 0 {
            self.wait(&self.first, 1, turns);
        }
    }

    fn work(&self, last: u32, worker: u32, object: u32) {
        if worker > 0 {
            if self.second.fetch_add(1, Ordering::SeqCst) == 0 {
                self.wait(&self.first, 0, MOST_TURNS);
            }
        } else if object > last {
            if self.first.fetch_add(1, Ordering::SeqCst) == 0 {
                self.wait(&self.second, 0, MOST_TURNS);
            }
        } else {
            self.third.fetch_add(1, Ordering::SeqCst);
        }
    }
}

impl Gate for Watch {
    fn inside(&self, worker: u32, object: u32) {
        match self.watching {
            Watching::Nobody => {}
            Watching::Each => self.count(worker, object),
            Watching::Pair(one, other) => self.meet(one, other, object),
            Watching::Stolen(one, other) => {
                if object != one && object != other {
                    self.wait_for_either();
                }
                self.meet(one, other, object);
            }
            Watching::Shared(shared, turns) => self.share(shared, turns, worker, object),
            Watching::Workers(last) => self.work(last, worker, object),
        }
    }
}
