//! Where calls that wait may stand. No clause rests on it.

use crate::same::same;
use ca_model::Value;
use ca_parallel::Op;
use std::alloc::Global;
use std::hash::{DefaultHasher, Hasher};

/// The least number of rows.
const FEW: usize = 16;

/// What is known of a place: the hash of the call there, and the places next to it in its row, counted from 1. 0 is none.
#[derive(Clone, Copy)]
struct Link {
    hash: u32,
    before: u32,
    behind: u32,
}

impl Link {
    /// No place.
    const NONE: Link = Link {
        hash: 0,
        before: 0,
        behind: 0,
    };
}

/// Rows of places, one for the calls whose hashes leave one remainder; there is a link for each call that waits. Where memory was
/// wanting there are no hints any more.
#[derive(Drop)]
pub struct Hints {
    alloc: Global,
    /// The first place of each row, counted from 1; 0 where the row is empty.
    rows: Vec<u32>,
    links: Vec<Link>,
    is_lost: bool,
}

impl Hints {
    /// No hints. It takes no memory.
    pub(crate) fn new(alloc: Global) -> Hints {
        Hints {
            alloc,
            rows: Vec::new(alloc),
            links: Vec::new(alloc),
            is_lost: false,
        }
    }

    /// A place where this call stands: that of the newest one, or the first one of its row.
    pub(crate) fn place(&self, ops: &[Op], op: &Op, hash: u32) -> Option<usize> {
        if let Some(place) = newest(ops, op) {
            return Some(place);
        }
        let mut at = read(&self.rows, row_of(&self.rows, hash));
        'row: for _ in 0..self.links.len() {
            if at == 0 {
                return None;
            }
            let link = link_at(&self.links, at);
            let place = place_of(at);
            if link.hash == hash && stands_at(ops, place, op) {
                return Some(place);
            }
            at = link.behind;
        }
        None
    }

    /// Notes a call that was put behind all others.
    pub(crate) fn note(&mut self, hash: u32) {
        let link = Link { hash, ..Link::NONE };
        if self.is_lost || self.links.push(link).is_err() {
            self.is_lost = true;
            return;
        }
        let count = self.links.len();
        if count > self.rows.len() {
            self.make_rows();
        } else {
            put_first(&mut self.rows, &mut self.links, number_at(count));
        }
    }

    /// Lets go of a place: the last one stands there then.
    pub(crate) fn forget(&mut self, place: usize) {
        if self.is_lost || place >= self.links.len() {
            return;
        }
        let last = self.links.len() - 1;
        take_off(&mut self.rows, &mut self.links, number_at(place + 1));
        if place < last {
            take_off(&mut self.rows, &mut self.links, number_at(last + 1));
            let link = link_at(&self.links, number_at(last + 1));
            put_link(&mut self.links, number_at(place + 1), link);
            put_first(&mut self.rows, &mut self.links, number_at(place + 1));
        }
        let _gone = self.links.pop();
    }

    /// Has more rows, and puts all places into them.
    fn make_rows(&mut self) {
        let more = self.rows.len().saturating_mul(2).max(FEW);
        match vec![in self.alloc; 0; more] {
            Ok(rows) => {
                self.rows = rows;
                for n in 0..self.links.len() {
                    put_first(&mut self.rows, &mut self.links, number_at(n + 1));
                }
            }
            Err(_) => self.is_lost = true,
        }
    }
}

/// A number of 32 bits for a place that is counted from 1; 0 where there is none.
fn number_at(place: usize) -> u32 {
    u32::try_from(place).unwrap_or(0)
}

/// The place, counted from 0.
fn place_of(at: u32) -> usize {
    (at as usize).saturating_sub(1)
}

/// The row of a hash.
fn row_of(rows: &[u32], hash: u32) -> usize {
    let count = rows.len();
    if count == 0 { 0 } else { hash as usize % count }
}

/// The first place of a row.
fn read(rows: &[u32], row: usize) -> u32 {
    if row < rows.len() { rows[row] } else { 0 }
}

/// Puts a place in front of a row.
fn write(rows: &mut [u32], row: usize, at: u32) {
    if row < rows.len() {
        rows[row] = at;
    }
}

/// The link of a place.
fn link_at(links: &[Link], at: u32) -> Link {
    let place = place_of(at);
    if at > 0 && place < links.len() {
        links[place]
    } else {
        Link::NONE
    }
}

/// Puts a link at a place.
fn put_link(links: &mut [Link], at: u32, link: Link) {
    let place = place_of(at);
    if at > 0 && place < links.len() {
        links[place] = link;
    }
}

/// Puts a place in front of the row of its hash.
fn put_first(rows: &mut [u32], links: &mut [Link], at: u32) {
    let link = link_at(links, at);
    let row = row_of(rows, link.hash);
    let first = read(rows, row);
    put_link(
        links,
        at,
        Link {
            before: 0,
            behind: first,
            ..link
        },
    );
    let next = link_at(links, first);
    put_link(links, first, Link { before: at, ..next });
    write(rows, row, at);
}

/// Takes a place off its row.
fn take_off(rows: &mut [u32], links: &mut [Link], at: u32) {
    let link = link_at(links, at);
    if link.before == 0 {
        write(rows, row_of(rows, link.hash), link.behind);
    }
    let before = link_at(links, link.before);
    put_link(
        links,
        link.before,
        Link {
            behind: link.behind,
            ..before
        },
    );
    let behind = link_at(links, link.behind);
    put_link(
        links,
        link.behind,
        Link {
            before: link.before,
            ..behind
        },
    );
}

/// The place of the newest call, if it is this one.
fn newest(ops: &[Op], op: &Op) -> Option<usize> {
    if ops.len() == 0 {
        return None;
    }
    let last = ops.len() - 1;
    if same(&ops[last], op) {
        Some(last)
    } else {
        None
    }
}

/// Whether the call stands at this place.
fn stands_at(ops: &[Op], place: usize, op: &Op) -> bool {
    if place < ops.len() {
        same(&ops[place], op)
    } else {
        false
    }
}

/// A number for a value. Those of two values of one type differ, but for the least and the greatest number.
fn number_of(value: Value) -> u64 {
    match value {
        Value::Long(number) if number < 0 => u64::MAX - number.unsigned_abs(),
        Value::Long(number) => number.unsigned_abs(),
        Value::Bool(true) => 1,
        Value::Bool(false) => 0,
        Value::Null => u64::MAX,
        Value::Ref(id) => u64::from(id),
    }
}

/// A number by which calls differ, mostly. A `DefaultHasher` made so has a fixed key, so whoever searches finds calls that share
/// one; a step then looks at each of them.
pub(crate) fn hash_of(op: &Op) -> u32 {
    let mut state = DefaultHasher::new();
    let above = u64::from(op.receiver) * 4_294_967_296;
    state.write_u64(above.wrapping_add(u64::from(op.op.0)));
    for value in op.args.as_slice() {
        state.write_u64(number_of(*value));
    }
    (state.finish() % 4_294_967_296) as u32
}
