//! Operations by the texts of their names, found at once. No clause rests on it.

use crate::writing::add_name;
use ca_program::{OpId, Program};
use std::alloc::{AllocError, Global};
use std::collections::BTreeMap;

/// The numbers of operations, by their names with those of their classes in front.
#[derive(Drop)]
pub(crate) struct Names {
    numbers: BTreeMap<Vec<u8>, u32>,
}

impl Names {
    /// Those of a program.
    pub(crate) fn of(alloc: Global, program: &Program) -> Result<Names, AllocError> {
        let mut numbers = BTreeMap::new(alloc);
        let mut n: u32 = 0;
        'operations: while (n as usize) < program.ops.len() && n < u32::MAX {
            let mut name = Vec::new(alloc);
            add_name(program, program.op(OpId(n)), &mut name)?;
            numbers.insert(name, n)?;
            n += 1;
        }
        Ok(Names { numbers })
    }

    pub(crate) fn get(&self, name: &[u8]) -> Option<u32> {
        match self.numbers.get(name) {
            Some(number) => Some(*number),
            None => None,
        }
    }
}
