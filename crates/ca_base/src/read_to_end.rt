//! Reads a source to its end, which is `at_end` of `specs/Devices.antt`, or tells the fault or the limit
//! (`specs/Reading.antt`).

ghost use Rattle.std.specs.Prelude.{◌≡◌, ℕ, ◌≤◌, ◌<◌, List, length, IfOk, OnOk, IfSome};
ghost use Rattle.ca_base.specs.Devices.{Rose, at_end};
ghost use Rattle.ca_base.specs.Reading.{OnFault, OnLimit};

use crate::faults::Failed;
use crate::sources::Source;
use std::alloc::Global;
use thiserror::Error;

/// Why a source was not read to its end.
#[derive(Clone, Copy, PartialEq, Eq, Debug, Error)]
pub enum ReadError {
    /// A read failed.
    #[error("a read failed")]
    Fault,
    /// The source has more bytes than the limit.
    #[error("the source has too many bytes")]
    Limit,
    /// Out of memory.
    #[error("out of memory")]
    Memory,
}

/// Reads a source to its end, which is to come within `limit` bytes.
///
/// `Limit` comes as soon as more than `limit` bytes were read. So the source is read at most
/// `limit + 1` times. After an error nothing is promised of what the source has left.
pub fn read_all<S: Source>(alloc: Global, source: &mut S, limit: u64) -> Result<Vec<u8>, ReadError>
    // All that was left, in order.
    ensures bytes { IfOk result (λ v. IfSome (S.left source.old) (λ bytes. v.items ≡ bytes)) }
    ensures end { OnOk result (S.left source.new ≡ at_end (S.left source.old)) }
    ensures within { IfOk result (λ v. length v.items ≤ limit) }
    ensures limit { OnLimit result (IfSome (S.left source.old) (λ bytes. limit < length bytes)) }
    ensures fault { OnFault result (Rose (S.faults source.old) (S.faults source.new)) }
    ensures later { S.faults source.old ≤ S.faults source.new }
{
    let mut bytes = Vec::new(alloc);
    let mut buffer = read_buffer();
    loop {
        let Ok(count) = source.read(&mut buffer) else {
            return Err(ReadError::Fault);
        };
        if count == 0 {
            return Ok(bytes);
        }
        if limit - (bytes.len() as u64) < count as u64 {
            return Err(ReadError::Limit);
        }
        if bytes.extend_from_slice(&buffer[..count]).is_err() {
            return Err(ReadError::Memory);
        }
    }
}

/// 65,536 zeros, enough that a large source takes few calls.
fn read_buffer() -> [u8; 65536]
    ensures { length result ≡ 65536 }
{
    [0; 65536]
}
