//! Reading to the end and writing whole pieces, where one call of the device fails.

use ca_base::{Failed, PieceSink, PieceSource, ReadError, read_all, write_all};

const BYTES: &[u8] = b"commute";

/// A read that fails leaves nothing of what was read before.
#[test]
fn reading_ends_with_a_failed_read(rt: HostRuntime) {
    let alloc = rt.alloc();
    for number in 1..10 {
        let bytes = Vec::from_slice(alloc, BYTES).expect(&rt, "a text");
        let failing = vec![in alloc; number; 1].expect(&rt, "a number");
        let mut source = PieceSource::new(bytes, 1, failing);
        let read = read_all(alloc, &mut source, 7);
        let is_whole = matches!(&read, Ok(bytes) if bytes.as_slice() == BYTES);
        let is_fault = matches!(read, Err(ReadError::Fault));
        assert!(rt;
            is_whole == (number == 9) && is_fault == (number < 9),
            "of {number}"
        );
    }
}

/// A write that fails leaves what the writes before it took, and the next one goes on behind it.
#[test]
fn writing_ends_with_a_failed_write(rt: HostRuntime) {
    let alloc = rt.alloc();
    for before in 0..7 {
        let failing = vec![in alloc; before as u64 + 1; 1].expect(&rt, "a number");
        let mut sink = PieceSink::new(alloc, 1, 7, failing).expect(&rt, "a sink");
        let failed = write_all(&mut sink, BYTES) == Err(Failed);
        assert!(rt; failed && sink.bytes() == &BYTES[..before], "of {before}");
        let wrote = write_all(&mut sink, &BYTES[before..]) == Ok(());
        assert!(rt; wrote && sink.bytes() == BYTES, "behind {before}");
    }
}
