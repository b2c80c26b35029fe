//! Reading and writing over devices in memory and over the standard streams.

use ca_base::{
    MemSink, MemSource, PieceSink, PieceSource, Sink, Source, StdSink, StdSource, SureSink,
    SureSource, read_all, write_all,
};
use std::alloc::Global;
use std::process::Abort;

/// All bytes of a source that has at most so many.
fn all_of<R: Abort, S: Source>(rt: &R, alloc: Global, source: &mut S, most: u64) -> Vec<u8> {
    read_all(alloc, source, most).expect(rt, "a text")
}

/// Whether a whole piece is written.
fn writes<K: Sink>(sink: &mut K, piece: &[u8]) -> bool {
    write_all(sink, piece) == Ok(())
}

/// A source of 70,000 bytes takes two reads and a third that finds the end.
#[test]
fn reads_to_the_end(rt: HostRuntime) {
    let alloc = rt.alloc();
    let bytes = vec![in alloc; 7u8; 70_000].expect(&rt, "a text");
    let mut source = MemSource::new(bytes, Vec::new(alloc));
    let read = all_of(&rt, alloc, &mut source, 70_000);
    assert!(rt; read.len() == 70_000 && read[69_999] == 7);
    let bytes = Vec::from_slice(alloc, b"class").expect(&rt, "a text");
    let mut source = SureSource::new(bytes);
    let read = all_of(&rt, alloc, &mut source, 5);
    assert!(rt; read.as_slice() == b"class".as_slice());
}

/// A sink with room for five bytes takes the beginning of six.
#[test]
fn writes_what_fits(rt: HostRuntime) {
    let alloc = rt.alloc();
    let mut sink = MemSink::new(alloc, 5, Vec::new(alloc)).expect(&rt, "a sink");
    let wrote = writes(&mut sink, b"abc");
    let failed = !writes(&mut sink, b"def");
    let is_sure = writes(&mut SureSink::new(), b"abc");
    assert!(rt; wrote && failed && is_sure && sink.bytes() == b"abcde".as_slice());
}

/// A byte is given and taken at a time, and the fourth write fails behind three of them.
#[test]
fn goes_by_pieces(rt: HostRuntime) {
    let alloc = rt.alloc();
    let bytes = Vec::from_slice(alloc, b"class").expect(&rt, "a text");
    let mut source = PieceSource::new(bytes, 1, Vec::new(alloc));
    let read = all_of(&rt, alloc, &mut source, 5);
    let failing = vec![in alloc; 4u64; 1].expect(&rt, "a number");
    let mut sink = PieceSink::new(alloc, 1, 5, failing).expect(&rt, "a sink");
    let failed = !writes(&mut sink, read.as_slice());
    let is_read = read.as_slice() == b"class".as_slice();
    assert!(rt; is_read && failed && sink.bytes() == b"cla".as_slice());
}

/// Standard output takes a piece, and standard input is read to its end.
#[test]
fn uses_the_standard_streams(rt: HostRuntime) {
    let mut sink = StdSink::new(&rt);
    assert!(rt; writes(&mut sink, b"written\n"));
    let mut source = StdSource::new(&rt);
    let read = read_all(rt.alloc(), &mut source, 1_000_000);
    assert!(rt; read.is_ok());
}
