//! Devices in memory and standard streams: a sink that takes little, a room that is too small, reading to the end.
use cello_io::{
    ErrSink, Failed, MemorySink, MemorySource, ReadError, Sink, Source, StdSink, StdSource,
    read_all, write_all,
};
use std::alloc::Global;

/// Takes at most two bytes of each piece.
#[derive(Drop)]
struct StingySink {
    inner: MemorySink,
}

impl Sink for StingySink {
    ghost Rest = { Unit {0} };

    ghost written = { λ sink. ⟦<MemorySink as Sink>⟧.written sink.inner };

    ghost rest = { λ sink. tt };

    ghost write_faults = { λ sink. ⟦<MemorySink as Sink>⟧.write_faults sink.inner };

    fn write_piece(&mut self, piece: &[u8]) -> Result<usize, Failed> {
        self.inner.write_piece(&piece[..piece.len().min(2)])
    }
}

fn memory_sink(alloc: Global, room: usize, fails: &[u32]) -> Option<MemorySink> {
    MemorySink::new(alloc, room, fails.to_vec(alloc).ok()?).ok()
}

/// A piece is written again for what is left, and a failed write leaves a part.
#[test]
fn a_stingy_sink_is_written_to_again(rt: HostRuntime) {
    let inner = memory_sink(rt.alloc(), 5, &[]).expect(&rt, "memory");
    let mut sink = StingySink { inner };
    assert!(rt; write_all(&mut sink, b"leaf\n").is_ok());
    assert!(rt; sink.inner.bytes() == b"leaf\n".as_slice());
    let inner = memory_sink(rt.alloc(), 5, &[2]).expect(&rt, "memory");
    let mut sink = StingySink { inner };
    assert!(rt; write_all(&mut sink, b"leaf\n").is_err());
    assert!(rt; sink.inner.bytes() == b"le".as_slice());
}

#[test]
fn a_write_past_the_room_fails(rt: HostRuntime) {
    let mut sink = memory_sink(rt.alloc(), 4, &[]).expect(&rt, "memory");
    assert!(rt; sink.write_piece(b"abc") == Ok(3));
    assert!(rt; sink.write_piece(b"de") == Err(Failed));
    assert!(rt; sink.write_piece(b"f") == Ok(1));
    assert!(rt; sink.bytes() == b"abcf".as_slice());
}

/// How many bytes are read from so many.
fn read_of(alloc: Global, count: usize, limit: usize) -> Option<usize> {
    let bytes = vec![in alloc; 7u8; count].ok()?;
    let mut source = MemorySource::new(bytes, Vec::new(alloc));
    Some(read_all(alloc, &mut source, limit).ok()?.len())
}

#[test]
fn a_source_is_read_to_its_end_or_a_limit(rt: HostRuntime) {
    assert!(rt; read_of(rt.alloc(), 10_000, 65_537) == Some(10_000));
    assert!(rt; read_of(rt.alloc(), 10_000, 4) == Some(4));
}

#[test]
fn reading_goes_on_after_a_failure(rt: HostRuntime) {
    let bytes = b"abcdef".to_vec(rt.alloc()).expect(&rt, "memory");
    let fails = [1u32].to_vec(rt.alloc()).expect(&rt, "memory");
    let mut source = MemorySource::new(bytes, fails);
    assert!(rt; read_all(rt.alloc(), &mut source, 4).err() == Some(ReadError::Failed));
    let rest = read_all(rt.alloc(), &mut source, 9)
        .ok()
        .expect(&rt, "memory");
    assert!(rt; rest.as_slice() == b"abcdef".as_slice());
}

#[test]
fn the_standard_streams_are_written(rt: HostRuntime) {
    let _source = StdSource::new(rt.stdin());
    let mut sink = StdSink::new(rt.stdout());
    assert!(rt; write_all(&mut sink, b"\n").is_ok());
    let mut sink = ErrSink::new(rt.stderr());
    assert!(rt; write_all(&mut sink, b"\n").is_ok());
}
