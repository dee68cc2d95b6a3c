ghost use Rattle.std.specs.Prelude.{◌≡◌, ◌<◌, [], IfOk, IsTrue};

use crate::{MemSink, MemSource, ReadEnd, StdSink, StdSource, read_all, write_all};
use std::alloc::{AllocError, Global};

const TEXT: &[u8] = b"hello world";

/// `TEXT` in pieces of 3 bytes, which takes four reads and one more at the end of input.
fn source_of_text(alloc: Global, failing: &[u64]) -> Result<MemSource, AllocError> {
    let bytes = Vec::from_slice(alloc, TEXT)?;
    Ok(MemSource::new(bytes, 3, Vec::from_slice(alloc, failing)?))
}

/// What a source in memory was made of is what a reading of it gives.
fn read_from_memory(alloc: Global, bytes: Vec<u8>, piece: usize) -> Result<Vec<u8>, ReadEnd>
    requires { 0 < piece }
    ensures { IfOk result (λ read. read.items ≡ bytes.items) }
{
    let mut source = MemSource::new(bytes, piece, Vec::new(alloc));
    read_all(alloc, &mut source, usize::MAX)
}

/// What a sink in memory took is what was written to it.
fn written_to_memory(bytes: &[u8], sink: &mut MemSink) -> bool
    requires { sink.old.taken ≡ [] }
    ensures { IsTrue result → sink.new.taken ≡ bytes.now }
{
    write_all(sink, bytes).is_ok()
}

#[test]
fn a_source_is_read_in_pieces(rt: HostRuntime) -> Result<(), AllocError> {
    let bytes = Vec::from_slice(rt.alloc(), TEXT)?;
    let read = read_from_memory(rt.alloc(), bytes, 3);
    assert!(rt; read.is_ok_and(|read| read.as_slice() == TEXT));
    Ok(())
}

#[test]
fn a_failed_read_is_answered_at_each_call(rt: HostRuntime) -> Result<(), AllocError> {
    for failing in 1..=5 {
        let mut source = source_of_text(rt.alloc(), &[failing])?;
        let read = read_all(rt.alloc(), &mut source, 100);
        assert!(rt; matches!(read, Err(ReadEnd::ReadFault)), "call {failing}");
    }
    let mut source = source_of_text(rt.alloc(), &[6])?;
    assert!(rt; read_all(rt.alloc(), &mut source, 100).is_ok());
    Ok(())
}

#[test]
fn one_byte_past_the_limit_is_too_long(rt: HostRuntime) -> Result<(), AllocError> {
    let mut source = source_of_text(rt.alloc(), &[])?;
    let read = read_all(rt.alloc(), &mut source, TEXT.len());
    assert!(rt; read.is_ok_and(|read| read.as_slice() == TEXT));
    let mut source = source_of_text(rt.alloc(), &[])?;
    let read = read_all(rt.alloc(), &mut source, TEXT.len() - 1);
    assert!(rt; matches!(read, Err(ReadEnd::TooLong)));
    Ok(())
}

#[test]
fn a_failed_write_leaves_what_went_before(rt: HostRuntime) -> Result<(), AllocError> {
    for failing in 1..=4 {
        let plan = Vec::from_slice(rt.alloc(), &[failing])?;
        let mut sink = MemSink::new(rt.alloc(), 100, 3, plan)?;
        assert!(rt; write_all(&mut sink, TEXT).is_err(), "call {failing}");
        let went = 3 * (failing as usize - 1);
        assert!(rt; sink.bytes() == &TEXT[..went], "call {failing}");
    }
    Ok(())
}

#[test]
fn a_full_sink_keeps_the_first_bytes(rt: HostRuntime) -> Result<(), AllocError> {
    let mut sink = MemSink::new(rt.alloc(), 5, 3, Vec::new(rt.alloc()))?;
    assert!(rt; write_all(&mut sink, TEXT).is_err());
    assert!(rt; sink.bytes() == b"hello".as_slice());
    let mut sink = MemSink::new(rt.alloc(), 11, 3, Vec::new(rt.alloc()))?;
    assert!(rt; written_to_memory(TEXT, &mut sink));
    assert!(rt; sink.bytes() == TEXT);
    Ok(())
}

#[test]
fn streams_of_std_pass_through(rt: HostRuntime) -> Result<(), AllocError> {
    let mut source = StdSource::new(TEXT);
    let read = read_all(rt.alloc(), &mut source, 100);
    assert!(rt; read.is_ok_and(|read| read.as_slice() == TEXT));

    let mut written = Vec::new(rt.alloc());
    let mut sink = StdSink::new(&mut written);
    assert!(rt; write_all(&mut sink, TEXT).is_ok());
    assert!(rt; written.as_slice() == TEXT);

    // std's writer over a slice takes 0 bytes once the slice is full
    let mut room = [0u8; 5];
    let mut sink = StdSink::new(room.as_mut_slice());
    assert!(rt; write_all(&mut sink, TEXT).is_err());
    assert!(rt; room == *b"hello");
    Ok(())
}

/// No size is refused that there is memory for.
#[test]
fn a_long_text_is_read_and_written(rt: HostRuntime) -> Result<(), AllocError> {
    let alloc = rt.alloc();
    let text = vec![in alloc; 7u8; 1_048_576]?;
    let bytes = Vec::from_slice(alloc, text.as_slice())?;
    let read = read_from_memory(alloc, bytes, 4_096);
    assert!(rt; read.is_ok_and(|read| read.as_slice() == text.as_slice()));
    let mut sink = MemSink::new(alloc, 1_048_576, 4_096, Vec::new(alloc))?;
    assert!(rt; write_all(&mut sink, text.as_slice()).is_ok());
    assert!(rt; sink.bytes() == text.as_slice());
    Ok(())
}
