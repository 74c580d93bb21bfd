//! Bytes through sources and sinks in memory and over `std`, with failures at chosen calls.
ghost use Rattle.std.specs.Prelude.{◌≤◌};

use crate::{
    MemorySink, MemorySource, ReadAllFault, ReadOutcome, Sink, Source, StdSink, StdSource,
    WriteFault, WriteOutcome, read_all, write_all,
};
use std::alloc::{AllocError, Global};
use std::io;
use std::io::{ErrorKind, Read, Write};
use std::test::Fail;

const TEXT: &[u8] = b"a line of sixteen, and one of more";

// A source of `TEXT` whose calls give at most 7 bytes.
fn text_source(alloc: Global, failing: &[u64]) -> Result<MemorySource, AllocError> {
    Ok(MemorySource::new(TEXT.to_vec(alloc)?, failing.to_vec(alloc)?, 7))
}

#[test]
fn a_source_is_read_to_its_end(rt: HostRuntime) -> Result<(), Fail> {
    let alloc = rt.alloc();
    for most in [1usize, 7] {
        let mut source = MemorySource::new(TEXT.to_vec(alloc)?, Vec::new(alloc), most);
        let bytes = read_all(alloc, &mut source, 100)?;
        assert_eq!(rt; bytes.as_slice(), TEXT, "at most {most} in a call");
    }
    Ok(())
}

#[test]
fn the_limit_is_the_most_bytes(rt: HostRuntime) -> Result<(), Fail> {
    let alloc = rt.alloc();
    let mut exact = text_source(alloc, &[])?;
    assert_eq!(rt; read_all(alloc, &mut exact, 34)?.as_slice(), TEXT);
    let mut longer = text_source(alloc, &[])?;
    assert_eq!(rt;
        read_all(alloc, &mut longer, 33).err(),
        Some(ReadAllFault::TooLarge)
    );
    let mut empty = MemorySource::new(Vec::new(alloc), Vec::new(alloc), 1);
    assert_eq!(rt; read_all(alloc, &mut empty, 0)?.len(), 0);
    Ok(())
}

/// How many bytes are read of so many, at most 100,000 in a call.
fn read_of(alloc: Global, size: usize, limit: usize) -> Result<usize, ReadAllFault>
    requires { limit ≤ 67108864 }
{
    let bytes = vec![in alloc; b'x'; size]?;
    let mut source = MemorySource::new(bytes, Vec::new(alloc), 100_000);
    let read = read_all(alloc, &mut source, limit)?;
    Ok(read.len())
}

#[test]
fn room_grows_up_to_the_limit(rt: HostRuntime) -> Result<(), Fail> {
    let alloc = rt.alloc();
    assert_eq!(rt; read_of(alloc, 131_073, 131_073)?, 131_073);
    assert_eq!(rt;
        read_of(alloc, 131_073, 131_072).err(),
        Some(ReadAllFault::TooLarge)
    );
    Ok(())
}

#[test]
fn a_failing_read_is_a_read_fault(rt: HostRuntime) -> Result<(), Fail> {
    let alloc = rt.alloc();
    // The sixth call is the one that finds the end.
    for call in [0u64, 2, 5] {
        let mut source = text_source(alloc, &[call])?;
        let fault = read_all(alloc, &mut source, 100).err();
        assert_eq!(rt; fault, Some(ReadAllFault::ReadFault), "at call {call}");
    }
    let mut later = text_source(alloc, &[6])?;
    assert_eq!(rt; read_all(alloc, &mut later, 100)?.as_slice(), TEXT);
    Ok(())
}

#[test]
fn a_source_goes_on_after_a_failure(rt: HostRuntime) -> Result<(), Fail> {
    let alloc = rt.alloc();
    let mut source = MemorySource::new(b"abc".to_vec(alloc)?, [1, 2].to_vec(alloc)?, 2);
    let mut into = [0u8; 4];
    let outcomes = [
        ReadOutcome::Took(2),
        ReadOutcome::Failed,
        ReadOutcome::Failed,
        ReadOutcome::Took(1),
        ReadOutcome::End,
        ReadOutcome::End,
    ];
    for outcome in outcomes {
        assert_eq!(rt; source.read(&mut into), outcome);
    }
    assert_eq!(rt; into, [b'c', b'b', 0, 0]);
    Ok(())
}

#[test]
fn all_bytes_are_written(rt: HostRuntime) -> Result<(), Fail> {
    let alloc = rt.alloc();
    let mut sink = MemorySink::new(alloc, Vec::new(alloc), 16, 34)?;
    write_all(&mut sink, b"")?;
    assert_eq!(rt; sink.writes(), 0);
    write_all(&mut sink, TEXT)?;
    assert_eq!(rt; sink.held(), TEXT);
    assert_eq!(rt; sink.writes(), 3);
    Ok(())
}

#[test]
fn a_failing_write_leaves_the_bytes_before_it(rt: HostRuntime) -> Result<(), Fail> {
    let alloc = rt.alloc();
    let mut sink = MemorySink::new(alloc, [2].to_vec(alloc)?, 16, 100)?;
    assert_eq!(rt; write_all(&mut sink, TEXT), Err(WriteFault));
    assert_eq!(rt; sink.held(), b"a line of sixteen, and one of mo".as_slice());
    assert_eq!(rt; sink.held().len(), 32);
    assert_eq!(rt; sink.writes(), 3);
    Ok(())
}

#[test]
fn a_full_sink_fails(rt: HostRuntime) -> Result<(), Fail> {
    let alloc = rt.alloc();
    let mut sink = MemorySink::new(alloc, Vec::new(alloc), 4, 6)?;
    assert_eq!(rt; write_all(&mut sink, b"seven b"), Err(WriteFault));
    assert_eq!(rt; sink.held(), b"seven ".as_slice());
    assert_eq!(rt; sink.write(b"!"), WriteOutcome::Failed);
    assert_eq!(rt; sink.writes(), 4);
    Ok(())
}

#[test]
fn a_reader_of_std_is_read_to_its_end(rt: HostRuntime) -> Result<(), Fail> {
    let alloc = rt.alloc();
    let mut source = StdSource::new(TEXT);
    assert_eq!(rt; read_all(alloc, &mut source, 34)?.as_slice(), TEXT);
    Ok(())
}

#[test]
fn a_writer_of_std_gets_all_bytes(rt: HostRuntime) -> Result<(), Fail> {
    let mut written = Vec::new(rt.alloc());
    let mut sink = StdSink::new(&mut written);
    write_all(&mut sink, TEXT)?;
    write_all(&mut sink, b"!")?;
    drop(sink);
    assert_eq!(rt;
        written.as_slice(),
        b"a line of sixteen, and one of more!".as_slice()
    );
    Ok(())
}

// It gives a byte, then fails at each call.
#[derive(Drop)]
struct BrokenReader {
    has_byte: bool,
}

impl Read for BrokenReader {
    fn read(&mut self, buf: &mut [u8]) -> io::Result<usize> {
        if self.has_byte && !buf.is_empty() {
            self.has_byte = false;
            return Ok(1);
        }
        Err(io::Error::from(ErrorKind::Interrupted))
    }
}

#[test]
fn an_error_of_a_reader_is_a_read_fault(rt: HostRuntime) {
    let mut source = StdSource::new(BrokenReader { has_byte: true });
    let fault = read_all(rt.alloc(), &mut source, 100).err();
    assert_eq!(rt; fault, Some(ReadAllFault::ReadFault));
    assert_eq!(rt; source.read(&mut [0u8; 4]), ReadOutcome::Failed);
}

// It takes a byte at most in a call, then nothing, then fails.
#[derive(Drop)]
struct BrokenWriter {
    calls: u8,
}

impl Write for BrokenWriter {
    fn write(&mut self, buf: &[u8]) -> io::Result<usize> {
        self.calls = self.calls.saturating_add(1);
        match self.calls {
            1 if !buf.is_empty() => Ok(1),
            2 => Ok(0),
            _ => Err(io::Error::from(ErrorKind::BrokenPipe)),
        }
    }

    fn flush(&mut self) -> io::Result<()> {
        Ok(())
    }
}

#[test]
fn a_writer_that_takes_nothing_or_errs_is_a_write_fault(rt: HostRuntime) {
    let mut sink = StdSink::new(BrokenWriter { calls: 0 });
    assert_eq!(rt; sink.write(b"ab"), WriteOutcome::Took(1));
    assert_eq!(rt; write_all(&mut sink, b"b"), Err(WriteFault));
    assert_eq!(rt; write_all(&mut sink, b"b"), Err(WriteFault));
}

// It fails once, and works from then on.
#[derive(Drop)]
struct FailsOnce {
    kind: Option<ErrorKind>,
}

impl Read for FailsOnce {
    fn read(&mut self, buf: &mut [u8]) -> io::Result<usize> {
        match self.kind.take() {
            Some(kind) => Err(io::Error::from(kind)),
            None => Ok(buf.len()),
        }
    }
}

impl Write for FailsOnce {
    fn write(&mut self, buf: &[u8]) -> io::Result<usize> {
        match self.kind.take() {
            Some(kind) => Err(io::Error::from(kind)),
            None => Ok(buf.len()),
        }
    }

    fn flush(&mut self) -> io::Result<()> {
        Ok(())
    }
}

#[test]
fn an_error_is_told_at_once_though_the_next_call_works(rt: HostRuntime) {
    for kind in [
        ErrorKind::Interrupted,
        ErrorKind::WouldBlock,
        ErrorKind::BrokenPipe,
    ] {
        let mut source = StdSource::new(FailsOnce { kind: Some(kind) });
        assert_eq!(rt; source.read(&mut [0u8; 4]), ReadOutcome::Failed);
        assert_eq!(rt; source.read(&mut [0u8; 4]), ReadOutcome::Took(4));
        let mut sink = StdSink::new(FailsOnce { kind: Some(kind) });
        assert_eq!(rt; sink.write(b"ab"), WriteOutcome::Failed);
        assert_eq!(rt; sink.write(b"ab"), WriteOutcome::Took(2));
        let mut source = StdSource::new(FailsOnce { kind: Some(kind) });
        let fault = read_all(rt.alloc(), &mut source, 100).err();
        assert_eq!(rt; fault, Some(ReadAllFault::ReadFault));
        let mut sink = StdSink::new(FailsOnce { kind: Some(kind) });
        assert_eq!(rt; write_all(&mut sink, b"ab"), Err(WriteFault));
        assert_eq!(rt; write_all(&mut sink, b"ab"), Ok(()));
    }
}

#[test]
fn a_fault_prints_its_name(rt: HostRuntime) -> Result<(), Fail> {
    let alloc = rt.alloc();
    let faults = [
        (ReadAllFault::ReadFault, "ReadFault"),
        (ReadAllFault::TooLarge, "TooLarge"),
        (ReadAllFault::Memory, "Memory"),
    ];
    for (fault, name) in faults {
        assert_eq!(rt; fault.to_string(alloc)?.as_str(), name);
    }
    assert_eq!(rt; WriteFault.to_string(alloc)?.as_str(), "WriteFault");
    Ok(())
}
