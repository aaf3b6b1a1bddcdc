// What no clause says, and each generic call once at a concrete type.
use super::*;
use std::io::{Read, Write};
use std::sync::{Mutex, Wait};
use std::test::Fail;
use std::thread::Threads;
use std::{io, thread};

#[test]
fn a_source_gives_its_bytes_and_then_the_end(rt: HostRuntime) -> Result<(), Fail> {
    let alloc = rt.alloc();
    let mut source = MemorySource::new(b"abcdefghij".to_vec(alloc)?, Vec::new(alloc));
    let mut buf = [b'.'; 4];
    for (given, held, left) in [
        (4, b"abcd", "efghij"),
        (4, b"efgh", "ij"),
        (2, b"ijgh", ""),
        (0, b"ijgh", ""),
    ] {
        assert_eq!(rt; source.take(&mut buf), Ok(given));
        assert_eq!(rt; buf.as_slice(), held.as_slice());
        assert_eq!(rt; source.left(), left.as_bytes());
    }
    Ok(())
}

#[test]
fn a_source_fails_at_the_listed_calls(rt: HostRuntime) -> Result<(), Fail> {
    let alloc = rt.alloc();
    let fail = [1, 3].to_vec(alloc)?;
    let mut source = MemorySource::new(b"abc".to_vec(alloc)?, fail);
    let mut buf = [0];
    for (outcome, left) in [
        (Err(Failed), "abc"),
        (Ok(1), "bc"),
        (Err(Failed), "bc"),
        (Ok(1), "c"),
    ] {
        assert_eq!(rt; source.take(&mut buf), outcome);
        assert_eq!(rt; source.left(), left.as_bytes());
    }
    Ok(())
}

#[test]
fn a_sink_takes_what_it_has_room_for(rt: HostRuntime) -> Result<(), Fail> {
    let alloc = rt.alloc();
    let fail = [2].to_vec(alloc)?;
    let mut sink = MemorySink::new(alloc, 5, fail)?;
    for (piece, outcome, written) in [
        ("abc", Ok(3), "abc"),
        ("def", Err(Failed), "abc"),
        ("def", Ok(2), "abcde"),
        ("f", Ok(0), "abcde"),
        ("", Ok(0), "abcde"),
    ] {
        assert_eq!(rt; sink.put(piece.as_bytes()), outcome);
        assert_eq!(rt; sink.bytes(), written.as_bytes());
    }
    assert_eq!(rt; sink.into_bytes().as_slice(), b"abcde".as_slice());
    Ok(())
}

// Three blocks: read whole, with a failing call for a block or for the end, and past a limit.
#[test]
fn a_source_is_read_in_blocks_to_its_end_or_past_the_limit(rt: HostRuntime) -> Result<(), Fail> {
    let alloc = rt.alloc();
    let text = vec![in alloc; b'x'; 40_000]?;
    for (fail, limit, outcome) in [
        (9, 40_000, Ok(40_000)),
        (2, 40_000, Err(ReadError::Fault)),
        (4, 40_000, Err(ReadError::Fault)),
        (9, 20_000, Ok(32_768)),
    ] {
        let fail = [fail].to_vec(alloc)?;
        let mut source = MemorySource::new(text.clone()?, fail);
        let found = read_source(alloc, &mut source, limit).map(|bytes| bytes.len());
        assert_eq!(rt; found, outcome);
    }
    Ok(())
}

#[test]
fn a_piece_is_written_whole_or_up_to_the_fault(rt: HostRuntime) -> Result<(), Fail> {
    let alloc = rt.alloc();
    for (room, outcome, written) in [(5, Ok(()), "hello"), (4, Err(Failed), "hell")] {
        let mut sink = MemorySink::new(alloc, room, Vec::new(alloc))?;
        assert_eq!(rt; write_all(&mut sink, b"hello"), outcome);
        assert_eq!(rt; sink.bytes(), written.as_bytes());
    }
    Ok(())
}

/// A stream that fails at every second call, and otherwise gives or takes one byte.
#[derive(Drop)]
struct Flaky {
    bytes: Vec<u8>,
    works_next: bool,
}

impl Flaky {
    fn works(&mut self) -> io::Result<()> {
        let works = self.works_next;
        self.works_next = !works;
        if works {
            Ok(())
        } else {
            Err(io::Error::from(io::ErrorKind::BrokenPipe))
        }
    }
}

impl Read for Flaky {
    fn read(&mut self, buf: &mut [u8]) -> io::Result<usize> {
        self.works()?;
        if buf.is_empty() {
            return Ok(0);
        }
        match self.bytes.pop() {
            None => Ok(0),
            Some(byte) => {
                buf[0] = byte;
                Ok(1)
            }
        }
    }
}

impl Write for Flaky {
    fn write(&mut self, buf: &[u8]) -> io::Result<usize> {
        self.works()?;
        match buf.first() {
            None => Ok(0),
            Some(byte) => {
                self.bytes.push(*byte)?;
                Ok(1)
            }
        }
    }

    fn flush(&mut self) -> io::Result<()> {
        Ok(())
    }
}

#[test]
fn a_stream_of_the_system_passes_its_results_on(rt: HostRuntime) -> Result<(), Fail> {
    let alloc = rt.alloc();
    let mut source = StdSource::new(Flaky {
        bytes: b"ba".to_vec(alloc)?,
        works_next: true,
    });
    let mut buf = [0; 4];
    for outcome in [Ok(1), Err(Failed), Ok(1), Err(Failed), Ok(0)] {
        assert_eq!(rt; source.take(&mut buf), outcome);
    }
    assert_eq!(rt; buf[0], b'b');
    let mut sink = StdSink::new(Flaky {
        bytes: Vec::new(alloc),
        works_next: true,
    });
    for outcome in [Ok(1), Err(Failed), Ok(1)] {
        assert_eq!(rt; sink.put(b"xy"), outcome);
    }
    Ok(())
}

#[test]
fn the_standard_output_is_a_sink(rt: HostRuntime) {
    let mut sink = StdSink::new(io::writer(&rt));
    assert_eq!(rt; sink.put(b"written\n"), Ok(8));
}

/// A gate that adds up, under a lock, the ports and numbers that passed it.
#[derive(Drop)]
struct Counting<'a, R: Wait> {
    rt: &'a R,
    sum: Mutex<u64>,
}

impl<'a, R: Wait> Gate for Counting<'a, R> {
    fn pass(&self, port: u8, step: u64) {
        let mut sum = self.sum.lock(self.rt);
        *sum = sum.saturating_add(u64::from(port)).saturating_add(step);
    }
}

// Both threads pass the same gate.
fn pass_from_two_threads<R: Threads + Sync, G: Gate + Sync>(rt: &R, gate: &G) {
    thread::join(rt, || gate.pass(0, 1), || gate.pass(1, 20));
}

#[test]
fn a_gate_is_shared_by_threads_and_may_wait(rt: HostRuntime) {
    pass_from_two_threads(&rt, &OpenGate);
    let gate = Counting {
        rt: &rt,
        sum: Mutex::new(0),
    };
    pass_from_two_threads(&rt, &gate);
    assert_eq!(rt; gate.sum.into_inner(), 22);
}
