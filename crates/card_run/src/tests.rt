//! What no clause says: the worked examples, the texts of the statuses, and sources and sinks that
//! fail.
ghost use Rattle.std.specs.Prelude.{Some};

use super::*;
use crate::alone::run_alone;
use crate::demo::demo;
use flash_pages::{FlashPlan, MemoryFlash, MemoryShelf};
use port_io::{Failed, MemorySink, MemorySource, Sink};
use script_text::ScriptKind;
use std::alloc::{AllocError, Global};
use std::test::Fail;

mod images;

const WORKED: &str = "\
port 1: 00A4000C022FE2
port 1: 00B000000A
port 1: 00B000000B
port 1: 00B0000A01
port 1: 0084000008
";

const EID: &str = "89049032000000000000000000000001";

const ANSWERS: &str = "1.1 9000\n1.2 989400000000000000F19000\n1.3 6C0A\n1.4 6B00\n1.5 6D00\n";

// The words, as the program is given them.
fn words_of(alloc: Global, words: &[&str]) -> Result<Vec<String>, AllocError> {
    let mut all = Vec::new(alloc);
    for word in words {
        all.push(String::from_str(alloc, word)?)?;
    }
    Ok(all)
}

// A flash that doesn't fail, whose images aren't kept.
fn plan(alloc: Global) -> Result<FlashPlan, AllocError> {
    failing(alloc, &[], &[])
}

// Program and erase calls of the first numbers fail, and reads of the second.
fn failing(alloc: Global, calls: &[u64], reads: &[u64]) -> Result<FlashPlan, AllocError> {
    Ok(FlashPlan {
        fail: calls.to_vec(alloc)?,
        fail_reads: reads.to_vec(alloc)?,
        cut: None,
        torn: Vec::new(alloc),
        kept: 0,
    })
}

// How the program ends on a script in memory, and what it wrote. One call of the source and one of
// the sink fail.
fn run(
    alloc: Global,
    words: &[&str],
    script: &str,
    failing: (u64, u64),
    room: usize,
) -> Result<(Status, Vec<u8>), AllocError> {
    let words = words_of(alloc, words)?;
    let bytes = Vec::from_slice(alloc, script.as_bytes())?;
    let mut source = MemorySource::new(bytes, Vec::from_slice(alloc, &[failing.0])?);
    let mut sink = MemorySink::new(alloc, room, Vec::from_slice(alloc, &[failing.1])?)?;
    let mut shelf = MemoryShelf::new(String::new(alloc), MemoryFlash::new(alloc, plan(alloc)?)?);
    let status = run_alone(alloc, words.as_slice(), &mut source, &mut sink, &mut shelf);
    Ok((status, sink.into_bytes()))
}

#[test]
fn the_sample_card_answers_as_in_the_worked_example(rt: HostRuntime) -> Result<(), Fail> {
    let (status, text) = run(rt.alloc(), &["demo"], WORKED, (0, 0), 1_000)?;
    assert_eq!(rt; status, Status::Done);
    assert_eq!(rt; text.as_slice(), ANSWERS.as_bytes());
    Ok(())
}

const MODEM: &str = "\
port 1: 00A40004023F0000
port 1: 00A40004022FE200
port 1: 00B000000A
port 1: 80F2000C
port 1: 00A4000C026F07
port 1: 807A000003
";

const MODEM_ANSWERS: &str = "\
1.1 62208202782183023F00A5038001718A01058B032F0601C6099001C083010183010A9000
1.2 62178202412183022FE28A01058B032F06018002000A8801109000
1.3 989400000000000000F19000
1.4 9000
1.5 6A82
1.6 6D00
";

#[test]
fn a_modem_selects_with_control_parameters(rt: HostRuntime) -> Result<(), Fail> {
    let (status, text) = run(rt.alloc(), &["demo"], MODEM, (0, 0), 1_000)?;
    assert_eq!(rt; status, Status::Done);
    assert_eq!(rt; text.as_slice(), MODEM_ANSWERS.as_bytes());
    Ok(())
}

#[test]
fn other_words_are_usage_and_read_nothing(rt: HostRuntime) -> Result<(), Fail> {
    let rows: [&[&str]; 14] = [
        &[],
        &["demo", "demo"],
        &["new"],
        &["Demo"],
        &["--help"],
        &["list"],
        &["list", ""],
        &["list", "-c.img"],
        &["list", "c.img", "more"],
        &["new", "c.img", "--mode", "A1", "--ports", "1", "--eid", EID],
        &["new", "c.img", "--mode", "B", "--ports", "9", "--eid", EID],
        &["new", "c.img", "--mode", "B", "--ports", "01", "--eid", EID],
        &["new", "c.img", "--ports", "3", "--mode", "A1", "--eid", EID],
        &[
            "new",
            "c.img",
            "--mode",
            "A1",
            "--ports",
            "3",
            "--eid",
            &EID[1..],
        ],
    ];
    for words in rows {
        let (status, text) = run(rt.alloc(), words, "port 3:\n", (1, 1), 10)?;
        assert_eq!(rt; status, Status::Usage, "at {words:?}");
        assert!(rt; text.is_empty());
    }
    Ok(())
}

#[test]
fn a_faulty_script_is_reported_and_writes_nothing(rt: HostRuntime) -> Result<(), Fail> {
    let kind = ScriptKind::Grammar;
    let rows = [
        ("port 1: 0G\n", 1),
        ("port 1: 00A4000C022FE2\n\nport 1: 000\nport 2:\n", 3),
    ];
    for (script, line) in rows {
        let (status, text) = run(rt.alloc(), &["demo"], script, (0, 0), 100)?;
        assert_eq!(rt; status, Status::Script { line, kind });
        assert!(rt; text.is_empty());
    }
    Ok(())
}

#[test]
fn faults_end_the_run(rt: HostRuntime) -> Result<(), Fail> {
    let rows = [
        ((1, 0), 1_000, Status::ReadFault, ""),
        ((2, 0), 1_000, Status::ReadFault, ""),
        ((3, 0), 1_000, Status::Done, ANSWERS),
        ((0, 1), 1_000, Status::WriteFault, ""),
        ((0, 0), 0, Status::WriteFault, ""),
        ((0, 0), 12, Status::WriteFault, "1.1 9000\n1.2"),
    ];
    for (failing, room, ends, written) in rows {
        let (status, text) = run(rt.alloc(), &["demo"], WORKED, failing, room)?;
        assert_eq!(rt; status, ends);
        assert_eq!(rt; text.as_slice(), written.as_bytes());
    }
    Ok(())
}

/// Takes one byte of each piece.
#[derive(Drop)]
struct OneByOne {
    sink: MemorySink,
}

impl Sink for OneByOne {
    ghost written = { λ s. Some s.sink.written };

    ghost faults = { λ s. s.sink.calls.faults };

    fn put(&mut self, piece: &[u8]) -> Result<usize, Failed> {
        self.sink.put(&piece[..piece.len().min(1)])
    }
}

#[test]
fn a_sink_that_takes_one_byte_at_a_time_gets_it_all(rt: HostRuntime) -> Result<(), Fail> {
    let alloc = rt.alloc();
    let bytes = Vec::from_slice(alloc, WORKED.as_bytes())?;
    let mut source = MemorySource::new(bytes, Vec::new(alloc));
    let mut out = OneByOne {
        sink: MemorySink::new(alloc, 1_000, Vec::new(alloc))?,
    };
    assert_eq!(rt; demo(alloc, &mut source, &mut out), Status::Done);
    assert_eq!(rt; out.sink.bytes(), ANSWERS.as_bytes());
    Ok(())
}

#[test]
fn each_status_has_its_number_and_text(rt: HostRuntime) -> Result<(), Fail> {
    let kind = ScriptKind::TooMany;
    let rows = [
        (Status::Done, 0, ""),
        (
            Status::Usage,
            2,
            "usage: card_run new, list, alone, ports, demo, sample, audit",
        ),
        (
            Status::Script { line: 7, kind },
            3,
            "script: line 7: too many",
        ),
        (Status::ReadFault, 4, "read fault"),
        (Status::WriteFault, 5, "write fault"),
        (
            Status::FlashFault {
                before: 1,
                after: 2,
            },
            6,
            "flash fault",
        ),
        (Status::NotACard, 7, "not a card"),
        (Status::NoMemory, 8, "no memory"),
        (Status::NotBlank { place: 4096 }, 9, "not blank at 4096"),
        (Status::Worn, 10, "worn"),
    ];
    for (status, number, text) in rows {
        assert_eq!(rt; status.number(), number);
        let shown = format!(in rt.alloc(); "{status}")?;
        assert_eq!(rt; shown.as_str(), text);
    }
    Ok(())
}
