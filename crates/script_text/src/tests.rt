//! What no clause says: texts by their lines, the printed text of worked examples, and each call
//! once with ample memory.
mod listing;
mod loads;
mod log;
mod rows;
mod scripts;

use super::*;
use std::alloc::{AllocError, Global};
use std::test::Fail;

// A statement by its line, its port and what it does.
fn shown_statement(alloc: Global, statement: StatementRef<'_>) -> Result<String, AllocError> {
    let line = statement.line;
    match statement.event {
        EventRef::Apdu { port, bytes } => {
            let apdu = hex::encode_upper(alloc, bytes)?;
            format!(in alloc; " {line} port {port} {apdu},")
        }
        EventRef::Reset { port } => format!(in alloc; " {line} reset {port},"),
        EventRef::Load { port, step } => shown_step(alloc, line, port, step),
    }
}

fn shown_step(
    alloc: Global,
    line: u32,
    port: u8,
    step: LoadStepRef<'_>,
) -> Result<String, AllocError> {
    match step {
        LoadStepRef::Begin(bytes) => {
            let metadata = hex::encode_upper(alloc, bytes)?;
            format!(in alloc; " {line} load {port} begin {metadata},")
        }
        LoadStepRef::Piece(bytes) => {
            let piece = hex::encode_upper(alloc, bytes)?;
            format!(in alloc; " {line} load {port} piece {piece},")
        }
        LoadStepRef::End => format!(in alloc; " {line} load {port} end,"),
    }
}

// A script by its sections in brackets and their phases in parentheses.
fn shown_script(alloc: Global, script: &ScriptItems) -> Result<String, AllocError> {
    let mut out = String::new(alloc);
    out.push_str("[(")?;
    for index in 0..script.len() {
        match script.item(index) {
            ItemRef::Stated(statement) => {
                let text = shown_statement(alloc, statement)?;
                out.push_str(text.as_str())?;
            }
            ItemRef::PhaseEnd => out.push_str(")(")?,
            ItemRef::SectionEnd => out.push_str(")][(")?,
        }
    }
    out.push_str(")]")?;
    Ok(out)
}

// The script of a text, or what is at fault.
fn shown(alloc: Global, text: &[u8]) -> Result<String, AllocError> {
    match read_script(alloc, text) {
        Ok(script) => shown_script(alloc, &script),
        Err(fault) => format!(in alloc; "{fault}"),
    }
}

#[test]
fn texts_read_as_the_language_says(rt: HostRuntime) -> Result<(), Fail> {
    let rows: [(&[u8], &str); 20] = [
        (b"", "[()]"),
        (b"port 1: 00A4\n", "[( 1 port 1 00A4,)]"),
        (b"port 0: 00A4", "[( 1 port 0 00A4,)]"),
        (b"port 7:\r\nport 0: \r\n", "[( 1 port 7 , 2 port 0 ,)]"),
        (b"  port   3:   00a4fE  \n", "[( 1 port 3 00A4FE,)]"),
        (b"reset 0\n reset  7 \n", "[( 1 reset 0, 2 reset 7,)]"),
        (b"load 0 begin BF2500\n", "[( 1 load 0 begin BF2500,)]"),
        (b"load 5 begin\n", "[( 1 load 5 begin ,)]"),
        (b"load 7 piece 00ff\n", "[( 1 load 7 piece 00FF,)]"),
        (b"load 1  piece \n", "[( 1 load 1 piece ,)]"),
        (b"load 2 end", "[( 1 load 2 end,)]"),
        (
            b"# note\n\n   \n  #port 9:\r\n\r\nreset 1\n",
            "[( 6 reset 1,)]",
        ),
        (b"#\treset 1\n# the last line\r", "[()]"),
        (b"phase", "[()()]"),
        (b"power\n", "[()][()]"),
        (b"phase\nphase\n", "[()()()]"),
        (b"reset 1\nphase\nreset 2", "[( 1 reset 1,)( 3 reset 2,)]"),
        (b"reset 1\npower\nreset 2", "[( 1 reset 1,)][( 3 reset 2,)]"),
        (
            b"phase\n power \n\nreset 2\nphase",
            "[()()][( 4 reset 2,)()]",
        ),
        (
            b"reset 1\nreset 2\nphase\n#\npower\npower\n",
            "[( 1 reset 1, 2 reset 2,)()][()][()]",
        ),
    ];
    for (text, want) in rows {
        let read = shown(rt.alloc(), text)?;
        assert_eq!(rt; read.as_str(), want, "of {text:?}");
    }
    Ok(())
}

#[test]
fn other_lines_are_outside_the_language(rt: HostRuntime) -> Result<(), Fail> {
    let rows: [&[u8]; 42] = [
        b"port 8: 00",
        b"port 10: 00",
        b"port 01: 00",
        b"port a: 00",
        b"port : 00",
        b"port 1 : 00",
        b"port 1 00",
        b"port 1:00",
        b"port1: 00",
        b"Port 1: 00",
        b"port\t1: 00",
        b"port 1: 00 A4",
        b"port 1: 00 # note",
        b"port 1: 0",
        b"port 1: 0G",
        b"port 1: 00\r",
        b"port 1: 00\rport 1: 00",
        b"port 1: 00\r\r\n",
        b"\r",
        b"\t# note\n",
        b"port",
        b"reset",
        b"reset 8",
        b"reset 1:",
        b"reset 1 1",
        b"RESET 1",
        b"load",
        b"load 1",
        b"load 1:",
        b"load 8 end",
        b"load 1: end",
        b"load 1 stop",
        b"load 1 end 00",
        b"load 1 begin 0",
        b"load 1 piece 00 11",
        b"load 1 Piece 00",
        b"phase 1",
        b"phases",
        b"power 1",
        b"powe",
        b"\t",
        b"audit",
    ];
    for text in rows {
        let read = shown(rt.alloc(), text)?;
        assert_eq!(rt; read.as_str(), "line 1: grammar", "of {text:?}");
    }
    Ok(())
}

// The text with as many further bytes of one value.
fn padded(alloc: Global, text: &[u8], byte: u8, count: usize) -> Result<Vec<u8>, AllocError> {
    let mut out = Vec::from_slice(alloc, text)?;
    let more = vec![in alloc; byte; count]?;
    out.extend_from_slice(more.as_slice())?;
    Ok(out)
}

#[test]
fn hex_spells_so_many_bytes_at_most(rt: HostRuntime) -> Result<(), Fail> {
    let rows: [(&[u8], usize); 3] = [
        (b"port 1: ", 1_024),
        (b"load 0 begin ", 4_096),
        (b"load 0 piece ", 1_048_576),
    ];
    for (line, most) in rows {
        let text = padded(rt.alloc(), line, b'0', 2 * most)?;
        assert!(rt; read_script(rt.alloc(), text.as_slice()).is_ok());
        let text = padded(rt.alloc(), line, b'0', 2 * most + 2)?;
        let read = shown(rt.alloc(), text.as_slice())?;
        assert_eq!(rt; read.as_str(), "line 1: grammar");
    }
    Ok(())
}

// Twenty thousand statements at port 1, and then the text.
fn full(alloc: Global, text: &[u8]) -> Result<Vec<u8>, AllocError> {
    let mut out = Vec::new(alloc);
    for _ in 0..20_000 {
        out.extend_from_slice(b"reset 1\n")?;
    }
    out.extend_from_slice(text)?;
    Ok(out)
}

#[test]
fn a_port_has_20000_statements_in_a_section(rt: HostRuntime) -> Result<(), Fail> {
    let rows: [(&[u8], &str); 8] = [
        (b"# note\n", ""),
        (b"reset 2\nload 0 end\nphase\nport 7:\n", ""),
        (b"power\nreset 1\n", ""),
        (b"port 1: 00\n", "line 20001: too many"),
        (b"\n# note\nload 1 end\nreset\n", "line 20003: too many"),
        (b"reset 2\nphase\nreset 1\n", "line 20003: too many"),
        (b"reset\nreset 1\n", "line 20001: grammar"),
        (b"port 1: 0\nreset 1\n", "line 20001: grammar"),
    ];
    for (more, want) in rows {
        let text = full(rt.alloc(), more)?;
        let fault = match read_script(rt.alloc(), text.as_slice()) {
            Ok(_) => String::new(rt.alloc()),
            Err(fault) => format!(in rt.alloc(); "{fault}")?,
        };
        assert_eq!(rt; fault.as_str(), want, "of {more:?}");
    }
    Ok(())
}

#[test]
fn a_script_has_8388608_bytes_at_most(rt: HostRuntime) -> Result<(), Fail> {
    // A comment up to the limit, and one byte past it; a faulty line before it, and the byte past
    // the limit at the end of a line.
    let rows: [(&[u8], u8, usize, &str); 4] = [
        (b"reset 1\n#", b'x', 8_388_599, "[( 1 reset 1,)]"),
        (b"reset 1\n#", b'x', 8_388_600, "line 2: too long"),
        (b"reset 9\n#", b'x', 8_388_600, "line 2: too long"),
        (b"", b'\n', 8_388_609, "line 8388609: too long"),
    ];
    for (line, byte, count, want) in rows {
        let text = padded(rt.alloc(), line, byte, count)?;
        let read = shown(rt.alloc(), text.as_slice())?;
        assert_eq!(rt; read.as_str(), want);
    }
    Ok(())
}

#[test]
fn some_scripts_have_commands_at_port_1_alone(rt: HostRuntime) -> Result<(), Fail> {
    let rows: [(&[u8], &str); 6] = [
        (b"# note\nport 1: 00\n", ""),
        (b"port 1: 00\nport 2: 00\n", "line 2: grammar"),
        (b"reset 1\n", "line 1: grammar"),
        (b"load 1 end\n", "line 1: grammar"),
        (b"phase\nport 1: 0\n", "line 1: grammar"),
        (b"\npower\n", "line 2: grammar"),
    ];
    for (text, want) in rows {
        let fault = match read_script_of(rt.alloc(), LineSet::PortOne, text) {
            Ok(_) => String::new(rt.alloc()),
            Err(fault) => format!(in rt.alloc(); "{fault}")?,
        };
        assert_eq!(rt; fault.as_str(), want, "of {text:?}");
    }
    Ok(())
}

#[test]
fn the_first_line_beyond_the_ports_is_found(rt: HostRuntime) -> Result<(), Fail> {
    let text = b"port 1: 00\nphase\nreset 3\npower\n\nload 2 end\nphase\nreset 7\n";
    let script = read_script(rt.alloc(), text)?;
    assert_eq!(rt; check_ports(&script, 1), Some(1));
    assert_eq!(rt; check_ports(&script, 2), Some(3));
    assert_eq!(rt; check_ports(&script, 4), Some(8));
    assert_eq!(rt; check_ports(&script, 8), None);
    Ok(())
}
