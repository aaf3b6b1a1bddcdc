//! The runtime of an embedded SIM with Multiple Enabled Profiles.
#![tactic(auto)]

mod alone;
mod demo;
mod images;
mod status;
mod words;

use alone::run_alone;
use flash_pages::FileShelf;
use port_io::{StdSink, StdSource};
use status::Status;
use std::io;
use std::io::ErrorKind;
use std::process::ExitCode;

// The words after the program's name.
fn read_words(rt: &HostRuntime) -> Result<Vec<String>, Status> {
    let words = std::env::args(rt).map_err(|error| match error.kind() {
        ErrorKind::OutOfMemory => Status::NoMemory,
        _ => Status::Usage,
    })?;
    words
        .skip(1)
        .collect(rt.alloc())
        .map_err(|_| Status::NoMemory)
}

// The program over the real streams, and the file that the second word names.
fn run(rt: &HostRuntime, words: &[String]) -> Result<Status, Status> {
    let name = match words.get(1) {
        Some(name) => String::from_str(rt.alloc(), name)?,
        None => String::new(rt.alloc()),
    };
    let mut shelf = FileShelf::new(rt, rt.alloc(), name)?;
    let mut script = StdSource::new(rt.reader());
    let mut out = StdSink::new(io::writer(rt));
    let status = run_alone(rt.alloc(), words, &mut script, &mut out, &mut shelf);
    Ok(status)
}

fn main(rt: HostRuntime) -> ExitCode {
    let ended = read_words(&rt).and_then(|words| run(&rt, &words));
    let status = ended.unwrap_or_else(|status| status);
    if status != Status::Done {
        let _ = eprintln!(rt; "{status}");
    }
    ExitCode::from(status.number())
}

#[cfg(test)]
mod tests;
