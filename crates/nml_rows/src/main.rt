//! Plays transcripts: calls of the suite over files in memory, each with what it is to print, write and end with.
//! docs/TESTING.md says how a transcript is written.
#![tactic(auto)]

mod case;
mod difference;
mod fault;
mod machine;
mod stage;
mod step;
mod stretch;
mod words;

use crate::stage::Stage;
use std::alloc::Global;
use std::io::{self, Write};
use std::process::ExitCode;
use std::{env, fs};

/// Plays the transcripts that its words name; 0 where each case passed, 1 where one failed, 2 where memory, the words or
/// the output did.
fn main(rt: HostRuntime) -> ExitCode {
    match play_all(&rt) {
        Ok(0) => ExitCode::from(0),
        Ok(_) => ExitCode::from(1),
        Err(_) => ExitCode::from(2),
    }
}

/// Prints a line for each case, and how many passed and failed; answers how many failed.
fn play_all(rt: &HostRuntime) -> io::Result<u64> {
    let mut passed = 0u64;
    let mut failed = 0u64;
    for name in env::args(rt)?.skip(1) {
        println!(rt; "{name}:")?;
        match fs::read_to_string(rt, name.as_str()) {
            Ok(text) => {
                let played = play(rt.alloc(), text.as_str())?;
                io::writer(rt).write_all(played.told.as_bytes())?;
                passed = passed.saturating_add(played.passed);
                failed = failed.saturating_add(played.failed);
            }
            Err(_) => {
                println!(rt; "FAILED: it isn't read")?;
                failed = failed.saturating_add(1);
            }
        }
    }
    println!(rt; "{passed} passed, {failed} failed")?;
    Ok(failed)
}

/// Plays one transcript, up to the first line that isn't one of a transcript.
fn play(alloc: Global, text: &str) -> io::Result<Stage> {
    let mut stage = Stage::new(alloc);
    match stage.play(text) {
        Ok(()) => Ok(stage),
        Err(_) => Err(io::Error::from(io::ErrorKind::OutOfMemory)),
    }
}
