//! Plays cases of lowering: the statements of a program are to print and to stop as the program itself does.
//! docs/TESTING.md says how a case is written.
#![tactic(auto)]

mod case;
mod judge;
mod ran;
mod stage;
mod told;

use crate::stage::play;
use std::io::{self, Write};
use std::process::ExitCode;
use std::{env, fs};

/// Plays the cases of the files that its words name; 0 where each passed, 1 where one failed, 2 where memory, the words or
/// the output did.
fn main(rt: HostRuntime) -> ExitCode {
    match play_all(&rt) {
        Ok(0) => ExitCode::from(0),
        Ok(_) => ExitCode::from(1),
        Err(_) => ExitCode::from(2),
    }
}

/// Prints a line for each case, and how many passed and failed; answers how many failed.
fn play_all(rt: &HostRuntime) -> io::Result<u64> {
    let mut passed = 0u64;
    let mut failed = 0u64;
    for name in env::args(rt)?.skip(1) {
        println!(rt; "{name}:")?;
        match fs::read_to_string(rt, name.as_str()) {
            Ok(text) => {
                let Ok(played) = play(rt.alloc(), text.as_str()) else {
                    return Err(io::Error::from(io::ErrorKind::OutOfMemory));
                };
                io::writer(rt).write_all(played.told.as_bytes())?;
                passed = passed.saturating_add(played.passed);
                failed = failed.saturating_add(played.failed);
            }
            Err(_) => {
                println!(rt; "FAILED: it isn't read")?;
                failed = failed.saturating_add(1);
            }
        }
    }
    println!(rt; "{passed} passed, {failed} failed")?;
    Ok(failed)
}
