//! The program: the words of the command line, the files of the system, and standard output.
#![tactic(auto)]

use nk_base::Memory;
use nk_outside::{OsFiles, OsSink};
use nml_suite::{suite, tell_memory, words_of};
use std::process::ExitCode;
use std::{env, io};

/// Calls the suite with the words behind the program's name, and ends with the number of the status that it answers.
fn main(rt: HostRuntime) -> ExitCode {
    let alloc = rt.alloc();
    let mut sink = OsSink::new(io::writer(&rt));
    let status = match words_of(alloc, env::args(&rt)) {
        Ok(words) => suite(alloc, &words, &mut OsFiles::new(rt), &mut sink),
        Err(Memory) => tell_memory(alloc, &mut sink),
    };
    ExitCode::from(status.number())
}
