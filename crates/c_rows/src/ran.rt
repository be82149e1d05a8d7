use crate::case::Case;
use c_eval::eval;
use c_lower::lower;
use c_tree::CProg;
use ir_run::{Stmt, run};
use nk_base::{Memory, Text, dec};
use nk_outside::{EvalFault, NeverFails, Stop};
use std::alloc::Global;

/// What a run printed, and how it stopped, in words.
#[derive(Drop)]
pub struct Ran {
    pub printed: Vec<u8>,
    pub stop: Text,
}

/// The statements of a program: how many cells they have, how many of them have trees, and a run of them.
#[derive(Drop)]
pub struct Statements {
    pub cells: u32,
    pub trees: u64,
    pub ran: Ran,
}

/// Runs a program on the case's input. The one error is want of memory.
pub fn run_program(alloc: Global, program: &CProg, case: &Case) -> Result<Ran, Memory> {
    let mut sink = NeverFails {
        bytes: Vec::new(alloc),
    };
    let stop = eval(alloc, program, case.input.as_slice(), case.turns, &mut sink);
    stopped(alloc, sink, stop)
}

/// Makes the statements of a program, and runs them on the case's input. The one error is want of memory; a program of more
/// than 65,536 cells counts as such.
pub fn run_statements(alloc: Global, program: &CProg, case: &Case) -> Result<Statements, Memory> {
    if program.data() > 65_536 {
        return Err(Memory);
    }
    let lowered = lower(alloc, program)?;
    let mut sink = NeverFails {
        bytes: Vec::new(alloc),
    };
    let input = case.input.as_slice();
    let stop = run(alloc, &lowered, program.n, input, case.steps, &mut sink);
    Ok(Statements {
        cells: lowered.cells,
        trees: trees_among(lowered.stmts.as_slice()),
        ran: stopped(alloc, sink, stop)?,
    })
}

/// A run that printed this, and stopped so.
fn stopped(alloc: Global, sink: NeverFails, stop: Result<Stop, EvalFault>) -> Result<Ran, Memory> {
    match stop {
        Ok(stop) => Ok(Ran {
            printed: sink.bytes,
            stop: words_of(alloc, stop)?,
        }),
        Err(_) => Err(Memory),
    }
}

/// The words of a stop.
fn words_of(alloc: Global, stop: Stop) -> Result<Text, Memory> {
    match stop {
        Stop::Running => Text::from_bytes(alloc, b"running"),
        Stop::Wants => Text::from_bytes(alloc, b"wants input"),
        Stop::Ended => Text::from_bytes(alloc, b"halted 0"),
        Stop::Trap(code) => {
            let mut text = Text::from_bytes(alloc, b"halted ")?;
            text.push_bytes(dec(alloc, i128::from(code))?.as_bytes())?;
            Ok(text)
        }
    }
}

/// How many statements have trees: all but `Jump`, `Mark` and `Halt` have.
fn trees_among(statements: &[Stmt]) -> u64 {
    let mut count = 0u64;
    for statement in statements {
        match statement {
            Stmt::Jump(_) | Stmt::Mark(_) | Stmt::Halt(_) => {}
            _ => count = count.saturating_add(1),
        }
    }
    count
}
