use crate::case::Case;
use crate::ran::{Ran, run_program, run_statements};
use crate::told::Told;
use c_check::check;
use c_read::read;
use c_tree::{CFault, CProg};
use nk_base::{Memory, Text, Ty, wrap};
use nk_outside::FILE_LIMIT;
use std::alloc::Global;

/// What of a case isn't as wanted.
pub fn judge(alloc: Global, case: &Case) -> Result<Text, Memory> {
    let mut told = Told {
        alloc,
        text: Text::new(alloc),
    };
    match program_of(alloc, case) {
        Ok(program) => judge_program(alloc, case, &program, &mut told)?,
        Err(fault) => tell_fault(&mut told, &fault)?,
    }
    Ok(told.text)
}

/// The program of the case, accepted. One without an end, too long, or of another width is answered as want of memory.
fn program_of(alloc: Global, case: &Case) -> Result<CProg, CFault> {
    let bytes = case.program.as_bytes();
    if case.is_open || bytes.len() > FILE_LIMIT || case.bits < 16 || case.bits > 32 {
        return Err(CFault::Memory);
    }
    let tree = read(alloc, bytes)?;
    check(alloc, tree, case.bits as u32)
}

/// Tells why a program is refused.
fn tell_fault(told: &mut Told, fault: &CFault) -> Result<(), Memory> {
    match fault {
        CFault::Lex { at: _ } => told.say("C1 Lex"),
        CFault::Syntax { at: _ } => told.say("C2 Syntax"),
        CFault::Outside { at: _ } => told.say("C3 Outside"),
        CFault::Name { at: _ } => told.say("C4 Name"),
        CFault::Kind { at: _ } => told.say("C5 Kind"),
        CFault::Literal { at: _ } => told.say("C6 Literal"),
        CFault::Shift { at: _ } => told.say("C7 Shift"),
        CFault::Recursion { name: _ } => told.say("C8 Recursion"),
        CFault::Main => told.say("C9 Main"),
        CFault::Memory => told.say("memory, or no end, or too many bytes, or another width"),
    }
}

/// Runs an accepted program and its statements, and tells what isn't as wanted.
fn judge_program(
    alloc: Global,
    case: &Case,
    program: &CProg,
    told: &mut Told,
) -> Result<(), Memory> {
    if !are_numbers(program, case.input.as_slice()) {
        return told.say("a number of its input is out of range");
    }
    let cells = program.data();
    told.number("data", case.data.unwrap_or(cells), cells)?;
    let ran = run_program(alloc, program, case)?;
    tell_run(told, "the program", case, &ran)?;
    match run_statements(alloc, program, case) {
        Ok(statements) => {
            told.number("cells", cells, u64::from(statements.cells))?;
            let trees = statements.trees;
            told.number("trees", case.trees.unwrap_or(trees), trees)?;
            tell_run(told, "the statements", case, &statements.ran)?;
            tell_unlike(told, &ran, &statements.ran)
        }
        Err(Memory) => told.say("no memory for its statements, or too many cells"),
    }
}

/// Tells what of a run isn't as the case says.
fn tell_run(told: &mut Told, what: &str, case: &Case, ran: &Ran) -> Result<(), Memory> {
    if let Some(stop) = &case.stops {
        told.compare(what, stop.as_bytes(), ran.stop.as_bytes())?;
    }
    match &case.prints {
        Some(text) => told.compare(what, text.as_bytes(), ran.printed.as_slice()),
        None => Ok(()),
    }
}

/// Tells where statements don't print or stop as their program does. Of two that ran on, one may have come farther.
fn tell_unlike(told: &mut Told, program: &Ran, statements: &Ran) -> Result<(), Memory> {
    let what = "the statements beside the program";
    told.compare(what, program.stop.as_bytes(), statements.stop.as_bytes())?;
    let (one, other) = (program.printed.as_slice(), statements.printed.as_slice());
    if program.stop.as_bytes() == b"running".as_slice()
        && (one.starts_with(other) || other.starts_with(one))
    {
        return Ok(());
    }
    told.compare(what, one, other)
}

/// Whether these are numbers of the program's bits.
fn are_numbers(program: &CProg, input: &[i64]) -> bool {
    for number in input {
        let number = i128::from(*number);
        if wrap(Ty::Int(program.n), number) != number {
            return false;
        }
    }
    true
}
