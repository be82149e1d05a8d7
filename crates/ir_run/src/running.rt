//! Whole runs.

ghost use Rattle.std.specs.Prelude.{◌≡◌, ◌≤◌, ℕ, suc, List, Option, map, take, OnOk, OnErr};
ghost use Rattle.nk_outside.specs.Outcome.{Outcome, line};
ghost use Rattle.nk_outside.specs.Taken.{Took, TookFront};
ghost use Rattle.ir_run.specs.Entry.{entry, listing};
ghost use Rattle.ir_run.specs.Runs as runs;
ghost use Rattle.ir_run.specs.Run.{step, outcome};
ghost use Rattle.ir_run.specs.Shifts.{IsCellWidth, AllShift};
ghost use Rattle.ir_run.specs.Prints.{Prints, CountsPuts};
ghost use Rattle.ir_run.specs.Stands.{state_of, AreMarks};
ghost use Rattle.ir_run.specs.Running.{Running, Advanced};

use crate::begin::begin;
use crate::ir::Ir;
use crate::machine::{Code, Machine, Moved};
use crate::marks::marks_of;
use nk_base::dec_into;
use nk_outside::{EvalFault, Sink, Stop};
use std::alloc::Global;

/// Writes a number as a line; answers its length.
fn write_line(bytes: &mut [u8; 41], number: i64) -> usize
    ensures within { result ≤ 41 }
    ensures text { take result bytes.new ≡ line number }
{
    let mut digits = [0; 40];
    let length = dec_into(i128::from(number), &mut digits);
    bytes[..length].copy_from_slice(&digits[..length]);
    bytes[length] = b'\n';
    length + 1
}

/// Puts the line of an output, once.
fn put_line<S: Sink>(alloc: Global, sink: &mut S, number: i64) -> Result<(), EvalFault>
    ensures ok { OnOk result (Took (S.taken sink.old) (S.taken sink.new) (line number)) }
    ensures err { OnErr result (TookFront (S.taken sink.old) (S.taken sink.new) (line number)) }
    ensures counts { CountsPuts (S.faults sink.old) (S.faults sink.new) result }
{
    let mut bytes = [0; 41];
    let length = write_line(&mut bytes, number);
    sink.put(alloc, &bytes[..length])?;
    Ok(())
}

/// Makes one step, and puts its output; answers how the run stopped, where it is over.
fn advance<S: Sink>(
    alloc: Global,
    code: &Code<'_>,
    machine: &mut Machine,
    input: &[i64],
    sink: &mut S,
) -> Result<Option<Stop>, EvalFault>
    requires width { IsCellWidth code.now.bits }
    requires shifts { AllShift code.now.bits (map entry code.now.statements.now) }
    requires marks { AreMarks code.now.marks.entries (map entry code.now.statements.now) }
    ensures run { (o : Outcome) (start : Option (List ℕ)) (steps : ℕ) → Running (map entry code.now.statements.now) code.now.bits o start (S.taken sink.old) (suc steps) (state_of input.now machine.old) → Advanced (map entry code.now.statements.now) code.now.bits o start (S.taken sink.new) steps (state_of input.now machine.new) result }
    ensures counts { CountsPuts (S.faults sink.old) (S.faults sink.new) result }
{
    match machine.step(code, input) {
        Moved::Goes => Ok(None),
        Moved::Puts(z) => {
            put_line(alloc, sink, z)?;
            Ok(None)
        }
        Moved::Stops(stop) => Ok(Some(stop)),
    }
}

/// Makes so many steps at most.
fn go<S: Sink>(
    alloc: Global,
    code: &Code<'_>,
    machine: &mut Machine,
    input: &[i64],
    steps: u64,
    sink: &mut S,
) -> Result<Stop, EvalFault>
    requires width { IsCellWidth code.now.bits }
    requires shifts { AllShift code.now.bits (map entry code.now.statements.now) }
    requires marks { AreMarks code.now.marks.entries (map entry code.now.statements.now) }
    ensures run { Prints (runs.run (step (map entry code.now.statements.now) code.now.bits) steps (state_of input.now machine.old)) (S.taken sink.old) (S.taken sink.new) result }
    ensures counts { CountsPuts (S.faults sink.old) (S.faults sink.new) result }
{
    for _ in 0..steps {
        if let Some(stop) = advance(alloc, code, machine, input, sink)? {
            return Ok(stop);
        }
    }
    Ok(Stop::Running)
}

/// Runs statements over numbers of `n` bits on an input, for at most so many steps: puts each output as a decimal line as it
/// arises, and answers how the run stopped. `n` is 16 to 32, and no tree shifts by `n` or more.
///
/// A run stops at a halt, with its end or a trap, and at an input that is read where nothing is left of the input; it is
/// `Running` where the steps are spent. The first mark of a label counts, and the last value that a cell is given at the
/// start. The run is broken off where a put fails (`Failed`) or memory is wanted (`Memory`); the sink has then taken a
/// front of the run's lines. Want of memory may come at any growth. The rule is this project's own.
pub fn run<S: Sink>(
    alloc: Global,
    i: &Ir,
    n: u32,
    input: &[i64],
    steps: u64,
    sink: &mut S,
) -> Result<Stop, EvalFault>
    requires width { IsCellWidth n }
    requires shifts { AllShift n (listing i.now).entries }
    ensures run { Prints (outcome (listing i.now) n input.now steps) (S.taken sink.old) (S.taken sink.new) result }
    ensures counts { CountsPuts (S.faults sink.old) (S.faults sink.new) result }
{
    let statements = i.stmts.as_slice();
    let marks = marks_of(alloc, statements)?;
    let code = Code {
        statements,
        marks,
        bits: n,
    };
    let mut machine = begin(alloc, i)?;
    go(alloc, &code, &mut machine, input, steps, sink)
}
