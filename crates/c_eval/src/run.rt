//! Whole runs.

ghost use Rattle.std.specs.Prelude.{◌≡◌, ◌≤◌, [], ℕ, List, Option, take, OnOk, OnErr};
ghost use Rattle.nk_base.specs.Number.{IsWidth};
ghost use Rattle.nk_outside.specs.Outcome.{Outcome, line};
ghost use Rattle.nk_outside.specs.Taken.{Took, TookFront};
ghost use Rattle.c_tree.specs.Program.{Program};
ghost use Rattle.c_tree.specs.Meaning.{outcome};
ghost use Rattle.c_tree.specs.Resolve.{resolved};
ghost use Rattle.c_flat.specs.Written.{Falls};
ghost use Rattle.c_frames.specs.Small.{IsSmallProgram, AreSmallFrames};
ghost use Rattle.c_frames.specs.Steps.{begin};
ghost use Rattle.c_machine.specs.Small.{IsSmallTask};
ghost use Rattle.c_machine.specs.Stands.{IsCode, config_of, frames_of};
ghost use Rattle.c_eval.specs.Evaluates.{Evaluates, CountsRun};
ghost use Rattle.c_eval.specs.Running.{Running, Advanced};

use crate::start::start;
use c_machine::{Code, Machine, Moved};
use c_tree::CProg;
use nk_base::dec_into;
use nk_outside::{EvalFault, Sink, Stop};
use std::alloc::Global;

/// Writes a number as a line; answers its length.
fn write_line(bytes: &mut [u8; 41], number: i64) -> usize
    ensures within { result ≤ 41 }
    ensures text { take result bytes.new ≡ line number }
{
    let mut digits = [0; 40];
    let length = dec_into(i128::from(number), &mut digits);
    bytes[..length].copy_from_slice(&digits[..length]);
    bytes[length] = b'\n';
    length + 1
}

/// Puts the line of an output, once.
fn put_line<S: Sink>(alloc: Global, sink: &mut S, number: i64) -> Result<(), EvalFault>
    ensures ok { OnOk result (Took (S.taken sink.old) (S.taken sink.new) (line number)) }
    ensures err { OnErr result (TookFront (S.taken sink.old) (S.taken sink.new) (line number)) }
    ensures counts { CountsRun (S.faults sink.old) (S.faults sink.new) result }
{
    let mut bytes = [0; 41];
    let length = write_line(&mut bytes, number);
    sink.put(alloc, &bytes[..length])?;
    Ok(())
}

/// Makes one step, and puts its output; answers how the run stopped, where it is over.
fn advance<S: Sink>(
    alloc: Global,
    code: &Code,
    machine: &mut Machine,
    input: &[i64],
    sink: &mut S,
) -> Result<Option<Stop>, EvalFault>
    requires falls { Falls code.now.nodes.items }
    requires width { IsWidth code.now.bits }
    requires small { IsSmallTask code.now.nodes.items machine.old.task }
    requires frames { AreSmallFrames (frames_of code.now.nodes.items machine.old.frames.items) }
    ensures run { (p : Program) → IsCode code.now p → (o : Outcome) (most : ℕ) (start : Option (List ℕ)) → Running p code.now input.now o most start (S.taken sink.old) machine.old → Advanced p code.now input.now o most start (S.taken sink.new) machine.old machine.new result }
    ensures counts { CountsRun (S.faults sink.old) (S.faults sink.new) result }
{
    match machine.step(code, input)? {
        Moved::Goes => Ok(None),
        Moved::Puts(z) => {
            put_line(alloc, sink, z)?;
            Ok(None)
        }
        Moved::Stops(stop) => Ok(Some(stop)),
    }
}

/// Runs the machine to its stop.
///
/// The loop ends, since any program stops at the bound of its turns and the depth of its parts.
fn run<S: Sink>(
    alloc: Global,
    p: &CProg,
    code: &Code,
    machine: &mut Machine,
    input: &[i64],
    sink: &mut S,
) -> Result<Stop, EvalFault>
    requires falls { Falls code.now.nodes.items }
    requires width { IsWidth code.now.bits }
    requires code { IsCode code.now (resolved p.now.0) }
    requires small { IsSmallProgram (resolved p.now.0) }
    requires begins { config_of (resolved p.now.0) code.now.bits code.now.nodes.items input.now machine.old [] ≡ begin (resolved p.now.0) code.now.bits input.now machine.old.turns }
    ensures run { Evaluates (outcome (resolved p.now.0) code.now.bits input.now machine.old.turns) (S.taken sink.old) (S.taken sink.new) result }
    ensures counts { CountsRun (S.faults sink.old) (S.faults sink.new) result }
{
    let _ = p;
    loop {
        match advance(alloc, code, machine, input, sink)? {
            None => {}
            Some(stop) => return Ok(stop),
        }
    }
}

/// Runs an accepted program on an input, where it pays so many turns at most: puts each output as a decimal line as it
/// arises, and answers how the run stopped.
///
/// It has come to its end, has met a trap, reads the input where nothing is left of that, or would pay more turns. It is
/// broken off where a put fails or memory is wanted; the sink has then taken a front of the run's lines. Want of memory may
/// come at any growth. That each line is one put is this project's own rule.
pub fn eval<S: Sink>(
    alloc: Global,
    p: &CProg,
    input: &[i64],
    turns: u64,
    sink: &mut S,
) -> Result<Stop, EvalFault>
    ensures run { Evaluates (outcome (resolved p.now.0) p.now.1 input.now turns) (S.taken sink.old) (S.taken sink.new) result }
    ensures counts { CountsRun (S.faults sink.old) (S.faults sink.new) result }
{
    let (code, mut machine) = start(alloc, p, turns)?;
    run(alloc, p, &code, &mut machine, input, sink)
}
