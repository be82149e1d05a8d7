ghost use Rattle.std.specs.Prelude.{◌≡◌, IfOk, OnOk, OnErr};
ghost use Rattle.c_tree.specs.Meaning.{outcome};
ghost use Rattle.c_tree.specs.Resolve.{resolved};
ghost use Rattle.nk_outside.specs.Taken.{Took, TookFront};
ghost use Rattle.nml_reply.specs.Ended.{CountsPuts};
ghost use Rattle.nml_reply.specs.Reply as spec;
ghost use Rattle.nml_reply.specs.Told.{Told};
ghost use Rattle.nml_suite.specs.Evaluating.{IsTold};

use crate::ceval::Prepared;
use c_eval::eval;
use nk_outside::{EvalFault, Sink, Stop, WriteFault};
use nml_reply::{Status, ended, put, put_line};
use std::alloc::Global;

/// Runs a program for at most so many turns: puts each output as it arises, and then how it stopped.
pub fn tell_outcome<S: Sink>(alloc: Global, sink: &mut S, ready: &Prepared, turns: u64) -> Status
    ensures { Told (spec.told_outcome (outcome (resolved ready.now.program.0) ready.now.program.1 ready.now.numbers.items turns)) (S.taken sink.old) (S.taken sink.new) (S.faults sink.old) (S.faults sink.new) result }
{
    match put_outcome(alloc, sink, ready, turns) {
        Ok(status) => status,
        Err(fault) => ended(alloc, sink, Err(fault), Status::Memory),
    }
}

/// Puts each output of the run as it arises, and then how it stopped; answers the status of that.
fn put_outcome<S: Sink>(
    alloc: Global,
    sink: &mut S,
    ready: &Prepared,
    turns: u64,
) -> Result<Status, WriteFault>
    ensures run { IsTold (spec.told_outcome (outcome (resolved ready.now.program.0) ready.now.program.1 ready.now.numbers.items turns)) (S.taken sink.old) (S.taken sink.new) result }
    ensures counts { CountsPuts (S.faults sink.old) (S.faults sink.new) result }
{
    let stop = match eval(alloc, &ready.program, &ready.numbers, turns, sink) {
        Ok(stop) => stop,
        Err(EvalFault::Failed) => return Err(WriteFault::Failed),
        Err(EvalFault::Memory) => return Err(WriteFault::Memory),
    };
    put_ending(alloc, sink, stop)?;
    Ok(status_of(stop))
}

/// The status that a run which stopped so ends with.
fn status_of(stop: Stop) -> Status
    ensures { result ≡ spec.ending_status stop }
{
    match stop {
        Stop::Running => Status::Budget,
        Stop::Ended => Status::Done,
        Stop::Trap(0) => Status::Done,
        Stop::Trap(_) => Status::Stopped,
        Stop::Wants => Status::Wants,
    }
}

/// Puts the line that tells how a run stopped.
fn put_ending<S: Sink>(alloc: Global, sink: &mut S, stop: Stop) -> Result<(), WriteFault>
    ensures ok { OnOk result (Took (S.taken sink.old) (S.taken sink.new) (spec.ending_line stop)) }
    ensures err { OnErr result (TookFront (S.taken sink.old) (S.taken sink.new) (spec.ending_line stop)) }
    ensures counts { CountsPuts (S.faults sink.old) (S.faults sink.new) result }
{
    match stop {
        Stop::Running => put(alloc, sink, b"running\n"),
        Stop::Ended => put(alloc, sink, b"halted 0\n"),
        Stop::Trap(code) => put_line(alloc, sink, b"halted ", i128::from(code)),
        Stop::Wants => put(alloc, sink, b"wants input\n"),
    }
}
