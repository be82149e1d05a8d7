ghost use Rattle.std.specs.Prelude.{◌≡◌, None};
ghost use Rattle.std.specs.Option.{option_map};
ghost use Rattle.attr_exec.specs.Ready.{NextFits};
ghost use Rattle.bit_sim.specs.Decoded.{AreDecided};
ghost use Rattle.bit_sim.specs.Simulator.{AreInitial, took_told};
ghost use Rattle.input_port.specs.Port.{AllFit};
ghost use Rattle.nml_reply.specs.Ended.{CountsPuts};
ghost use Rattle.nml_reply.specs.Seen as spec;
ghost use Rattle.nml_suite.specs.Running.{IsPut, IsRun, TellsRun, opened, put_by, start, stop_after};
ghost use Rattle.nml_tree.specs.Machine as machine;
ghost use Rattle.nml_tree.specs.Table.{table};

use crate::ready::Ready;
use bit_sim::{Sim, Step};
use nk_base::Memory;
use nk_outside::{Sink, WriteFault};
use nml_reply::{Refusal, Status, Stop, ended, put_output, put_stop, tell_refusal};
use std::alloc::Global;

/// Runs the machine for at most so many steps: puts each output as it arises, and then how it stopped. Memory is asked for before the first step.
pub fn tell_run<S: Sink>(alloc: Global, sink: &mut S, ready: &Ready, steps: u64) -> Status
    requires initial { AreInitial (table ready.now.graph.desc) ready.now.image.inits.items }
    requires fit { AllFit (table ready.now.graph.desc) ready.now.numbers.items }
    requires none { NextFits (table ready.now.graph.desc) None }
    ensures { TellsRun (opened ready.now) steps (S.taken sink.old) (S.taken sink.new) (S.faults sink.old) (S.faults sink.new) result }
{
    let mut sim = match Sim::open(alloc, &ready.graph, &ready.image) {
        Ok(sim) => sim,
        Err(Memory) => return tell_refusal(alloc, sink, &Refusal::Memory),
    };
    sim.is_decided();
    match put_run(alloc, sink, &mut sim, &ready.numbers, steps) {
        Ok(status) => status,
        Err(fault) => ended(alloc, sink, Err(fault), Status::Memory),
    }
}

/// Puts each output of the run on this input as it arises, and then how it stopped; answers the status of that.
fn put_run<S: Sink>(
    alloc: Global,
    sink: &mut S,
    sim: &mut Sim<'_>,
    input: &[i64],
    steps: u64,
) -> Result<Status, WriteFault>
    requires going { sim.old.halted ≡ None }
    requires decided { AreDecided (table sim.old.desc) sim.old.words }
    requires fit { AllFit (table sim.old.desc) input.now }
    requires none { NextFits (table sim.old.desc) None }
    ensures run { IsRun (start sim.old input.now) steps (S.taken sink.old) (S.taken sink.new) result }
    ensures counts { CountsPuts (S.faults sink.old) (S.faults sink.new) result }
{
    let stop = put_outputs(alloc, sink, sim, input, steps)?;
    put_stop(alloc, sink, stop)?;
    Ok(stop.status())
}

/// Puts each output of a run of at most so many steps on this input as it arises; answers how it stopped.
fn put_outputs<S: Sink>(
    alloc: Global,
    sink: &mut S,
    sim: &mut Sim<'_>,
    input: &[i64],
    steps: u64,
) -> Result<Stop, WriteFault>
    requires going { sim.old.halted ≡ None }
    requires decided { AreDecided (table sim.old.desc) sim.old.words }
    requires fit { AllFit (table sim.old.desc) input.now }
    requires none { NextFits (table sim.old.desc) None }
    ensures put { IsPut (start sim.old input.now) steps (S.taken sink.old) (S.taken sink.new) result }
    ensures counts { CountsPuts (S.faults sink.old) (S.faults sink.new) result }
{
    let mut rest = input;
    for turn in 0..steps {
        let step = sim.step(next_of(rest));
        put_output(alloc, sink, output_of(step))?;
        if let Some(stop) = stop_of(step) {
            return Ok(stop);
        }
        rest = behind(step, rest);
    }
    Ok(Stop::Running)
}

/// The next number of the input, where there is one.
fn next_of(input: &[i64]) -> Option<i64>
    ensures { result ≡ machine.next input.now }
{
    input.first().copied()
}

/// The input that is left behind the step.
fn behind<'l>(step: Step, input: &'l [i64]) -> &'l [i64]
    ensures { result.now ≡ machine.left (took_told step) input.now }
{
    match input.split_first() {
        None => input,
        Some((_, rest)) => if took(step) { rest } else { input },
    }
}

/// Whether the step took the next number.
fn took(step: Step) -> bool
    ensures { result ≡ took_told step }
{
    match step {
        Step::Went { out: _, took } => took,
        Step::Halted {
            code: _,
            out: _,
            took,
        } => took,
        Step::Wants => false,
        Step::NoWord { pc: _ } => false,
        Step::BadWord { pc: _ } => false,
    }
}

/// What the step put out.
fn output_of(step: Step) -> Option<i64>
    ensures { result ≡ put_by step }
{
    match step {
        Step::Went { out, took: _ } => out,
        Step::Halted {
            code: _,
            out,
            took: _,
        } => out,
        Step::Wants => None,
        Step::NoWord { pc: _ } => None,
        Step::BadWord { pc: _ } => None,
    }
}

/// How the run stops after the step, where it does.
fn stop_of(step: Step) -> Option<Stop>
    ensures { option_map spec.stop_of result ≡ stop_after step }
{
    match step {
        Step::Went { out: _, took: _ } => None,
        Step::Wants => Some(Stop::Wants),
        Step::Halted {
            code,
            out: _,
            took: _,
        } => Some(Stop::Halted(code)),
        Step::NoWord { pc } => Some(Stop::NoWord(pc)),
        Step::BadWord { pc } => Some(Stop::BadWord(pc)),
    }
}
