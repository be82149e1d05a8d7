ghost use Rattle.std.specs.Prelude.{Some};
ghost use Rattle.nml_command.specs.Form.{form_of, Asm, Ceval, Check, Dis, Run};
ghost use Rattle.nml_reply.specs.Reply.{not_built};
ghost use Rattle.nml_reply.specs.Told.{Told};
ghost use Rattle.nml_suite.specs.Answer.{Answers, moment};
ghost use Rattle.nml_suite.specs.Promises.{KeepsPromises};

use crate::assemble::{assemble, save};
use crate::ceval::prepare_program;
use crate::dis::disassembled;
use crate::evaluate::tell_outcome;
use crate::ready::prepare;
use crate::run::tell_run;
use crate::summary::sum_up_file;
use nk_base::Text;
use nk_outside::{Files, Sink};
use nml_command::{Command, command_of};
use nml_reply::{Status, tell, tell_assembled, tell_refusal, tell_summary, tell_text};
use std::alloc::Global;

/// Where the words match no form.
const USAGE: &[u8] =
    b"usage: check D, asm D S I, dis D I, run D I X n, cc D C I, ceval D C X n, demo k\n";

/// Does all that the program does: tells the words apart, reads the files that they name, writes an image, and puts the text.
///
/// The files are read in the order of the words, the written one excepted, each once and only where no earlier one is refused: a file that
/// gives no bytes ends the call, and so does its own refusal. The image is written whole before the first line is put. A line is one put.
/// Where a put fails the answer is [`Status::Write`], whatever else it would have been, and nothing more is put; where memory is wanted it
/// is [`Status::Memory`], and the line `memory` is put. The promises are the fields of `KeepsPromises`; the statuses, which are this
/// project's own, tell when each comes.
pub fn suite<F: Files, S: Sink>(
    alloc: Global,
    words: &Vec<Text>,
    files: &mut F,
    sink: &mut S,
) -> Status
    ensures { KeepsPromises (moment (F.held files.old) (F.counts files.old) (S.taken sink.old) (S.faults sink.old)) (moment (F.held files.new) (F.counts files.new) (S.taken sink.new) (S.faults sink.new)) (form_of words.now.items) result }
{
    answer(alloc, words, files, sink)
}

/// Tells the words apart, and does what they say.
fn answer<F: Files, S: Sink>(
    alloc: Global,
    words: &Vec<Text>,
    files: &mut F,
    sink: &mut S,
) -> Status
    ensures { Answers (moment (F.held files.old) (F.counts files.old) (S.taken sink.old) (S.faults sink.old)) (moment (F.held files.new) (F.counts files.new) (S.taken sink.new) (S.faults sink.new)) (form_of words.now.items) result }
{
    match command_of(words) {
        Some(
            Command::Asm {
                description,
                source,
                image,
            },
        ) => answer_asm(alloc, files, sink, description, source, image),
        Some(
            Command::Run {
                description,
                image,
                input,
                steps,
            },
        ) => answer_run(alloc, files, sink, description, image, input, steps),
        Some(Command::Check(description)) => answer_check(alloc, files, sink, description),
        Some(Command::Dis { description, image }) => answer_dis(
            alloc,
            files,
            sink,
            description,
            image,
        ),
        Some(
            Command::Cc {
                description: _,
                source: _,
                image: _,
            },
        ) => tell_not_built(alloc, sink),
        Some(
            Command::Ceval {
                description,
                source,
                input,
                turns,
            },
        ) => answer_ceval(alloc, files, sink, description, source, input, turns),
        Some(Command::Demo(_)) => tell_not_built(alloc, sink),
        None => tell(alloc, sink, USAGE, Status::Usage),
    }
}

/// Tells that a command isn't built yet.
fn tell_not_built<S: Sink>(alloc: Global, sink: &mut S) -> Status
    ensures { Told not_built (S.taken sink.old) (S.taken sink.new) (S.faults sink.old) (S.faults sink.new) result }
{
    tell(alloc, sink, b"not built\n", Status::NotBuilt)
}

/// Sums a description up, and tells that.
fn answer_check<F: Files, S: Sink>(
    alloc: Global,
    files: &mut F,
    sink: &mut S,
    description: &Text,
) -> Status
    ensures { Answers (moment (F.held files.old) (F.counts files.old) (S.taken sink.old) (S.faults sink.old)) (moment (F.held files.new) (F.counts files.new) (S.taken sink.new) (S.faults sink.new)) (Some (Check description.now)) result }
{
    match sum_up_file(alloc, files, description) {
        Ok(found) => tell_summary(alloc, sink, found),
        Err(refusal) => tell_refusal(alloc, sink, &refusal),
    }
}

/// Assembles a text, writes its image, and puts its words.
fn answer_asm<F: Files, S: Sink>(
    alloc: Global,
    files: &mut F,
    sink: &mut S,
    description: &Text,
    source: &Text,
    image: &Text,
) -> Status
    ensures { Answers (moment (F.held files.old) (F.counts files.old) (S.taken sink.old) (S.faults sink.old)) (moment (F.held files.new) (F.counts files.new) (S.taken sink.new) (S.faults sink.new)) (Some (Asm description.now source.now image.now)) result }
{
    let made = match assemble(alloc, files, description, source) {
        Ok(made) => made,
        Err(refusal) => return tell_refusal(alloc, sink, &refusal),
    };
    match save(alloc, files, image, &made) {
        Ok(()) => tell_assembled(alloc, sink, &made.image),
        Err(refusal) => tell_refusal(alloc, sink, &refusal),
    }
}

/// Puts the canonical text of an image.
fn answer_dis<F: Files, S: Sink>(
    alloc: Global,
    files: &mut F,
    sink: &mut S,
    description: &Text,
    image: &Text,
) -> Status
    ensures { Answers (moment (F.held files.old) (F.counts files.old) (S.taken sink.old) (S.faults sink.old)) (moment (F.held files.new) (F.counts files.new) (S.taken sink.new) (S.faults sink.new)) (Some (Dis description.now image.now)) result }
{
    match disassembled(alloc, files, description, image) {
        Ok(text) => tell_text(alloc, sink, &text),
        Err(refusal) => tell_refusal(alloc, sink, &refusal),
    }
}

/// Runs an image, and puts its outputs.
fn answer_run<F: Files, S: Sink>(
    alloc: Global,
    files: &mut F,
    sink: &mut S,
    description: &Text,
    image: &Text,
    input: &Text,
    steps: u64,
) -> Status
    ensures { Answers (moment (F.held files.old) (F.counts files.old) (S.taken sink.old) (S.faults sink.old)) (moment (F.held files.new) (F.counts files.new) (S.taken sink.new) (S.faults sink.new)) (Some (Run description.now image.now input.now steps)) result }
{
    match prepare(alloc, files, description, image, input) {
        Ok(ready) => tell_run(alloc, sink, &ready, steps),
        Err(refusal) => tell_refusal(alloc, sink, &refusal),
    }
}

/// Runs the meaning of a program, and puts its outputs.
fn answer_ceval<F: Files, S: Sink>(
    alloc: Global,
    files: &mut F,
    sink: &mut S,
    description: &Text,
    source: &Text,
    input: &Text,
    turns: u64,
) -> Status
    ensures { Answers (moment (F.held files.old) (F.counts files.old) (S.taken sink.old) (S.faults sink.old)) (moment (F.held files.new) (F.counts files.new) (S.taken sink.new) (S.faults sink.new)) (Some (Ceval description.now source.now input.now turns)) result }
{
    match prepare_program(alloc, files, description, source, input) {
        Ok(ready) => tell_outcome(alloc, sink, &ready, turns),
        Err(refusal) => tell_refusal(alloc, sink, &refusal),
    }
}
