ghost use Rattle.std.specs.Prelude.{◌≡◌, ◌≢◌, [], drop, map, string_bytes, IfOk, IfErr, IsErr};
ghost use Rattle.std.specs.Vec.Iter.{into_iter_items};
ghost use Rattle.std.specs.IoError.{error_kind};
ghost use Rattle.nml_reply.specs.Reply.{starved};
ghost use Rattle.nml_reply.specs.Told.{Told};

use nk_base::{Memory, Text};
use nk_outside::Sink;
use nml_reply::{Refusal, Status, tell_refusal};
use std::alloc::Global;
use std::env::Args;
use std::io::{self, ErrorKind};

/// The words of a call, of the arguments that the system gives to a program: each but the first, which is the program's
/// own name, in order, as its bytes in UTF-8.
///
/// Where the arguments can't be had, as where one isn't UTF-8, there are no words, and these match no form. The one error
/// is want of memory; it comes where the arguments want it, and may come at any growth. The rule is this project's own.
pub fn words_of(alloc: Global, given: io::Result<Args>) -> Result<Vec<Text>, Memory>
    ensures words { IfOk given (λ args. IfOk result (λ words. words.items ≡ map string_bytes (drop 1 (into_iter_items args)))) }
    ensures none { IfErr given (λ fault. error_kind fault ≢ ErrorKind.OutOfMemory → IfOk result (λ words. words.items ≡ [])) }
    ensures memory { IfErr given (λ fault. error_kind fault ≡ ErrorKind.OutOfMemory → IsErr result) }
{
    match given {
        Ok(args) => words_behind(alloc, args),
        Err(fault) => no_words(alloc, fault.kind()),
    }
}

/// Puts the line `memory`, where memory was wanted before there are words.
///
/// It answers `Memory`, or `Write` where the put fails.
pub fn tell_memory<S: Sink>(alloc: Global, sink: &mut S) -> Status
    ensures { Told starved (S.taken sink.old) (S.taken sink.new) (S.faults sink.old) (S.faults sink.new) result }
{
    tell_refusal(alloc, sink, &Refusal::Memory)
}

/// Each word but the first.
fn words_behind(alloc: Global, args: Args) -> Result<Vec<Text>, Memory>
    ensures { IfOk result (λ words. words.items ≡ map string_bytes (drop 1 (into_iter_items args))) }
{
    Ok(
        args.skip(1)
            .map(|word| Text::from_vec(word.into_bytes()))
            .collect(alloc)?,
    )
}

/// No words, or want of memory where that was the fault.
fn no_words(alloc: Global, fault: ErrorKind) -> Result<Vec<Text>, Memory>
    ensures none { fault ≢ ErrorKind.OutOfMemory → IfOk result (λ words. words.items ≡ []) }
    ensures memory { fault ≡ ErrorKind.OutOfMemory → IsErr result }
{
    match fault {
        ErrorKind::OutOfMemory => Err(Memory),
        _ => Ok(Vec::new(alloc)),
    }
}
