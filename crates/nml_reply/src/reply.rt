ghost use Rattle.std.specs.Prelude.{◌≡◌, ◌≤◌, ◌<◌, length, IfOk, OnOk, OnErr};
ghost use Rattle.nk_outside.specs.Taken.{Took, TookFront};
ghost use Rattle.nml_reply.specs.Ended.{CountsPuts, Ends};
ghost use Rattle.nml_reply.specs.Refusals.{refused};
ghost use Rattle.nml_reply.specs.Reply as spec;
ghost use Rattle.nml_reply.specs.Told.{Told};

use crate::{Refusal, Status};
use image_file::Image;
use nk_base::{Memory, Text, dec, push_hexadecimal};
use nk_outside::{Sink, WriteFault};
use nml_types::Summary;
use std::alloc::Global;

/// Puts one line, by one put.
///
/// It answers the status; but [`Status::Write`] where a put fails, and [`Status::Memory`] where memory is wanted, for which the line `memory` is
/// put. The rule is this project's own.
pub fn tell<S: Sink>(alloc: Global, sink: &mut S, line: &[u8], status: Status) -> Status
    ensures { Told (spec.reply status line.now) (S.taken sink.old) (S.taken sink.new) (S.faults sink.old) (S.faults sink.new) result }
{
    let done = put(alloc, sink, line);
    ended(alloc, sink, done, status)
}

/// Puts the line of a refusal, by one put.
///
/// It answers the refusal's status; but [`Status::Write`] where a put fails, and [`Status::Memory`] where memory is wanted, for which the line
/// `memory` is put: so also for a refusal that is want of memory. The rule is this project's own.
pub fn tell_refusal<S: Sink>(alloc: Global, sink: &mut S, refusal: &Refusal<'_>) -> Status
    ensures { Told (refused refusal.now) (S.taken sink.old) (S.taken sink.new) (S.faults sink.old) (S.faults sink.new) result }
{
    let done = put_refusal(alloc, sink, refusal);
    ended(alloc, sink, done, refusal.status())
}

/// Puts the line of an accepted description, by one put: how many shapes it has, and how many bits a word.
///
/// It answers [`Status::Done`]; but [`Status::Write`] where a put fails, and [`Status::Memory`] where memory is wanted, for which the line `memory`
/// is put. The rule is this project's own.
pub fn tell_summary<S: Sink>(alloc: Global, sink: &mut S, found: Summary) -> Status
    ensures { Told (spec.accepted found.count found.width) (S.taken sink.old) (S.taken sink.new) (S.faults sink.old) (S.faults sink.new) result }
{
    let done = put_summary(alloc, sink, found);
    ended(alloc, sink, done, Status::Done)
}

/// Puts the words of an image in hexadecimal, a line each, and a line of how many there are; a line is one put.
///
/// It answers [`Status::Done`]; but [`Status::Write`] where a put fails, and [`Status::Memory`] where memory is wanted, for which the line `memory`
/// is put. Behind either no more lines are put. The rule is this project's own.
pub fn tell_assembled<S: Sink>(alloc: Global, sink: &mut S, image: &Image) -> Status
    ensures { Told (spec.assembled image.now.width image.now.words.items) (S.taken sink.old) (S.taken sink.new) (S.faults sink.old) (S.faults sink.new) result }
{
    let done = put_assembled(alloc, sink, u32::from(image.width), &image.words);
    ended(alloc, sink, done, Status::Done)
}

/// Puts a text as it is; a line is one put, its line feed included.
///
/// It answers [`Status::Done`]; but [`Status::Write`] where a put fails, and [`Status::Memory`] where memory is wanted, for which the line `memory`
/// is put. Behind either no more lines are put. The rule is this project's own.
pub fn tell_text<S: Sink>(alloc: Global, sink: &mut S, text: &Text) -> Status
    ensures { Told (spec.disassembled text.now) (S.taken sink.old) (S.taken sink.new) (S.faults sink.old) (S.faults sink.new) result }
{
    let done = put_lines(alloc, sink, text.as_bytes());
    ended(alloc, sink, done, Status::Done)
}

/// The status that a call ends with, by what its last put answered: this status where the piece was put, [`Status::Write`] where the put failed,
/// and [`Status::Memory`] where memory was wanted.
///
/// Where memory was wanted the line `memory` is put, and where that put fails the answer is `Write`; else nothing is put. The rule is this
/// project's own.
pub fn ended<S: Sink>(
    alloc: Global,
    sink: &mut S,
    done: Result<(), WriteFault>,
    success: Status,
) -> Status
    ensures { Ends done success (S.taken sink.old) (S.taken sink.new) (S.faults sink.old) (S.faults sink.new) result }
{
    match done {
        Ok(()) => success,
        Err(WriteFault::Failed) => Status::Write,
        Err(WriteFault::Memory) => match put(alloc, sink, b"memory\n") {
            Ok(()) | Err(WriteFault::Memory) => Status::Memory,
            Err(WriteFault::Failed) => Status::Write,
        },
    }
}

/// Puts a piece, by one put, and answers what that answers: `Failed` where it failed, and `Memory` where memory was wanted; behind either some
/// front of the piece was taken. The count of faults rises where the put failed, and nowhere else.
pub fn put<S: Sink>(alloc: Global, sink: &mut S, piece: &[u8]) -> Result<(), WriteFault>
    ensures ok { OnOk result (Took (S.taken sink.old) (S.taken sink.new) piece.now) }
    ensures err { OnErr result (TookFront (S.taken sink.old) (S.taken sink.new) piece.now) }
    ensures counts { CountsPuts (S.faults sink.old) (S.faults sink.new) result }
{
    sink.put(alloc, piece)
}

/// Puts the line of a refusal; want of memory has no text of its own.
fn put_refusal<S: Sink>(
    alloc: Global,
    sink: &mut S,
    refusal: &Refusal<'_>,
) -> Result<(), WriteFault>
    ensures ok { OnOk result (Took (S.taken sink.old) (S.taken sink.new) (refused refusal.now).text) }
    ensures err { OnErr result (TookFront (S.taken sink.old) (S.taken sink.new) (refused refusal.now).text) }
    ensures counts { CountsPuts (S.faults sink.old) (S.faults sink.new) result }
{
    if let Refusal::Memory = refusal {
        return Err(WriteFault::Memory);
    }
    let line = refusal.line(alloc)?;
    put(alloc, sink, line.as_bytes())
}

/// Puts the line of an accepted description.
fn put_summary<S: Sink>(alloc: Global, sink: &mut S, found: Summary) -> Result<(), WriteFault>
    ensures ok { OnOk result (Took (S.taken sink.old) (S.taken sink.new) (spec.accepted found.count found.width).text) }
    ensures err { OnErr result (TookFront (S.taken sink.old) (S.taken sink.new) (spec.accepted found.count found.width).text) }
    ensures counts { CountsPuts (S.faults sink.old) (S.faults sink.new) result }
{
    let line = summary_line(alloc, found)?;
    put(alloc, sink, line.as_bytes())
}

/// How many shapes there are, and how many bits a word has, a line.
fn summary_line(alloc: Global, found: Summary) -> Result<Text, Memory>
    ensures { IfOk result (λ t. t ≡ (spec.accepted found.count found.width).text) }
{
    let mut line = Text::from_bytes(alloc, b"description ok: ")?;
    line.push_bytes(dec(alloc, i128::from(found.count))?.as_bytes())?;
    line.push_bytes(b" shapes, ")?;
    line.push_bytes(dec(alloc, i128::from(found.width))?.as_bytes())?;
    line.push_bytes(b" bits\n")?;
    Ok(line)
}

/// Puts the words, a line each, and how many there are.
fn put_assembled<S: Sink>(
    alloc: Global,
    sink: &mut S,
    width: u32,
    words: &[u128],
) -> Result<(), WriteFault>
    ensures ok { OnOk result (Took (S.taken sink.old) (S.taken sink.new) (spec.assembled width words.now).text) }
    ensures err { OnErr result (TookFront (S.taken sink.old) (S.taken sink.new) (spec.assembled width words.now).text) }
    ensures counts { CountsPuts (S.faults sink.old) (S.faults sink.new) result }
{
    put_words(alloc, sink, width, words)?;
    let line = ok_line(alloc, words.len())?;
    put(alloc, sink, line.as_bytes())
}

/// Puts the words, a line each.
fn put_words<S: Sink>(
    alloc: Global,
    sink: &mut S,
    width: u32,
    words: &[u128],
) -> Result<(), WriteFault>
    ensures ok { OnOk result (Took (S.taken sink.old) (S.taken sink.new) (spec.word_lines width words.now)) }
    ensures err { OnErr result (TookFront (S.taken sink.old) (S.taken sink.new) (spec.word_lines width words.now)) }
    ensures counts { CountsPuts (S.faults sink.old) (S.faults sink.new) result }
{
    for word in words {
        let line = word_line(alloc, width, *word)?;
        put(alloc, sink, line.as_bytes())?;
    }
    Ok(())
}

/// Puts each line of the text, once.
fn put_lines<S: Sink>(alloc: Global, sink: &mut S, text: &[u8]) -> Result<(), WriteFault>
    ensures ok { OnOk result (Took (S.taken sink.old) (S.taken sink.new) text.now) }
    ensures err { OnErr result (TookFront (S.taken sink.old) (S.taken sink.new) text.now) }
    ensures counts { CountsPuts (S.faults sink.old) (S.faults sink.new) result }
{
    let mut rest = text;
    while !rest.is_empty() {
        let (line, more) = rest.split_at(line_len(rest));
        put(alloc, sink, line)?;
        rest = more;
    }
    Ok(())
}

/// How many bytes the first line has, its line feed included.
fn line_len(text: &[u8]) -> usize
    requires { 0 < length text.now }
    ensures some { 0 < result }
    ensures within { result ≤ length text.now }
{
    let before = before_feed(text);
    if before < text.len() {
        before + 1
    } else {
        before
    }
}

/// How many bytes stand before the first line feed.
fn before_feed(text: &[u8]) -> usize
    ensures { result ≤ length text.now }
{
    text.iter().take_while(|c| **c != b'\n').count()
}

/// A word in hexadecimal, a line.
fn word_line(alloc: Global, width: u32, word: u128) -> Result<Text, Memory>
    ensures { IfOk result (λ t. t ≡ spec.word_line width word) }
{
    let mut line = Text::new(alloc);
    push_hexadecimal(&mut line, ((u64::from(width) + 3) / 4) as u32, word)?;
    line.push_bytes(b"\n")?;
    Ok(line)
}

/// How many words there are, a line.
fn ok_line(alloc: Global, count: usize) -> Result<Text, Memory>
    ensures { IfOk result (λ t. t ≡ spec.ok_line count) }
{
    let mut line = Text::from_bytes(alloc, b"ok: ")?;
    line.push_bytes(dec(alloc, count as i128)?.as_bytes())?;
    line.push_bytes(b" words\n")?;
    Ok(line)
}
