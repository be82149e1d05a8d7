ghost use Rattle.std.specs.Prelude.{◌≡◌, ◌≤◌, ◌+◌, ◌++◌, length, take, codes, OnOk, OnErr};
ghost use Rattle.std.specs.Fmt.{signed_decimal};
ghost use Rattle.nk_outside.specs.Taken.{Took, TookFront};
ghost use Rattle.nml_reply.specs.Ended.{CountsPuts};
ghost use Rattle.nml_reply.specs.Reply.{output_text, stop_line};
ghost use Rattle.nml_reply.specs.Seen.{stop_of};

use crate::Stop;
use crate::reply::put;
use nk_base::dec_into;
use nk_outside::{Sink, WriteFault};
use std::alloc::Global;

/// Room for a line of a run: none is longer.
const LINE: usize = 64;

/// Puts the line of an output of a run, its number in decimal, by one put; nothing where there is none.
///
/// It answers what the put answers, and takes no memory of its own. The rule is this project's own.
pub fn put_output<S: Sink>(alloc: Global, sink: &mut S, out: Option<i64>) -> Result<(), WriteFault>
    ensures ok { OnOk result (Took (S.taken sink.old) (S.taken sink.new) (output_text out)) }
    ensures err { OnErr result (TookFront (S.taken sink.old) (S.taken sink.new) (output_text out)) }
    ensures counts { CountsPuts (S.faults sink.old) (S.faults sink.new) result }
{
    match out {
        Some(number) => put_line(alloc, sink, b"", i128::from(number)),
        None => Ok(()),
    }
}

/// Puts the line that tells how a run stopped, by one put: `running`, `halted` and the code, `wants input`, or `no word` or `bad word` and the place.
///
/// It answers what the put answers, and takes no memory of its own. The rule is this project's own.
pub fn put_stop<S: Sink>(alloc: Global, sink: &mut S, stop: Stop) -> Result<(), WriteFault>
    ensures ok { OnOk result (Took (S.taken sink.old) (S.taken sink.new) (stop_line (stop_of stop))) }
    ensures err { OnErr result (TookFront (S.taken sink.old) (S.taken sink.new) (stop_line (stop_of stop))) }
    ensures counts { CountsPuts (S.faults sink.old) (S.faults sink.new) result }
{
    match stop {
        Stop::Running => put(alloc, sink, b"running\n"),
        Stop::Wants => put(alloc, sink, b"wants input\n"),
        Stop::Halted(code) => put_line(alloc, sink, b"halted ", i128::from(code)),
        Stop::NoWord(place) => put_line(alloc, sink, b"no word ", i128::from(place)),
        Stop::BadWord(place) => put_line(alloc, sink, b"bad word ", i128::from(place)),
    }
}

/// Puts a line of this text, of at most 20 bytes, and a number in decimal, by one put.
///
/// It answers what the put answers, and takes no memory of its own. The rule is this project's own.
pub fn put_line<S: Sink>(
    alloc: Global,
    sink: &mut S,
    before: &[u8],
    number: i128,
) -> Result<(), WriteFault>
    requires { length before.now ≤ 20 }
    ensures ok { OnOk result (Took (S.taken sink.old) (S.taken sink.new) (before.now ++ (signed_decimal number ++ codes "\n"))) }
    ensures err { OnErr result (TookFront (S.taken sink.old) (S.taken sink.new) (before.now ++ (signed_decimal number ++ codes "\n"))) }
    ensures counts { CountsPuts (S.faults sink.old) (S.faults sink.new) result }
{
    let mut line = [0; LINE];
    let length = write_line(&mut line, before, number);
    put(alloc, sink, &line[..length])
}

/// Writes a line of this text and a number; answers its length.
fn write_line(line: &mut [u8; LINE], before: &[u8], number: i128) -> usize
    requires { length before.now ≤ 20 }
    ensures within { result ≤ 64 }
    ensures text { take result line.new ≡ before.now ++ (signed_decimal number ++ codes "\n") }
{
    let mut digits = [0; 40];
    let length = dec_into(number, &mut digits);
    let behind = write_at(line, 0, before);
    let end = write_at(line, behind, &digits[..length]);
    write_at(line, end, b"\n")
}

/// Writes the bytes into the line, from this place on; answers the place behind them.
fn write_at(line: &mut [u8; LINE], from: usize, bytes: &[u8]) -> usize
    requires { from + length bytes.now ≤ 64 }
    ensures place { result ≡ from + length bytes.now }
    ensures text { take result line.new ≡ take from line.old ++ bytes.now }
{
    let end = from + bytes.len();
    line[from..end].copy_from_slice(bytes);
    end
}
