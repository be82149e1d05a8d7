use crate::fault::Fault;
use crate::stretch::{Stretch, stretch_of};

/// What a line of a transcript says.
#[derive(Clone, Copy)]
pub enum Step<'a> {
    /// Nothing: the line is empty or a remark.
    Remark,
    /// The bytes of a file follow.
    File(&'a str),
    /// A case of this name begins.
    Case(&'a str),
    /// In the next call, this call of files is to fail, counted from 1.
    FailCall(u64),
    /// In the next call, this put is to fail, counted from 1.
    FailPut(u64),
    /// The suite is called with these words; what it is to print follows.
    Call(&'a str),
    /// The call is to end with this status.
    Status(u64),
    /// The call is to take so many calls of files.
    Calls(u64),
    /// After the call, this file is to have the bytes that follow.
    After(&'a str),
    /// After the call, there is to be no such file.
    Gone(&'a str),
    /// Bytes of a file, or of what is printed.
    Stretch(Stretch<'a>),
}

/// What the line says, by its first word.
pub fn step_of(line: &str) -> Result<Step<'_>, Fault> {
    if line.is_empty() || line.starts_with('#') {
        return Ok(Step::Remark);
    }
    let (word, rest) = line.split_once(' ').unwrap_or((line, ""));
    match word {
        "file" => Ok(Step::File(rest)),
        "case" => Ok(Step::Case(rest)),
        "fail" => failing(rest),
        "$" => Ok(Step::Call(rest)),
        "status" => Ok(Step::Status(number_in(rest)?)),
        "calls" => Ok(Step::Calls(number_in(rest)?)),
        "after" => Ok(Step::After(rest)),
        "gone" => Ok(Step::Gone(rest)),
        _ => Ok(Step::Stretch(stretch_of(word, rest)?)),
    }
}

/// `call N` or `put N`.
fn failing(rest: &str) -> Result<Step<'_>, Fault> {
    let (word, number) = rest.split_once(' ').unwrap_or((rest, ""));
    match word {
        "call" => Ok(Step::FailCall(number_in(number)?)),
        "put" => Ok(Step::FailPut(number_in(number)?)),
        _ => Err(Fault::Line("behind `fail` stands `call N` or `put N`")),
    }
}

/// A number in decimal.
fn number_in(word: &str) -> Result<u64, Fault> {
    match word.parse::<u64>() {
        Ok(number) => Ok(number),
        Err(_) => Err(Fault::Line("here a number is wanted")),
    }
}
