use nk_base::{Memory, Text};
use std::alloc::{AllocFailed, Global};

/// Why a line isn't taken: it isn't one of a case, or not where it stands; or want of memory.
#[derive(Clone, Copy)]
pub enum Fault {
    Line(&'static str),
    Memory,
}

impl From<Memory> for Fault {
    fn from(_: Memory) -> Fault {
        Fault::Memory
    }
}

impl<T: Drop> From<AllocFailed<T>> for Fault {
    fn from(_: AllocFailed<T>) -> Fault {
        Fault::Memory
    }
}

/// A program, an input, two bounds, and what is wanted of the program's runs.
#[derive(Drop)]
pub struct Case {
    pub name: Text,
    /// How many bits a number has.
    pub bits: u64,
    /// How many cells the statements are to have, and how many of them are to have trees, where that is told.
    pub data: Option<u64>,
    pub trees: Option<u64>,
    /// The program, and whether the lines that follow are its.
    pub program: Text,
    pub is_open: bool,
    pub input: Vec<i64>,
    /// The bounds of the program's turns and of the statements' steps.
    pub turns: u64,
    pub steps: u64,
    /// What both print, a line for each number, and how both stop, where that is told.
    pub prints: Option<Text>,
    pub stops: Option<Text>,
}

impl Case {
    /// A case of which only the name is told.
    pub fn new(alloc: Global, name: &str) -> Result<Case, Memory> {
        Ok(Case {
            name: Text::from_bytes(alloc, name.as_bytes())?,
            bits: 16,
            data: None,
            trees: None,
            program: Text::new(alloc),
            is_open: false,
            input: Vec::new(alloc),
            turns: 100_000,
            steps: 1_000_000,
            prints: None,
            stops: None,
        })
    }

    /// Takes a line of the program, or its end.
    pub fn program_line(&mut self, line: &str) -> Result<(), Fault> {
        if line == "end" {
            self.is_open = false;
            return Ok(());
        }
        self.program.push_bytes(line.as_bytes())?;
        self.program.push(b'\n')?;
        Ok(())
    }

    /// Takes a line of another kind, its first word given apart.
    pub fn line(&mut self, alloc: Global, word: &str, rest: &str) -> Result<(), Fault> {
        match word {
            "bits" => self.bits = number_in(rest)?,
            "data" => self.data = Some(number_in(rest)?),
            "trees" => self.trees = Some(number_in(rest)?),
            "program" => self.is_open = true,
            "input" => push_input(&mut self.input, rest)?,
            "turns" => self.turns = number_in(rest)?,
            "steps" => self.steps = number_in(rest)?,
            "prints" => self.print(alloc, rest)?,
            "stops" => self.stops = Some(Text::from_bytes(alloc, rest.as_bytes())?),
            _ => return Err(Fault::Line("no line of a case has this word here")),
        }
        Ok(())
    }

    /// Both print these numbers too.
    fn print(&mut self, alloc: Global, numbers: &str) -> Result<(), Fault> {
        let mut text = self.prints.take().unwrap_or(Text::new(alloc));
        for number in numbers.split_whitespace() {
            text.push_bytes(number.as_bytes())?;
            text.push(b'\n')?;
        }
        self.prints = Some(text);
        Ok(())
    }
}

/// Appends the numbers to those of the input.
fn push_input(input: &mut Vec<i64>, numbers: &str) -> Result<(), Fault> {
    for number in numbers.split_whitespace() {
        match number.parse::<i64>() {
            Ok(number) => input.push(number)?,
            Err(_) => return Err(Fault::Line("here numbers are wanted")),
        }
    }
    Ok(())
}

/// A number in decimal.
fn number_in(word: &str) -> Result<u64, Fault> {
    match word.parse::<u64>() {
        Ok(number) => Ok(number),
        Err(_) => Err(Fault::Line("here a number is wanted")),
    }
}
