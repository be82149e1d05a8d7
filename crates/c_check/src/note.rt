//! What a walk through a program notes.

ghost use Rattle.std.specs.Prelude.{◌≡◌, ◌++◌, ◌∷◌, [], ◌&&◌, OnOk, not, nat_lt, nat_le, ◌^◌, ◌-◌};
ghost use Rattle.c_tree.specs.Faults.{BadName, BadKind, BadNumber, BadShift, unless, use_faults, call_faults, number_faults, length_faults, initial_faults, value_place};
ghost use Rattle.c_tree.specs.Recursion.{callee_of};
ghost use Rattle.c_check.specs.Note.{noted, sooner_of};

use crate::numbers::{Width, is_initial, is_literal};
use c_tree::{Meaning, Number, SNum};
use nk_base::Memory;

/// The least place of each kind of fault, where any was met: of names, of kinds, of numbers, of shifts.
///
/// The form is this project's own.
#[derive(Clone, Copy)]
pub struct Found {
    pub names: Option<u32>,
    pub kinds: Option<u32>,
    pub numbers: Option<u32>,
    pub shifts: Option<u32>,
}

/// What was met so far: faults, and the numbers of the functions that are called.
///
/// The form is this project's own.
#[derive(Drop)]
pub struct Notes {
    pub found: Found,
    pub calls: Vec<usize>,
}

/// The lesser place of two.
fn sooner(found: Option<u32>, at: u32) -> Option<u32>
    ensures { result ≡ sooner_of found at }
{
    match found {
        None => Some(at),
        Some(b) => Some(if at < b { at } else { b }),
    }
}

impl Notes {
    /// Notes a fault of a name where the condition fails.
    pub fn name_unless(&mut self, good: bool, at: u32)
        ensures { self.new ≡ record self.old { found = noted self.old.found (unless good (BadName at)) } }
    {
        if !good {
            self.found.names = sooner(self.found.names, at);
        }
    }

    /// Notes a fault of a kind where the condition fails.
    pub fn kind_unless(&mut self, good: bool, at: u32)
        ensures { self.new ≡ record self.old { found = noted self.old.found (unless good (BadKind at)) } }
    {
        if !good {
            self.found.kinds = sooner(self.found.kinds, at);
        }
    }

    /// Notes a fault of a number where the condition fails.
    pub fn number_unless(&mut self, good: bool, at: u32)
        ensures { self.new ≡ record self.old { found = noted self.old.found (unless good (BadNumber at)) } }
    {
        if !good {
            self.found.numbers = sooner(self.found.numbers, at);
        }
    }

    /// Notes a fault of a shift where the condition fails.
    pub fn shift_unless(&mut self, good: bool, at: u32)
        ensures { self.new ≡ record self.old { found = noted self.old.found (unless good (BadShift at)) } }
    {
        if !good {
            self.found.shifts = sooner(self.found.shifts, at);
        }
    }

    /// Notes a number of an expression that isn't in its range.
    pub fn literal(&mut self, width: Width, number: Number)
        ensures { self.new ≡ record self.old { found = noted self.old.found (number_faults width.bits number) } }
    {
        self.number_unless(is_literal(width, number), number.at);
    }

    /// Notes an initial value that isn't in its range.
    pub fn start(&mut self, width: Width, z: SNum)
        ensures { self.new ≡ record self.old { found = noted self.old.found (initial_faults width.bits z) } }
    {
        self.number_unless(is_initial(width, z), place_of(z));
    }

    /// Notes an array's length that isn't in its range.
    pub fn length(&mut self, number: Number)
        ensures { self.new ≡ record self.old { found = noted self.old.found (length_faults number) } }
    {
        self.kind_unless(1 <= number.value && number.value <= 65536, number.at);
    }

    /// Notes a name that is used without a call and means something else, or nothing.
    pub fn used(&mut self, meaning: Option<Meaning>, indexed: bool, at: u32)
        ensures { self.new ≡ record self.old { found = noted self.old.found (use_faults meaning indexed at) } }
    {
        match meaning {
            None => self.name_unless(false, at),
            Some(found) => match found {
                Meaning::OneCell(_) => self.kind_unless(!indexed, at),
                Meaning::Cells(_, _) => self.kind_unless(indexed, at),
                Meaning::Callee(_, _, _) => self.kind_unless(false, at),
                Meaning::Main => self.kind_unless(false, at),
                Meaning::In => self.kind_unless(false, at),
                Meaning::Out => self.kind_unless(false, at),
            },
        }
    }

    /// Notes a name that is called, with so many arguments, and may not be called so; `used` is whether the value is
    /// used.
    pub fn called(&mut self, meaning: Option<Meaning>, arguments: usize, used: bool, at: u32)
        ensures { self.new ≡ record self.old { found = noted self.old.found (call_faults meaning arguments used at) } }
    {
        match meaning {
            None => self.name_unless(false, at),
            Some(found) => match found {
                Meaning::OneCell(_) => self.kind_unless(false, at),
                Meaning::Cells(_, _) => self.kind_unless(false, at),
                Meaning::Callee(_, arity, gives) => {
                    self.kind_unless(arguments == arity && (!used || gives), at)
                }
                Meaning::Main => self.kind_unless(false, at),
                Meaning::In => self.kind_unless(arguments == 0, at),
                Meaning::Out => self.kind_unless(arguments == 1 && !used, at),
            },
        }
    }

    /// Notes the function that is called. The one error is want of memory.
    pub fn call(&mut self, meaning: Option<Meaning>) -> Result<(), Memory>
        ensures found { OnOk result (self.new.found ≡ self.old.found) }
        ensures calls { OnOk result (self.new.calls.items ≡ self.old.calls.items ++ callee_of meaning) }
    {
        match meaning {
            None => Ok(()),
            Some(found) => match found {
                Meaning::Callee(number, _, _) => {
                    self.calls.push(number)?;
                    Ok(())
                }
                Meaning::OneCell(_) => Ok(()),
                Meaning::Cells(_, _) => Ok(()),
                Meaning::Main => Ok(()),
                Meaning::In => Ok(()),
                Meaning::Out => Ok(()),
            },
        }
    }
}

/// The place of an initial value: its `-`, where it has one.
pub fn place_of(z: SNum) -> u32
    ensures { result ≡ value_place z.minus z.number }
{
    match z.minus {
        None => z.number.at,
        Some(at) => at,
    }
}
