//! How a fault of a C program is told: one line for any of them.

ghost use Rattle.std.specs.Prelude.{◌≡◌, ◌++◌, OnOk};
ghost use Rattle.fault_texts.specs.CFaultText as spec;

use crate::push::{push_name, push_number};
use c_tree::CFault;
use nk_base::{Memory, Text};
use std::alloc::Global;

/// Whether memory was wanted, which is no fault of a program.
pub fn is_c_memory(fault: &CFault) -> bool
    ensures { result ≡ spec.is_c_memory fault.now }
{
    match fault {
        CFault::Lex { at: _ } => false,
        CFault::Syntax { at: _ } => false,
        CFault::Outside { at: _ } => false,
        CFault::Name { at: _ } => false,
        CFault::Kind { at: _ } => false,
        CFault::Literal { at: _ } => false,
        CFault::Shift { at: _ } => false,
        CFault::Recursion { name: _ } => false,
        CFault::Main => false,
        CFault::Memory => true,
    }
}

/// Appends the number and the name of a fault, and its fields, each behind one blank; want of memory appends nothing.
pub fn push_c_fault(alloc: Global, line: &mut Text, fault: &CFault) -> Result<(), Memory>
    ensures { OnOk result (line.new ≡ line.old ++ spec.c_fault_text fault.now) }
{
    match fault {
        CFault::Lex { at } => push_number(alloc, line, b"C1 Lex ", u64::from(*at)),
        CFault::Syntax { at } => push_number(alloc, line, b"C2 Syntax ", u64::from(*at)),
        CFault::Outside { at } => push_number(alloc, line, b"C3 Outside ", u64::from(*at)),
        CFault::Name { at } => push_number(alloc, line, b"C4 Name ", u64::from(*at)),
        CFault::Kind { at } => push_number(alloc, line, b"C5 Kind ", u64::from(*at)),
        CFault::Literal { at } => push_number(alloc, line, b"C6 Literal ", u64::from(*at)),
        CFault::Shift { at } => push_number(alloc, line, b"C7 Shift ", u64::from(*at)),
        CFault::Recursion { name } => push_name(line, b"C8 Recursion ", name),
        CFault::Main => line.push_bytes(b"C9 Main"),
        CFault::Memory => Ok(()),
    }
}
