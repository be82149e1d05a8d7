//! How a fault of assembly text is told: one line for any of them.

ghost use Rattle.std.specs.Prelude.{◌≡◌, ◌++◌, OnOk};
ghost use Rattle.fault_texts.specs.AsmFaultText as spec;

use crate::push::push_number;
use asm_text::AsmFault;
use nk_base::{Memory, Text};
use std::alloc::Global;

/// Whether memory was wanted, which is no fault of a text. It takes no memory. The rule is this project's own.
pub fn is_asm_memory(fault: &AsmFault) -> bool
    ensures { result ≡ spec.is_asm_memory fault.now }
{
    match fault {
        AsmFault::Lex { line: _ } => false,
        AsmFault::Label { line: _ } => false,
        AsmFault::NoMatch { line: _ } => false,
        AsmFault::Conflict { line: _ } => false,
        AsmFault::Full { count: _ } => false,
        AsmFault::Data { line: _ } => false,
        AsmFault::Memory => true,
    }
}

/// Appends the number and the name of a fault, and its line or its count of words in decimal, behind one blank; want of memory appends
/// nothing.
///
/// The rule is this project's own. The one error is want of memory; what was appended by then isn't said.
pub fn push_asm_fault(alloc: Global, line: &mut Text, fault: &AsmFault) -> Result<(), Memory>
    ensures { OnOk result (line.new ≡ line.old ++ spec.asm_fault_text fault.now) }
{
    match fault {
        AsmFault::Lex { line: at } => push_number(alloc, line, b"S1 Lex ", *at),
        AsmFault::Label { line: at } => push_number(alloc, line, b"S2 Label ", *at),
        AsmFault::NoMatch { line: at } => push_number(alloc, line, b"S3 NoMatch ", *at),
        AsmFault::Conflict { line: at } => push_number(alloc, line, b"S4 Conflict ", *at),
        AsmFault::Full { count } => push_number(alloc, line, b"S5 Full ", *count),
        AsmFault::Data { line: at } => push_number(alloc, line, b"S6 Data ", *at),
        AsmFault::Memory => Ok(()),
    }
}
