//! How a fault of a description is told: one line for any of them.
ghost use Rattle.std.specs.Prelude.{◌≡◌, ◌++◌, OnOk};
ghost use Rattle.fault_texts.specs.FaultText as spec;

use crate::push::{push_name, push_number};
use nk_base::{Bits, Memory, Text, push_hexadecimal};
use nml_tree::{DescFault, Root};
use std::alloc::Global;

/// Whether memory was wanted, which is no fault of a description.
pub fn is_memory(fault: &DescFault) -> bool
    ensures { result ≡ spec.is_memory fault.now }
{
    match fault {
        DescFault::Lex { at: _ } => false,
        DescFault::Syntax { at: _ } => false,
        DescFault::Float { at: _ } => false,
        DescFault::Name { at: _ } => false,
        DescFault::Cycle { rule: _ } => false,
        DescFault::TypeFault { at: _ } => false,
        DescFault::Width { at: _ } => false,
        DescFault::Linear { rule: _, param: _ } => false,
        DescFault::WordWidth { rule: _ } => false,
        DescFault::Edge { rule: _ } => false,
        DescFault::Root { what: _ } => false,
        DescFault::Shapes {
            count: _,
            nodes: _,
            size: _,
        } => false,
        DescFault::SameImage {
            a: _,
            b: _,
            word: _,
        } => false,
        DescFault::SameSyntax {
            a: _,
            b: _,
            text: _,
        } => false,
        DescFault::Memory => true,
    }
}

/// Appends the number and the name of a fault, and its fields, each behind one blank; want of memory appends nothing.
pub fn push_fault(alloc: Global, line: &mut Text, fault: &DescFault) -> Result<(), Memory>
    ensures { OnOk result (line.new ≡ line.old ++ spec.fault_text fault.now) }
{
    match fault {
        DescFault::Lex { at } => push_number(alloc, line, b"N1 Lex ", *at),
        DescFault::Syntax { at } => push_number(alloc, line, b"N2 Syntax ", *at),
        DescFault::Float { at } => push_number(alloc, line, b"N3 Float ", *at),
        DescFault::Name { at } => push_number(alloc, line, b"N4 Name ", *at),
        DescFault::Cycle { rule } => push_name(line, b"N5 Cycle ", rule),
        DescFault::TypeFault { at } => push_number(alloc, line, b"N6 Type ", *at),
        DescFault::Width { at } => push_number(alloc, line, b"N7 Width ", *at),
        DescFault::Linear { rule, param } => {
            push_name(line, b"N8 Linear ", rule)?;
            push_name(line, b" ", param)
        }
        DescFault::WordWidth { rule } => push_name(line, b"N9 WordWidth ", rule),
        DescFault::Edge { rule } => push_name(line, b"N10 Edge ", rule),
        DescFault::Root { what } => push_root(line, *what),
        DescFault::Shapes { count, nodes, size } => {
            push_shapes(alloc, line, *count, *nodes, *size)
        }
        DescFault::SameImage { a, b, word } => push_same_image(line, a, b, word),
        DescFault::SameSyntax { a, b, text } => push_same_syntax(line, a, b, text),
        DescFault::Memory => Ok(()),
    }
}

/// Appends a text and a word in hexadecimal.
fn push_word(line: &mut Text, before: &[u8], word: &Bits) -> Result<(), Memory>
    ensures { OnOk result (line.new ≡ line.old ++ (before.now ++ spec.word_text word.now)) }
{
    line.push_bytes(before)?;
    push_hexadecimal(line, (word.width + 3) / 4, word.value)
}

/// Appends a text, and another in double quotes.
fn push_quoted(line: &mut Text, before: &[u8], text: &Text) -> Result<(), Memory>
    ensures { OnOk result (line.new ≡ line.old ++ (before.now ++ spec.quoted text.now)) }
{
    line.push_bytes(before)?;
    line.push(b'"')?;
    line.push_bytes(text.as_bytes())?;
    line.push(b'"')
}

/// Appends the fault that a name isn't declared.
fn push_root(line: &mut Text, what: Root) -> Result<(), Memory>
    ensures { OnOk result (line.new ≡ line.old ++ spec.fault_text (DescFault.Root what)) }
{
    match what {
        Root::Instruction => line.push_bytes(b"N11 Root instruction"),
        Root::Pc => line.push_bytes(b"N11 Root PC"),
    }
}

/// Appends the fault that there are too many shapes, or too large ones.
fn push_shapes(
    alloc: Global,
    line: &mut Text,
    count: u32,
    nodes: u32,
    size: u32,
) -> Result<(), Memory>
    ensures { OnOk result (line.new ≡ line.old ++ spec.fault_text (DescFault.Shapes count nodes size)) }
{
    push_number(alloc, line, b"N12 Shapes ", u64::from(count))?;
    push_number(alloc, line, b" ", u64::from(nodes))?;
    push_number(alloc, line, b" ", u64::from(size))
}

/// Appends the fault that two instructions have one image.
fn push_same_image(line: &mut Text, a: &Text, b: &Text, word: &Bits) -> Result<(), Memory>
    ensures { OnOk result (line.new ≡ line.old ++ spec.fault_text (DescFault.SameImage a.now b.now word.now)) }
{
    push_quoted(line, b"N13 SameImage ", a)?;
    push_quoted(line, b" ", b)?;
    push_word(line, b" ", word)
}

/// Appends the fault that two instructions have the same tokens.
fn push_same_syntax(line: &mut Text, a: &Bits, b: &Bits, text: &Text) -> Result<(), Memory>
    ensures { OnOk result (line.new ≡ line.old ++ spec.fault_text (DescFault.SameSyntax a.now b.now text.now)) }
{
    push_word(line, b"N14 SameSyntax ", a)?;
    push_word(line, b" ", b)?;
    push_quoted(line, b" ", text)
}
