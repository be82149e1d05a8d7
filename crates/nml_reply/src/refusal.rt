ghost use Rattle.std.specs.Prelude.{◌≡◌, ◌++◌, IfOk, codes};
ghost use Rattle.std.specs.Fmt.{decimal};
ghost use Rattle.nml_reply.specs.Refusals.{refused};
ghost use Rattle.nml_reply.specs.Reply.{description_fault, image_fault, no_target, program_fault, text_fault};

use crate::Status;
use asm_text::AsmFault;
use c_tree::CFault;
use fault_texts::{push_asm_fault, push_c_fault, push_fault, push_image_fault};
use image_file::ImageFault;
use nk_base::{Memory, Text, dec};
use nml_target::Lacking;
use nml_tree::DescFault;
use std::alloc::Global;

/// Why a command has no result: want of memory, or what is told of the file of a name. The form is this project's own.
#[derive(Drop)]
pub enum Refusal<'a> {
    /// Memory was wanted.
    Memory,
    /// The file is absent.
    Absent(&'a Text),
    /// The read of the file failed.
    Failed(&'a Text),
    /// The file has too many bytes to be read.
    TooLong(&'a Text),
    /// The write of the file failed.
    Unwritten(&'a Text),
    /// The file is no description, and why.
    Description(&'a Text, DescFault),
    /// The file is no assembly text for the description, and why.
    Source(&'a Text, AsmFault),
    /// The file is no image of the description, and why.
    Image(&'a Text, ImageFault),
    /// The line of this number, from 1, of an input isn't blank, and writes no number that is wanted.
    Input(&'a Text, u64),
    /// The file is no program, and why.
    Program(&'a Text, CFault),
    /// The file is no description for programs, and why.
    NoTarget(&'a Text, Lacking),
}

impl Refusal<'_> {
    /// The status that the call ends with. The rule is this project's own.
    pub fn status(&self) -> Status
        ensures { result ≡ (refused self.now).status }
    {
        match self {
            Refusal::Memory => Status::Memory,
            Refusal::Absent(_) | Refusal::Failed(_) => Status::Read,
            Refusal::TooLong(_) => Status::TooLong,
            Refusal::Unwritten(_) => Status::Write,
            Refusal::Description(_, _) => Status::Description,
            Refusal::Source(_, _) => Status::Source,
            Refusal::Image(_, _) => Status::Image,
            Refusal::Input(_, _) => Status::Input,
            Refusal::Program(_, _) => Status::Source,
            Refusal::NoTarget(_, _) => Status::NotClosed,
        }
    }

    /// The line that tells it, its line feed included; want of memory has no text here.
    ///
    /// The one error is want of memory. The rule is this project's own.
    pub fn line(&self, alloc: Global) -> Result<Text, Memory>
        ensures { IfOk result (λ t. t ≡ (refused self.now).text) }
    {
        match self {
            Refusal::Memory => Ok(Text::new(alloc)),
            Refusal::Absent(name) => named(alloc, name, b": absent\n"),
            Refusal::Failed(name) => named(alloc, name, b": read failed\n"),
            Refusal::TooLong(name) => named(alloc, name, b": too long\n"),
            Refusal::Unwritten(name) => named(alloc, name, b": write failed\n"),
            Refusal::Description(name, fault) => faulty(alloc, name, fault),
            Refusal::Source(name, fault) => faulty_text(alloc, name, fault),
            Refusal::Image(name, fault) => faulty_image(alloc, name, fault),
            Refusal::Input(name, line) => numbered(alloc, name, b": Input ", *line),
            Refusal::Program(name, fault) => faulty_program(alloc, name, fault),
            Refusal::NoTarget(name, what) => lacking(alloc, name, *what),
        }
    }
}

/// A name and what stands behind it.
fn named(alloc: Global, name: &Text, rest: &[u8]) -> Result<Text, Memory>
    ensures { IfOk result (λ t. t ≡ name.now ++ rest.now) }
{
    let mut line = Text::from_bytes(alloc, name.as_bytes())?;
    line.push_bytes(rest)?;
    Ok(line)
}

/// A name, and the fault of the description that has it.
fn faulty(alloc: Global, name: &Text, fault: &DescFault) -> Result<Text, Memory>
    ensures { IfOk result (λ t. t ≡ (description_fault name.now fault.now).text) }
{
    let mut line = named(alloc, name, b": ")?;
    push_fault(alloc, &mut line, fault)?;
    line.push_bytes(b"\n")?;
    Ok(line)
}

/// A name, and the fault of the assembly text that has it.
fn faulty_text(alloc: Global, name: &Text, fault: &AsmFault) -> Result<Text, Memory>
    ensures { IfOk result (λ t. t ≡ (text_fault name.now fault.now).text) }
{
    let mut line = named(alloc, name, b": ")?;
    push_asm_fault(alloc, &mut line, fault)?;
    line.push_bytes(b"\n")?;
    Ok(line)
}

/// A name, and the fault of the image that has it.
fn faulty_image(alloc: Global, name: &Text, fault: &ImageFault) -> Result<Text, Memory>
    ensures { IfOk result (λ t. t ≡ (image_fault name.now fault.now).text) }
{
    let mut line = named(alloc, name, b": ")?;
    push_image_fault(alloc, &mut line, fault)?;
    line.push_bytes(b"\n")?;
    Ok(line)
}

/// A name, and the fault of the program that has it.
fn faulty_program(alloc: Global, name: &Text, fault: &CFault) -> Result<Text, Memory>
    ensures { IfOk result (λ t. t ≡ (program_fault name.now fault.now).text) }
{
    let mut line = named(alloc, name, b": ")?;
    push_c_fault(alloc, &mut line, fault)?;
    line.push_bytes(b"\n")?;
    Ok(line)
}

/// A name, and what the description that has it lacks for programs.
fn lacking(alloc: Global, name: &Text, what: Lacking) -> Result<Text, Memory>
    ensures { IfOk result (λ t. t ≡ (no_target name.now what).text) }
{
    match what {
        Lacking::Dm => named(alloc, name, b": K4 NoTarget DM\n"),
        Lacking::In => named(alloc, name, b": K4 NoTarget IN\n"),
        Lacking::Out => named(alloc, name, b": K4 NoTarget OUT\n"),
    }
}

/// A name, what stands behind it, and the number of a line.
fn numbered(alloc: Global, name: &Text, fault: &[u8], number: u64) -> Result<Text, Memory>
    ensures { IfOk result (λ t. t ≡ name.now ++ (fault.now ++ (decimal number ++ codes "\n"))) }
{
    let mut line = named(alloc, name, fault)?;
    line.push_bytes(dec(alloc, i128::from(number))?.as_bytes())?;
    line.push_bytes(b"\n")?;
    Ok(line)
}
