ghost use Rattle.std.specs.Prelude.{◌≡◌, ◌≤◌, ◌∷◌, [], ℕ, length, if◌then◌else◌};
ghost use Rattle.fault_texts.specs.CFaultText as text;
ghost use Rattle.nk_outside.specs.Held.{file_limit};
ghost use Rattle.nml_reply.specs.Refusals.{refused};
ghost use Rattle.nml_reply.specs.Reply.{program_fault, starved};
ghost use Rattle.nml_suite.specs.Coming.{CevalComesTo};
ghost use Rattle.nml_suite.specs.Reading.{store};
ghost use Rattle.nml_suite.specs.Refusing.{IsCompiled, IsProgramChecked, IsProgramSpelled, IsTargeted, Settles, evaluated};

use crate::describe::{accepted, tree_of};
use crate::input::numbered;
use crate::load::load;
use c_check::check;
use c_read::read;
use c_tree::{CFault, CProg, CTree};
use fault_texts::is_c_memory;
use nk_base::{Memory, Text, Ty};
use nk_outside::Files;
use nml_known::Names;
use nml_reply::Refusal;
use nml_target::target;
use nml_tree::Desc;
use std::alloc::Global;

/// What an evaluation begins with: a program, and the numbers of its input.
#[derive(Drop)]
pub struct Prepared {
    pub program: CProg,
    pub numbers: Vec<i64>,
}

/// Reads a description, a program and an input, and refuses each before the next is read.
pub fn prepare_program<'a, F: Files>(
    alloc: Global,
    files: &mut F,
    description: &'a Text,
    source: &'a Text,
    input: &'a Text,
) -> Result<Prepared, Refusal<'a>>
    ensures { (turns : ℕ) → Settles (store (F.held files.old) (F.counts files.old)) (store (F.held files.new) (F.counts files.new)) (description.now ∷ source.now ∷ input.now ∷ []) (CevalComesTo description.now source.now input.now turns) (evaluated turns result) }
{
    let bytes = load(alloc, files, description)?;
    let tree = accepted(alloc, description, &bytes)?;
    let width = targeted(alloc, description, tree_of(&tree))?;
    let text = load(alloc, files, source)?;
    let program = compiled(alloc, source, &text, width)?;
    let entry = load(alloc, files, input)?;
    let numbers = numbered(alloc, input, &entry, Some(Ty::Int(width)))?;
    Ok(Prepared { program, numbers })
}

/// How many bits the numbers have that programs compute with on the named file's description.
fn targeted<'a>(alloc: Global, name: &'a Text, tree: &Desc) -> Result<u32, Refusal<'a>>
    ensures { IsTargeted name.now tree.now result }
{
    let names = match Names::new(alloc, tree) {
        Ok(names) => names,
        Err(Memory) => return Err(Refusal::Memory),
    };
    match target(&names) {
        Ok(width) => Ok(width),
        Err(what) => Err(Refusal::NoTarget(name, what)),
    }
}

/// The program that the bytes of the named file are accepted as.
fn compiled<'a>(
    alloc: Global,
    name: &'a Text,
    bytes: &[u8],
    width: u32,
) -> Result<CProg, Refusal<'a>>
    requires limit { length bytes.now ≤ file_limit }
    requires low { 16 ≤ width }
    requires high { width ≤ 32 }
    ensures { IsCompiled name.now bytes.now width result }
{
    let tree = program_of(alloc, name, bytes)?;
    checked_program(alloc, name, tree, width)
}

/// The program that the bytes of the named file spell.
fn program_of<'a>(alloc: Global, name: &'a Text, bytes: &[u8]) -> Result<CTree, Refusal<'a>>
    requires { length bytes.now ≤ file_limit }
    ensures { (n : ℕ) → IsProgramSpelled name.now bytes.now n result }
{
    match read(alloc, bytes) {
        Ok(tree) => Ok(tree),
        Err(fault) => Err(refusal_of(name, fault)),
    }
}

/// The program of the named file, where it has none of the faults C4 to C9.
fn checked_program<'a>(
    alloc: Global,
    name: &'a Text,
    tree: CTree,
    width: u32,
) -> Result<CProg, Refusal<'a>>
    requires low { 16 ≤ width }
    requires high { width ≤ 32 }
    ensures { IsProgramChecked name.now width tree result }
{
    match check(alloc, tree, width) {
        Ok(program) => Ok(program),
        Err(fault) => Err(refusal_of(name, fault)),
    }
}

/// The refusal of the named program for a fault.
fn refusal_of<'a>(name: &'a Text, fault: CFault) -> Refusal<'a>
    ensures { refused result ≡ (if text.is_c_memory fault then starved else program_fault name.now fault) }
{
    if is_c_memory(&fault) {
        Refusal::Memory
    } else {
        Refusal::Program(name, fault)
    }
}
