ghost use Rattle.std.specs.Prelude.{◌≡◌, ◌≤◌, length, if◌then◌else◌};
ghost use Rattle.fault_texts.specs.FaultText as text;
ghost use Rattle.nk_outside.specs.Held.{file_limit};
ghost use Rattle.nml_reply.specs.Refusals.{refused};
ghost use Rattle.nml_reply.specs.Reply.{description_fault, starved};
ghost use Rattle.nml_suite.specs.Refusing.{IsBuiltOf, IsCheckedAs, IsGraphOf, IsReadAs, IsSpelledAs};

use fault_texts::is_memory;
use isg_build::build;
use isg_graph::Isg;
use nk_base::{Memory, Text};
use nml_read::read;
use nml_reply::Refusal;
use nml_tree::{Checked, Desc, DescFault};
use nml_types::check;
use std::alloc::Global;

/// The graph of the description that the bytes of the named file are accepted as.
pub fn graph_of<'a>(alloc: Global, name: &'a Text, bytes: &[u8]) -> Result<Isg, Refusal<'a>>
    requires { length bytes.now ≤ file_limit }
    ensures { IsGraphOf name.now bytes.now result }
{
    let tree = accepted(alloc, name, bytes)?;
    built(alloc, tree)
}

/// The tree that the bytes of the named file are accepted as.
pub fn accepted<'a>(alloc: Global, name: &'a Text, bytes: &[u8]) -> Result<Checked, Refusal<'a>>
    requires { length bytes.now ≤ file_limit }
    ensures { IsReadAs name.now bytes.now result }
{
    let tree = spelled(alloc, name, bytes)?;
    checked(alloc, name, tree)
}

/// The tree of a description that is accepted.
pub fn tree_of(accepted: &Checked) -> &Desc
    ensures { result.now ≡ accepted.now }
{
    &accepted.typed().desc
}

/// The tree that the bytes of the named file spell.
fn spelled<'a>(alloc: Global, name: &'a Text, bytes: &[u8]) -> Result<Desc, Refusal<'a>>
    requires { length bytes.now ≤ file_limit }
    ensures { IsSpelledAs name.now bytes.now result }
{
    match read(alloc, bytes) {
        Ok(tree) => Ok(tree),
        Err(fault) => Err(refusal_of(name, fault)),
    }
}

/// The tree of the named file, where it has no fault.
fn checked<'a>(alloc: Global, name: &'a Text, tree: Desc) -> Result<Checked, Refusal<'a>>
    ensures { IsCheckedAs name.now tree result }
{
    match check(alloc, tree) {
        Ok(tree) => Ok(tree),
        Err(fault) => Err(refusal_of(name, fault)),
    }
}

/// The refusal of the named description for a fault.
fn refusal_of<'a>(name: &'a Text, fault: DescFault) -> Refusal<'a>
    ensures { refused result ≡ (if text.is_memory fault then starved else description_fault name.now fault) }
{
    if is_memory(&fault) {
        Refusal::Memory
    } else {
        Refusal::Description(name, fault)
    }
}

/// The graph of a description.
fn built<'a>(alloc: Global, tree: Checked) -> Result<Isg, Refusal<'a>>
    ensures { IsBuiltOf tree result }
{
    match build(alloc, tree) {
        Ok(graph) => {
            graph.is_whole();
            Ok(graph)
        }
        Err(Memory) => Err(Refusal::Memory),
    }
}
