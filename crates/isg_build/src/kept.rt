//! What is kept of each action beside its statements.

ghost use Rattle.std.specs.Prelude.{◌≡◌, IfOk, IsTrue, length};
ghost use Rattle.isg_build.specs.Kept.{AreWithin, NoneClashes};
ghost use Rattle.isg_graph.specs.Graph.{AreFor};
ghost use Rattle.isg_graph.specs.Kept.{AreReads, AreWrites};
ghost use Rattle.isg_nodes.specs.Written.{AllBelow, Falls};

use isg_legal::never_clashes;
use isg_nodes::{Node, Numbers};
use isg_places::{Spots, reads_of, writes_of};
use nk_base::Memory;
use std::alloc::Global;

/// Of each effect, whether none of its instructions can clash.
pub fn quiet_of(alloc: Global, nodes: &[Node], effects: &[Numbers]) -> Result<Vec<bool>, Memory>
    requires falls { Falls nodes.now }
    requires within { AreWithin nodes.now effects.now }
    ensures { IfOk result (λ quiet. AreFor (NoneClashes nodes.now) effects.now quiet.items) }
{
    let mut quiet = Vec::new(alloc);
    for effect in effects {
        quiet.push(never_clashes(nodes, effect.as_slice()))?;
    }
    Ok(quiet)
}

/// Of each effect, the cells that it names as read.
pub fn reads_of_all(
    alloc: Global,
    nodes: &[Node],
    effects: &[Numbers],
) -> Result<Vec<Spots>, Memory>
    requires falls { Falls nodes.now }
    requires within { AreWithin nodes.now effects.now }
    ensures { IfOk result (λ all. AreFor (AreReads nodes.now) effects.now all.items) }
{
    let mut all = Vec::new(alloc);
    for effect in effects {
        all.push(reads_at(alloc, nodes, effect)?)?;
    }
    Ok(all)
}

/// The cells that the effect names as read.
fn reads_at(alloc: Global, nodes: &[Node], effect: &Numbers) -> Result<Spots, Memory>
    requires falls { Falls nodes.now }
    requires within { AllBelow effect.now (length nodes.now) }
    ensures { IfOk result (AreReads nodes.now effect.now) }
{
    reads_of(alloc, nodes, effect.as_slice())
}

/// Of each effect, the cells that it names as written.
pub fn writes_of_all(
    alloc: Global,
    nodes: &[Node],
    effects: &[Numbers],
) -> Result<Vec<Spots>, Memory>
    requires falls { Falls nodes.now }
    requires within { AreWithin nodes.now effects.now }
    ensures { IfOk result (λ all. AreFor (AreWrites nodes.now) effects.now all.items) }
{
    let mut all = Vec::new(alloc);
    for effect in effects {
        all.push(writes_at(alloc, nodes, effect)?)?;
    }
    Ok(all)
}

/// The cells that the effect names as written.
fn writes_at(alloc: Global, nodes: &[Node], effect: &Numbers) -> Result<Spots, Memory>
    requires falls { Falls nodes.now }
    requires within { AllBelow effect.now (length nodes.now) }
    ensures { IfOk result (AreWrites nodes.now effect.now) }
{
    writes_of(alloc, nodes, effect.as_slice())
}
