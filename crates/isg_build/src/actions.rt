//! The actions of all shapes, as nodes.

ghost use Rattle.std.specs.Prelude.{◌≡◌, IfOk};
ghost use Rattle.isg_graph.specs.Graph.{AreFor, IsEffect};
ghost use Rattle.isg_nodes.specs.Grow.{Extends};
ghost use Rattle.isg_nodes.specs.Written.{Falls};
ghost use Rattle.nml_tree.specs.Refused.{IsTyped};

use indexmap::IndexMap;
use isg_nodes::{Key, Node, Numbers};
use isg_written::{Numbered, effect_of};
use nk_base::Memory;
use nml_known::Names;
use nml_shape::Shape;
use std::alloc::Global;

/// Nodes, and for each shape those of its action's statements.
#[derive(Drop)]
pub struct Actions {
    pub nodes: Vec<Node>,
    pub effects: Vec<Numbers>,
}

/// The actions of these shapes.
pub fn actions_of(alloc: Global, names: &Names<'_>, shapes: &[Shape]) -> Result<Actions, Memory>
    requires { IsTyped names.now }
    ensures falls { IfOk result (λ a. Falls a.nodes.items) }
    ensures effects { IfOk result (λ a. AreFor (IsEffect names.now a.nodes.items) shapes.now a.effects.items) }
{
    let numbered = Numbered::new(alloc, names)?;
    let mut nodes = Vec::new(alloc);
    let mut known = IndexMap::new(alloc);
    let mut effects = Vec::new(alloc);
    for shape in shapes {
        let effect = effect_at(alloc, &numbered, shape, &mut nodes, &mut known)?;
        effects.push(effect)?;
    }
    Ok(Actions { nodes, effects })
}

/// The action of the shape, behind these nodes.
#[tactic(auto, using(crate::proofs::Effects::effect_made))]
fn effect_at(
    alloc: Global,
    numbered: &Numbered<'_>,
    shape: &Shape,
    nodes: &mut Vec<Node>,
    known: &mut IndexMap<Key, u32>,
) -> Result<Numbers, Memory>
    requires typed { IsTyped numbered.now }
    requires falls { Falls nodes.old.items }
    ensures falls { Falls nodes.new.items }
    ensures extends { Extends nodes.old.items nodes.new.items }
    ensures effect { IfOk result (λ e. IsEffect numbered.now nodes.new.items shape.now e) }
{
    effect_of(alloc, numbered, shape.picks.as_slice(), nodes, known)
}
