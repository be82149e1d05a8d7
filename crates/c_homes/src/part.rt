//! What a tree and a statement are made of.

ghost use Rattle.std.specs.Prelude.{◌≡◌, ℕ};
ghost use Rattle.ir_run.specs.Node.{node};
ghost use Rattle.ir_run.specs.Entry.{entry};
ghost use Rattle.ir_run.specs.Entry as entries;
ghost use Rattle.ir_run.specs.Size as size;
ghost use Rattle.c_tree.specs.Lowered.{returned_label};
ghost use Rattle.c_homes.specs.Parts as over;

use ir_run::{Stmt, Tree};

/// What stands at a tree's root, with the trees below it.
///
/// The form is this project's own.
#[derive(Clone, Copy)]
pub(crate) enum Part<'a> {
    Leaf,
    Number(i64),
    Label(u32),
    One(&'a Tree),
    Two(&'a Tree, &'a Tree),
}

/// The trees of a statement.
///
/// The form is this project's own.
#[derive(Clone, Copy)]
pub(crate) enum Trees<'a> {
    Without,
    One(&'a Tree),
    Two(&'a Tree, &'a Tree),
}

/// What stands at the root of a tree.
#[tactic(auto, using(ir_run::proofs::Nodes::node_laws))]
pub(crate) fn part_of(tree: &Tree) -> Part<'_>
    ensures numbers { size.constants (node tree.now) ≡ over.numbers result }
    ensures count { size.nodes (node tree.now) ≡ over.count result }
    ensures label { (k : ℕ) → returned_label (entries.Set k (node tree.now)) ≡ over.label result }
{
    match tree {
        Tree::Const(z) => Part::Number(*z),
        Tree::Base(_) => Part::Leaf,
        Tree::Label(l) => Part::Label(*l),
        Tree::Cell(_) => Part::Leaf,
        Tree::In => Part::Leaf,
        Tree::Load(t) => Part::One(t.get()),
        Tree::Neg(t) => Part::One(t.get()),
        Tree::Not(t) => Part::One(t.get()),
        Tree::Shl(t, _) => Part::One(t.get()),
        Tree::Shr(t, _) => Part::One(t.get()),
        Tree::Add(t, u) => Part::Two(t.get(), u.get()),
        Tree::Sub(t, u) => Part::Two(t.get(), u.get()),
        Tree::Mul(t, u) => Part::Two(t.get(), u.get()),
        Tree::And(t, u) => Part::Two(t.get(), u.get()),
        Tree::Or(t, u) => Part::Two(t.get(), u.get()),
        Tree::Xor(t, u) => Part::Two(t.get(), u.get()),
    }
}

/// The trees of a statement.
pub(crate) fn trees_of(statement: &Stmt) -> Trees<'_>
    ensures { size.trees_of (entry statement.now) ≡ over.trees result }
{
    match statement {
        Stmt::Set(_, t) => Trees::One(t),
        Stmt::Store(t, u) => Trees::Two(t, u),
        Stmt::Out(t) => Trees::One(t),
        Stmt::Branch(_, t, u, _) => Trees::Two(t, u),
        Stmt::JumpCell(_) => Trees::Without,
        Stmt::Jump(_) => Trees::Without,
        Stmt::Mark(_) => Trees::Without,
        Stmt::Halt(_) => Trees::Without,
    }
}
