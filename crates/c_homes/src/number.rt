//! The numbers in the trees of statements, and how many nodes these have.

ghost use Rattle.std.specs.Prelude.{◌≡◌, ◌++◌, [], ◌∷◌, flat_map, map, OnOk, IfOk};
ghost use Rattle.ir_run.specs.Node.{node};
ghost use Rattle.ir_run.specs.Entry.{entry};
ghost use Rattle.ir_run.specs.Size as size;

use crate::part::{Part, Trees, part_of, trees_of};
use crate::sum::sum;
use ir_run::{Stmt, Tree};
use nk_base::Memory;

/// The number behind the others. The one error is want of memory.
fn push(z: i64, out: &mut Vec<i64>) -> Result<(), Memory>
    ensures { OnOk result (out.new.items ≡ out.old.items ++ z ∷ []) }
{
    out.push(z)?;
    Ok(())
}

/// The numbers in a tree behind the others, from left to right.
fn push_tree(tree: &Tree, out: &mut Vec<i64>) -> Result<(), Memory>
    ensures { OnOk result (out.new.items ≡ out.old.items ++ size.constants (node tree.now)) }
{
    match part_of(tree) {
        Part::Leaf => Ok(()),
        Part::Number(z) => push(z, out),
        Part::Label(_) => Ok(()),
        Part::One(t) => push_tree(t, out),
        Part::Two(t, u) => {
            push_tree(t, out)?;
            push_tree(u, out)
        }
    }
}

/// The numbers in the trees of a statement behind the others.
fn push_statement(statement: &Stmt, out: &mut Vec<i64>) -> Result<(), Memory>
    ensures { OnOk result (out.new.items ≡ out.old.items ++ flat_map size.constants (size.trees_of (entry statement.now))) }
{
    match trees_of(statement) {
        Trees::Without => Ok(()),
        Trees::One(t) => push_tree(t, out),
        Trees::Two(t, u) => {
            push_tree(t, out)?;
            push_tree(u, out)
        }
    }
}

/// The numbers in the trees of statements, behind the others, in the order of the statements.
///
/// The one error is want of memory.
pub fn push_numbers(statements: &[Stmt], out: &mut Vec<i64>) -> Result<(), Memory>
    ensures { OnOk result (out.new.items ≡ out.old.items ++ size.constants_of_all (map entry statements.now)) }
{
    for statement in statements {
        push_statement(statement, out)?;
    }
    Ok(())
}

/// How many nodes a tree has.
fn nodes_of(tree: &Tree) -> Result<u32, Memory>
    ensures { IfOk result (λ n. n ≡ size.nodes (node tree.now)) }
{
    match part_of(tree) {
        Part::Leaf => Ok(1),
        Part::Number(_) => Ok(1),
        Part::Label(_) => Ok(1),
        Part::One(t) => sum(1, nodes_of(t)?),
        Part::Two(t, u) => {
            let left = sum(1, nodes_of(t)?)?;
            sum(left, nodes_of(u)?)
        }
    }
}

/// How many nodes a statement has below its root.
fn nodes_below(statement: &Stmt) -> Result<u32, Memory>
    ensures { IfOk result (λ n. n ≡ size.nodes_of_all (size.trees_of (entry statement.now))) }
{
    match trees_of(statement) {
        Trees::Without => Ok(0),
        Trees::One(t) => nodes_of(t),
        Trees::Two(t, u) => {
            let first = nodes_of(t)?;
            sum(first, nodes_of(u)?)
        }
    }
}

/// The nodes of the largest statement below its root.
///
/// The one error is want of memory; a number of 2^32 or more counts as such.
pub fn most_nodes(statements: &[Stmt]) -> Result<u32, Memory>
    ensures { IfOk result (λ k. k ≡ size.most_nodes (map entry statements.now)) }
{
    let mut most = 0;
    for statement in statements {
        most = most.max(nodes_below(statement)?);
    }
    Ok(most)
}
