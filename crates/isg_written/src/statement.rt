//! Actions, written out as nodes.

ghost use Rattle.std.specs.Prelude.{◌≡◌, IfOk, length};
ghost use Rattle.attr_exec.proofs.Statements.{otherwise};
ghost use Rattle.isg_nodes.specs.Written.{AllBelow, Falls};
ghost use Rattle.isg_written.specs.Apt.{AreRead, IsRead};
ghost use Rattle.isg_written.specs.Found.{Grows, here};
ghost use Rattle.isg_written.specs.Puts.{Adds, AddsAction, AddsBlock, Lists};
ghost use Rattle.nk_base.specs.Text.{text_eq};
ghost use Rattle.nml_tree.specs.Act as acts;
ghost use Rattle.nml_tree.specs.Act.{followed};
ghost use Rattle.nml_tree.specs.Block as b;
ghost use Rattle.nml_tree.specs.Formula.{formula};
ghost use Rattle.nml_tree.specs.Refused.{IsTyped};
ghost use Rattle.nml_tree.specs.Table.{table};
ghost use Rattle.nml_tree.specs.Written.{act, action_of, term};
ghost use Rattle.std.specs.Map.{lookup};

use crate::expression::operand;
use crate::front::Front;
use crate::numbered::Numbered;
use crate::place::{assign, halt, push};
use crate::skip::skip_pars;
use crate::turn::{part_of, turn};
use attr_eval::{Turn, first_par};
use indexmap::IndexMap;
use isg_nodes::{Key, Node, Numbers};
use nk_base::{Memory, Text};
use nml_tree::{Expr, Stmt};
use sqlite_items::Items;
use std::alloc::Global;

/// Puts the action of the derivation of this rule that stands in front behind the statements of the list.
#[cycle(put)]
pub fn action(
    alloc: Global,
    numbered: &Numbered<'_>,
    name: &Text,
    picks: &[u32],
    first: u32,
    limit: usize,
    list: &mut Vec<u32>,
    nodes: &mut Vec<Node>,
    known: &mut IndexMap<Key, u32>,
) -> Result<(), Memory>
    requires typed { IsTyped numbered.now }
    requires falls { Falls nodes.old.items }
    requires list { AllBelow list.old.items (length nodes.old.items) }
    ensures grows { Grows nodes.old.items nodes.new.items }
    ensures adds { IfOk result (λ done. AddsAction (table numbered.now) name.now limit first picks.now nodes.old.items nodes.new.items list.old.items list.new.items) }
{
    if limit == 0 {
        return Ok(());
    }
    match turn(numbered, name, picks) {
        Turn::Nothing => Ok(()),
        Turn::Picked(chosen, rest) => action(
            alloc,
            numbered,
            chosen,
            rest,
            first,
            limit - 1,
            list,
            nodes,
            known,
        ),
        Turn::Made(rule) => match &rule.attrs.action {
            None => Ok(()),
            Some(action) => {
                let front = Front {
                    numbered,
                    pars: rule.pars,
                    picks,
                    first,
                    limit: limit - 1,
                };
                block(alloc, front, action.stmts.as_slice(), list, nodes, known)
            }
        },
    }
}

/// Puts statements behind those of the list.
#[cycle(put)]
fn block(
    alloc: Global,
    front: Front<'_, '_>,
    stmts: &[Stmt],
    list: &mut Vec<u32>,
    nodes: &mut Vec<Node>,
    known: &mut IndexMap<Key, u32>,
) -> Result<(), Memory>
    requires typed { IsTyped front.numbered.now }
    requires falls { Falls nodes.old.items }
    requires list { AllBelow list.old.items (length nodes.old.items) }
    ensures grows { Grows nodes.old.items nodes.new.items }
    ensures adds { IfOk result (λ done. AddsBlock front.entry nodes.old.items nodes.new.items list.old.items list.new.items (b.block stmts.now)) }
{
    for stmt in stmts {
        statement(alloc, front, stmt, list, nodes, known)?;
    }
    Ok(())
}

/// Puts a statement behind those of the list.
#[cycle(put)]
fn statement(
    alloc: Global,
    front: Front<'_, '_>,
    stmt: &Stmt,
    list: &mut Vec<u32>,
    nodes: &mut Vec<Node>,
    known: &mut IndexMap<Key, u32>,
) -> Result<(), Memory>
    requires typed { IsTyped front.numbered.now }
    requires falls { Falls nodes.old.items }
    requires list { AllBelow list.old.items (length nodes.old.items) }
    ensures grows { Grows nodes.old.items nodes.new.items }
    ensures adds { IfOk result (λ done. AddsBlock front.entry nodes.old.items nodes.new.items list.old.items list.new.items (b.stmt stmt.now b.Done)) }
{
    match stmt {
        Stmt::Assign(place, _, e, _) => assign(front, place, e, list, nodes, known),
        Stmt::Part(name, _, _, _) => part(alloc, front, &name.text, list, nodes, known),
        Stmt::Halt(_, _, e, _, _) => halt(front, e, list, nodes, known),
        Stmt::If(_, c, _, xs, other, _, _) => {
            when(alloc, front, c, xs.as_slice(), other, list, nodes, known)
        }
    }
}

/// Puts the `if` behind the statements of the list.
#[cycle(put)]
fn when(
    alloc: Global,
    front: Front<'_, '_>,
    c: &Expr,
    xs: &[Stmt],
    other: &Option<(u32, Items<Stmt>)>,
    list: &mut Vec<u32>,
    nodes: &mut Vec<Node>,
    known: &mut IndexMap<Key, u32>,
) -> Result<(), Memory>
    requires typed { IsTyped front.numbered.now }
    requires falls { Falls nodes.old.items }
    requires list { AllBelow list.old.items (length nodes.old.items) }
    ensures grows { Grows nodes.old.items nodes.new.items }
    ensures adds { IfOk result (λ done. Adds front.entry (λ s. IsRead (here front.entry) s (formula c.now) × AreRead (here front.entry) s (b.block xs.now) × AreRead (here front.entry) s (otherwise other.now)) nodes.old.items nodes.new.items list.old.items list.new.items
        (λ s. acts.When (term (here front.entry) s (formula c.now)) (act (here front.entry) s (b.block xs.now)) (act (here front.entry) s (otherwise other.now)))) }
{
    let c = operand(front, c, nodes, known)?;
    let xs = branch(alloc, front, xs, nodes, known)?;
    let ys = other_branch(alloc, front, other, nodes, known)?;
    push(Node::When(c, xs, ys), list, nodes, known)
}

/// The statements by themselves.
#[cycle(put)]
fn branch(
    alloc: Global,
    front: Front<'_, '_>,
    stmts: &[Stmt],
    nodes: &mut Vec<Node>,
    known: &mut IndexMap<Key, u32>,
) -> Result<Numbers, Memory>
    requires typed { IsTyped front.numbered.now }
    requires falls { Falls nodes.old.items }
    ensures grows { Grows nodes.old.items nodes.new.items }
    ensures lists { IfOk result (λ ns. Lists front.entry nodes.new.items ns (b.block stmts.now)) }
{
    let mut list = Vec::new(alloc);
    block(alloc, front, stmts, &mut list, nodes, known)?;
    Ok(Numbers::new(list))
}

/// The statements behind `else` by themselves.
#[cycle(put)]
fn other_branch(
    alloc: Global,
    front: Front<'_, '_>,
    other: &Option<(u32, Items<Stmt>)>,
    nodes: &mut Vec<Node>,
    known: &mut IndexMap<Key, u32>,
) -> Result<Numbers, Memory>
    requires typed { IsTyped front.numbered.now }
    requires falls { Falls nodes.old.items }
    ensures grows { Grows nodes.old.items nodes.new.items }
    ensures lists { IfOk result (λ ns. Lists front.entry nodes.new.items ns (otherwise other.now)) }
{
    match other {
        None => Ok(Numbers::new(Vec::new(alloc))),
        Some((_, ys)) => branch(alloc, front, ys.as_slice(), nodes, known),
    }
}

/// Puts the action of the part of this name behind the statements of the list.
#[cycle(put)]
fn part(
    alloc: Global,
    front: Front<'_, '_>,
    name: &Text,
    list: &mut Vec<u32>,
    nodes: &mut Vec<Node>,
    known: &mut IndexMap<Key, u32>,
) -> Result<(), Memory>
    requires typed { IsTyped front.numbered.now }
    requires falls { Falls nodes.old.items }
    requires list { AllBelow list.old.items (length nodes.old.items) }
    ensures grows { Grows nodes.old.items nodes.new.items }
    ensures adds { IfOk result (λ done. Adds front.entry (λ s. Unit {0}) nodes.old.items nodes.new.items list.old.items list.new.items (λ s. followed (action_of (lookup (text_eq name.now) s)))) }
{
    match first_par(front.pars, name.as_bytes()) {
        None => Ok(()),
        Some((k, par)) => {
            let (picks, first) = skip_pars(
                front.numbered,
                front.pars,
                k,
                front.picks,
                front.first,
                front.limit,
            );
            match part_of(front.numbered, &par.ty) {
                Some(rule) => action(
                    alloc,
                    front.numbered,
                    rule,
                    picks,
                    first,
                    front.limit,
                    list,
                    nodes,
                    known,
                ),
                None => Ok(()),
            }
        }
    }
}
